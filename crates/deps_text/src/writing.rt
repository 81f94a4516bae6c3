ghost use Rattle.std.specs.List.{flat_map, list_all};
ghost use Rattle.std.specs.Io.KnownBytes.{Appends};
ghost use Rattle.std.specs.Prelude.{◌≡◌, IsTrue, OnOk, OnErr};
ghost use Rattle.io_edge.specs.Causes.{Rose, AppendsFront};
ghost use Rattle.deps_text.specs.DepsText.{dependence_text, deps_text, origin_text};
ghost use Rattle.deps_text.specs.FireLines.{IsSweptOfIfAny, can_be_told};
ghost use Rattle.text_out.specs.Wrote.{Wrote};

use crate::dependence::Dependence;
use crate::points::write_points;
use crate::swept::Swept;
use crate::tree::write_tree;
use io_edge::{Sink, WriteFault};
use sanlp::Nest;
use source_tree::Origin;
use text_out::{TextWriter, Word, Writer, write_line};

// Writes where a read has its values from.
fn write_origin<W: TextWriter>(
    nest: &Nest,
    swept: &Option<Swept>,
    dependence: &Dependence,
    out: &mut W,
)
    requires swept { IsSweptOfIfAny nest.now swept.now }
    requires told { IsTrue (can_be_told nest.now swept.now dependence.now) }
    ensures { Wrote W.given out.old out.new (origin_text
        nest.now dependence.now.statement dependence.now.read dependence.now.origin) }
{
    match (&dependence.origin, swept) {
        (Origin::Tree(tree), _) => {
            write_line(&[Word::Text(b"tree")], out);
            write_tree(tree.get(), out);
        }
        (Origin::Sweep, Some(swept)) => {
            write_points(nest, swept, dependence.statement, dependence.read, out);
        }
        (Origin::Sweep, None) => unreachable!(),
    }
}

fn write_dependence<W: TextWriter>(
    nest: &Nest,
    swept: &Option<Swept>,
    dependence: &Dependence,
    out: &mut W,
)
    requires swept { IsSweptOfIfAny nest.now swept.now }
    requires told { IsTrue (can_be_told nest.now swept.now dependence.now) }
    ensures { Wrote W.given out.old out.new (dependence_text nest.now dependence.now) }
{
    let words = [
        Word::Text(b"read"),
        Word::Number(u64::from(dependence.statement)),
        Word::Number(u64::from(dependence.read)),
    ];
    write_line(&words, out);
    write_origin(nest, swept, dependence, out);
}

fn write_dependences<W: TextWriter>(
    nest: &Nest,
    swept: &Option<Swept>,
    dependences: &[Dependence],
    out: &mut W,
)
    requires swept { IsSweptOfIfAny nest.now swept.now }
    requires told { IsTrue (list_all (can_be_told nest.now swept.now) dependences.now) }
    ensures { Wrote W.given out.old out.new (flat_map (dependence_text nest.now) dependences.now) }
{
    if let Some((first, others)) = dependences.split_first() {
        write_dependence(nest, swept, first, out);
        write_dependences(nest, swept, others, out);
    }
}

fn write_parts<W: TextWriter>(
    nest: &Nest,
    swept: &Option<Swept>,
    dependences: &[Dependence],
    out: &mut W,
)
    requires swept { IsSweptOfIfAny nest.now swept.now }
    requires told { IsTrue (list_all (can_be_told nest.now swept.now) dependences.now) }
    ensures { Wrote W.given out.old out.new (deps_text nest.now dependences.now) }
{
    write_line(&[Word::Text(b"deps"), Word::Text(b"1")], out);
    write_dependences(nest, swept, dependences, out);
    write_line(&[Word::Text(b"end")], out);
}

/// Writes the text of where each read of a nest has its values from. It takes no memory.
///
/// After `deps 1` there is for each read, in order, a line `read` with the number of its statement and its own, and then its
/// tree without proofs behind the line `tree`, or behind `points` and their number a line for each point of its statement:
/// the loop values, and the point of the last writer or `zero`. Last comes `end`. The stack grows with the depth of the trees.
/// At `WriteFault` the sink holds what it held and a front of the text, and its count rose in this call.
pub fn write_deps<K: Sink>(
    nest: &Nest,
    dependences: &[Dependence],
    swept: &Option<Swept>,
    sink: &mut K,
) -> Result<(), WriteFault>
    requires swept { IsSweptOfIfAny nest.now swept.now }
    requires told { IsTrue (list_all (can_be_told nest.now swept.now) dependences.now) }
    ensures ok { OnOk result (Appends (K.held sink.old) (K.held sink.new)
        (deps_text nest.now dependences.now)) }
    ensures quiet { OnOk result (K.faults sink.new ≡ K.faults sink.old) }
    ensures front { OnErr result (AppendsFront (K.held sink.old) (K.held sink.new)
        (deps_text nest.now dependences.now)) }
    ensures cause { OnErr result (Rose (K.faults sink.old) (K.faults sink.new)) }
{
    let mut out = Writer::new(sink);
    write_parts(nest, swept, dependences, &mut out);
    out.finish()
}
