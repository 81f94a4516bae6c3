//! The greatest points of one writer at one level before a read of the stride class.

ghost use Rattle.std.specs.Prelude.{◌≡◌, ◌≤◌, ◌+◌, [], ◌∷◌, ◌++◌, true, length, replicate, Some, IfOk, OnOk};
ghost use Rattle.std.specs.List.{range_with_len};
ghost use Rattle.tree_graphs.specs.Asked.{HasLevelOf, WritesArrayOf};
ghost use Rattle.lex_max.specs.Leaves.{IsMadeFrom};
ghost use Rattle.tree_graphs.specs.Level.{common_of, GivesGreatest};
ghost use Rattle.source_tree.specs.Checked.{IsCheckedIn};
ghost use Rattle.source_tree.specs.Systems.{just, named_write, read_at, root_context, Occurrence};
ghost use Rattle.source_tree.specs.declared.tree.Tree.{Tree as TreeOf};
ghost use Rattle.stride_trees.specs.Candidates.{IsStrideTree};
ghost use Rattle.tree_cuts.specs.Class.{IsInStrideClass};
ghost use Rattle.stride_trees.specs.Contexts.{first_places, IsToldTree};
ghost use Rattle.stride_trees.specs.Leaves.{IsAlone, IsOwnWriter};
ghost use Rattle.stride_trees.specs.Strides.{depth_of_read, read_of, root_of, tested_context, tests_of, write_of, IsLastTree, IsStrided, IsTested};
ghost use Rattle.source_tree.specs.References.{occurrence_of};
ghost use Rattle.stride_trees.specs.declared.writers.Writer.{Writer as WriterOf};

use crate::contexts::context_of;
use crate::divisions::{Division, divisions_of};
use crate::leaves::{Answered, Just, converted};
use crate::problem::{problem_of, told};
use crate::strides::Strides;
use crate::tests::with_tests;
use crate::writers::Writer;
use int_polyhedra::System;
use lex_max::tree_of;
use plain_data::Items;
use sanlp::{Nest, common_loops};
use source_tree::{Reference, Tree};
use std::alloc::{AllocError, Global};

// A read and a write of a nest, and a level.
fn strides_between<'a>(
    alloc: Global,
    nest: &'a Nest,
    read: Reference<'a>,
    write: Reference<'a>,
    level: usize,
) -> Strides<'a>
    ensures nest { result.nest.now ≡ nest.now }
    ensures read { read_of result ≡ occurrence_of read.entry }
    ensures write { write_of result ≡ occurrence_of write.entry }
    ensures level { result.level ≡ level }
    ensures common { result.common ≡ common_of (write_of result) (read_of result) }
{
    let common = common_loops(
        write.statement.loops.as_slice(),
        read.statement.loops.as_slice(),
    );
    Strides {
        alloc,
        nest,
        read,
        write,
        common,
        level,
    }
}

// The read and the write of these numbers.
fn looked_up<'a>(
    alloc: Global,
    nest: &'a Nest,
    statement: u32,
    read: u32,
    writer: u32,
    level: u32,
) -> Strides<'a>
    requires { WritesArrayOf nest.now statement read writer }
    ensures nest { result.nest.now ≡ nest.now }
    ensures read { read_at nest.now statement read ≡ Some (read_of result) }
    ensures write { named_write nest.now (read_of result) writer ≡ Some (write_of result) }
    ensures level { result.level ≡ level }
    ensures common { result.common ≡ common_of (write_of result) (read_of result) }
{
    let reading = nest.statement(statement);
    let writing = nest.statement(writer);
    let (Some(read), Some(write)) = (reading.reads.get(read as usize), &writing.write) else {
        unreachable!()
    };
    let read = Reference {
        number: statement,
        statement: reading,
        access: read,
    };
    let write = Reference {
        number: writer,
        statement: writing,
        access: write,
    };
    strides_between(alloc, nest, read, write, level as usize)
}

/// The writes of one statement at one level before a read of the stride class.
pub fn strides_of<'a>(
    alloc: Global,
    nest: &'a Nest,
    statement: u32,
    read: u32,
    writer: u32,
    level: u32,
) -> Strides<'a>
    requires class { IsInStrideClass nest.now statement read }
    requires writes { WritesArrayOf nest.now statement read writer }
    requires level { HasLevelOf nest.now statement read writer level }
    ensures strided { IsStrided result }
    ensures nest { result.nest.now ≡ nest.now }
    ensures read { read_at nest.now statement read ≡ Some (read_of result) }
    ensures write { named_write nest.now (read_of result) writer ≡ Some (write_of result) }
    ensures level { result.level ≡ level }
{
    looked_up(alloc, nest, statement, read, writer, level)
}

// Adds so many numbers from this one on.
fn push_range(places: &mut Items<u32>, first: u32, count: usize) -> Result<(), AllocError>
    requires { first + count ≤ 6 }
    ensures { OnOk result (places.new ≡ places.old ++ range_with_len first count) }
{
    if count == 0 {
        return Ok(());
    }
    places.push(first)?;
    push_range(places, first + 1, count - 1)
}

// The tree of the problem over quotients in the context where all tests say yes, at these places.
fn told_tree(s: &Strides, places: &[u32], context: &System) -> Result<Tree, AllocError>
    requires strided { IsStrided s.now }
    requires places { places.now ≡ first_places s.now }
    requires context { IsMadeFrom (tested_context s.now) context.now }
    ensures { IfOk result (IsToldTree s.now places.now context.now) }
{
    let vars = context.vars as usize;
    let problem = problem_of(s, vars, places)?;
    // The same for as long as the problem is there.
    let here = Strides {
        alloc: s.alloc,
        nest: s.nest,
        read: Reference {
            number: s.read.number,
            statement: s.read.statement,
            access: s.read.access,
        },
        write: Reference {
            number: s.write.number,
            statement: s.write.statement,
            access: s.write.access,
        },
        common: s.common,
        level: s.level,
    };
    let w = told(&here, vars, &problem);
    tree_of(&w, context)
}

// Adds the answer yes so many times.
fn push_yes(answers: &mut Items<bool>, count: usize) -> Result<(), AllocError>
    ensures { OnOk result (answers.new ≡ answers.old ++ replicate count true) }
{
    if count == 0 {
        return Ok(());
    }
    answers.push(true)?;
    push_yes(answers, count - 1)
}

// The writer, whose tests are asked at the places 0, 1, 2 and so on.
fn writer_of<'a>(s: &Strides<'a>) -> Result<Writer<'a>, AllocError>
    requires { IsStrided s.now }
    ensures { IfOk result (IsOwnWriter s.now) }
{
    let writes = s.write.access.subscripts.as_slice();
    let reads = s.read.access.subscripts.as_slice();
    let divisions = divisions_of(s.alloc, writes, reads)?;
    let mut places = Items::new(s.alloc);
    push_range(&mut places, 0, divisions.len())?;
    Ok(Writer {
        strides: *s,
        divisions,
        places,
    })
}

// The one writer at its level, where its tests all say yes.
fn alone<'a>(
    s: &Strides<'a>,
    writers: &'a [Writer<'a>],
    tests: &'a [Division],
    answers: &'a [bool],
) -> Answered<'a>
    requires writer { (x : WriterOf) × IsOwnWriter s.now x × (writers.now ≡ x ∷ []) }
    requires tests { tests.now ≡ tests_of s.now }
    requires answers { answers.now ≡ replicate (length (tests_of s.now)) true }
    ensures { IsAlone s.now result }
{
    Answered {
        alloc: s.alloc,
        nest: s.nest,
        read: s.read,
        writers,
        tests,
        answers,
        cuts: &[],
        facts: &[],
        only: Some(Just {
            writer: s.write.number,
            level: s.level,
        }),
    }
}

// The tree where all tests say yes.
fn last_tree(s: &Strides, divisions: &[Division]) -> Result<Tree, AllocError>
    requires strided { IsStrided s.now }
    requires tests { divisions.now ≡ tests_of s.now }
    ensures { IfOk result (IsLastTree s.now) }
{
    let context = context_of(s, divisions)?;
    let mut answers = Items::new(s.alloc);
    push_yes(&mut answers, divisions.len())?;
    let writer = writer_of(s)?;
    let tree = told_tree(s, writer.places.as_slice(), &context)?;
    let mut writers = Items::new(s.alloc);
    writers.push(writer)?;
    let w = alone(&*s, writers.as_slice(), &*divisions, answers.as_slice());
    converted(&w, context.rows.len() as u32, tree)
}

// The tree of a read and a write.
fn tree_between(s: &Strides) -> Result<Tree, AllocError>
    requires { IsStrided s.now }
    ensures { IfOk result (λ tree. (last : TreeOf) × IsLastTree s.now last
        × IsTested s.now (depth_of_read s.now) (root_of s.now) (tests_of s.now) last tree) }
{
    let found = divisions_of(
        s.alloc,
        s.write.access.subscripts.as_slice(),
        s.read.access.subscripts.as_slice(),
    )?;
    let divisions = found.as_slice();
    let last = last_tree(s, divisions)?;
    let root = s.read.statement.rows.len() as u32;
    with_tests(s, divisions, s.read.statement.loops.len(), root, last)
}

/// At each point of the reader the greatest point of one writer at one level of order that writes the read's cell before the
/// read, or zero where there is none. The tree is checked for that writer and that level. It begins with tests whether the
/// write's strides divide what the read's subscripts are from it, in the order of the subscripts, which are the same at each
/// level; below them it has no Divides. Each of its proofs is at most 65,536 Cuts and then a Sum. Its numbers lie within
/// 2^48, the multipliers of a Sum add up to 2^48 at most, and no path has more than 65,536 Tests. Nothing is refused but want
/// of memory.
pub fn stride_candidate(
    alloc: Global,
    nest: &Nest,
    statement: u32,
    read: u32,
    writer: u32,
    level: u32,
) -> Result<Tree, AllocError>
    requires class { IsInStrideClass nest.now statement read }
    requires writes { WritesArrayOf nest.now statement read writer }
    requires level { HasLevelOf nest.now statement read writer level }
    ensures checked { IfOk result (λ tree. (r : Occurrence)
        → read_at nest.now statement read ≡ Some r
        → IsCheckedIn nest.now r (just writer level) (root_context r) tree) }
    ensures strides { IfOk result (λ tree. (r w : Occurrence)
        → read_at nest.now statement read ≡ Some r → named_write nest.now r writer ≡ Some w
        → IsStrideTree r w level 65536 tree) }
    ensures greatest { IfOk result (λ tree. (r w : Occurrence)
        → read_at nest.now statement read ≡ Some r → named_write nest.now r writer ≡ Some w
        → GivesGreatest nest.now r w level tree) }
{
    let s = strides_of(alloc, nest, statement, read, writer, level);
    tree_between(&s)
}
