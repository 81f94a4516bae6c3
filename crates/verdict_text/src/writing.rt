ghost use Rattle.std.specs.Prelude.{◌≡◌, ◌∷◌, [], codes, decimal, OnOk, OnErr};
ghost use Rattle.std.specs.Io.KnownBytes.{Appends};
ghost use Rattle.io_edge.specs.Causes.{Rose, AppendsFront};
ghost use Rattle.net_checker.specs.declared.verdict.Refusal.TheVariants.{Tag, Class, Fires, Source};
ghost use Rattle.source_check.specs.declared.verdict.Rule.TheVariants.{Proof, Proofs};
ghost use Rattle.text_out.specs.Wrote.{Wrote};
ghost use Rattle.verdict_text.specs.VerdictText.{reason_word, refusal_words, refused_line, seen_word, unread_line, verdict_text, wanted_word};

use cert_lines::CertError;
use channel_class::ChannelClass;
use int_polyhedra::Reason;
use io_edge::{Sink, WriteFault};
use net_checker::{Refusal, Seen, Verdict, Wanted};
use net_text::class_word;
use point_text::write_point;
use source_check::Rule;
use text_out::{TextWriter, Word, Writer, write_line, write_number};

/// Writes what a reference names.
fn write_seen<W: TextWriter>(seen: &Seen, out: &mut W)
    ensures { Wrote W.given out.old out.new (seen_word seen.now) }
{
    match seen {
        Seen::Zero => out.put(b"zero"),
        Seen::Empty => out.put(b"empty"),
        Seen::At(point) => write_point(point.statement, point.at.as_slice(), out),
    }
}

/// Writes what a read wants.
fn write_wanted<W: TextWriter>(wanted: &Wanted, out: &mut W)
    ensures { Wrote W.given out.old out.new (wanted_word wanted.now) }
{
    match wanted {
        Wanted::Zero => out.put(b"zero"),
        Wanted::At(point) => write_point(point.statement, point.at.as_slice(), out),
    }
}

/// Writes the line of a reason that keeps one number.
fn write_numbered<W: TextWriter>(reason: &[u8], number: u64, out: &mut W)
    ensures { Wrote W.given out.old out.new (refused_line (reason.now ∷ decimal number ∷ [])) }
{
    let words = [
        Word::Text(b"refused"),
        Word::Text(reason),
        Word::Number(number),
    ];
    write_line(&words, out);
}

/// Writes the line of a process whose fires aren't those of its points.
fn write_fires<W: TextWriter>(process: u32, place: u32, out: &mut W)
    ensures { Wrote W.given out.old out.new (refused_line (refusal_words (Fires process place))) }
{
    let words = [
        Word::Text(b"refused"),
        Word::Text(b"Fires"),
        Word::Number(u64::from(process)),
        Word::Number(u64::from(place)),
    ];
    write_line(&words, out);
}

/// Writes the line of a reference that names another value than its read wants.
fn write_tag<W: TextWriter>(entry: u32, seen: &Seen, wanted: &Wanted, out: &mut W)
    ensures { Wrote W.given out.old out.new
        (refused_line (refusal_words (Tag entry seen.now wanted.now))) }
{
    out.put(b"refused Tag ");
    write_number(entry, out);
    out.put(b" ");
    write_seen(seen, out);
    out.put(b" ");
    write_wanted(wanted, out);
    out.put(b"\n");
}

/// Writes the line of a channel that has another class than it says.
fn write_class<W: TextWriter>(channel: u32, said: ChannelClass, class: ChannelClass, out: &mut W)
    ensures { Wrote W.given out.old out.new
        (refused_line (refusal_words (Class channel said class))) }
{
    let words = [
        Word::Text(b"refused"),
        Word::Text(b"Class"),
        Word::Number(u64::from(channel)),
        Word::Text(class_word(said)),
        Word::Text(class_word(class)),
    ];
    write_line(&words, out);
}

/// Writes the line of a tree that is refused by a rule which keeps one number.
fn write_rule<W: TextWriter>(statement: u32, read: u32, rule: &[u8], number: u64, out: &mut W)
    ensures { Wrote W.given out.old out.new
        (refused_line
        (codes "Source" ∷ decimal statement ∷ decimal read ∷ rule.now ∷ decimal number ∷ [])) }
{
    let words = [
        Word::Text(b"refused"),
        Word::Text(b"Source"),
        Word::Number(u64::from(statement)),
        Word::Number(u64::from(read)),
        Word::Text(rule),
        Word::Number(number),
    ];
    write_line(&words, out);
}

/// Writes the line of a leaf that has another number of proofs than it has to have.
fn write_proofs<W: TextWriter>(
    statement: u32,
    read: u32,
    leaf: u64,
    got: u64,
    want: u64,
    out: &mut W,
)
    ensures { Wrote W.given out.old out.new
        (refused_line (refusal_words (Source statement read (Proofs leaf got want)))) }
{
    let words = [
        Word::Text(b"refused"),
        Word::Text(b"Source"),
        Word::Number(u64::from(statement)),
        Word::Number(u64::from(read)),
        Word::Text(b"Proofs"),
        Word::Number(leaf),
        Word::Number(got),
        Word::Number(want),
    ];
    write_line(&words, out);
}

/// The name of a reason.
fn reason_word(reason: &Reason) -> &'static [u8]
    ensures { result.now ≡ reason_word reason.now }
{
    match reason {
        Reason::BadIndex(_) => b"BadIndex",
        Reason::Negative(_) => b"Negative",
        Reason::NotContradictory(_) => b"NotContradictory",
        Reason::NotDivisible(_) => b"NotDivisible",
        Reason::Overflow => b"Overflow",
    }
}

/// Writes the line of a proof that doesn't refute its system.
fn write_proof<W: TextWriter>(
    statement: u32,
    read: u32,
    leaf: u64,
    number: u64,
    reason: &Reason,
    out: &mut W,
)
    ensures { Wrote W.given out.old out.new
        (refused_line (refusal_words (Source statement read (Proof leaf number reason.now)))) }
{
    let words = [
        Word::Text(b"refused"),
        Word::Text(b"Source"),
        Word::Number(u64::from(statement)),
        Word::Number(u64::from(read)),
        Word::Text(b"Proof"),
        Word::Number(leaf),
        Word::Number(number),
        Word::Text(reason_word(reason)),
    ];
    write_line(&words, out);
}

/// Writes the line of a read whose tree is refused.
fn write_source<W: TextWriter>(statement: u32, read: u32, rule: &Rule, out: &mut W)
    ensures { Wrote W.given out.old out.new
        (refused_line (refusal_words (Source statement read rule.now))) }
{
    match rule {
        Rule::BadForm(leaf) => write_rule(statement, read, b"BadForm", *leaf, out),
        Rule::NoWriter(leaf) => write_rule(statement, read, b"NoWriter", *leaf, out),
        Rule::Proofs(leaf, got, want) => write_proofs(statement, read, *leaf, *got, *want, out),
        Rule::Proof(leaf, number, reason) => {
            write_proof(statement, read, *leaf, *number, reason, out)
        }
        Rule::Overflow(turn) => { write_rule(statement, read, b"Overflow", u64::from(*turn), out) }
    }
}

fn write_refusal<W: TextWriter>(refusal: &Refusal, out: &mut W)
    ensures { Wrote W.given out.old out.new (refused_line (refusal_words refusal.now)) }
{
    match refusal {
        Refusal::Shape(process) => write_numbered(b"Shape", u64::from(*process), out),
        Refusal::Fires(process, place) => write_fires(*process, *place, out),
        Refusal::Source(statement, read, rule) => write_source(*statement, *read, rule, out),
        Refusal::NotEnabled(entry) => write_numbered(b"NotEnabled", u64::from(*entry), out),
        Refusal::Tag(entry, seen, wanted) => write_tag(*entry, seen, wanted, out),
        Refusal::Unended(process) => write_numbered(b"Unended", u64::from(*process), out),
        Refusal::Class(channel, said, class) => write_class(*channel, *said, *class, out),
    }
}

fn write_verdict_line<W: TextWriter>(verdict: &Verdict, out: &mut W)
    ensures { Wrote W.given out.old out.new (verdict_text verdict.now) }
{
    match verdict {
        Verdict::Accepted => write_line(&[Word::Text(b"accepted")], out),
        Verdict::Refused(refusal) => write_refusal(refusal, out),
    }
}

fn write_unread_line<W: TextWriter>(error: CertError, out: &mut W)
    ensures { Wrote W.given out.old out.new (unread_line error) }
{
    match error {
        CertError::Line(line) => write_numbered(b"Line", line, out),
        CertError::Number(line) => write_numbered(b"Number", line, out),
        CertError::Truncated => {
            write_line(&[Word::Text(b"refused"), Word::Text(b"Truncated")], out)
        }
        CertError::Deep(line) => write_numbered(b"Deep", line, out),
        CertError::Long(process) => write_numbered(b"Long", u64::from(process), out),
        CertError::Memory => {}
    }
}

/// Writes the line that tells a verdict: `accepted`, or `refused` with the reason and what it keeps. It takes no
/// memory.
///
/// At `WriteFault` the sink holds what it held and a front of the line, and its count rose in this call.
pub fn write_verdict<K: Sink>(verdict: &Verdict, sink: &mut K) -> Result<(), WriteFault>
    ensures ok { OnOk result (Appends (K.held sink.old) (K.held sink.new)
        (verdict_text verdict.now)) }
    ensures quiet { OnOk result (K.faults sink.new ≡ K.faults sink.old) }
    ensures front { OnErr result (AppendsFront (K.held sink.old) (K.held sink.new)
        (verdict_text verdict.now)) }
    ensures cause { OnErr result (Rose (K.faults sink.old) (K.faults sink.new)) }
{
    let mut out = Writer::new(sink);
    write_verdict_line(verdict, &mut out);
    out.finish()
}

/// Writes the line that tells why a text is none of a network with its certificate, and nothing at want of memory,
/// which is no such reason. It takes no memory.
///
/// At `WriteFault` the sink holds what it held and a front of the line, and its count rose in this call.
pub fn write_unread<K: Sink>(error: CertError, sink: &mut K) -> Result<(), WriteFault>
    ensures ok { OnOk result (Appends (K.held sink.old) (K.held sink.new) (unread_line error)) }
    ensures quiet { OnOk result (K.faults sink.new ≡ K.faults sink.old) }
    ensures front { OnErr result (AppendsFront (K.held sink.old) (K.held sink.new)
        (unread_line error)) }
    ensures cause { OnErr result (Rose (K.faults sink.old) (K.faults sink.new)) }
{
    let mut out = Writer::new(sink);
    write_unread_line(error, &mut out);
    out.finish()
}
