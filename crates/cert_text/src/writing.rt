ghost use Rattle.std.specs.Prelude.{◌≡◌, ◌≤◌, ◌==◌, ℕ, List, [], ◌∷◌, ◌++◌, codes, decimal, length, map, OnOk, OnErr};
ghost use Rattle.std.specs.List.{AllZip, flat_map, prefix_len};
ghost use Rattle.std.specs.Io.KnownBytes.{Appends};
ghost use Rattle.io_edge.specs.Causes.{Rose, AppendsFront};
ghost use Rattle.text_out.specs.Wrote.{Wrote};
ghost use Rattle.text_out.specs.Words.{line_text, word_text};
ghost use Rattle.cert_text.specs.CertText.{channel_text as text_of_channel, entry_text, event_text, part_text, parts_text, ref_word, repeat_text, source_text};
ghost use Rattle.cert_text.specs.Folding.{FoldedProcess};
ghost use Rattle.cert_text.specs.StandsFor.{IsFoldedOf, IsWrittenOf, written_text};
ghost use Rattle.cert_text.specs.Stretches.{stretch_blocks, stretch_part, stretches};
ghost use Rattle.cert_text.specs.Writing.{WritesProcess, WritesProcesses, WritesText, folded_process};

use io_edge::{Sink, WriteFault};
use net_core::{Channel, Event, Network, Process, Ref, Refs};
use net_text::class_word;
use script_blocks::{BlockPart, Blocks};
use source_tree::{Cert, Origin};
use text_out::{TextWriter, Word, Writer, write_line, write_spaced};
use tree_text::write_tree;

/// What has lines of its own in the text.
trait WriteLines {
    /// Its lines.
    ghost lines: { Self → List ℕ };

    fn write_lines<W: TextWriter>(&self, out: &mut W)
        ensures { Wrote W.given out.old out.new (lines self.now) };
}

/// Writes the lines of each item.
fn write_each<T: WriteLines, W: TextWriter>(items: &[T], out: &mut W)
    ensures { Wrote W.given out.old out.new (flat_map T.lines items.now) }
{
    for item in items {
        item.write_lines(out);
    }
}

fn number(value: u32) -> Word<'static>
    ensures { word_text result ≡ decimal value }
{
    Word::Number(u64::from(value))
}

fn count(value: usize) -> Word<'static>
    ensures { word_text result ≡ decimal value }
{
    Word::Number(value as u64)
}

fn reference(reference: Ref) -> Word<'static>
    ensures { word_text result ≡ ref_word reference }
{
    match reference {
        Ref::Zero => Word::Text(b"z"),
        Ref::Slot(slot) => number(slot),
    }
}

/// Writes references with a space before each.
fn write_references<W: TextWriter>(refs: &Refs, out: &mut W)
    ensures { Wrote W.given out.old out.new
        (flat_map (λ reference. codes " " ++ ref_word reference) refs.now) }
{
    for read in 0..refs.len() {
        write_spaced(reference(refs.at(read)), out);
    }
}

/// Writes a fire with its references.
#[tactic(auto, using(crate::proofs::Fires::fire_steps))]
fn write_fire<W: TextWriter>(refs: &Refs, out: &mut W)
    ensures { Wrote W.given out.old out.new (line_text (codes "f" ∷ map ref_word refs.now)) }
{
    out.put(b"f");
    write_references(refs, out);
    out.put(b"\n");
}

impl WriteLines for Event {
    ghost lines = { event_text };

    fn write_lines<W: TextWriter>(&self, out: &mut W) {
        match self {
            Event::Get { channel, slot } => {
                write_line(&[Word::Text(b"g"), number(*channel), number(*slot)], out);
            }
            Event::Fire { refs } => write_fire(refs, out),
            Event::Put { channel } => write_line(&[Word::Text(b"p"), number(*channel)], out),
        }
    }
}

/// Writes the line of a repeat.
fn write_repeat<W: TextWriter>(times: usize, parts: usize, out: &mut W)
    ensures { Wrote W.given out.old out.new (repeat_text times parts) }
{
    write_line(&[Word::Text(b"r"), count(times), count(parts)], out);
}

/// Writes a part: an item, or a repeat and its parts. Its stack grows with the nesting.
#[cycle(write_parts)]
fn write_part<T: WriteLines, W: TextWriter>(part: &BlockPart<T>, out: &mut W)
    ensures { Wrote W.given out.old out.new (part_text T.lines part.now) }
{
    match part {
        BlockPart::Item(item) => item.write_lines(out),
        BlockPart::Repeat(times, body) => {
            write_repeat(*times as usize, body.parts.len(), out);
            write_parts(body.parts.as_slice(), out);
        }
    }
}

#[cycle(write_parts)]
fn write_parts<T: WriteLines, W: TextWriter>(parts: &[BlockPart<T>], out: &mut W)
    ensures { Wrote W.given out.old out.new (parts_text T.lines parts.now) }
{
    for part in parts {
        write_part(part, out);
    }
}

/// Writes the first line of a process.
fn write_process_head<W: TextWriter>(slots: u32, parts: usize, out: &mut W)
    ensures { Wrote W.given out.old out.new
        (line_text (codes "process" ∷ decimal slots ∷ decimal parts ∷ [])) }
{
    write_line(&[Word::Text(b"process"), number(slots), count(parts)], out);
}

/// A process, by its number of slots, with blocks in the place of its script.
#[derive(Clone, Copy)]
pub struct ProcessBlocks<'a> {
    pub slots: u32,
    pub script: &'a Blocks<Event>,
}

/// What gives a process with blocks in the place of its script. The process is then written by these blocks.
pub trait HasBlocks {
    /// The processes with blocks that it may give.
    ghost gives: { Self → FoldedProcess → Type 0 };

    /// One of these. It takes no memory.
    fn process_blocks(&self) -> ProcessBlocks<'_>
        ensures { gives self.now (folded_process result) };
}

/// It gives itself and nothing else, so the text is known to the byte.
impl<'a> HasBlocks for ProcessBlocks<'a> {
    ghost gives = { λ process folded. folded ≡ folded_process process };

    fn process_blocks(&self) -> ProcessBlocks<'_> {
        *self
    }
}

/// It gives the blocks in which its script is kept. Contracts see of these what they stand for, and that they are proper.
impl HasBlocks for Process {
    ghost gives = { IsFoldedOf };

    fn process_blocks(&self) -> ProcessBlocks<'_> {
        ProcessBlocks {
            slots: self.slots,
            script: self.script.blocks(),
        }
    }
}

/// Writes a process by its blocks.
fn write_process<P: HasBlocks, W: TextWriter>(process: &P, out: &mut W)
    ensures { WritesProcess W.given P.gives out.old out.new process.now }
{
    let blocks = process.process_blocks();
    write_process_head(blocks.slots, blocks.script.parts.len(), out);
    write_parts(blocks.script.parts.as_slice(), out);
}

fn write_processes<P: HasBlocks, W: TextWriter>(processes: &[P], out: &mut W)
    ensures { WritesProcesses W.given P.gives out.old out.new processes.now }
{
    for process in processes {
        write_process(process, out);
    }
}

impl WriteLines for Channel {
    ghost lines = { text_of_channel };

    fn write_lines<W: TextWriter>(&self, out: &mut W) {
        let words = [
            Word::Text(b"channel"),
            number(self.writer),
            number(self.reader),
            number(self.read),
            number(self.capacity),
            Word::Text(class_word(self.class)),
        ];
        write_line(&words, out);
    }
}

impl WriteLines for Origin {
    ghost lines = { source_text };

    fn write_lines<W: TextWriter>(&self, out: &mut W) {
        match self {
            Origin::Sweep => write_line(&[Word::Text(b"sweep")], out),
            Origin::Tree(tree) => {
                write_line(&[Word::Text(b"tree")], out);
                write_tree(tree.get(), out);
            }
        }
    }
}

/// An entry of a schedule.
impl WriteLines for u32 {
    ghost lines = { entry_text };

    fn write_lines<W: TextWriter>(&self, out: &mut W) {
        write_line(&[number(*self)], out);
    }
}

/// How many of these entries stand in front and are this one.
fn equal_in_front(entry: u32, others: &[u32]) -> usize
    ensures count { result ≡ prefix_len (λ other. other == entry) others.now }
    ensures within { result ≤ length others.now }
{
    others.iter().take_while(|other| **other == entry).count()
}

/// How often an entry stands in front, itself and in front of others, and what follows.
fn take_stretch(entry: u32, others: &[u32]) -> (usize, &[u32])
    ensures first { stretches (entry ∷ others.now)
        ≡ record { times = result.0; entry = entry } ∷ stretches result.1.now }
    ensures shorter { length result.1.now ≤ length others.now }
{
    let more = equal_in_front(entry, others);
    let (_, rest) = others.split_at(more);
    (more + 1, rest)
}

/// How many greatest stretches of equal entries there are.
fn stretch_count(entries: &[u32]) -> usize
    ensures { result ≡ length (stretches entries.now) }
{
    let mut rest = entries;
    let mut count = 0;
    while let Some((entry, others)) = rest.split_first() {
        let (_, later) = take_stretch(*entry, others);
        rest = later;
        count += 1;
    }
    count
}

/// Writes a stretch of equal entries: one entry as its line, and more of them as a repeat.
fn write_stretch<W: TextWriter>(times: usize, entry: u32, out: &mut W)
    ensures { Wrote W.given out.old out.new
        (part_text entry_text (stretch_part (record { times = times; entry = entry }))) }
{
    if times == 1 {
        entry.write_lines(out);
    } else {
        write_repeat(times, 1, out);
        entry.write_lines(out);
    }
}

/// Writes a schedule, each greatest stretch of equal entries as a repeat.
fn write_schedule<W: TextWriter>(entries: &[u32], out: &mut W)
    ensures { Wrote W.given out.old out.new
        (parts_text entry_text (stretch_blocks entries.now).parts) }
{
    let mut rest = entries;
    while let Some((entry, others)) = rest.split_first() {
        let (times, later) = take_stretch(*entry, others);
        write_stretch(times, *entry, out);
        rest = later;
    }
}

/// Writes how many processes, channels, sources and parts of the schedule follow.
fn write_sizes<W: TextWriter>(
    processes: usize,
    channels: usize,
    sources: usize,
    parts: usize,
    out: &mut W,
)
    ensures { Wrote W.given out.old out.new
        (line_text (codes "sizes" ∷ decimal processes ∷ decimal channels ∷ decimal sources ∷ decimal parts ∷ [])) }
{
    let words = [
        Word::Text(b"sizes"),
        count(processes),
        count(channels),
        count(sources),
        count(parts),
    ];
    write_line(&words, out);
}

fn write_text<P: HasBlocks, W: TextWriter>(
    processes: &[P],
    channels: &[Channel],
    cert: &Cert,
    out: &mut W,
)
    ensures { WritesText W.given P.gives out.old out.new processes.now channels.now cert.now }
{
    write_line(&[Word::Text(b"cert"), Word::Text(b"2")], out);
    write_sizes(
        processes.len(),
        channels.len(),
        cert.sources.len(),
        stretch_count(cert.schedule.as_slice()),
        out,
    );
    write_processes(processes, out);
    write_each(channels, out);
    write_each(cert.sources.as_slice(), out);
    write_schedule(cert.schedule.as_slice(), out);
    write_line(&[Word::Text(b"end")], out);
}

/// Writes the version 2 text of processes, channels and a certificate: each process by the blocks that it gives, an item as its
/// event and a repeat as its line with its body, and each greatest stretch of n equal entries of the schedule, where n is at
/// least 2, as a repeat of one entry. It takes no memory, and its stack grows with the nesting of the blocks.
///
/// Of `ProcessBlocks` the text is determined: the blocks stand in it as they are. It is read back where they are proper.
/// At `WriteFault` the sink holds what it held and a front of the text, and its count rose in this call.
pub fn write_cert_by_blocks<P: HasBlocks, K: Sink>(
    processes: &[P],
    channels: &[Channel],
    cert: &Cert,
    sink: &mut K,
) -> Result<(), WriteFault>
    ensures text { (folded : List FoldedProcess) × AllZip P.gives processes.now folded
        × OnOk result (Appends (K.held sink.old) (K.held sink.new)
        (written_text folded channels.now cert.now))
        × OnErr result (AppendsFront (K.held sink.old) (K.held sink.new)
        (written_text folded channels.now cert.now)) }
    ensures quiet { OnOk result (K.faults sink.new ≡ K.faults sink.old) }
    ensures cause { OnErr result (Rose (K.faults sink.old) (K.faults sink.new)) }
{
    let mut out = Writer::new(sink);
    write_text(processes, channels, cert, &mut out);
    out.finish()
}

/// Writes a version 2 text of a network with its certificate, as `write_cert_by_blocks` does: each script by the blocks in which it is
/// kept. It takes no memory.
///
/// Each repeat of a script has a count of at least 2 and a body with a part, and nests at most 31 deep, by the script's type.
/// At `WriteFault` the sink holds what it held and a front of the text, and its count rose in this call.
pub fn write_cert<K: Sink>(network: &Network, cert: &Cert, sink: &mut K) -> Result<(), WriteFault>
    ensures text { (text : List ℕ) × IsWrittenOf text network.now cert.now
        × OnOk result (Appends (K.held sink.old) (K.held sink.new) text)
        × OnErr result (AppendsFront (K.held sink.old) (K.held sink.new) text) }
    ensures quiet { OnOk result (K.faults sink.new ≡ K.faults sink.old) }
    ensures cause { OnErr result (Rose (K.faults sink.old) (K.faults sink.new)) }
{
    write_cert_by_blocks(
        network.processes.as_slice(),
        network.channels.as_slice(),
        cert,
        sink,
    )
}
