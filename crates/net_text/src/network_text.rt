ghost use Rattle.std.specs.Prelude.{◌≡◌, slice_get, OnOk, OnErr};
ghost use Rattle.std.specs.Io.KnownBytes.{Appends};
ghost use Rattle.io_edge.specs.Causes.{Rose, AppendsFront};
ghost use Rattle.net_core.specs.Machine.{net_of};
ghost use Rattle.net_core.specs.Shape.{FitsNumbers};
ghost use Rattle.text_out.specs.Wrote.{Wrote};
ghost use Rattle.net_text.specs.NetworkText.{role_word as word_of_role, array_by_role, array_name as name_of_array, kind_word as word_of_kind, name_word as word_of_name, class_word as word_of_class, process_numbers, process_text, process_lines, channel_numbers, channel_text, channel_lines, version_line, end_text, net_text};

use crate::counts::{event_count, hold, put_count};
use crate::numbers::{ChannelNumbers, ProcessNumbers};
use channel_class::{ChannelClass, UseOrder};
use io_edge::{Sink, WriteFault};
use net_core::{Channel, Network, Process, fire_count};
use sanlp::{Nest, Points, Role, Statement};
use text_out::{TextWriter, Word, Writer, write_line};

fn role_word(role: Role) -> &'static [u8]
    ensures { result.now ≡ word_of_role role }
{
    match role {
        Role::Source(_) => b"source",
        Role::Assign => b"assign",
        Role::Sink(_) => b"sink",
    }
}

/// The array that a statement is given, assigns or prints.
fn array_of(statement: &Statement) -> Option<u32>
    ensures { result ≡ array_by_role statement.now.role statement.now }
{
    match statement.role {
        Role::Source(array) | Role::Sink(array) => Some(array),
        Role::Assign => match &statement.write {
            Some(access) => Some(access.array),
            None => None,
        },
    }
}

/// The name of the array of a statement.
fn array_name<'a>(nest: &'a Nest, statement: &Statement) -> &'a [u8]
    ensures { result.now ≡ name_of_array nest.now statement.now }
{
    let Some(array) = array_of(statement) else {
        return &[];
    };
    match nest.arrays.get(array as usize) {
        Some(array) => array.name.as_slice(),
        None => &[],
    }
}

/// The word of a process's kind: `source`, `assign` or `sink`. It is empty where there is no such process.
pub fn kind_word(nest: &Nest, process: usize) -> &'static [u8]
    ensures { result.now ≡ word_of_kind nest.now process }
{
    match nest.statements.get(process) {
        Some(statement) => role_word(statement.role),
        None => &[],
    }
}

/// The name of the array that a process is given, assigns or prints. It is empty where there is no such process.
pub fn name_word(nest: &Nest, process: usize) -> &[u8]
    ensures { result.now ≡ word_of_name nest.now process }
{
    match nest.statements.get(process) {
        Some(statement) => array_name(nest, statement),
        None => &[],
    }
}

/// Writes the line of a process with these numbers.
pub fn write_process_numbers<W: TextWriter>(
    nest: &Nest,
    number: usize,
    numbers: ProcessNumbers,
    out: &mut W,
)
    ensures { Wrote W.given out.old out.new (process_text nest.now number numbers) }
{
    let words = [
        Word::Text(b"process"),
        Word::Number(number as u64),
        Word::Text(kind_word(nest, number)),
        Word::Text(name_word(nest, number)),
        Word::Text(b"fires"),
        Word::Number(numbers.fires),
        Word::Text(b"slots"),
        Word::Number(numbers.slots),
    ];
    write_line(&words, out);
}

fn write_process<W: TextWriter>(nest: &Nest, number: usize, process: &Process, out: &mut W)
    ensures { Wrote W.given out.old out.new
        (process_text nest.now number (process_numbers process.now)) }
{
    let numbers = ProcessNumbers {
        fires: u64::from(fire_count(&process.script)),
        slots: u64::from(process.slots),
    };
    write_process_numbers(nest, number, numbers, out);
}

#[tactic(auto, using(text_out::proofs::ItemNumbers::numbered))]
fn write_processes<W: TextWriter>(nest: &Nest, processes: &[Process], out: &mut W)
    ensures { Wrote W.given out.old out.new (process_lines nest.now processes.now) }
{
    for (number, process) in processes.iter().enumerate() {
        write_process(nest, number, process, out);
    }
}

/// The word of a channel's class.
pub fn class_word(class: ChannelClass) -> &'static [u8]
    ensures { result.now ≡ word_of_class class }
{
    match (class.order, class.multiplicity) {
        (UseOrder::InOrder, false) => b"inorder",
        (UseOrder::InOrder, true) => b"inorder+",
        (UseOrder::Reorder, false) => b"reorder",
        (UseOrder::Reorder, true) => b"reorder+",
    }
}

/// Writes the line of a channel with these numbers.
pub fn write_channel_numbers<W: TextWriter>(number: usize, numbers: ChannelNumbers, out: &mut W)
    ensures { Wrote W.given out.old out.new (channel_text number numbers) }
{
    let words = [
        Word::Text(b"channel"),
        Word::Number(number as u64),
        Word::Text(b"from"),
        Word::Number(u64::from(numbers.writer)),
        Word::Text(b"to"),
        Word::Number(u64::from(numbers.reader)),
        Word::Text(b"read"),
        Word::Number(u64::from(numbers.read)),
        Word::Text(b"tokens"),
        Word::Number(numbers.tokens),
        Word::Text(b"capacity"),
        Word::Number(u64::from(numbers.capacity)),
        Word::Text(b"hold"),
        Word::Number(numbers.hold),
        Word::Text(b"class"),
        Word::Text(class_word(numbers.class)),
    ];
    write_line(&words, out);
}

fn write_channel<W: TextWriter>(network: &Network, number: usize, channel: &Channel, out: &mut W)
    requires { slice_get network.now.channels number ≡ Some channel.now }
    ensures { Wrote W.given out.old out.new
        (channel_text number (channel_numbers network.now number channel.now)) }
{
    let numbers = ChannelNumbers {
        writer: channel.writer,
        reader: channel.reader,
        read: channel.read,
        tokens: put_count(network, channel.writer, number) as u64,
        capacity: channel.capacity,
        hold: hold(network, channel.reader, number),
        class: channel.class,
    };
    write_channel_numbers(number, numbers, out);
}

#[tactic(auto, using(text_out::proofs::ItemNumbers::numbered))]
fn write_channels<W: TextWriter>(network: &Network, out: &mut W)
    ensures { Wrote W.given out.old out.new (channel_lines network.now) }
{
    for (number, channel) in network.channels.as_slice().iter().enumerate() {
        write_channel(network, number, channel, out);
    }
}

/// Writes the line of the version, `net 1`.
pub fn write_version<W: TextWriter>(out: &mut W)
    ensures { Wrote W.given out.old out.new version_line }
{
    write_line(&[Word::Text(b"net"), Word::Text(b"1")], out);
}

/// Writes the lines behind those of the channels, with this number of events.
pub fn write_end<W: TextWriter>(events: u64, out: &mut W)
    ensures { Wrote W.given out.old out.new (end_text events) }
{
    write_line(&[Word::Text(b"events"), Word::Number(events)], out);
    write_line(&[Word::Text(b"end")], out);
}

fn write_parts<W: TextWriter>(nest: &Nest, network: &Network, out: &mut W)
    requires { FitsNumbers (net_of network.now) }
    ensures { Wrote W.given out.old out.new (net_text nest.now network.now) }
{
    write_version(out);
    write_processes(nest, network.processes.as_slice(), out);
    write_channels(network, out);
    write_end(event_count(network), out);
}

/// Writes the network text. It takes no memory: what is counted of a script is counted as it is folded.
///
/// After `net 1` there is one line for each process and one for each channel, in order, then the number of events of
/// all scripts and `end`. At `WriteFault` the sink holds what it held and a front of the text, and its count rose in
/// this call.
pub fn write_network<K: Sink>(
    nest: &Nest,
    network: &Network,
    sink: &mut K,
) -> Result<(), WriteFault>
    requires { FitsNumbers (net_of network.now) }
    ensures ok { OnOk result
        (Appends (K.held sink.old) (K.held sink.new) (net_text nest.now network.now)) }
    ensures quiet { OnOk result (K.faults sink.new ≡ K.faults sink.old) }
    ensures front { OnErr result
        (AppendsFront (K.held sink.old) (K.held sink.new) (net_text nest.now network.now)) }
    ensures cause { OnErr result (Rose (K.faults sink.old) (K.faults sink.new)) }
{
    let mut out = Writer::new(sink);
    write_parts(nest, network, &mut out);
    out.finish()
}

/// Writes the text of `write_network`, beside points, which it doesn't need.
pub fn write_net<K: Sink>(
    nest: &Nest,
    _points: &Points,
    network: &Network,
    sink: &mut K,
) -> Result<(), WriteFault>
    requires { FitsNumbers (net_of network.now) }
    ensures ok { OnOk result
        (Appends (K.held sink.old) (K.held sink.new) (net_text nest.now network.now)) }
    ensures quiet { OnOk result (K.faults sink.new ≡ K.faults sink.old) }
    ensures front { OnErr result
        (AppendsFront (K.held sink.old) (K.held sink.new) (net_text nest.now network.now)) }
    ensures cause { OnErr result (Rose (K.faults sink.old) (K.faults sink.new)) }
{
    write_network(nest, network, sink)
}
