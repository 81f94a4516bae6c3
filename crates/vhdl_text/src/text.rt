ghost use Rattle.std.specs.Prelude.{◌≡◌, ◌<◌, ◌^◌, length, MatchOption};
ghost use Rattle.std.specs.List.{flat_map};
ghost use Rattle.std.specs.Option.{option_copied, option_map};
ghost use Rattle.net_core.specs.Machine.{net_of};
ghost use Rattle.node_automata.specs.Automata.{automata};
ghost use Rattle.sanlp.specs.declared.nest.Nest.{Nest};
ghost use Rattle.text_out.specs.Wrote.{Wrote};
ghost use Rattle.vhdl_text.specs.Refusal.{are_too_many, first_too_long, process_and_length, IsRefused, IsWritten};
ghost use Rattle.vhdl_text.specs.VhdlText.{channel_line, channel_lines, node_text, vhdl_text};

use crate::error::VhdlError;
use crate::node::write_node;
use io_edge::{Sink, WriteFault};
use net_core::{Channel, Network};
use node_automata::NodeAuto;
use text_out::{TextWriter, Writer, write_number};

/// The most events of a node.
const MOST_EVENTS: u32 = 65_536;

// Whether a script with so many events is too long for a node.
fn are_too_many(events: u32) -> bool
    ensures { result ≡ are_too_many events }
{
    events > MOST_EVENTS
}

/// The first automaton whose script is too long for a node: it has more than 65,536 events.
pub fn too_long(autos: &[NodeAuto]) -> Option<&NodeAuto>
    ensures { option_copied result ≡ first_too_long autos.now }
{
    for auto in autos {
        if are_too_many(auto.events.len()) {
            return Some(auto);
        }
    }
    None
}

// The number of a process's events.
fn event_count(network: &Network, process: u32) -> u32
    ensures { result ≡ length ((net_of network.now).script process) }
{
    match network.processes.get(process as usize) {
        Some(process) => process.script.len(),
        None => 0,
    }
}

/// The first process whose script is too long for a node, and how many events it has: what `write_vhdl` refuses where it is
/// given the automata of the network of some nest. It takes no memory, and the time of a look at each process.
pub fn too_long_script(network: &Network) -> Option<(u32, u32)>
    requires { length network.now.processes < 2 ^ 32 }
    ensures { (nest : Nest) → length nest.statements ≡ length network.now.processes
        → result ≡ option_map process_and_length (first_too_long (automata nest network.now)) }
{
    for process in 0..network.processes.len() as u32 {
        let events = event_count(network, process);
        if are_too_many(events) {
            return Some((process, events));
        }
    }
    None
}

fn write_channel<W: TextWriter>(number: usize, channel: &Channel, out: &mut W)
    ensures { Wrote W.given out.old out.new (channel_line (number, channel.now)) }
{
    out.put(b"-- channel ");
    write_number(number, out);
    out.put(b" node_");
    write_number(channel.writer, out);
    out.put(b" node_");
    write_number(channel.reader, out);
    out.put(b" capacity ");
    write_number(channel.capacity, out);
    out.put(b"\n");
}

/// Writes a line for each of these channels, the first having number 0.
pub fn write_channels<W: TextWriter>(channels: &[Channel], out: &mut W)
    ensures { Wrote W.given out.old out.new (channel_lines channels.now) }
{
    for (number, channel) in channels.iter().enumerate() {
        write_channel(number, channel, out);
    }
}

fn write_nodes<W: TextWriter>(autos: &[NodeAuto], out: &mut W)
    ensures { Wrote W.given out.old out.new (flat_map node_text autos.now) }
{
    for auto in autos {
        write_node(auto, out);
    }
}

fn write_text<W: TextWriter>(network: &Network, autos: &[NodeAuto], out: &mut W)
    ensures { Wrote W.given out.old out.new (vhdl_text network.now autos.now) }
{
    out.put(b"-- compaan vhdl 1\n");
    write_channels(network.channels.as_slice(), out);
    write_nodes(autos, out);
}

/// Writes the VHDL text of a network with the automata of its processes, in order. It takes no memory.
///
/// `ScriptTooLong` comes exactly where a script has more than 65,536 events, for the first such process, and then nothing
/// is written. At `WriteFault` the sink holds what it held and a front of the text, and its count rose in this call.
pub fn write_vhdl<K: Sink>(
    network: &Network,
    autos: &[NodeAuto],
    sink: &mut K,
) -> Result<(), VhdlError>
    ensures { MatchOption (first_too_long autos.now)
        (IsWritten result (K.held sink.old) (K.held sink.new) (K.faults sink.old) (K.faults sink.new) (vhdl_text network.now autos.now))
        (λ auto. IsRefused result (K.held sink.old) (K.held sink.new) (K.faults sink.old)
        (K.faults sink.new) auto) }
{
    if let Some(auto) = too_long(autos) {
        return Err(VhdlError::ScriptTooLong(auto.process, u64::from(auto.events.len())));
    }
    let mut out = Writer::new(sink);
    write_text(network, autos, &mut out);
    match out.finish() {
        Ok(()) => Ok(()),
        Err(WriteFault) => Err(VhdlError::WriteFault),
    }
}
