ghost use Rattle.std.specs.Prelude.{◌≡◌, OnErr, OnOk};
ghost use Rattle.std.specs.Io.KnownBytes.{Appends};
ghost use Rattle.std.specs.List.{flat_map};
ghost use Rattle.io_edge.specs.Causes.{AppendsFront, Rose};
ghost use Rattle.text_out.specs.Wrote.{Wrote};
ghost use Rattle.port_text.specs.Nodes.{port_unit_text};
ghost use Rattle.port_rtl.specs.Designs.{port_rtl_text};

use io_edge::{Sink, WriteFault};
use net_core::Network;
use port_text::{PortUnit, write_port_unit};
use rtl_text::{write_body, write_channel, write_entity};
use sanlp::Nest;
use text_out::{TextWriter, Writer};
use vhdl_text::write_channels;

// Writes the entities of each of these units.
fn write_units<W: TextWriter>(units: &[PortUnit], out: &mut W)
    ensures { Wrote W.given out.old out.new (flat_map port_unit_text units.now) }
{
    for unit in units {
        write_port_unit(unit, out);
    }
}

fn write_text<W: TextWriter>(nest: &Nest, network: &Network, units: &[PortUnit], out: &mut W)
    ensures { Wrote W.given out.old out.new (port_rtl_text nest.now network.now units.now) }
{
    out.put(b"-- compaan rtl 1\n");
    write_channels(network.channels.as_slice(), out);
    write_channel(out);
    write_units(units, out);
    write_entity(nest, units, out);
    write_body(nest, network, units, out);
}

/// Writes the text of a network's design with the hardware of its processes, in order, whose ports go each at its own pace. It takes
/// no memory.
///
/// That each unit is of its process's automaton (`IsPortUnitOf`) is for the caller to make true, and that counts of repeats and
/// capacities are positive and below 2^31, which VHDL's integers are.
///
/// At `WriteFault` the sink holds what it held and a front of the text, and its count rose in this call.
pub fn write_port_rtl<K: Sink>(
    nest: &Nest,
    network: &Network,
    units: &[PortUnit],
    sink: &mut K,
) -> Result<(), WriteFault>
    ensures text { OnOk result (Appends (K.held sink.old) (K.held sink.new)
        (port_rtl_text nest.now network.now units.now)) }
    ensures front { OnErr result (AppendsFront (K.held sink.old) (K.held sink.new)
        (port_rtl_text nest.now network.now units.now)) }
    ensures quiet { OnOk result (K.faults sink.new ≡ K.faults sink.old) }
    ensures cause { OnErr result (Rose (K.faults sink.old) (K.faults sink.new)) }
{
    let mut out = Writer::new(sink);
    write_text(nest, network, units, &mut out);
    out.finish()
}
