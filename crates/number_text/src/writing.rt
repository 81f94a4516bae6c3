ghost use Rattle.std.specs.Prelude.{◌≡◌, OnOk, OnErr};
ghost use Rattle.std.specs.Io.KnownBytes.{Appends};
ghost use Rattle.io_edge.specs.Causes.{Rose, AppendsFront};
ghost use Rattle.number_text.specs.Numbers.{channel_texts, numbers_text, process_texts};
ghost use Rattle.text_out.specs.Wrote.{Wrote};

use crate::numbers::NetworkNumbers;
use io_edge::{Sink, WriteFault};
use net_text::{
    ChannelNumbers, ProcessNumbers, write_channel_numbers, write_end, write_process_numbers,
    write_version,
};
use sanlp::Nest;
use text_out::{TextWriter, Writer};

#[tactic(auto, using(text_out::proofs::ItemNumbers::numbered))]
fn write_processes<W: TextWriter>(nest: &Nest, processes: &[ProcessNumbers], out: &mut W)
    ensures { Wrote W.given out.old out.new (process_texts nest.now processes.now) }
{
    for (number, numbers) in processes.iter().enumerate() {
        write_process_numbers(nest, number, *numbers, out);
    }
}

#[tactic(auto, using(text_out::proofs::ItemNumbers::numbered))]
fn write_channels<W: TextWriter>(channels: &[ChannelNumbers], out: &mut W)
    ensures { Wrote W.given out.old out.new (channel_texts channels.now) }
{
    for (number, numbers) in channels.iter().enumerate() {
        write_channel_numbers(number, *numbers, out);
    }
}

fn write_parts<W: TextWriter>(nest: &Nest, numbers: &NetworkNumbers, out: &mut W)
    ensures { Wrote W.given out.old out.new (numbers_text nest.now numbers.now) }
{
    write_version(out);
    write_processes(nest, numbers.processes.as_slice(), out);
    write_channels(numbers.channels.as_slice(), out);
    write_end(numbers.events, out);
}

/// Writes the text that tells these numbers: where they are those of a network, its text (`text_tells_numbers`), as
/// `write_network` does. It takes no memory. At `WriteFault` the sink holds what it held and a front of the text, and its
/// count rose in this call.
pub fn write_numbers<K: Sink>(
    nest: &Nest,
    numbers: &NetworkNumbers,
    sink: &mut K,
) -> Result<(), WriteFault>
    ensures ok { OnOk result
        (Appends (K.held sink.old) (K.held sink.new) (numbers_text nest.now numbers.now)) }
    ensures quiet { OnOk result (K.faults sink.new ≡ K.faults sink.old) }
    ensures front { OnErr result
        (AppendsFront (K.held sink.old) (K.held sink.new) (numbers_text nest.now numbers.now)) }
    ensures cause { OnErr result (Rose (K.faults sink.old) (K.faults sink.new)) }
{
    let mut out = Writer::new(sink);
    write_parts(nest, numbers, &mut out);
    out.finish()
}
