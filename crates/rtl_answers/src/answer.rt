ghost use Rattle.std.specs.Prelude.{◌<◌, ◌^◌, length};
ghost use Rattle.command_answers.specs.Judging.{Judges};
ghost use Rattle.call_endings.specs.Changes.{Writes, change};
ghost use Rattle.rtl_answers.specs.Answering.{Answers, answer_text, as_reply};

use crate::clocks::{Clocks, count_clocks, write_clocks};
use crate::design::{Design, design_network};
use crate::port_answer::PortDesign;
use command_answers::Stop;
use io_edge::{Sink, WriteFault};
use port_rtl::write_port_rtl;
use rtl_line::Order;
use rtl_text::write_rtl;
use std::alloc::Global;

/// What is to be written on the output.
#[derive(Drop)]
pub enum Answer {
    Design(Design),
    PortDesign(PortDesign),
    Clocks(Clocks),
}

/// What an order comes to on a bundle: a design of the network of its source, or the clocks of that network.
pub(crate) fn answer_to(alloc: Global, order: &Order, bundle: &[u8]) -> Result<Answer, Stop>
    requires { length bundle.now < 2 ^ 32 }
    ensures { Judges (λ answer. Answers order.now bundle.now (as_reply answer)) result }
{
    if order.clocks {
        count_clocks(alloc, order.ports, order.policy, &order.params, bundle)
    } else {
        design_network(alloc, order.ports, order.policy, &order.params, bundle)
    }
}

/// Writes an answer's text. It takes no memory.
pub(crate) fn write_answer<K: Sink>(answer: &Answer, sink: &mut K) -> Result<(), WriteFault>
    ensures { Writes (change K.held K.faults sink.old sink.new) (answer_text answer.now) result }
{
    match answer {
        Answer::Design(design) => write_rtl(
            &design.nest,
            &design.network,
            design.units.as_slice(),
            sink,
        ),
        Answer::PortDesign(design) => write_port_rtl(
            &design.nest,
            &design.network,
            design.units.as_slice(),
            sink,
        ),
        Answer::Clocks(told) => write_clocks(told, sink),
    }
}
