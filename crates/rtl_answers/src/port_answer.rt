ghost use Rattle.std.specs.Prelude.{◌≡◌};
ghost use Rattle.sanlp.specs.Size.{SizeIsOk};
ghost use Rattle.rtl_line.specs.declared.words.Ports.TheVariants.{All};
ghost use Rattle.command_answers.specs.Judging.{Judges};
ghost use Rattle.rtl_answers.specs.Answering.{as_reply};
ghost use Rattle.rtl_answers.specs.Designing.{HasDesign, port_unit_refusal};

use crate::answer::Answer;
use crate::hardware::hardware_for;
use command_answers::{Refusal, Stop};
use net_core::Network;
use plain_data::Items;
use port_text::{PortUnit, first_with_long_sequencer};
use rtl_line::Policy;
use sanlp::Nest;
use std::alloc::Global;

/// A nest's network with the hardware of its processes, in order, whose ports go each at its own pace.
#[derive(Drop)]
pub struct PortDesign {
    /// The nest, whose arrays name the ports of the network.
    pub nest: Nest,
    pub network: Network,
    pub units: Items<PortUnit>,
}

// The refusal of a process with a sequencer of too many instructions.
fn port_refusal_of(unit: &PortUnit) -> Refusal
    ensures { result ≡ port_unit_refusal unit.now }
{
    Refusal::Script(unit.unit.auto.process, unit.longest_sequencer() as u64)
}

/// The design of a nest's network, with the capacities that are wanted, whose ports go each at its own pace.
pub(crate) fn port_design_of(alloc: Global, policy: Policy, nest: Nest) -> Result<Answer, Stop>
    requires { SizeIsOk nest }
    ensures { Judges (λ answer. HasDesign All policy nest (as_reply answer)) result }
{
    let (network, units) = hardware_for::<PortUnit>(alloc, policy, &nest)?;
    if let Some(unit) = first_with_long_sequencer(units.as_slice()) {
        return Err(Stop::Refused(port_refusal_of(unit)));
    }
    Ok(Answer::PortDesign(PortDesign {
        nest,
        network,
        units,
    }))
}
