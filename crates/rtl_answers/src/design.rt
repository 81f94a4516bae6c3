ghost use Rattle.std.specs.Prelude.{◌≡◌, ◌<◌, ◌^◌, length};
ghost use Rattle.sanlp.specs.Size.{SizeIsOk};
ghost use Rattle.command_answers.specs.Judging.{Judges};
ghost use Rattle.rtl_line.specs.declared.words.Ports.TheVariants.{One};
ghost use Rattle.rtl_answers.specs.Answering.{as_reply};
ghost use Rattle.rtl_answers.specs.Designing.{Designs, HasDesign, unit_refusal};

use crate::answer::Answer;
use crate::hardware::hardware_for;
use crate::port_answer::port_design_of;
use bundle::parts_of;
use command_answers::{Refusal, Stop, sized_nest};
use loop_class::Params;
use net_core::Network;
use plain_data::Items;
use rtl_line::{Policy, Ports};
use sanlp::Nest;
use std::alloc::Global;
use unit_text::{Unit, first_with_long_sequencer};

/// A nest's network with the hardware of its processes, in order.
#[derive(Drop)]
pub struct Design {
    /// The nest, whose arrays name the ports.
    pub nest: Nest,
    pub network: Network,
    pub units: Items<Unit>,
}

// The refusal of a process with a sequencer of too many instructions.
fn refusal_of(unit: &Unit) -> Refusal
    ensures { result ≡ unit_refusal unit.now }
{
    Refusal::Script(unit.auto.process, unit.longest_sequencer() as u64)
}

// The design of a nest's network, with the capacities that are wanted, and with one port of a process after the other.
fn design_of(alloc: Global, policy: Policy, nest: Nest) -> Result<Answer, Stop>
    requires { SizeIsOk nest }
    ensures { Judges (λ answer. HasDesign One policy nest (as_reply answer)) result }
{
    let (network, units) = hardware_for::<Unit>(alloc, policy, &nest)?;
    if let Some(unit) = first_with_long_sequencer(units.as_slice()) {
        return Err(Stop::Refused(refusal_of(unit)));
    }
    Ok(Answer::Design(Design {
        nest,
        network,
        units,
    }))
}

// The design of a nest's network, with the capacities that are wanted, and with ports that take turns so.
fn design_for(alloc: Global, ports: Ports, policy: Policy, nest: Nest) -> Result<Answer, Stop>
    requires { SizeIsOk nest }
    ensures { Judges (λ answer. HasDesign ports policy nest (as_reply answer)) result }
{
    match ports {
        Ports::One => design_of(alloc, policy, nest),
        Ports::All => port_design_of(alloc, policy, nest),
    }
}

/// The design of the network of a bundle's source, with ports that take turns so.
///
/// `Refusal::Script` comes where a sequencer of a process has more than 65,536 instructions, for the first such process: the number
/// told is how many the longest of its sequencers has, and not that of its events.
pub(crate) fn design_network(
    alloc: Global,
    ports: Ports,
    policy: Policy,
    params: &Params,
    bundle: &[u8],
) -> Result<Answer, Stop>
    requires { length bundle.now < 2 ^ 32 }
    ensures { Judges
        (λ answer. Designs ports policy params.now bundle.now (as_reply answer)) result }
{
    let parts = parts_of(bundle);
    let nest = sized_nest(alloc, parts.source, params)?;
    design_for(alloc, ports, policy, nest)
}
