ghost use Rattle.std.specs.Prelude.{◌<◌, ◌^◌, length};
ghost use Rattle.sanlp.specs.Size.{SizeIsOk};
ghost use Rattle.command_answers.specs.Describing.{Describes, HasNodes};
ghost use Rattle.command_answers.specs.Judging.{Judges};
ghost use Rattle.command_answers.specs.Replying.{as_reply};

use crate::answer::{Answer, NodesAnswer};
use crate::refusal::{Refusal, Stop};
use crate::source::sized_nest;
use bundle::parts_of;
use loop_class::Params;
use loop_walk::points;
use node_automata::automata;
use plain_data::Items;
use sanlp::Nest;
use std::alloc::Global;
use swept_net::compile_network;
use vhdl_text::too_long_script;
use witness_plan::Policy;

// The network of a nest with the automata of its processes, where no script is too long. That is asked of the network, before
// points and automata are made.
fn nodes_of(alloc: Global, policy: Policy, nest: &Nest) -> Result<NodesAnswer, Stop>
    requires { SizeIsOk nest.now }
    ensures { Judges (HasNodes policy nest.now) result }
{
    let network = compile_network(alloc, nest, policy)?;
    if let Some((process, events)) = too_long_script(&network) {
        return Err(Stop::Refused(Refusal::Script(process, u64::from(events))));
    }
    let points = points(alloc, nest)?;
    let autos = automata(alloc, nest, &points, &network)?;
    Ok(NodesAnswer {
        network,
        autos: Items::from_vec(autos),
    })
}

/// The VHDL text of the network of a bundle's source.
pub fn describe_network(
    alloc: Global,
    policy: Policy,
    params: &Params,
    bundle: &[u8],
) -> Result<Answer, Stop>
    requires { length bundle.now < 2 ^ 32 }
    ensures { Judges (λ answer. Describes policy params.now bundle.now (as_reply answer)) result }
{
    let parts = parts_of(bundle);
    let nest = sized_nest(alloc, parts.source, params)?;
    let nodes = nodes_of(alloc, policy, &nest)?;
    Ok(Answer::Nodes(nodes))
}
