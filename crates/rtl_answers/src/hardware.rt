//! The hardware of a nest's processes, made of their automata.

ghost use Rattle.std.specs.Prelude.{◌≡◌, IfOk};
ghost use Rattle.std.specs.List.{AllZip};
ghost use Rattle.net_core.specs.Machine.{net_of};
ghost use Rattle.net_core.specs.Shape.{FitsNumbers, IsShaped};
ghost use Rattle.node_automata.specs.Automata.{automata};
ghost use Rattle.rtl_answers.specs.Networks.{network_for};
ghost use Rattle.sanlp.specs.Size.{SizeIsOk};

use crate::networks::{NestPoints, network_for};
use loop_walk::points;
use net_core::Network;
use node_automata::{NodeAuto, automaton};
use plain_data::Items;
use port_text::PortUnit;
use rtl_line::Policy;
use sanlp::Nest;
use std::alloc::{AllocError, Global};
use unit_text::Unit;

/// The hardware of a process.
pub(crate) trait Hardware: Drop {
    ghost use Rattle.std.specs.Prelude.{◌<◌, ◌^◌, length, IfOk};
    ghost use Rattle.node_automata.specs.declared.node.NodeAuto.{NodeAuto};

    /// That it is the hardware of a process with this automaton.
    ghost is_of: { NodeAuto → Self → Type 0 };

    /// The hardware of a process with this automaton, or want of memory.
    fn from_automaton(alloc: Global, auto: NodeAuto) -> Result<Self, AllocError>
        requires { length auto.values < 2 ^ 32 }
        ensures { IfOk result (is_of auto) };
}

impl Hardware for Unit {
    ghost use Rattle.unit_text.specs.Units.{IsUnitOf};

    ghost is_of = { IsUnitOf };

    fn from_automaton(alloc: Global, auto: NodeAuto) -> Result<Unit, AllocError> {
        Unit::of(alloc, auto)
    }
}

impl Hardware for PortUnit {
    ghost use Rattle.port_text.specs.Units.{IsPortUnitOf};

    ghost is_of = { IsPortUnitOf };

    fn from_automaton(alloc: Global, auto: NodeAuto) -> Result<PortUnit, AllocError> {
        PortUnit::of(alloc, auto)
    }
}

// The hardware of all processes, in order.
fn units_of<U: Hardware>(
    alloc: Global,
    nest_points: &NestPoints,
    network: &Network,
) -> Result<Items<U>, AllocError>
    requires shaped { IsShaped (net_of network.now) nest_points.now.points.now.of }
    requires numbers { FitsNumbers (net_of network.now) }
    ensures { IfOk result (AllZip U.is_of (automata nest_points.now.nest.now network.now)) }
{
    let mut units = Items::new(alloc);
    for process in 0..network.processes.len() as u32 {
        let auto = automaton(
            alloc,
            nest_points.nest,
            nest_points.points,
            network,
            process,
        )?;
        let unit = U::from_automaton(alloc, auto)?;
        units.push(unit)?;
    }
    Ok(units)
}

/// The network of a nest, with the capacities that are wanted, and the hardware of its processes, in order. Nothing is refused but
/// want of memory.
pub(crate) fn hardware_for<U: Hardware>(
    alloc: Global,
    policy: Policy,
    nest: &Nest,
) -> Result<(Network, Items<U>), AllocError>
    requires { SizeIsOk nest.now }
    ensures network { IfOk result (λ made. made.0 ≡ network_for policy nest.now) }
    ensures units { IfOk result (λ made. AllZip U.is_of (automata nest.now made.0) made.1) }
{
    let points = points(alloc, nest)?;
    let nest_points = NestPoints {
        nest,
        points: &points,
    };
    let network = network_for(alloc, policy, &nest_points)?;
    let units = units_of(alloc, &nest_points, &network)?;
    Ok((network, units))
}
