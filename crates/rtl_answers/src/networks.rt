ghost use Rattle.std.specs.Prelude.{◌≡◌, IfOk};
ghost use Rattle.sanlp.specs.Points.{points_of};
ghost use Rattle.sanlp.specs.Size.{SizeIsOk};
ghost use Rattle.net_core.specs.Machine.{net_of};
ghost use Rattle.net_core.specs.Shape.{FitsNumbers};
ghost use Rattle.net_core.specs.Sound.{IsSound};
ghost use Rattle.rtl_answers.specs.Networks.{network_for};

use least_network::compile_least;
use net_core::Network;
use rtl_line::Policy;
use sanlp::{Nest, Points};
use std::alloc::{AllocError, Global};
use swept_net::compile_network;
use witness_plan::Policy as Schedule;

/// A nest within the limit on its size, with its points.
#[derive(Drop)]
pub(crate) struct NestPoints<'a> {
    pub(crate) nest: &'a Nest,
    pub(crate) points: &'a Points,
    ghost size: { SizeIsOk nest.now },
    ghost points_of_nest: { points.now.of ≡ points_of nest.now },
}

/// The network of a nest with the capacities that are wanted. It is sound: in every order of events it computes what the nest
/// computes. Nothing is refused but want of memory.
pub(crate) fn network_for(
    alloc: Global,
    policy: Policy,
    nest_points: &NestPoints,
) -> Result<Network, AllocError>
    ensures network { IfOk result
        (λ network. network ≡ network_for policy nest_points.now.nest.now) }
    ensures numbers { IfOk result (λ network. FitsNumbers (net_of network)) }
    ensures sound { IfOk result (λ network. IsSound nest_points.now.nest.now network) }
{
    let nest = nest_points.nest;
    match policy {
        Policy::Seq => compile_network(alloc, nest, Schedule::Seq),
        Policy::Down => compile_network(alloc, nest, Schedule::Down),
        Policy::Least => compile_least(alloc, nest, nest_points.points),
    }
}
