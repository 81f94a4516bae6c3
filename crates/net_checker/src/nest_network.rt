ghost use Rattle.std.specs.Prelude.{◌≡◌};
ghost use Rattle.sanlp.specs.Points.{points_of};
ghost use Rattle.sanlp.specs.Size.{SizeIsOk};
ghost use Rattle.net_core.specs.Machine.{net_of};
ghost use Rattle.net_core.specs.OneProof.{wired_props};
ghost use Rattle.net_core.specs.Shape.{FitsNumbers};
ghost use Rattle.net_core.specs.Sound.{FitsNest};

use net_core::Network;
use sanlp::{Nest, Points};

/// A network that is judged for a nest, with the nest's points.
#[derive(Drop)]
pub(crate) struct NestNetwork<'a> {
    pub(crate) nest: &'a Nest,
    pub(crate) points: &'a Points,
    pub(crate) network: &'a Network,
    ghost size: { SizeIsOk nest.now },
    ghost points_of_nest: { points.now.of ≡ points_of nest.now },
    ghost numbers: { FitsNumbers (net_of network.now) },
}

/// The same, where the network's shape is that of the nest's points and reads.
#[derive(Drop)]
pub(crate) struct ShapedNetwork<'a> {
    pub(crate) nest: &'a Nest,
    pub(crate) points: &'a Points,
    pub(crate) network: &'a Network,
    ghost points_of_nest: { points.now.of ≡ points_of nest.now },
    ghost numbers: { FitsNumbers (net_of network.now) },
    ghost shape: { FitsNest nest.now network.now } by { Prim.hlevel wired_props },
}
