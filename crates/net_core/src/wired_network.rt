ghost use Rattle.net_core.specs.Machine.{net_of};
ghost use Rattle.net_core.specs.OneProof.{wired_props};
ghost use Rattle.net_core.specs.Shape.{FitsNumbers, IsWired};

use crate::network::Network;

/// A network whose scripts name only channels and slots that are there, each channel by its own reader or writer, with no Put
/// before a process's first Fire. Its processes, its channels and the events of all its scripts are each fewer than 2 ^ 32.
#[derive(Drop)]
pub struct WiredNetwork<'a> {
    pub network: &'a Network,
    pub ghost wired: { IsWired (net_of network.now) } by { Prim.hlevel wired_props },
    pub ghost numbers: { FitsNumbers (net_of network.now) },
}
