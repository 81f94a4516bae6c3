ghost use Rattle.std.specs.Prelude.{◌≡◌, IfOk};
ghost use Rattle.sanlp.specs.Size.{SizeIsOk};
ghost use Rattle.net_core.specs.Machine.{net_of};
ghost use Rattle.net_core.specs.Shape.{FitsNumbers};
ghost use Rattle.net_core.specs.Sound.{IsSound};
ghost use Rattle.net_checker.specs.Fits.{Fits};
ghost use Rattle.swept_net.specs.Certificates.{swept_cert};
ghost use Rattle.cap_trim.specs.Rests.{least_run};
ghost use Rattle.least_network.specs.Networks.{HasLeastCapacities, least_network};

use cap_trim::trim;
use net_checker::is_sound;
use net_core::Network;
use sanlp::{Nest, Points};
use std::alloc::{AllocError, Global};
use swept_net::compile_network;
use witness_plan::{Policy, other_capacities, with_capacities};

/// The network of a nest with least capacities (as SDF3 looks for buffers that can't be smaller): those of the schedule `down`,
/// lowered one after the other as far as the network still ends. With one place less in any channel it sticks, and with no
/// capacities below these does any run end all. It fits the nest with the schedule of its least-process run, so it is sound: in
/// every order of events it computes what the nest computes.
///
/// Points come beside the nest as for `trim`, which doesn't need them. It takes for each channel the time of two runs at most, and
/// that of one more. Nothing is refused but want of memory.
pub fn compile_least(alloc: Global, nest: &Nest, points: &Points) -> Result<Network, AllocError>
    requires { SizeIsOk nest.now }
    ensures network { IfOk result (λ network. network ≡ least_network nest.now) }
    ensures numbers { IfOk result (λ network. FitsNumbers (net_of network)) }
    ensures fits { IfOk result
        (λ network. Fits nest.now network (swept_cert nest.now (least_run (net_of network)))) }
    ensures sound { IfOk result (λ network. IsSound nest.now network) }
    ensures least { IfOk result (λ network. HasLeastCapacities network) }
{
    is_sound();
    other_capacities();
    let network = compile_network(alloc, nest, Policy::Down)?;
    let trimmed = trim(alloc, nest, points, &network)?;
    let least = with_capacities(alloc, network, trimmed.capacities.as_slice())?;
    Ok(least)
}
