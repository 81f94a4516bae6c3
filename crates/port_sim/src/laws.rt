ghost use Rattle.sanlp.specs.declared.nest.Nest.{Nest};
ghost use Rattle.net_core.specs.declared.network.Network.{Network};
ghost use Rattle.net_core.specs.Machine.{net_of};
ghost use Rattle.net_core.specs.Rules.{tags};
ghost use Rattle.net_core.specs.Sound.{IsSound};
ghost use Rattle.port_clocks.specs.PortClocks.{PortClocksEnd};

use net_core::every_order;
use port_clocks::port_clocks_end;
use sanlp::Tag;

// It does nothing: its contract is a law over the definitions.

/// The clocked run of the ports of a network that is sound for a nest ends all over tags too, so its clocks may be counted.
pub fn sound_networks_end()
    ensures { (nest : Nest) (network : Network) → IsSound nest network
        → PortClocksEnd (net_of network) tags }
{
    port_clocks_end::<Tag>();
    every_order::<i64, Tag>();
}
