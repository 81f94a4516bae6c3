ghost use Rattle.std.specs.Prelude.{◌≡◌, ℕ, List, length};
ghost use Rattle.sanlp.specs.declared.nest.Inputs.{Inputs};
ghost use Rattle.sanlp.specs.declared.nest.Nest.{Nest};
ghost use Rattle.sanlp.specs.declared.nest.Tag.{Tag};
ghost use Rattle.sanlp.specs.Meaning.{arrays};
ghost use Rattle.net_core.specs.declared.network.Network.{Network};
ghost use Rattle.net_core.specs.Machine.{Net, Rule, net_of};
ghost use Rattle.net_core.specs.Names.{GivesValues, fired};
ghost use Rattle.net_core.specs.Orders.{EndsAlways};
ghost use Rattle.net_core.specs.Rules.{values};
ghost use Rattle.net_core.specs.Shape.{IsWired, fires};
ghost use Rattle.net_core.specs.Sound.{IsSound, sink_lists};
ghost use Rattle.port_runs.specs.Ports.{AllHaveCome, IsPortRun, EventPlace, PortsEndAlways, port_reached, port_start};
ghost use Rattle.port_runs.specs.PortNames.{HoldsNames};

// Each of these does nothing: its contract is a law over the definitions.

/// Where every order of events of a network's scripts ends all, so does every order that its ports allow, with the same
/// capacities: it can go on until all events have come, and no queue is ever longer than its channel's capacity.
pub fn port_runs_end<T: Copy>()
    ensures { (n : Net) (rule : Rule T) → IsWired n → EndsAlways n rule → PortsEndAlways n rule }
{}

/// In every state that a run of the ports reaches, each fire that may come finds the values of what its references name, each
/// process has kept those of its fires, and each queue holds those of its channel's tokens in the order of the Puts (Kahn 1974).
/// Where all events have come, each process has kept what it keeps in a run of the scripts.
pub fn port_runs_name<T: Copy>()
    ensures named { (n : Net) (rule : Rule T) (v : Tag → T) (run : List EventPlace) → IsWired n
        → GivesValues n rule v → IsPortRun n rule (port_start n) run
        → HoldsNames n v (port_reached n rule run) }
    ensures kept { (n : Net) (rule : Rule T) (v : Tag → T) (run : List EventPlace) → IsWired n
        → GivesValues n rule v → IsPortRun n rule (port_start n) run
        → AllHaveCome n (port_reached n rule run)
        → (p : ℕ) → ((port_reached n rule run).run.local p).kept
        ≡ fired v p (fires n p (length (n.script p))) }
{}

/// In a network that is sound for a nest, every order of events that the ports allow ends all, and then the sinks have kept the
/// arrays after the nest.
pub fn port_runs_compute()
    ensures ends { (nest : Nest) (network : Network) (d : Inputs) → IsSound nest network
        → PortsEndAlways (net_of network) (values nest d) }
    ensures arrays { (nest : Nest) (network : Network) (d : Inputs) (run : List EventPlace)
        → IsSound nest network
        → IsPortRun (net_of network) (values nest d) (port_start (net_of network)) run
        → AllHaveCome (net_of network) (port_reached (net_of network) (values nest d) run)
        → sink_lists nest (port_reached (net_of network) (values nest d) run).run ≡ arrays nest d }
{
    port_runs_end::<i64>();
}
