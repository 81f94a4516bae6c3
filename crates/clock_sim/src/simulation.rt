ghost use Rattle.std.specs.Prelude.{◌≡◌, IfOk};
ghost use Rattle.sanlp.specs.Meaning.{arrays};
ghost use Rattle.sanlp.specs.Points.{points_of};
ghost use Rattle.net_core.specs.Machine.{net_of};
ghost use Rattle.net_core.specs.Shape.{FitsNumbers};
ghost use Rattle.net_core.specs.Sound.{IsSound};
ghost use Rattle.node_automata.specs.Automata.{automata};
ghost use Rattle.clock_sim.specs.Clocks.{clocks};

use crate::clock::run_by_clock;
use crate::laws::clocked_run_computes;
use crate::sinks::sink_lists;
use net_core::{Network, Values, sound, start};
use node_automata::NodeAuto;
use sanlp::{Arrays, Inputs, Nest, Points};
use std::alloc::{AllocError, Global};

/// What the clocked run of a network gives: the arrays after the nest, and the number of clocks.
#[derive(Drop)]
pub struct Clocked {
    pub arrays: Arrays,
    pub clocks: u64,
}

/// Runs the automata of a network's processes by one clock: at each clock every process whose next event is enabled at its
/// beginning does that event, until none is enabled. Nothing is refused but want of memory. It takes the time of all events,
/// and at each clock of one look at each automaton, and no memory by the clock.
pub fn simulate(
    alloc: Global,
    nest: &Nest,
    points: &Points,
    inputs: &Inputs,
    network: &Network,
    autos: &[NodeAuto],
) -> Result<Clocked, AllocError>
    requires points { points.now.of ≡ points_of nest.now }
    requires numbers { FitsNumbers (net_of network.now) }
    requires sound { IsSound nest.now network.now }
    requires automata { autos.now ≡ automata nest.now network.now }
    ensures arrays { IfOk result
        (λ clocked. clocked.arrays.arrays ≡ arrays nest.now inputs.now) }
    ensures clocks { IfOk result (λ clocked. clocked.clocks ≡ clocks (net_of network.now)) }
{
    sound();
    clocked_run_computes();
    let mut state = start(alloc, network, points)?;
    let rule = Values {
        nest,
        points,
        inputs,
    };
    let list = Vec::with_capacity(alloc, autos.len())?;
    let clocks = run_by_clock(autos, network, &rule, &mut state, list);
    let arrays = sink_lists(alloc, nest, &state)?;
    Ok(Clocked { arrays, clocks })
}
