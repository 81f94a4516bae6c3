//! Tests of `clock_sim::simulate` and `port_sim::clock_count`.
ghost use Rattle.net_core.specs.Sound.{IsSound};

use crate::bound::{INCREMENT, Made, inputs, make};
use clock_sim::{Clocked, simulate};
use net_core::WiredNetwork;
use node_automata::automata;
use port_sim::{clock_count, sound_networks_end};
use sanlp::Inputs;
use std::alloc::{AllocError, Global};
use std::test::Fail;
use witness_plan::Policy;

/// How many values are incremented, the values of the arrays, what comes out, the number of clocks, how many where each port goes at
/// its own pace, and a policy.
#[derive(Clone, Copy)]
struct Increment {
    many: i64,
    inputs: &'static [&'static [i64]],
    outputs: &'static [i64],
    clocks: u64,
    port_clocks: u64,
    policy: Policy,
}

static INCREMENTS: [Increment; 6] = [
    Increment {
        many: 0,
        inputs: &[&[], &[]],
        outputs: &[],
        clocks: 0,
        port_clocks: 0,
        policy: Policy::Seq,
    },
    Increment {
        many: 1,
        inputs: &[&[5], &[]],
        outputs: &[6],
        clocks: 7,
        port_clocks: 7,
        policy: Policy::Seq,
    },
    // It has 21 events, up to three at a clock.
    Increment {
        many: 3,
        inputs: &[&[5, 6, 7], &[]],
        outputs: &[6, 7, 8],
        clocks: 13,
        // source F1 PF2 PF3 P4, assignment G3 FG4 PFG5 PF6 P7, sink G6 FG7 FG8 F9
        port_clocks: 9,
        policy: Policy::Seq,
    },
    Increment {
        many: 0,
        inputs: &[&[], &[]],
        outputs: &[],
        clocks: 0,
        port_clocks: 0,
        policy: Policy::Down,
    },
    Increment {
        many: 1,
        inputs: &[&[5], &[]],
        outputs: &[6],
        clocks: 7,
        port_clocks: 7,
        policy: Policy::Down,
    },
    Increment {
        many: 3,
        inputs: &[&[5, 6, 7], &[]],
        outputs: &[6, 7, 8],
        clocks: 13,
        // With room for one token a channel carries one at every other clock:
        // source F1 PF2 PF4 P6, assignment G3 F4 PG5 F6 PG7 F8 P9, sink G6 F7 G8 F9 G10 F11
        port_clocks: 11,
        policy: Policy::Down,
    },
];

// The clocked run of a network.
fn simulated(alloc: Global, made: &Made, inputs: &Inputs) -> Result<Clocked, AllocError>
    requires { IsSound made.now.nest made.now.network }
{
    let autos = automata(alloc, &made.nest, &made.points, &made.network)?;
    let clocked = simulate(
        alloc,
        &made.nest,
        &made.points,
        inputs,
        &made.network,
        &autos,
    );
    drop(autos);
    clocked
}

// Whether a run is what is wanted.
fn is_wanted(clocked: &Clocked, wanted: &Increment) -> bool {
    let arrays = clocked.arrays.arrays.as_slice();
    clocked.clocks == wanted.clocks
        && arrays.len() == 2
        && arrays[0].is_empty()
        && arrays[1].as_slice() == wanted.outputs
}

// Whether the clocked run of a network is what is wanted.
fn runs_by_the_clock(alloc: Global, made: &Made, wanted: &Increment) -> Result<bool, AllocError>
    requires { IsSound made.now.nest made.now.network }
{
    let inputs = inputs(alloc, wanted.inputs)?;
    let clocked = simulated(alloc, made, &inputs);
    drop(inputs);
    Ok(is_wanted(&clocked?, wanted))
}

// The number of clocks of a network whose ports go each at its own pace.
fn counted(alloc: Global, made: &Made) -> Result<u64, AllocError>
    requires { IsSound made.now.nest made.now.network }
{
    sound_networks_end();
    let wired = WiredNetwork {
        network: &made.network,
    };
    clock_count(alloc, &wired)
}

#[test]
fn all_processes_step_by_one_clock(rt: HostRuntime) -> Result<(), Fail> {
    for row in &INCREMENTS {
        let made = make(rt.alloc(), INCREMENT, row.many, row.policy)?;
        let is_right = runs_by_the_clock(rt.alloc(), &made, row);
        drop(made);
        assert!(rt; is_right?);
    }
    Ok(())
}

#[test]
fn each_port_goes_at_its_own_pace(rt: HostRuntime) -> Result<(), Fail> {
    for row in &INCREMENTS {
        let made = make(rt.alloc(), INCREMENT, row.many, row.policy)?;
        let clocks = counted(rt.alloc(), &made);
        drop(made);
        assert!(rt; clocks? == row.port_clocks);
    }
    Ok(())
}
