//! Tests of `node_runner`: a process that runs alone over ends in memory makes the calls of its script.
ghost use Rattle.net_core.specs.Machine.{net_of};
ghost use Rattle.net_core.specs.Orders.{EndsAll};
ghost use Rattle.net_core.specs.Rules.{tags};
ghost use Rattle.net_core.specs.Sound.{IsSound};

use crate::alone::run_alone;
use crate::bound::{Made, inputs, make};
use ruled_links::Call;
use std::alloc::{AllocError, Global};
use std::sync::Wait;
use std::test::Fail;
use witness_plan::Policy;

/// A source with the values of its arrays, and what its process 1 keeps and calls.
#[derive(Clone, Copy)]
struct Alone {
    source: &'static [u8],
    inputs: &'static [&'static [i64]],
    kept: &'static [i64],
    calls: &'static [Call],
}

static ALONE: [Alone; 2] = [
    // It copies: channel 1 comes from the sums, and channel 2 goes to the print.
    Alone {
        source: b"out y[4]; var v; for (i = 0; i < 4; i++) { v = v + i; y[i] = v; }",
        inputs: &[&[], &[]],
        kept: &[0, 1, 3, 6],
        calls: &[
            Call::Got(1),
            Call::Put(2),
            Call::Got(1),
            Call::Put(2),
            Call::Got(1),
            Call::Put(2),
            Call::Got(1),
            Call::Put(2),
        ],
    },
    // Its first fire uses the last of three values, and each of them is used twice.
    Alone {
        source: b"in x[3]; out b[2][3]; for (i = 0; i < 2; i++) for (j = 0; j < 3; j++) b[i][j] = x[2-j];",
        inputs: &[&[1, 2, 3], &[]],
        kept: &[3, 2, 1, 3, 2, 1],
        calls: &[
            Call::Got(0),
            Call::Got(0),
            Call::Got(0),
            Call::Put(1),
            Call::Put(1),
            Call::Put(1),
            Call::Put(1),
            Call::Put(1),
            Call::Put(1),
        ],
    },
];

// Whether process 1 of a network keeps and calls this, where it runs alone.
fn runs_alone(rt: &impl Wait, alloc: Global, made: &Made, row: &Alone) -> Result<bool, AllocError>
    requires sound { IsSound made.now.nest made.now.network }
    requires ends { EndsAll (net_of made.now.network) tags made.now.cert.schedule }
{
    if made.network.processes.len() < 2 {
        return Ok(false);
    }
    let inputs = inputs(alloc, row.inputs)?;
    let ran = run_alone(rt, alloc, made, &inputs, 1);
    drop(inputs);
    let (room, ends) = ran?;
    Ok(room.kept() == row.kept && ends.calls() == row.calls)
}

#[test]
fn a_process_makes_the_calls_of_its_script(rt: HostRuntime) -> Result<(), Fail> {
    for row in &ALONE {
        let made = make(rt.alloc(), row.source, 0, Policy::Seq)?;
        let is_right = runs_alone(&rt, rt.alloc(), &made, row);
        drop(made);
        assert!(rt; is_right?);
    }
    Ok(())
}
