//! Tests of `cap_trim::rest` and `cap_trim::trim`.
ghost use Rattle.std.specs.Prelude.{IsTrue};
ghost use Rattle.net_core.specs.Machine.{net_of};
ghost use Rattle.net_core.specs.Shape.{FitsNumbers};

use crate::bound::{Made, accepts, make};
use cap_trim::{Trimmed, rest, trim};
use net_core::Network;
use plain_data::Items;
use source_tree::{Cert, Origin};
use std::alloc::{AllocError, Global};
use std::test::Fail;
use witness_plan::{Policy, with_capacities};

/// A source, and for each channel of its network its least capacity and where the network sticks with one place less.
#[derive(Clone, Copy)]
struct Least {
    source: &'static [u8],
    capacities: &'static [u32],
    rests: &'static [&'static [u32]],
}

// Values that are added to what came last, so the source's channel to the second loop holds two.
const LAST_ADDED: &[u8] = b"in a[4]; out c[4]; var b[4]; for (i = 0; i < 4; i++) b[i] = a[i]; \
    for (i = 0; i < 4; i++) c[i] = a[i] + b[3];";

static LEAST: [Least; 3] = [
    Least {
        source: b"in x[0]; out y[0]; for (i = 0; i < 0; i++) y[i] = x[i] + 1;",
        capacities: &[],
        rests: &[],
    },
    Least {
        source: b"in x[3]; out y[3]; for (i = 0; i < 3; i++) y[i] = x[i] + 1;",
        capacities: &[1, 1],
        rests: &[&[1, 0, 0], &[5, 2, 0]],
    },
    Least {
        source: LAST_ADDED,
        capacities: &[1, 2, 1, 1],
        rests: &[&[1, 0, 0, 0], &[8, 6, 1, 0], &[11, 8, 1, 0], &[11, 9, 3, 0]],
    },
];

static POLICIES: [Policy; 2] = [Policy::Seq, Policy::Down];

// The least-process run of the last of these networks, by hand: at each state the least enabled process steps.
static LEAST_RUN: [u32; 42] = [
    0, 0, 0, 0, 1, 0, 0, 0, 1, 1, 0, 1, 1, 1, 2, 0, 0, 0, 1, 1, 1, 2, 2, 2, 2, 0, 2, 3, 2, 2, 2, 3,
    3, 2, 2, 2, 3, 3, 2, 3, 3, 3,
];

// Whether these are the least capacities and the rests.
fn is_least(trimmed: &Trimmed, least: &Least) -> bool {
    let rests = trimmed.rests.as_slice();
    trimmed.capacities.as_slice() == least.capacities
        && rests.len() == least.rests.len()
        && rests
            .iter()
            .zip(least.rests)
            .all(|(rest, wanted)| rest.as_slice() == *wanted)
}

#[test]
fn no_capacity_can_be_lowered(rt: HostRuntime) -> Result<(), Fail> {
    for row in &LEAST {
        for policy in &POLICIES {
            let made = make(rt.alloc(), row.source, 0, *policy)?;
            let trimmed = trim(rt.alloc(), &made.nest, &made.points, &made.network);
            drop(made);
            assert!(rt; is_least(&trimmed?, row));
        }
    }
    Ok(())
}

#[test]
fn with_the_capacities_of_a_policy_each_process_ends(rt: HostRuntime) -> Result<(), Fail> {
    for policy in &POLICIES {
        let made = make(rt.alloc(), LAST_ADDED, 0, *policy)?;
        let positions = rest(rt.alloc(), &made.network, &made.points);
        drop(made);
        assert!(rt; positions?.as_slice() == [12, 9, 13, 8].as_slice());
    }
    Ok(())
}

// Whether the numbers of a network are within their limits.
fn numbers_fit(network: &Network) -> bool
    ensures { IsTrue result → FitsNumbers (net_of network.now) }
{
    let mut events = 0usize;
    for process in network.processes.as_slice() {
        match events.checked_add(process.script.len() as usize) {
            Some(sum) => events = sum,
            None => return false,
        }
    }
    network.processes.len() < 1 << 32 && network.channels.len() < 1 << 32 && events < 1 << 32
}

// The certificate of the last of these networks with its least-process run, in which each of its four reads is swept.
fn swept(alloc: Global) -> Result<Cert, AllocError> {
    let schedule = Items::from_slice(alloc, &LEAST_RUN)?;
    let mut sources = Items::new(alloc);
    for _ in 0..4 {
        sources.push(Origin::Sweep)?;
    }
    Ok(Cert { sources, schedule })
}

// Whether the checker accepts a network and that certificate.
fn is_run(alloc: Global, made: &Made, network: &Network) -> Result<bool, AllocError> {
    if !numbers_fit(network) {
        return Ok(false);
    }
    let cert = swept(alloc)?;
    let is_accepted = accepts(alloc, made, network, &cert);
    drop(cert);
    is_accepted
}

// Whether the checker accepts the network with these capacities and that certificate.
fn is_run_by(alloc: Global, made: &Made, capacities: &[u32]) -> Result<bool, AllocError> {
    let network = with_capacities(alloc, made.network.copy(alloc)?, capacities)?;
    let is_run = is_run(alloc, made, &network);
    drop(network);
    is_run
}

// The capacities of the last of these networks that `trim` gives, and with one place less.
static CAPACITIES: [([u32; 4], bool); 5] = [
    ([1, 2, 1, 1], true),
    ([0, 2, 1, 1], false),
    ([1, 1, 1, 1], false),
    ([1, 2, 0, 1], false),
    ([1, 2, 1, 0], false),
];

#[test]
fn the_least_process_run_is_accepted(rt: HostRuntime) -> Result<(), Fail> {
    let made = make(rt.alloc(), LAST_ADDED, 0, Policy::Seq)?;
    let mut are_right = true;
    for (capacities, wanted) in &CAPACITIES {
        match is_run_by(rt.alloc(), &made, capacities) {
            Ok(is_run) => are_right = are_right && is_run == *wanted,
            Err(_) => are_right = false,
        }
    }
    drop(made);
    assert!(rt; are_right);
    Ok(())
}
