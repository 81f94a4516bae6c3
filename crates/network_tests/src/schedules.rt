//! Tests of `witness_plan`.
ghost use Rattle.std.specs.Prelude.{◌≡◌, [], ◌∷◌, IfOk};
ghost use Rattle.network_tests.specs.Examples.{hand_on};

use crate::boards::process;
use crate::events::channel;
use affine_core::Vector;
use channel_class::{ChannelClass, UseOrder};
use net_core::{Channel, Event, Network, Ref, Refs, Tags, ended, kept, start};
use plain_data::Items;
use sanlp::{Points, Tag};
use std::alloc::{AllocError, Global};
use std::test::Fail;
use witness_plan::{run_by, with_capacities};

// A process that fires once and puts to both channels.
fn forked(alloc: Global) -> Result<Network, AllocError> {
    let events = [
        Event::Fire {
            refs: Refs::empty(),
        },
        Event::Put { channel: 0 },
        Event::Put { channel: 1 },
    ];
    let mut processes = Items::new(alloc);
    processes.push(process(alloc, 0, &events)?)?;
    let mut channels = Items::new(alloc);
    for read in [4, 7] {
        channels.push(channel([0, 1, read, 9], UseOrder::InOrder, true))?;
    }
    Ok(Network {
        processes,
        channels,
    })
}

// Whether it is that network with these capacities.
fn is_forked(network: &Network, first: u32, second: u32) -> bool {
    let are_channels = match network.channels.as_slice() {
        [channel, other] => {
            channel.read == 4
                && channel.capacity == first
                && other.read == 7
                && other.capacity == second
                && other.class.multiplicity
        }
        _ => false,
    };
    match network.processes.as_slice() {
        [process] => process.script.len() == 3 && are_channels,
        _ => false,
    }
}

// Capacities, and those that the channels have then. A channel past them has none.
static CAPACITIES: [(&[u32], u32, u32); 2] = [(&[3, 5], 3, 5), (&[3], 3, 0)];

#[test]
fn other_capacities_change_nothing_else(rt: HostRuntime) -> Result<(), Fail> {
    for (capacities, first, second) in &CAPACITIES {
        let network = forked(rt.alloc())?;
        let changed = with_capacities(rt.alloc(), network, *capacities)?;
        assert!(rt; is_forked(&changed, *first, *second));
    }
    Ok(())
}

// A process that hands its value on to another.
fn hand_on(alloc: Global) -> Result<Network, AllocError>
    ensures { IfOk result (λ network. network ≡ hand_on) }
{
    let nothing = Refs::empty();
    let mut first_slot = Refs::empty();
    first_slot.push(Ref::Slot(0));
    let put = Event::Put { channel: 0 };
    let get = Event::Get {
        channel: 0,
        slot: 0,
    };
    let mut processes = Items::new(alloc);
    processes.push(process(alloc, 0, &[Event::Fire { refs: nothing }, put])?)?;
    processes.push(process(alloc, 1, &[get, Event::Fire { refs: first_slot }])?)?;
    let mut channels = Items::new(alloc);
    channels.push(Channel {
        writer: 0,
        reader: 1,
        read: 0,
        capacity: 1,
        class: ChannelClass {
            order: UseOrder::InOrder,
            multiplicity: false,
        },
    })?;
    Ok(Network {
        processes,
        channels,
    })
}

// Two processes with one turn each.
fn one_turn_each(alloc: Global) -> Result<Points, AllocError>
    ensures { IfOk result (λ points. points.of ≡ ([] ∷ []) ∷ ([] ∷ []) ∷ []) }
{
    let mut first = Items::new(alloc);
    first.push(Vector::empty(alloc))?;
    let mut second = Items::new(alloc);
    second.push(Vector::empty(alloc))?;
    let mut of = Items::new(alloc);
    of.push(first)?;
    of.push(second)?;
    Ok(Points { of })
}

#[test]
fn a_run_makes_its_events(rt: HostRuntime) -> Result<(), Fail> {
    let alloc = rt.alloc();
    let network = hand_on(alloc)?;
    let points = one_turn_each(alloc)?;
    let mut state = start::<Tag>(alloc, &network, &points)?;
    run_by(&mut state, &network, &Tags {}, &[0, 0]);
    let has_ended = ended(&state, &network);
    run_by(&mut state, &network, &Tags {}, &[1, 1]);
    assert!(rt; !has_ended && ended(&state, &network) && kept(&state, 1).len() == 1);
    Ok(())
}
