//! Tests of `trace_board`, and of copies of networks.
ghost use Rattle.std.specs.Prelude.{◌≡◌, ◌<◌, ◌^◌, length, IfOk};
ghost use Rattle.network_tests.specs.Examples.{starved, starved_points};

use crate::events::channel;
use affine_core::Vector;
use channel_class::{ChannelClass, UseOrder};
use net_core::{Channel, Event, Network, Process, Refs};
use plain_data::Items;
use sanlp::Points;
use script_blocks::Script;
use std::alloc::{AllocError, Global};
use std::test::Fail;
use trace_board::{Advance, Board};

/// A process with so many slots and these events.
pub(crate) fn process(alloc: Global, slots: u32, events: &[Event]) -> Result<Process, AllocError>
    requires { length events.now < 2 ^ 32 }
    ensures { IfOk result (λ process. process ≡ record { slots = slots; script = events.now }) }
{
    Ok(Process {
        slots,
        script: Script::of_items(alloc, events)?,
    })
}

// A process that fires once, and another that waits for a token which the first never puts.
fn starved(alloc: Global) -> Result<Network, AllocError>
    ensures { IfOk result (λ network. network ≡ starved) }
{
    let fire = Event::Fire {
        refs: Refs::empty(),
    };
    let get = Event::Get {
        channel: 0,
        slot: 0,
    };
    let mut processes = Items::new(alloc);
    processes.push(process(alloc, 0, &[fire])?)?;
    processes.push(process(alloc, 1, &[get])?)?;
    let mut channels = Items::new(alloc);
    channels.push(Channel {
        writer: 0,
        reader: 1,
        read: 0,
        capacity: 1,
        class: ChannelClass {
            order: UseOrder::InOrder,
            multiplicity: false,
        },
    })?;
    Ok(Network {
        processes,
        channels,
    })
}

// The first process has one turn and the second none.
fn one_turn(alloc: Global) -> Result<Points, AllocError>
    ensures { IfOk result (λ points. points.of ≡ starved_points) }
{
    let mut first = Items::new(alloc);
    first.push(Vector::empty(alloc))?;
    let mut of = Items::new(alloc);
    of.push(first)?;
    of.push(Items::new(alloc))?;
    Ok(Points { of })
}

static ADVANCES: [Advance; 6] = [
    Advance::Idle,
    Advance::Stepped(0),
    Advance::Done,
    Advance::Idle,
    Advance::Idle,
    Advance::Done,
];

#[test]
fn a_lane_steps_waits_and_ends(rt: HostRuntime) -> Result<(), Fail> {
    let alloc = rt.alloc();
    let points = one_turn(alloc)?;
    let mut board = Board::new(alloc, starved(alloc)?, &points)?;
    let advances = [
        board.advance(1, 2),
        board.advance(0, 2),
        board.advance(0, 2),
        board.advance(1, 2),
        board.advance(0, 1),
        board.advance(2, 3),
    ];
    assert!(rt; advances == ADVANCES);
    assert!(rt; board.history() == [0].as_slice() && board.network().processes.len() == 2);
    assert!(rt; board.into_history().as_slice() == [0].as_slice());
    Ok(())
}

fn put(channel: u32) -> Event {
    Event::Put { channel }
}

// The network of one process and one channel with these numbers.
fn numbered(
    alloc: Global,
    slots: u32,
    capacity: u32,
    multiplicity: bool,
    events: &[Event],
) -> Result<Network, AllocError>
    requires { length events.now < 2 ^ 32 }
{
    let mut processes = Items::new(alloc);
    processes.push(process(alloc, slots, events)?)?;
    let mut channels = Items::new(alloc);
    channels.push(channel([0, 0, 0, capacity], UseOrder::Reorder, multiplicity))?;
    Ok(Network {
        processes,
        channels,
    })
}

// Whether a network is the same as the network with these numbers, and whether this is the same as it.
fn is_same(
    alloc: Global,
    network: &Network,
    slots: u32,
    capacity: u32,
    multiplicity: bool,
    events: &[Event],
) -> Result<(bool, bool), AllocError>
    requires { length events.now < 2 ^ 32 }
{
    let other = numbered(alloc, slots, capacity, multiplicity, events)?;
    Ok((network.same(&other), other.same(network)))
}

// Slots, a capacity, whether tokens are repeated, the channel of the last Put, and whether the network is the same.
static OTHERS: [(u32, u32, bool, u32, bool); 5] = [
    (3, 5, true, 0, true),
    (2, 5, true, 0, false),
    (3, 4, true, 0, false),
    (3, 5, false, 0, false),
    (3, 5, true, 1, false),
];

// Whether a network is the same as the first of the others alone, and neither as one with an event less nor as one of two
// processes.
fn is_the_first(alloc: Global, network: &Network) -> Result<bool, AllocError> {
    for (slots, capacity, multiplicity, last, wanted) in &OTHERS {
        let events = [put(0), put(*last)];
        let found = is_same(alloc, network, *slots, *capacity, *multiplicity, &events)?;
        if found != (*wanted, *wanted) {
            return Ok(false);
        }
    }
    if is_same(alloc, network, 3, 5, true, &[put(0)])? != (false, false) {
        return Ok(false);
    }
    let other = starved(alloc)?;
    Ok(!network.same(&other) && !other.same(network))
}

#[test]
fn a_copy_is_the_same_network_and_no_other_is(rt: HostRuntime) -> Result<(), Fail> {
    let alloc = rt.alloc();
    let network = numbered(alloc, 3, 5, true, &[put(0), put(0)])?;
    let is_the_first = is_the_first(alloc, &network);
    let copy = network.copy(alloc)?;
    let is_same = network.same(&copy);
    drop(network);
    let capacity = copy.channels.get(0).map(|channel| channel.capacity);
    drop(copy);
    assert!(rt; is_same && is_the_first? && capacity == Some(5));
    Ok(())
}
