//! Tests of `net_text`.
ghost use Rattle.std.specs.Prelude.{IsTrue};
ghost use Rattle.net_core.specs.Machine.{net_of};
ghost use Rattle.net_core.specs.Shape.{FitsNumbers};

use crate::events::{Step, channel, folded};
use channel_class::UseOrder;
use io_edge::{MemSink, WriteFault};
use net_core::{Channel, Network, Process};
use net_text::write_network;
use plain_data::Items;
use sanlp::Nest;
use std::alloc::{AllocError, Global};
use std::test::Fail;

// By the last two channels nothing is handed on.
static CHANNELS: [([u32; 4], UseOrder, bool); 4] = [
    ([0, 1, 7, 90], UseOrder::Reorder, false),
    ([0, 1, 0, 91], UseOrder::InOrder, true),
    ([1, 0, 0, 92], UseOrder::InOrder, false),
    ([1, 1, 1, 93], UseOrder::Reorder, true),
];

// The slots and the events of processes. The first hands four tokens to the second by channel 0, as a folded script tells, and
// one token by channel 1.
static PROCESSES: [(u32, &[Step]); 2] = [
    (
        1,
        &[
            Step::Fire(&[]),
            Step::Put(0),
            Step::Fire(&[]),
            Step::Put(0),
            Step::Put(1),
            Step::Fire(&[]),
            Step::Put(0),
            Step::Fire(&[]),
            Step::Put(0),
        ],
    ),
    (
        4,
        &[
            Step::Get(0, 2),
            Step::Fire(&[]),
            Step::Get(0, 1),
            Step::Get(0, 3),
            Step::Fire(&[]),
            Step::Get(1, 0),
            Step::Get(0, 2),
            Step::Fire(&[]),
        ],
    ),
];

fn processes(alloc: Global) -> Result<Items<Process>, AllocError> {
    let mut processes = Items::new(alloc);
    for (slots, steps) in &PROCESSES {
        processes.push(folded(alloc, *slots, *steps)?)?;
    }
    Ok(processes)
}

fn channels(alloc: Global) -> Result<Items<Channel>, AllocError> {
    let mut channels = Items::new(alloc);
    for (numbers, order, multiplicity) in &CHANNELS {
        channels.push(channel(*numbers, *order, *multiplicity))?;
    }
    Ok(channels)
}

// Whether the numbers of a network are within their limits.
fn numbers_fit(network: &Network) -> bool
    ensures { IsTrue result → FitsNumbers (net_of network.now) }
{
    let mut events = 0usize;
    for process in network.processes.as_slice() {
        match events.checked_add(process.script.len() as usize) {
            Some(sum) => events = sum,
            None => return false,
        }
    }
    network.processes.len() < 1 << 32 && network.channels.len() < 1 << 32 && events < 1 << 32
}

// Writes the text of a network of a nest without statements.
fn write(alloc: Global, network: &Network, sink: &mut MemSink) -> Result<(), WriteFault>
    requires { FitsNumbers (net_of network.now) }
{
    let nest = Nest {
        arrays: Items::new(alloc),
        statements: Items::new(alloc),
        body: Items::new(alloc),
    };
    write_network(&nest, network, sink)
}

// What is held and whether a write failed, where a sink of this room takes so many bytes at once and fails at a call.
fn written(
    alloc: Global,
    network: &Network,
    room: usize,
    most: usize,
    failing: u32,
) -> Result<(MemSink, bool), Fail> {
    if !numbers_fit(network) {
        return Err(Fail::from("the network is large"));
    }
    let mut sink = MemSink::new(alloc, room, most, &[failing])?;
    let is_written = write(alloc, network, &mut sink).is_ok();
    Ok((sink, is_written))
}

// A text, and how much of it is held where a sink fails: the room, the most bytes of a call, and the call that fails.
static FRONTS: [(usize, usize, u32, &[u8]); 6] = [
    (
        1_000,
        5,
        999,
        b"net 1\nprocess 0   fires 4 slots 1\nprocess 1   fires 3 slots 4\n\
        channel 0 from 0 to 1 read 7 tokens 4 capacity 90 hold 3 class reorder\n\
        channel 1 from 0 to 1 read 0 tokens 1 capacity 91 hold 1 class inorder+\n\
        channel 2 from 1 to 0 read 0 tokens 0 capacity 92 hold 0 class inorder\n\
        channel 3 from 1 to 1 read 1 tokens 0 capacity 93 hold 0 class reorder+\nevents 17\nend\n",
    ),
    (0, 100, 9, b""),
    (12, 100, 99, b"net 1\nproces"),
    (500, 100, 0, b""),
    (500, 7, 1, b"net 1\np"),
    (500, 3, 3, b"net 1\npro"),
];

// It is told that a write failed, but for the first row.
#[test]
fn a_network_is_written_up_to_a_fault(rt: HostRuntime) -> Result<(), Fail> {
    let alloc = rt.alloc();
    let network = Network {
        processes: processes(alloc)?,
        channels: channels(alloc)?,
    };
    for (room, most, failing, held) in &FRONTS {
        let (sink, is_written) = written(alloc, &network, *room, *most, *failing)?;
        assert!(rt; is_written == (*room == 1_000));
        assert!(rt; sink.held() == *held);
    }
    Ok(())
}

#[test]
fn a_network_without_processes_has_three_lines(rt: HostRuntime) -> Result<(), Fail> {
    let network = Network {
        processes: Items::new(rt.alloc()),
        channels: Items::new(rt.alloc()),
    };
    let (sink, is_written) = written(rt.alloc(), &network, 100, 100, 99)?;
    assert!(rt; is_written);
    assert!(rt; sink.held() == b"net 1\nevents 0\nend\n".as_slice());
    Ok(())
}
