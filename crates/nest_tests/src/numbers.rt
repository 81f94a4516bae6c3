//! Tests of `network_numbers`: what the text tells of the networks of four sources.

ghost use Rattle.sanlp.specs.Size.{SizeIsOk};

use crate::bound::nest_of;
use channel_class::{ChannelClass, UseOrder};
use net_text::{ChannelNumbers, ProcessNumbers};
use network_numbers::sequential_numbers;
use number_text::NetworkNumbers;
use sanlp::Nest;
use std::alloc::{AllocError, Global};
use std::test::Fail;

/// What is told of a process: its fires and slots.
type Process = (u64, u64);

/// What is told of a channel: its writer, reader, read, tokens, capacity, hold, order, and whether a token is used more than once.
type Channel = (u32, u32, u32, u64, u32, u64, UseOrder, bool);

/// A source with the value of its parameter, and what is told of its network: of its processes and channels, and the number of
/// events.
struct Told {
    source: &'static [u8],
    value: i64,
    processes: &'static [Process],
    channels: &'static [Channel],
    events: u64,
}

static TOLD: [Told; 4] = [
    // running_sum
    Told {
        source: b"param N; in x[N]; out s[N]; for (i = 0; i < N; i++) s[i] = s[i-1] + x[i];",
        value: 3,
        processes: &[(3, 0), (3, 2), (3, 1)],
        channels: &[
            (1, 1, 0, 2, 1, 1, UseOrder::InOrder, false),
            (0, 1, 1, 3, 3, 1, UseOrder::InOrder, false),
            (1, 2, 0, 3, 3, 1, UseOrder::InOrder, false),
        ],
        events: 25,
    },
    // transpose
    Told {
        source: b"in a[2][2]; out b[2][2]; for (j = 0; j < 2; j++) for (i = 0; i < 2; i++) b[j][i] = a[i][j];",
        value: 0,
        processes: &[(4, 0), (4, 2), (4, 1)],
        channels: &[
            (0, 1, 0, 4, 4, 2, UseOrder::Reorder, false),
            (1, 2, 0, 4, 4, 1, UseOrder::InOrder, false),
        ],
        events: 28,
    },
    // each value is used twice, the last one first
    Told {
        source: b"in x[3]; out b[2][3]; for (i = 0; i < 2; i++) for (j = 0; j < 3; j++) b[i][j] = x[2-j];",
        value: 0,
        processes: &[(3, 0), (6, 3), (6, 1)],
        channels: &[
            (0, 1, 0, 3, 3, 3, UseOrder::Reorder, true),
            (1, 2, 0, 6, 6, 1, UseOrder::InOrder, false),
        ],
        events: 33,
    },
    // two rounds, so that there are more tokens than places
    Told {
        source: b"out b[2][2][2]; var a[2][2]; for (t = 0; t < 2; t++) { for (j = 0; j < 2; j++) for (i = 0; i < 2; i++) a[j][i] = t; for (j = 0; j < 2; j++) for (i = 0; i < 2; i++) b[t][j][i] = a[i][j]; }",
        value: 0,
        processes: &[(8, 0), (8, 2), (8, 1)],
        channels: &[
            (0, 1, 0, 8, 4, 2, UseOrder::Reorder, false),
            (1, 2, 0, 8, 8, 1, UseOrder::InOrder, false),
        ],
        events: 56,
    },
];

fn is_process(numbers: &ProcessNumbers, wanted: Process) -> bool {
    let (fires, slots) = wanted;
    numbers.fires == fires && numbers.slots == slots
}

fn is_channel(numbers: &ChannelNumbers, wanted: Channel) -> bool {
    let (writer, reader, read, tokens, capacity, hold, order, multiplicity) = wanted;
    let class = ChannelClass {
        order,
        multiplicity,
    };
    numbers.writer == writer
        && numbers.reader == reader
        && numbers.read == read
        && numbers.tokens == tokens
        && numbers.capacity == capacity
        && numbers.hold == hold
        && numbers.class == class
}

fn are_told(numbers: &NetworkNumbers, wanted: &Told) -> bool {
    numbers.processes.len() == wanted.processes.len()
        && numbers
            .processes
            .as_slice()
            .iter()
            .zip(wanted.processes)
            .all(|(process, told)| is_process(process, *told))
        && numbers.channels.len() == wanted.channels.len()
        && numbers
            .channels
            .as_slice()
            .iter()
            .zip(wanted.channels)
            .all(|(channel, told)| is_channel(channel, *told))
        && numbers.events == wanted.events
}

// Whether this is told of a nest's network.
fn has_numbers(alloc: Global, nest: &Nest, wanted: &Told) -> Result<bool, AllocError>
    requires { SizeIsOk nest.now }
{
    let numbers = sequential_numbers(alloc, nest)?;
    Ok(are_told(&numbers, wanted))
}

#[test]
fn the_numbers_are_those_of_the_network(rt: HostRuntime) -> Result<(), Fail> {
    for wanted in &TOLD {
        let nest = nest_of(rt.alloc(), wanted.source, wanted.value)?;
        let is_right = has_numbers(rt.alloc(), &nest, wanted);
        drop(nest);
        assert!(rt; is_right?);
    }
    Ok(())
}
