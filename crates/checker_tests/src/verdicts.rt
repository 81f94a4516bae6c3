//! Tests of `net_checker::check`, and of `check_folded` beside it.
ghost use Rattle.std.specs.Prelude.{IsTrue};
ghost use Rattle.sanlp.specs.Size.{SizeIsOk};
ghost use Rattle.net_core.specs.Machine.{net_of};
ghost use Rattle.net_core.specs.Shape.{FitsNumbers};

use crate::bound::{self, nest};
use affine_core::Vector;
use channel_class::{ChannelClass, UseOrder};
use loop_walk::points;
use net_checker::{Refusal, Seen, Verdict, Wanted, check, check_folded};
use net_core::{Channel, Event, Network, Process, Ref, Refs};
use plain_data::Items;
use sanlp::{Nest, Point};
use script_blocks::Script;
use source_tree::{Cert, Origin};
use std::alloc::{AllocError, Global};
use std::test::Fail;

pub(crate) const IN_ORDER: ChannelClass = ChannelClass {
    order: UseOrder::InOrder,
    multiplicity: false,
};

const REPEATED: ChannelClass = ChannelClass {
    order: UseOrder::InOrder,
    multiplicity: true,
};

const REORDERED: ChannelClass = ChannelClass {
    order: UseOrder::Reorder,
    multiplicity: false,
};

/// A network and its certificate. The words of a script are events: `g` with a channel and a slot is a Get, `f` with its
/// references a Fire, where `z` is `Zero`, and `p` with a channel a Put. A channel has its writer, reader, read and
/// capacity. A schedule has one digit for each entry.
#[derive(Clone, Copy)]
pub(crate) struct Row<'a> {
    pub slots: &'a [u32],
    pub scripts: &'a [&'a [u8]],
    pub channels: &'a [(u32, u32, u32, u32)],
    pub classes: &'a [ChannelClass],
    pub sources: u32,
    pub schedule: &'a [u8],
}

// Each turn sums, and hands the sum on to the next turn and to the copy.
const SUM: &[u8] = b"fz p0 p1 g00 f0 p0 p1 g00 f0 p0 p1 g00 f0 p1";

const COPY: &[u8] = b"g10 f0 p2 g10 f0 p2 g10 f0 p2 g10 f0 p2";

const PRINT: &[u8] = b"g20 f0 g20 f0 g20 f0 g20 f0";

const SUMS_SCHEDULE: &[u8] = b"0001110000111000011100011122222222";

pub(crate) const SUMS: Row = Row {
    slots: &[1, 1, 1],
    scripts: &[SUM, COPY, PRINT],
    channels: &[(0, 0, 0, 3), (0, 1, 0, 4), (1, 2, 0, 4)],
    classes: &[IN_ORDER, IN_ORDER, IN_ORDER],
    sources: 3,
    schedule: SUMS_SCHEDULE,
};

const DELAYED: Row = Row {
    slots: &[1, 0, 1, 1],
    scripts: &[
        b"fz p2 g00 f0 p2 g00 f0 p2",
        b"f p1 f p1 f p1",
        b"g10 f0 p0 g10 f0 p0 g10 f0",
        b"g20 f0 g20 f0 g20 f0",
    ],
    channels: &[(2, 0, 0, 2), (1, 2, 0, 3), (0, 3, 0, 3)],
    classes: &[IN_ORDER, IN_ORDER, IN_ORDER],
    sources: 3,
    schedule: b"0011222000112220001122333333",
};

fn digit(byte: u8) -> u32 {
    u32::from(byte.wrapping_sub(b'0'))
}

fn references(names: &[u8]) -> Refs {
    let mut refs = Refs::empty();
    for name in names {
        if refs.len() < 8 {
            refs.push(match name {
                b'z' => Ref::Zero,
                slot => Ref::Slot(digit(*slot)),
            });
        }
    }
    refs
}

fn event(word: &[u8]) -> Event {
    match word {
        [b'g', channel, slot] => Event::Get {
            channel: digit(*channel),
            slot: digit(*slot),
        },
        [b'p', channel] => Event::Put {
            channel: digit(*channel),
        },
        [_, names @ ..] => Event::Fire {
            refs: references(names),
        },
        [] => Event::Fire {
            refs: Refs::empty(),
        },
    }
}

fn script(alloc: Global, text: &[u8]) -> Result<Script<Event>, AllocError> {
    let mut events = Vec::new(alloc);
    for word in text.split(|byte| *byte == b' ') {
        events.push(event(word))?;
    }
    let few = events.len().min(1_000);
    Script::of_items(alloc, &events[..few])
}

fn network(alloc: Global, row: &Row) -> Result<Network, AllocError> {
    let mut processes = Items::new(alloc);
    for (slots, text) in row.slots.iter().zip(row.scripts) {
        processes.push(Process {
            slots: *slots,
            script: script(alloc, text)?,
        })?;
    }
    let mut channels = Items::new(alloc);
    for ((writer, reader, read, capacity), class) in row.channels.iter().zip(row.classes) {
        channels.push(Channel {
            writer: *writer,
            reader: *reader,
            read: *read,
            capacity: *capacity,
            class: *class,
        })?;
    }
    Ok(Network {
        processes,
        channels,
    })
}

fn schedule(alloc: Global, entries: &[u8]) -> Result<Items<u32>, AllocError> {
    let mut schedule = Items::new(alloc);
    for entry in entries {
        schedule.push(digit(*entry))?;
    }
    Ok(schedule)
}

// Whether the numbers of a network are within their limits.
fn numbers_fit(network: &Network) -> bool
    ensures { IsTrue result → FitsNumbers (net_of network.now) }
{
    let mut events = 0usize;
    for process in network.processes.as_slice() {
        match events.checked_add(process.script.len() as usize) {
            Some(sum) => events = sum,
            None => return false,
        }
    }
    network.processes.len() < 1 << 32 && network.channels.len() < 1 << 32 && events < 1 << 32
}

// The verdicts on a network of a nest and its certificate, and on the same where its schedule is kept folded.
fn verdicts(
    alloc: Global,
    nest: &Nest,
    network: &Network,
    cert: &Cert,
) -> Result<(Verdict, Verdict), AllocError>
    requires size { SizeIsOk nest.now }
    requires numbers { FitsNumbers (net_of network.now) }
{
    if cert.schedule.len() > 1_000 {
        return Err(AllocError);
    }
    let schedule = Script::folded(alloc, cert.schedule.as_slice())?;
    let points = points(alloc, nest)?;
    let verdict = check(alloc, nest, &points, network, cert)?;
    let folded = check_folded(alloc, nest, &points, network, cert, &schedule)?;
    Ok((verdict, folded))
}

// The verdict on a network of a nest, where its numbers are within their limits, and where the schedule is kept folded it is the
// same.
fn judged(alloc: Global, nest: &Nest, row: &Row, cert: &Cert) -> Result<Verdict, Fail>
    requires { SizeIsOk nest.now }
{
    let network = network(alloc, row)?;
    if !numbers_fit(&network) {
        return Err(Fail::from("the network is large"));
    }
    let (verdict, folded) = verdicts(alloc, nest, &network, cert)?;
    if folded != verdict {
        return Err(Fail::from("a folded schedule is judged otherwise"));
    }
    Ok(verdict)
}

// The verdict on a network of a source.
fn verdict_by(alloc: Global, source: &[u8], row: &Row, cert: &Cert) -> Result<Verdict, Fail> {
    let nest = nest(alloc, source)?;
    let verdict = judged(alloc, &nest, row, cert);
    drop(nest);
    verdict
}

/// The checker's verdict on a network of a source, where the reads have these origins.
pub(crate) fn verdict_of(
    alloc: Global,
    source: &[u8],
    row: &Row,
    sources: Items<Origin>,
) -> Result<Verdict, Fail> {
    match schedule(alloc, row.schedule) {
        Ok(schedule) => {
            let cert = Cert { sources, schedule };
            let verdict = verdict_by(alloc, source, row, &cert);
            drop(cert);
            verdict
        }
        Err(error) => {
            drop(sources);
            Err(Fail::from(error))
        }
    }
}

fn sweeps(alloc: Global, count: u32) -> Result<Items<Origin>, AllocError> {
    let mut sources = Items::new(alloc);
    for _ in 0..count {
        if sources.push(Origin::Sweep).is_err() {
            drop(sources);
            return Err(AllocError);
        }
    }
    Ok(sources)
}

// The checker's verdict on a network of a source, where each read is swept.
fn swept(alloc: Global, source: &[u8], row: &Row) -> Result<Verdict, Fail> {
    verdict_of(alloc, source, row, sweeps(alloc, row.sources)?)
}

// Whether it is accepted.
fn accepts(alloc: Global, source: &[u8], row: &Row) -> Result<bool, Fail> {
    let verdict = swept(alloc, source, row)?;
    let accepted = matches!(verdict, Verdict::Accepted);
    drop(verdict);
    Ok(accepted)
}

// Whether it is refused like this.
fn refuses(alloc: Global, source: &[u8], row: &Row, refusal: Refusal) -> Result<bool, Fail> {
    let wanted = Verdict::Refused(refusal);
    match swept(alloc, source, row) {
        Ok(verdict) => {
            let same = verdict == wanted;
            drop(verdict);
            drop(wanted);
            Ok(same)
        }
        Err(error) => {
            drop(wanted);
            Err(error)
        }
    }
}

fn point(alloc: Global, statement: u32, turn: i64) -> Point {
    let mut at = Vector::empty(alloc);
    at.push(turn);
    Point { statement, at }
}

#[test]
fn the_networks_of_the_worked_nests_are_accepted(rt: HostRuntime) -> Result<(), Fail> {
    let alloc = rt.alloc();
    assert!(rt; accepts(alloc, bound::SUMS, &SUMS)?);
    assert!(rt; accepts(alloc, bound::DELAYED, &DELAYED)?);
    Ok(())
}

// The slots, the channels and the number of sources of networks that are told whole, by the number of the nest's processes.
static NETWORKS: [(&[u32], [(u32, u32, u32, u32); 3], u32); 6] = [
    (&[1, 1], [(0, 0, 0, 3), (0, 1, 0, 4), (1, 2, 0, 4)], 3),
    (&[1, 1, 1], [(0, 0, 0, 3), (0, 1, 0, 4), (1, 2, 0, 4)], 2),
    (&[1, 1, 1], [(0, 0, 0, 3), (0, 1, 0, 4), (1, 2, 0, 4)], 4),
    (&[1, 1, 1], [(0, 0, 0, 3), (3, 1, 0, 4), (1, 2, 0, 4)], 3),
    (&[1, 1, 1], [(0, 0, 0, 3), (0, 3, 0, 4), (1, 2, 0, 4)], 3),
    (&[1, 1, 1], [(0, 0, 0, 3), (0, 1, 1, 4), (1, 2, 0, 4)], 3),
];

// Slots and scripts, and the process that is told.
static PROCESSES: [(&[u32], [&[u8]; 3], u32); 6] = [
    (&[1, 5, 5], [SUM, COPY, PRINT], 1),
    (&[1, 1, 1], [SUM, COPY, b"g30 f0"], 2),
    (&[1, 1, 1], [SUM, COPY, b"f0 p3"], 2),
    (&[1, 1, 1], [SUM, b"g00 f0", b"g21 f0"], 1),
    (&[1, 1, 1], [SUM, b"f0 p0", b"g21 f0"], 1),
    (&[1, 1, 1], [SUM, COPY, b"g21 f0"], 2),
];

#[test]
fn the_shape_is_refused(rt: HostRuntime) -> Result<(), Fail> {
    let alloc = rt.alloc();
    for (slots, channels, sources) in &NETWORKS {
        let row = Row {
            slots: *slots,
            channels,
            sources: *sources,
            ..SUMS
        };
        assert!(rt; refuses(alloc, bound::SUMS, &row, Refusal::Shape(3))?);
    }
    for (slots, scripts, process) in &PROCESSES {
        let row = Row {
            slots: *slots,
            scripts,
            ..SUMS
        };
        assert!(rt; refuses(alloc, bound::SUMS, &row, Refusal::Shape(*process))?);
    }
    Ok(())
}

// Scripts, and the process and the event that are told.
static SCRIPTS: [([&[u8]; 3], u32, u32); 6] = [
    (
        [
            b"g00 p0 fz p0 p1 g00 f0 p0 p1 g00 f0 p0 p1 g00 f0 p1",
            COPY,
            b"g20 f g20 f0 g20 f0 g20 f0",
        ],
        0,
        1,
    ),
    (
        [SUM, b"g10 f0 p2 g10 f0 p2 g10 f0 p2 g10 f0 p2 f0", PRINT],
        1,
        12,
    ),
    (
        [
            SUM,
            b"g10 f0 p2 g10 f0 p2 g10 f0 p2 g10 p2",
            b"g20 f g20 f0 g20 f0 g20 f0",
        ],
        1,
        11,
    ),
    ([SUM, COPY, b"g20 f0 g20 f00 g20 f0 g20 f0"], 2, 3),
    ([SUM, COPY, b"g20 f g20 f0 g20 f0 g20 f0"], 2, 1),
    ([SUM, COPY, b"g20 f0 g20 f0 g20 f0 g20 f1"], 2, 7),
];

#[test]
fn the_fires_are_refused(rt: HostRuntime) -> Result<(), Fail> {
    for (scripts, process, place) in &SCRIPTS {
        let row = Row { scripts, ..SUMS };
        assert!(rt;
            refuses(
                rt.alloc(),
                bound::SUMS,
                &row,
                Refusal::Fires(*process, *place)
            )?
        );
    }
    Ok(())
}

// Schedules with the entry that is told: of no such process, of an empty channel, and of a process at its end.
static NOT_ENABLED: [(&[u8], u32); 3] = [
    (b"3", 0),
    (b"0001112220", 8),
    (b"00011100001110000111000111222222222", 34),
];

// Schedules in which entries are left out, with the process that is told.
static UNENDED: [(&[u8], u32); 3] = [
    (b"", 0),
    (b"00000000000000", 1),
    (b"000111000011100001110001112222222", 2),
];

// Channels that are too narrow, a schedule, and the entry that is told.
static NARROW: [([(u32, u32, u32, u32); 3], &[u8], u32); 2] = [
    ([(0, 0, 0, 3), (0, 1, 0, 1), (1, 2, 0, 4)], b"0000000", 6),
    ([(0, 0, 0, 0), (0, 1, 0, 4), (1, 2, 0, 4)], SUMS_SCHEDULE, 1),
];

#[test]
fn the_schedule_is_refused(rt: HostRuntime) -> Result<(), Fail> {
    let alloc = rt.alloc();
    for (schedule, entry) in &NOT_ENABLED {
        let row = Row {
            schedule: *schedule,
            ..SUMS
        };
        assert!(rt; refuses(alloc, bound::SUMS, &row, Refusal::NotEnabled(*entry))?);
    }
    for (schedule, process) in &UNENDED {
        let row = Row {
            schedule: *schedule,
            ..SUMS
        };
        assert!(rt; refuses(alloc, bound::SUMS, &row, Refusal::Unended(*process))?);
    }
    for (channels, schedule, entry) in &NARROW {
        let row = Row {
            channels,
            schedule: *schedule,
            ..SUMS
        };
        assert!(rt; refuses(alloc, bound::SUMS, &row, Refusal::NotEnabled(*entry))?);
    }
    Ok(())
}

#[test]
fn a_token_that_nobody_uses_is_harmless(rt: HostRuntime) -> Result<(), Fail> {
    let one_more: &[u8] = b"fz p0 p1 g00 f0 p0 p1 g00 f0 p0 p1 g00 f0 p1 p1";
    let row = Row {
        scripts: &[one_more, COPY, PRINT],
        schedule: b"00011100001110000111000111222222220",
        ..SUMS
    };
    assert!(rt; accepts(rt.alloc(), bound::SUMS, &row)?);
    Ok(())
}

/// What a reference names: `Zero`, nothing, or a point of a statement.
#[derive(Clone, Copy)]
enum Named {
    Zero,
    Empty,
    At(u32, i64),
}

fn seen(alloc: Global, named: Named) -> Seen {
    match named {
        Named::Zero => Seen::Zero,
        Named::Empty => Seen::Empty,
        Named::At(statement, turn) => Seen::At(point(alloc, statement, turn)),
    }
}

fn wanted(alloc: Global, named: Named) -> Wanted {
    match named {
        Named::At(statement, turn) => Wanted::At(point(alloc, statement, turn)),
        Named::Zero | Named::Empty => Wanted::Zero,
    }
}

fn tag(alloc: Global, entry: u32, found: Named, named: Named) -> Refusal {
    Refusal::Tag(entry, seen(alloc, found), wanted(alloc, named))
}

// Slots, scripts and schedules, with the entry that is told, what it names, and what it has to name.
static NAMED: [(&[u32], [&[u8]; 3], &[u8], u32, Named, Named); 4] = [
    (
        &[1, 1, 1],
        [SUM, b"g10 fz p2 g10 f0 p2 g10 f0 p2 g10 f0 p2", PRINT],
        SUMS_SCHEDULE,
        4,
        Named::Zero,
        Named::At(0, 0),
    ),
    (
        &[1, 1, 1],
        [b"f0 p0 p1 g00 f0 p0 p1 g00 f0 p0 p1 g00 f0 p1", COPY, PRINT],
        SUMS_SCHEDULE,
        0,
        Named::Empty,
        Named::Zero,
    ),
    (
        &[1, 1, 1],
        [SUM, b"f0 g10 p2 g10 f0 p2 g10 f0 p2 g10 f0 p2", PRINT],
        SUMS_SCHEDULE,
        3,
        Named::Empty,
        Named::At(0, 0),
    ),
    (
        &[1, 2, 1],
        [SUM, b"g10 g11 f1 p2 f0 p2 g10 f0 p2 g10 f0 p2", PRINT],
        b"0000000111",
        9,
        Named::At(0, 1),
        Named::At(0, 0),
    ),
];

static EARLY: [&[u8]; 4] = [
    b"g00 f0 p2 g00 f0 p2 f0 p2",
    b"f p1 f p1 f p1",
    b"g10 f0 p0 g10 f0 p0 g10 f0",
    b"g20 f0 g20 f0 g20 f0",
];

#[test]
fn references_that_name_another_point_are_refused(rt: HostRuntime) -> Result<(), Fail> {
    let alloc = rt.alloc();
    for (slots, scripts, schedule, entry, found, named) in &NAMED {
        let row = Row {
            slots: *slots,
            scripts,
            schedule: *schedule,
            ..SUMS
        };
        assert!(rt; refuses(alloc, bound::SUMS, &row, tag(alloc, *entry, *found, *named))?);
    }
    let early = Row {
        scripts: &EARLY,
        schedule: b"1122200",
        ..DELAYED
    };
    assert!(rt;
        refuses(
            alloc,
            bound::DELAYED,
            &early,
            tag(alloc, 6, Named::At(2, 0), Named::Zero)
        )?
    );
    Ok(())
}

#[test]
fn classes_that_are_not_those_of_the_uses_are_refused(rt: HostRuntime) -> Result<(), Fail> {
    let alloc = rt.alloc();
    for (classes, channel, said) in [
        ([IN_ORDER, IN_ORDER, REPEATED], 2, REPEATED),
        ([IN_ORDER, REORDERED, REPEATED], 1, REORDERED),
    ] {
        let row = Row {
            classes: &classes,
            ..SUMS
        };
        assert!(rt;
            refuses(
                alloc,
                bound::SUMS,
                &row,
                Refusal::Class(channel, said, IN_ORDER)
            )?
        );
        let cut_off = Row {
            schedule: b"000",
            ..row
        };
        assert!(rt; refuses(alloc, bound::SUMS, &cut_off, Refusal::Unended(0))?);
    }
    Ok(())
}
