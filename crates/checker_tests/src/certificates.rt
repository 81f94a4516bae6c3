//! Tests of `net_checker::check` with certificates that give trees, by the lines that tell its verdicts.

use crate::bound;
use crate::verdicts::{IN_ORDER, Row, SUMS, verdict_of};
use cert_lines::Lines;
use io_edge::MemSink;
use net_checker::Verdict;
use plain_data::{Boxed, Items};
use source_tree::{Origin, Tree};
use std::alloc::{AllocError, Global};
use std::process::Abort;
use std::test::Fail;
use tree_text::read_tree;
use verdict_text::write_verdict;

// Statement 0 brings x, statement 1 is the copy, and statement 2 takes y.
const COPY: &[u8] = b"in x[1]; out y[1]; for (i = 0; i < 1; i++) y[i] = x[i];";

const COPIES: &[u8] = b"in x[3]; out y[3]; for (i = 0; i < 3; i++) y[i] = x[i];";

const COPY_ROW: Row = Row {
    slots: &[0, 1, 1],
    scripts: &[b"f p0", b"g00 f0 p1", b"g10 f0"],
    channels: &[(0, 1, 0, 1), (1, 2, 0, 1)],
    classes: &[IN_ORDER, IN_ORDER],
    sources: 2,
    schedule: b"0011122",
};

const COPIES_ROW: Row = Row {
    slots: &[0, 1, 1],
    scripts: &[
        b"f p0 f p0 f p0",
        b"g00 f0 p1 g00 f0 p1 g00 f0 p1",
        b"g10 f0 g10 f0 g10 f0",
    ],
    channels: &[(0, 1, 0, 3), (1, 2, 0, 3)],
    classes: &[IN_ORDER, IN_ORDER],
    sources: 2,
    schedule: b"000000111111111222222",
};

// The parts of a tree's text; none for a sweep.
type Text = &'static [&'static [u8]];

const SWEEP: Text = &[];

const ACCEPTED: &[u8] = b"accepted\n";

// The tree whose text has these parts.
fn tree(alloc: Global, parts: &[&[u8]]) -> Result<Tree, Fail> {
    let mut text = Vec::new(alloc);
    for part in parts {
        text.extend_from_slice(*part)?;
    }
    let mut lines = Lines::new(text.as_slice());
    let tree = read_tree(alloc, &mut lines)?.into_inner();
    match lines.end() {
        Ok(()) => Ok(tree),
        Err(error) => {
            drop(tree);
            Err(Fail::from(error))
        }
    }
}

fn origin(alloc: Global, text: Text) -> Result<Origin, Fail> {
    if text.is_empty() {
        return Ok(Origin::Sweep);
    }
    Ok(Origin::Tree(Boxed::new(alloc, tree(alloc, text)?)?))
}

fn add_origin(alloc: Global, origins: &mut Items<Origin>, text: Text) -> Result<(), Fail> {
    let origin = origin(alloc, text)?;
    Ok(origins.push(origin)?)
}

fn origins(alloc: Global, texts: &[Text]) -> Result<Items<Origin>, Fail> {
    let mut origins = Items::new(alloc);
    for text in texts {
        if let Err(error) = add_origin(alloc, &mut origins, *text) {
            drop(origins);
            return Err(error);
        }
    }
    Ok(origins)
}

// What the line of a verdict is written to.
fn told(alloc: Global, verdict: Verdict) -> Result<MemSink, Fail> {
    let mut sink = match MemSink::new(alloc, 100, 100, &[]) {
        Ok(sink) => sink,
        Err(error) => {
            drop(verdict);
            return Err(Fail::from(error));
        }
    };
    let written = write_verdict(&verdict, &mut sink);
    drop(verdict);
    written?;
    Ok(sink)
}

// The same, where the reads of a source have these origins.
fn told_of(
    alloc: Global,
    source: &[u8],
    row: &Row,
    origins: Items<Origin>,
) -> Result<MemSink, Fail> {
    let verdict = verdict_of(alloc, source, row, origins)?;
    told(alloc, verdict)
}

// Whether this is the line, or what comes behind the words that tell that a source is refused.
fn says(line: &[u8], wanted: &[u8]) -> bool {
    match line.strip_prefix(b"refused Source ") {
        Some(rest) => rest == wanted,
        None => line == wanted,
    }
}

// That each of these trees of the reads in order gets its line.
fn all_told(
    rt: &(impl Abort + AllocGlobal),
    source: &[u8],
    row: Row,
    cases: &[(&[Text], &[u8])],
) -> Result<(), Fail> {
    let alloc = rt.alloc();
    for (texts, line) in cases {
        let sink = told_of(alloc, source, &row, origins(alloc, *texts)?)?;
        assert!(rt; says(sink.held(), *line));
    }
    Ok(())
}

// A tree of the first read of a nest, of which one part is left out; the other reads are swept.
#[derive(Clone, Copy)]
struct Within {
    source: &'static [u8],
    row: Row<'static>,
    head: Text,
    tail: Text,
}

// Adds sweeps for the reads behind the first.
fn add_sweeps(origins: &mut Items<Origin>, sources: u32) -> Result<(), AllocError> {
    for _ in 1..sources {
        origins.push(Origin::Sweep)?;
    }
    Ok(())
}

// The first read's tree where that part is this one.
fn filled(alloc: Global, within: &Within, part: &'static [u8]) -> Result<Tree, Fail> {
    let mut parts = Vec::from_slice(alloc, within.head)?;
    parts.push(part)?;
    parts.extend_from_slice(within.tail)?;
    let tree = tree(alloc, parts.as_slice());
    drop(parts);
    tree
}

// The origins of the reads where that part is this one.
fn whole(alloc: Global, within: &Within, part: &'static [u8]) -> Result<Items<Origin>, Fail> {
    let origin = Origin::Tree(Boxed::new(alloc, filled(alloc, within, part)?)?);
    let mut origins = Items::new(alloc);
    let added = origins.push(origin);
    let swept = add_sweeps(&mut origins, within.row.sources);
    if added.is_ok() && swept.is_ok() {
        return Ok(origins);
    }
    drop(origins);
    Err(Fail::from(AllocError))
}

// That each of these parts gets its line.
fn parts_told(
    rt: &(impl Abort + AllocGlobal),
    within: &Within,
    cases: &[(&'static [u8], &[u8])],
) -> Result<(), Fail> {
    let alloc = rt.alloc();
    for (part, line) in cases {
        let sink = told_of(
            alloc,
            within.source,
            &within.row,
            whole(alloc, within, *part)?,
        )?;
        assert!(rt; says(sink.held(), *line));
    }
    Ok(())
}

// The leaves of the copy's read and of the sink's: the reader's own turn. Behind the map they prove that the point is
// neither below nor above the domain, that it writes no other cell, and that nothing is written between.
const COPY_LEAF: &[u8] = b"w 0 1 5\nm 0 1\n";

const SINK_LEAF: &[u8] = b"w 1 1 5\nm 0 1\n";

const INSIDE: &[u8] = b"s 0 1 2 1\ns 1 1 2 1\n";

const CELL: &[u8] = b"s 2 1\ns 2 1\n";

const BETWEEN: &[u8] = b"s 5 1 6 1\n";

const COPY_TREE: Text = &[COPY_LEAF, INSIDE, CELL, BETWEEN];

const SINK_TREE: Text = &[SINK_LEAF, INSIDE, CELL, BETWEEN];

// The sums. Statement 0 adds its turn to v, and statement 1 copies v. From turn 1 on statement 0 reads what it wrote a
// turn before, and at turn 0 nothing was written. Rows 0 to 2 are the reader's domain and the test.
const FROM_1: &[u8] = b"t -1 1\n";

const BEFORE_LEAF: &[u8] = b"w 0 1 5\nm -1 1\n";

const BEFORE_LOWER: &[u8] = b"s 2 1 3 1\n";

const BEFORE_REST: &[u8] = b"s 1 1 3 1\ns 3 1\ns 4 1\ns 5 1 6 1\n";

const FIRST: &[u8] = b"z 1\ns 2 1 3 1 5 1\n";

const RUNNING: Text = &[FROM_1, BEFORE_LEAF, BEFORE_LOWER, BEFORE_REST, FIRST];

const COPIED: Text = &[b"w 0 1 5\nm 0 1\ns 0 1 2 1\ns 1 1 2 1\ns 2 1\ns 4 1 5 1\ns 5 1 6 1\n"];

static OF_COPIES: [(&[Text], &[u8]); 3] = [
    (&[COPY_TREE, SWEEP], ACCEPTED),
    (&[SWEEP, SINK_TREE], ACCEPTED),
    (&[COPY_TREE, SINK_TREE], ACCEPTED),
];

static OF_SUMS: [(&[Text], &[u8]); 3] = [
    (&[RUNNING, SWEEP, SWEEP], ACCEPTED),
    (&[SWEEP, COPIED, SWEEP], ACCEPTED),
    (&[RUNNING, COPIED, SWEEP], ACCEPTED),
];

#[test]
fn trees_stand_for_a_sweep(rt: HostRuntime) -> Result<(), Fail> {
    all_told(&rt, COPY, COPY_ROW, &OF_COPIES)?;
    all_told(&rt, COPIES, COPIES_ROW, &OF_COPIES)?;
    all_told(&rt, bound::SUMS, SUMS, &OF_SUMS)
}

static NOT_CHECKED: [(&[Text], &[u8]); 7] = [
    (
        &[&[b"w 0 1 5\nm 1 1\n", INSIDE, CELL, BETWEEN], SWEEP],
        b"1 0 Proof 0 1 NotContradictory\n",
    ),
    (
        &[&[COPY_LEAF, INSIDE, CELL, b"s 5 1\n"], SWEEP],
        b"1 0 Proof 0 4 NotContradictory\n",
    ),
    (
        &[&[COPY_LEAF, INSIDE, CELL, b"s 5 1 7 1\n"], SWEEP],
        b"1 0 Proof 0 4 BadIndex\n",
    ),
    (
        &[&[COPY_LEAF, INSIDE, CELL, b"s 5 -1 6 1\n"], SWEEP],
        b"1 0 Proof 0 4 Negative\n",
    ),
    (
        &[&[b"w 0 1 4\nm 0 1\n", INSIDE, CELL], SWEEP],
        b"1 0 Proofs 0 4 5\n",
    ),
    (&[SINK_TREE, SWEEP], b"1 0 NoWriter 0\n"),
    (
        &[&[b"w 0 0 5\n", INSIDE, CELL, BETWEEN], SWEEP],
        b"1 0 BadForm 0\n",
    ),
];

#[test]
fn trees_that_are_not_checked_are_refused(rt: HostRuntime) -> Result<(), Fail> {
    all_told(&rt, COPY, COPY_ROW, &NOT_CHECKED)
}

static FIRES: [(&[Text], &[u8]); 1] = [(&[SINK_TREE, COPY_TREE], b"refused Fires 1 1\n")];

static UNFIRED: [(&[Text], &[u8]); 3] = [
    (&[SINK_TREE, COPY_TREE], b"1 0 NoWriter 0\n"),
    (&[COPY_TREE, COPY_TREE], b"2 0 NoWriter 0\n"),
    (&[COPY_TREE, SINK_TREE], b"refused NotEnabled 0\n"),
];

// The fires are looked at before the sources, the sources in their order, and the schedule after them.
#[test]
fn the_first_reason_decides(rt: HostRuntime) -> Result<(), Fail> {
    let too_few = Row {
        scripts: &[b"f p0", b"g00 p1 f0", b"g10 f0"],
        ..COPY_ROW
    };
    let unfired = Row {
        scripts: &[b"f p0", b"g00 f0 p1", b"g10 fz"],
        schedule: b"1",
        ..COPY_ROW
    };
    all_told(&rt, COPY, too_few, &FIRES)?;
    all_told(&rt, COPY, unfired, &UNFIRED)
}

// A test of a form that leaves 128 bits at turn 1.
const OVERFLOWING: Text = &[
    b"t 1 170141183460469231731687303715884105727\n",
    b"w 0 1 5\nm 0 1\ns 0 1 3 1\ns 1 1 3 1\ns 3 1\ns 3 1\ns 6 1 7 1\n",
    b"x\ns 0 170141183460469231731687303715884105727 2 1\n",
];

static OVERFLOWS: [(&[Text], &[u8]); 1] = [(&[OVERFLOWING, SWEEP], b"1 0 Overflow 1\n")];

static FITS: [(&[Text], &[u8]); 1] = [(&[OVERFLOWING, SWEEP], ACCEPTED)];

#[test]
fn checked_trees_that_overflow_are_refused(rt: HostRuntime) -> Result<(), Fail> {
    all_told(&rt, COPIES, COPIES_ROW, &OVERFLOWS)?;
    all_told(&rt, COPY, COPY_ROW, &FITS)
}

static OF_OTHER_READS: [(&[Text], &[u8]); 3] = [
    (&[COPIED, SWEEP, SWEEP], b"0 0 Proof 0 3 BadIndex\n"),
    (
        &[SWEEP, RUNNING, SWEEP],
        b"1 0 Proof 0 3 NotContradictory\n",
    ),
    (&[SWEEP, SWEEP, COPIED], b"2 0 NoWriter 0\n"),
];

#[test]
fn right_trees_of_other_reads_are_refused(rt: HostRuntime) -> Result<(), Fail> {
    all_told(&rt, bound::SUMS, SUMS, &OF_OTHER_READS)
}

static OF_BEFORE: Within = Within {
    source: bound::SUMS,
    row: SUMS,
    head: &[],
    tail: &[BEFORE_LOWER, BEFORE_REST, FIRST],
};

static TURNS: [(&[u8], &[u8]); 6] = [
    (b"t -1 1\nw 0 1 5\nm -1 1\n", ACCEPTED),
    // Two turns before: something is written between.
    (
        b"t -2 1\nw 0 1 5\nm -2 1\n",
        b"0 0 Proof 0 4 NotContradictory\n",
    ),
    // The turn itself, at which the read comes before the write.
    (
        b"t -1 1\nw 0 1 5\nm 0 1\n",
        b"0 0 Proof 0 3 NotContradictory\n",
    ),
    // The turn after it: behind the last turn there is none.
    (
        b"t -1 1\nw 0 1 5\nm 1 1\n",
        b"0 0 Proof 0 1 NotContradictory\n",
    ),
    // From turn 0 on: before it there is none.
    (
        b"t 0 1\nw 0 1 5\nm -1 1\n",
        b"0 0 Proof 0 0 NotContradictory\n",
    ),
    // A proof more than there are systems.
    (b"t -1 1\nw 0 1 6\nm -1 1\ns\n", b"0 0 Proofs 0 6 5\n"),
];

#[test]
fn leaves_of_another_turn_are_refused(rt: HostRuntime) -> Result<(), Fail> {
    parts_told(&rt, &OF_BEFORE, &TURNS)
}

static OF_NO_WRITER: Within = Within {
    source: bound::SUMS,
    row: SUMS,
    head: &[FROM_1],
    tail: &[FIRST],
};

static NO_WRITERS: [(&[u8], &[u8]); 3] = [
    // Something was written before turn 1.
    (b"z 1\ns 4 1\n", b"0 0 Proof 0 0 NotContradictory\n"),
    (b"z 0\n", b"0 0 Proofs 0 0 1\n"),
    // A turn comes there.
    (b"x\ns 2 1\n", b"0 0 Proof 0 0 NotContradictory\n"),
];

#[test]
fn leaves_without_a_writer_are_judged(rt: HostRuntime) -> Result<(), Fail> {
    parts_told(&rt, &OF_NO_WRITER, &NO_WRITERS)
}

// The proof that the point is not below the domain is another one: row 2 is `i - 1 >= 0`, and row 3 `-i >= 0`.
static OF_LOWER: Within = Within {
    source: bound::SUMS,
    row: SUMS,
    head: &[FROM_1, BEFORE_LEAF],
    tail: &[BEFORE_REST, FIRST],
};

static NUMBERS: [(&[u8], &[u8]); 10] = [
    (
        b"s 2 170141183460469231731687303715884105727 3 170141183460469231731687303715884105727\n",
        ACCEPTED,
    ),
    // The constant of the sum is the least number.
    (
        b"s 2 170141183460469231731687303715884105727 3 170141183460469231731687303715884105727 2 1 3 1\n",
        ACCEPTED,
    ),
    (
        b"s 2 170141183460469231731687303715884105727 3 170141183460469231731687303715884105727 2 2 3 2\n",
        b"0 0 Proof 0 0 Overflow\n",
    ),
    (
        b"s 2 170141183460469231731687303715884105727 2 1\n",
        b"0 0 Proof 0 0 Overflow\n",
    ),
    (
        b"s 2 -170141183460469231731687303715884105728 3 1\n",
        b"0 0 Proof 0 0 Negative\n",
    ),
    (b"s 4294967295 1\n", b"0 0 Proof 0 0 BadIndex\n"),
    (b"s 4 0\n", b"0 0 Proof 0 0 BadIndex\n"),
    // The proof of the next system.
    (b"s 1 1 3 1\n", b"0 0 Proof 0 0 NotContradictory\n"),
    (b"s\n", b"0 0 Proof 0 0 NotContradictory\n"),
    (b"s 2 0 3 0\n", b"0 0 Proof 0 0 NotContradictory\n"),
];

#[test]
fn proofs_are_judged_by_their_numbers(rt: HostRuntime) -> Result<(), Fail> {
    parts_told(&rt, &OF_LOWER, &NUMBERS)
}

// The second leaf is another one. Its rows are those of a reader i and of a writer j: `i >= 0`, `3 - i >= 0`, `-i >= 0`,
// `j >= 0`, `3 - j >= 0` and `i - j - 1 >= 0`.
static OF_SECOND: Within = Within {
    source: bound::SUMS,
    row: SUMS,
    head: &[FROM_1, BEFORE_LEAF, BEFORE_LOWER, BEFORE_REST],
    tail: &[],
};

static CUTS: [(&[u8], &[u8]); 12] = [
    (FIRST, ACCEPTED),
    (b"z 0\n", b"0 0 Proofs 1 0 1\n"),
    (b"z 1\nc 1 2 1 3 1 5 1\ns 6 1\n", ACCEPTED),
    // The sum is -1, and so is its half, rounded down.
    (b"z 1\nc 2 2 1 3 1 5 1\ns 6 1\n", ACCEPTED),
    (
        b"z 1\nc 170141183460469231731687303715884105727 2 1 3 1 5 1\ns 6 1\n",
        ACCEPTED,
    ),
    (
        b"z 1\nc 0 2 1 3 1 5 1\ns 6 1\n",
        b"0 0 Proof 1 0 Negative\n",
    ),
    (
        b"z 1\nc -1 2 1 3 1 5 1\ns 6 1\n",
        b"0 0 Proof 1 0 Negative\n",
    ),
    (b"z 1\nc 2 5 1\ns 6 1\n", b"0 0 Proof 1 0 NotDivisible\n"),
    (
        b"z 1\nc 2 2 1 3 1 5 1\ns 7 1\n",
        b"0 0 Proof 1 0 BadIndex\n",
    ),
    // Either j >= 1 or j <= 0.
    (b"z 1\nb -1 0 1\ns 2 1 3 1 5 1\ns 2 1 3 1 5 1\n", ACCEPTED),
    (
        b"z 1\nb -1 0 1\ns 2 1 3 1 5 1\ns 6 1\n",
        b"0 0 Proof 1 0 NotContradictory\n",
    ),
    (
        b"z 1\nb 0 1\ns 2 1 3 1 5 1\ns 2 1 3 1 5 1\n",
        b"0 0 Proof 1 0 BadIndex\n",
    ),
];

#[test]
fn cuts_and_splits_are_judged(rt: HostRuntime) -> Result<(), Fail> {
    parts_told(&rt, &OF_SECOND, &CUTS)
}

static OF_ALL: Within = Within {
    source: bound::SUMS,
    row: SUMS,
    head: &[],
    tail: &[],
};

static FORMS: [(&[u8], &[u8]); 8] = [
    (
        b"t -1 1 0 0 0 0 0 0 0 0 0 0 0 0 0 0 0 0 0\nz 0\nz 0\n",
        b"0 0 BadForm 0\n",
    ),
    (b"t -1\nz 0\nz 0\n", b"0 0 BadForm 0\n"),
    (
        b"w 0 1 0\nm -1 1 0 0 0 0 0 0 0 0 0 0 0 0 0 0 0 0 0\n",
        b"0 0 BadForm 0\n",
    ),
    (b"w 0 1 0\nm -1\n", b"0 0 BadForm 0\n"),
    (b"w 0 2 0\nm -1 1\nm 0 1\n", b"0 0 BadForm 0\n"),
    (b"w 4294967295 1 0\nm 0\n", b"0 0 BadForm 0\n"),
    (b"w 1 1 0\nm -1 1\n", b"0 0 NoWriter 0\n"),
    (b"w 4294967295 0 0\n", b"0 0 NoWriter 0\n"),
];

#[test]
fn forms_and_statements_are_judged_before_proofs(rt: HostRuntime) -> Result<(), Fail> {
    parts_told(&rt, &OF_ALL, &FORMS)
}

// The leaf of the copies' read below one `d`.
const QUOTIENT_LEAF: &[u8] = b"w 0 1 5\nm 0 1 0\ns 0 1 4 1\ns 1 1 4 1\ns 4 1\ns 4 1\ns 7 1 8 1\n";

static OF_DIVISOR: Within = Within {
    source: COPIES,
    row: COPIES_ROW,
    head: &[],
    tail: &[QUOTIENT_LEAF, QUOTIENT_LEAF],
};

static DIVISORS: [(&[u8], &[u8]); 6] = [
    (b"d 2 0 1\n", ACCEPTED),
    (b"d 3 -1 1\n", ACCEPTED),
    (b"d 170141183460469231731687303715884105727 0 1\n", ACCEPTED),
    (b"d 1 0 1\n", b"1 0 BadForm 0\n"),
    (b"d 0 0 1\n", b"1 0 BadForm 0\n"),
    (b"d -2 0 1\n", b"1 0 BadForm 0\n"),
];

#[test]
fn a_turn_may_be_divided(rt: HostRuntime) -> Result<(), Fail> {
    parts_told(&rt, &OF_DIVISOR, &DIVISORS)
}

// Six quotients of the copy's only turn 0, and the leaf below them.
const SIX: &[u8] =
    b"d 2 0 1\nd 2 0 1 0\nd 2 0 1 0 0\nd 2 0 1 0 0 0\nd 2 0 1 0 0 0 0\nd 2 0 1 0 0 0 0 0\n";

const SIX_LEAF: &[u8] =
    b"w 0 1 5\nm 0 1 0 0 0 0 0 0\ns 0 1 14 1\ns 1 1 14 1\ns 14 1\ns 14 1\ns 17 1 18 1\n";

// The turn is even, as a proof of its own says of each second branch.
const SIX_TREE: Text = &[
    SIX,
    SIX_LEAF,
    b"x\nc 2 1 1 12 1\nc 2 0 1 13 1\ns 14 1 15 1\n",
    b"x\nc 2 1 1 10 1\nc 2 0 1 11 1\ns 12 1 13 1\n",
    b"x\nc 2 1 1 8 1\nc 2 0 1 9 1\ns 10 1 11 1\n",
    b"x\nc 2 1 1 6 1\nc 2 0 1 7 1\ns 8 1 9 1\n",
    b"x\nc 2 1 1 4 1\nc 2 0 1 5 1\ns 6 1 7 1\n",
    b"x\nc 2 1 1 2 1\nc 2 0 1 3 1\ns 4 1 5 1\n",
];

const SEVEN_TREE: Text = &[
    SIX,
    b"d 2 0 1 0 0 0 0 0 0\n",
    b"z 0\nz 0\nz 0\nz 0\nz 0\nz 0\nz 0\nz 0\n",
];

static SIX_AND_SEVEN: [(&[Text], &[u8]); 2] = [
    (&[SIX_TREE, SWEEP], ACCEPTED),
    (&[SEVEN_TREE, SWEEP], b"1 0 BadForm 0\n"),
];

#[test]
fn a_path_has_at_most_six_quotients(rt: HostRuntime) -> Result<(), Fail> {
    all_told(&rt, COPY, COPY_ROW, &SIX_AND_SEVEN)
}

static NAMES_ZERO: [(&[Text], &[u8]); 2] = [
    (&[RUNNING, COPIED, SWEEP], b"refused Tag 7 zero 0(0)\n"),
    (&[SWEEP, SWEEP, SWEEP], b"refused Tag 7 zero 0(0)\n"),
];

// What a fire has to name is by a tree what it is by a sweep.
#[test]
fn a_tree_tells_what_a_reference_has_to_name(rt: HostRuntime) -> Result<(), Fail> {
    let row = Row {
        scripts: &[
            b"fz p0 p1 g00 fz p0 p1 g00 f0 p0 p1 g00 f0 p1",
            b"g10 f0 p2 g10 f0 p2 g10 f0 p2 g10 f0 p2",
            b"g20 f0 g20 f0 g20 f0 g20 f0",
        ],
        ..SUMS
    };
    all_told(&rt, bound::SUMS, row, &NAMES_ZERO)
}
