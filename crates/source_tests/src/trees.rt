//! Tests of `last_writer::source_of`, `lex_max::candidate` and `stride_trees::stride_candidate`: at each point of a reader their
//! trees give what `sweep` finds there.

use crate::bound::nest;
use crate::given::{Turn, gives};
use crate::programs::{
    BACKWARDS, BEFORE, BETWEEN, BOTH, DELAYED, GUARDED, GUARDED_BELOW, INCREMENT, LAST_OF_ROW,
    MANY_WRITERS, ONE_OF_TWO, PRODUCT, RANDOM, RUNNING_SUM, STENCIL, STEPPED, STRIDED, TRIANGLE,
    TWICE, TWO_CASES, TWO_LOOPS,
};
use affine_core::Vector;
use last_writer::{in_difference_class, source_of, write_to};
use lex_max::candidate;
use loop_walk::{points, size};
use plain_data::Items;
use sanlp::{Nest, Points, Tag};
use shadow_sweep::sweep;
use source_tree::{Reference, SourceTable, Tree};
use std::alloc::{AllocError, Global};
use std::test::Fail;
use stride_trees::stride_candidate;
use tree_cuts::in_stride_class;
use tree_order::level_count;

// A nest with its points, and a read of it.
#[derive(Clone, Copy)]
struct Asked<'a> {
    nest: &'a Nest,
    points: &'a Points,
    statement: u32,
    read: u32,
}

// Which trees are made of a read: that of all writers, or for each writer and level the tree of the writes that differ from the
// read by constants, or by strides.
#[derive(Clone, Copy)]
pub(crate) enum Kind {
    Joined,
    Differences,
    Strides,
}

// So many statements, or reads of one.
fn count_of(count: usize) -> Result<u32, Fail> {
    match u32::try_from(count) {
        Ok(count) => Ok(count),
        Err(_) => Err(Fail::from("the nest is large")),
    }
}

// The tree of a read in the class.
pub(crate) fn joined(alloc: Global, nest: &Nest, statement: u32, read: u32) -> Result<Tree, Fail> {
    if !in_stride_class(nest, statement, read) {
        return Err(Fail::from("the read is not in the class"));
    }
    Ok(source_of(alloc, nest, statement, read)?)
}

// The tree of the writes of a statement at a level of order before a read, where there are any and
// the read is in the class.
fn tree_of_differences(
    alloc: Global,
    nest: &Nest,
    (statement, read): (u32, u32),
    writer: u32,
    level: u32,
) -> Result<Option<Tree>, AllocError> {
    let (Some(reading), Some(writing)) = (
        nest.statements.get(statement as usize),
        nest.statements.get(writer as usize),
    ) else {
        return Ok(None);
    };
    let Some(access) = reading.reads.get(read as usize) else {
        return Ok(None);
    };
    let Some(write) = write_to(access.array, writer, writing) else {
        return Ok(None);
    };
    let reference = Reference {
        number: statement,
        statement: reading,
        access,
    };
    if level as usize >= level_count(&write, &reference) {
        return Ok(None);
    }
    if !in_difference_class(nest, statement, read) {
        return Ok(None);
    }
    Ok(Some(candidate(alloc, nest, statement, read, writer, level)?))
}

// The same for the stride class.
fn tree_of_strides(
    alloc: Global,
    nest: &Nest,
    (statement, read): (u32, u32),
    writer: u32,
    level: u32,
) -> Result<Option<Tree>, AllocError> {
    let (Some(reading), Some(writing)) = (
        nest.statements.get(statement as usize),
        nest.statements.get(writer as usize),
    ) else {
        return Ok(None);
    };
    let Some(access) = reading.reads.get(read as usize) else {
        return Ok(None);
    };
    let Some(write) = write_to(access.array, writer, writing) else {
        return Ok(None);
    };
    let reference = Reference {
        number: statement,
        statement: reading,
        access,
    };
    if level as usize >= level_count(&write, &reference) {
        return Ok(None);
    }
    if !in_stride_class(nest, statement, read) {
        return Ok(None);
    }
    Ok(Some(stride_candidate(alloc, nest, statement, read, writer, level)?))
}

// The trees of a read: one, or those of each writer and level, in this order.
fn trees_of(alloc: Global, asked: &Asked, kind: Kind) -> Result<Items<Tree>, Fail> {
    let (nest, read) = (asked.nest, (asked.statement, asked.read));
    let mut trees = Items::new(alloc);
    if let Kind::Joined = kind {
        trees.push(joined(alloc, nest, asked.statement, asked.read)?)?;
        return Ok(trees);
    }
    let writers = count_of(nest.statements.len())?;
    for writer in 0..writers {
        for level in 0..7 {
            let made = match kind {
                Kind::Differences => tree_of_differences(alloc, nest, read, writer, level)?,
                _ => tree_of_strides(alloc, nest, read, writer, level)?,
            };
            let Some(tree) = made else {
                continue;
            };
            trees.push(tree)?;
        }
    }
    Ok(trees)
}

// Whether the last of these trees that gives a turn gives this one, or none of them any.
fn give(
    alloc: Global,
    trees: &[Tree],
    at: &[i64],
    wanted: Option<Turn>,
) -> Result<bool, AllocError> {
    for tree in trees.iter().rev() {
        if !gives(alloc, tree, at, None)? {
            return gives(alloc, tree, at, wanted);
        }
    }
    Ok(wanted.is_none())
}

// The turn of a tag.
fn turn_of(points: &Points, tag: Tag) -> Option<Turn> {
    let number = tag.process as usize;
    let at = points.of.get(number)?.get(tag.turn as usize)?;
    Some(Turn {
        number,
        at: at.as_slice(),
    })
}

// Whether the trees give at each of these points the source beside it.
fn give_sources(
    alloc: Global,
    points: &Points,
    trees: &[Tree],
    vectors: &[Vector],
    sources: &[Option<Tag>],
) -> Result<bool, AllocError> {
    for (at, source) in vectors.iter().zip(sources) {
        let wanted = match source {
            Some(tag) => turn_of(points, *tag),
            None => None,
        };
        if wanted.is_some() != source.is_some() || !give(alloc, trees, at.as_slice(), wanted)? {
            return Ok(false);
        }
    }
    Ok(vectors.len() == sources.len())
}

// Whether the trees of a read give at each of these points the source beside it.
fn is_right(
    alloc: Global,
    asked: &Asked,
    kind: Kind,
    vectors: &[Vector],
    sources: &[Option<Tag>],
) -> Result<bool, Fail> {
    let trees = trees_of(alloc, asked, kind)?;
    let right = give_sources(alloc, asked.points, trees.as_slice(), vectors, sources);
    drop(trees);
    Ok(right?)
}

// Whether the trees of each read of a nest give at each point what the table has there.
fn all_have_sources(
    alloc: Global,
    nest: &Nest,
    points: &Points,
    kind: Kind,
    table: &SourceTable,
) -> Result<bool, Fail> {
    let mut number: usize = 0;
    let statements = count_of(nest.statements.len())?;
    for statement in 0..statements {
        let (Some(reader), Some(vectors)) = (
            nest.statements.get(statement as usize),
            points.of.get(statement as usize),
        ) else {
            return Ok(false);
        };
        let reads = count_of(reader.reads.len())?;
        for read in 0..reads {
            let asked = Asked {
                nest,
                points,
                statement,
                read,
            };
            let Some(sources) = table.of.get(number) else {
                return Ok(false);
            };
            if !is_right(alloc, &asked, kind, vectors.as_slice(), sources.as_slice())? {
                return Ok(false);
            }
            number = number.saturating_add(1);
        }
    }
    Ok(true)
}

// Whether the trees of each read of a source give at each point what `sweep` finds there.
pub(crate) fn all_are_right(
    alloc: Global,
    source: &[u8],
    n: i64,
    kind: Kind,
) -> Result<bool, Fail> {
    let nest = nest(alloc, source, n)?;
    if size(&nest).is_err() {
        return Err(Fail::from("the nest is large"));
    }
    let points = points(alloc, &nest)?;
    let table = sweep(alloc, &nest, &points)?;
    all_have_sources(alloc, &nest, &points, kind, &table)
}

// Whether each read of a table has a last writer at some point.
fn has_writers(table: &SourceTable) -> bool {
    for sources in table.of.as_slice() {
        if sources.as_slice().iter().all(|source| source.is_none()) {
            return false;
        }
    }
    true
}

// Whether each read of a source has a last writer at some point.
fn all_have_writers(alloc: Global, source: &[u8], n: i64) -> Result<bool, Fail> {
    let nest = nest(alloc, source, n)?;
    if size(&nest).is_err() {
        return Err(Fail::from("the nest is large"));
    }
    let points = points(alloc, &nest)?;
    let table = sweep(alloc, &nest, &points)?;
    Ok(has_writers(&table))
}

// Sources, and the greatest N.
static SOURCES: [(&[u8], i64); 14] = [
    (STRIDED, 7),
    (STEPPED, 7),
    // upsampling
    (
        b"param N; in x[N], h[3]; out y[2 * N]; var longer[2 * N]; \
        for (n = 0; n < N; n++) longer[2 * n] = x[n]; \
        for (n = 0; n < 2 * N; n++) { y[n] = 0; \
        for (k = 0; k < 3; k++) { if (k <= n) y[n] = y[n] + h[k] * longer[n - k]; } }",
        7,
    ),
    // red-black sweeps
    (
        b"param N; inout a[N]; for (t = 0; t < 3; t++) { \
        for (i = 1; i < N - 1; i += 2) a[i] = a[i - 1] + a[i + 1]; \
        for (i = 2; i < N - 1; i += 2) a[i] = a[i - 1] + a[i + 1]; }",
        7,
    ),
    // butterflies
    (
        b"param N; in x[4 * N]; out y[4 * N]; var s[4 * N]; \
        for (i = 0; i < 2 * N; i++) { s[2 * i] = x[2 * i] + x[2 * i + 1]; \
        s[2 * i + 1] = x[2 * i] - x[2 * i + 1]; } \
        for (b = 0; b < N; b++) { y[4 * b] = s[4 * b] + s[4 * b + 2]; \
        y[4 * b + 1] = s[4 * b + 1] + s[4 * b + 3]; y[4 * b + 2] = s[4 * b] - s[4 * b + 2]; \
        y[4 * b + 3] = s[4 * b + 1] - s[4 * b + 3]; }",
        7,
    ),
    (INCREMENT, 5),
    (RUNNING_SUM, 5),
    (DELAYED, 5),
    (TWO_CASES, 5),
    (LAST_OF_ROW, 5),
    (PRODUCT, 3),
    (STENCIL, 4),
    (TRIANGLE, 4),
    (MANY_WRITERS, 4),
];

#[test]
fn trees_have_the_last_writes(rt: HostRuntime) -> Result<(), Fail> {
    for (source, most) in &SOURCES {
        for n in 0..=*most {
            assert!(rt; all_are_right(rt.alloc(), source, n, Kind::Joined)?);
        }
    }
    for source in &RANDOM {
        for n in 2..7 {
            assert!(rt; all_are_right(rt.alloc(), source, n, Kind::Joined)?);
        }
    }
    Ok(())
}

// Sources, and the greatest N, at which each read has a last writer somewhere. What is read was written last by the statement of
// the greatest number that wrote it before, and most loops deep.
static BY_WRITER: [(&[u8], Kind, i64); 17] = [
    (INCREMENT, Kind::Differences, 5),
    (RUNNING_SUM, Kind::Differences, 5),
    (TWO_CASES, Kind::Differences, 5),
    (LAST_OF_ROW, Kind::Differences, 5),
    (PRODUCT, Kind::Differences, 3),
    (STENCIL, Kind::Differences, 4),
    (STRIDED, Kind::Strides, 5),
    (STEPPED, Kind::Strides, 5),
    (BACKWARDS, Kind::Strides, 5),
    (GUARDED, Kind::Strides, 5),
    (GUARDED_BELOW, Kind::Strides, 5),
    (ONE_OF_TWO, Kind::Strides, 5),
    (BEFORE, Kind::Strides, 5),
    (TWO_LOOPS, Kind::Strides, 7),
    (BOTH, Kind::Strides, 3),
    (TWICE, Kind::Strides, 3),
    (BETWEEN, Kind::Strides, 3),
];

#[test]
fn trees_of_each_writer_and_level_have_the_last_writes(rt: HostRuntime) -> Result<(), Fail> {
    for (source, kind, most) in &BY_WRITER {
        for n in 0..=*most {
            assert!(rt; all_are_right(rt.alloc(), source, n, *kind)?);
        }
        assert!(rt; all_have_writers(rt.alloc(), source, *most)?);
    }
    Ok(())
}

fn leaf_count(tree: &Tree) -> usize {
    match tree {
        Tree::Test(_, above, below) => {
            leaf_count(above.get()).saturating_add(leaf_count(below.get()))
        }
        _ => 1,
    }
}

// Turns, and the turns before.
static TURNS: [(&[i64], &[i64]); 2] = [(&[1], &[0]), (&[999_999_999], &[999_999_998])];

// Whether a tree has two leaves: at the first turn it gives nobody's, and at the others that of the turn before.
fn is_small(alloc: Global, tree: &Tree) -> Result<bool, AllocError> {
    if leaf_count(tree) != 2 || !gives(alloc, tree, &[0], None)? {
        return Ok(false);
    }
    for (at, before) in &TURNS {
        let wanted = Turn {
            number: 1,
            at: *before,
        };
        if !gives(alloc, tree, at, Some(wanted))? {
            return Ok(false);
        }
    }
    Ok(true)
}

#[test]
fn a_tree_is_as_small_at_any_size(rt: HostRuntime) -> Result<(), Fail> {
    let nest = nest(rt.alloc(), RUNNING_SUM, 1_000_000_000)?;
    let tree = joined(rt.alloc(), &nest, 1, 0)?;
    let small = is_small(rt.alloc(), &tree);
    drop(tree);
    assert!(rt; small?);
    Ok(())
}

// Two reads of cells that are written at even places: one at even places, one at odd ones.
const EVEN: &[u8] = b"param N; in x[N]; out y[N], z[N]; var a[2 * N]; \
    for (i = 0; i < N; i++) a[2 * i] = x[i]; \
    for (i = 0; i < N; i++) { y[i] = a[2 * i]; z[i] = a[2 * i + 1]; }";

// A read of cells at odd places, of which every fourth is written, from the first on.
const FOURTH: &[u8] = b"param N; in x[N]; out y[N]; var a[4 * N]; \
    for (i = 0; i < N; i++) a[4 * i] = x[i]; \
    for (i = 0; i < N; i++) y[i] = a[2 * i + 1];";

fn is_dead(tree: &Tree) -> bool {
    match tree {
        Tree::Dead(_) => true,
        _ => false,
    }
}

// How many tests of divisibility a tree has, and how many of them have more than a Dead leaf at their no.
fn test_counts(tree: &Tree) -> (usize, usize) {
    match tree {
        Tree::Test(_, above, below) => {
            let (first, second) = (test_counts(above.get()), test_counts(below.get()));
            (
                first.0.saturating_add(second.0),
                first.1.saturating_add(second.1),
            )
        }
        Tree::Divides(_, _, above, below) => {
            let (first, second) = (test_counts(above.get()), test_counts(below.get()));
            let open: usize = if is_dead(below.get()) { 0 } else { 1 };
            (
                first.0.saturating_add(second.0).saturating_add(1),
                first.1.saturating_add(second.1).saturating_add(open),
            )
        }
        _ => (0, 0),
    }
}

// Sources, a statement, a read, and the counts of its tree.
static TESTS: [(&[u8], u32, u32, (usize, usize)); 4] = [
    (STRIDED, 2, 0, (1, 1)),
    // it always divides
    (EVEN, 2, 0, (1, 0)),
    // it never does
    (EVEN, 3, 0, (0, 0)),
    // it never does, since the form is odd
    (FOURTH, 2, 0, (0, 0)),
];

#[test]
fn a_test_that_its_form_decides_has_one_side(rt: HostRuntime) -> Result<(), Fail> {
    for (source, statement, read, wanted) in &TESTS {
        let nest = nest(rt.alloc(), source, 5)?;
        let tree = joined(rt.alloc(), &nest, *statement, *read)?;
        let counts = test_counts(&tree);
        drop(tree);
        assert!(rt; counts == *wanted);
    }
    Ok(())
}

pub(crate) fn node_count(tree: &Tree) -> usize {
    match tree {
        Tree::Test(_, above, below) => node_count(above.get())
            .saturating_add(node_count(below.get()))
            .saturating_add(1),
        Tree::Divides(_, _, above, below) => node_count(above.get())
            .saturating_add(node_count(below.get()))
            .saturating_add(1),
        _ => 1,
    }
}

// Sources, a statement, a read, and the nodes of its tree: the test of divisibility, and a leaf on each side.
static SIZES: [i64; 3] = [1, 5, 1_000_000_000];

static THREE: [(&[u8], u32, u32); 3] = [(STRIDED, 2, 0), (EVEN, 2, 0), (STEPPED, 2, 0)];

#[test]
fn what_bounds_tell_of_a_quotient_is_not_asked(rt: HostRuntime) -> Result<(), Fail> {
    for n in &SIZES {
        for (source, statement, read) in &THREE {
            let nest = nest(rt.alloc(), source, *n)?;
            let tree = joined(rt.alloc(), &nest, *statement, *read)?;
            let count = node_count(&tree);
            drop(tree);
            assert!(rt; count == 3);
        }
    }
    Ok(())
}
