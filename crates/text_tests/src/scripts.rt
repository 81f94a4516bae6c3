//! Tests of `script_blocks`: that folding shortens.

use script_blocks::{Cursor, ScriptBuilder, fold};
use std::alloc::{AllocError, Global};
use std::test::Fail;

// A loop: how many turns it has, how often each of these stretches follows itself in a turn, and to how many nodes it folds at
// most.
type Loop = (u32, &'static [(u32, &'static [u32])], u64);

static LOOPS: [Loop; 10] = [
    (1, &[(1_000_000, &[1, 2])], 16),
    (1, &[], 0),
    (1, &[(1, &[7])], 1),
    (1, &[(1, &[7, 7, 7])], 2),
    (1, &[(1, &[1, 2, 1, 2, 1])], 4),
    (1, &[(1, &[3, 1, 2, 1, 2, 1, 2, 4])], 5),
    (1, &[(1, &[1, 2, 3, 1, 3, 2])], 6),
    // the inner loops of a matrix product: one more event after each innermost loop
    (64, &[(8, &[10, 11, 20]), (1, &[30])], 8),
    // a stencil, whose ends differ from its middle
    (
        12,
        &[
            (1, &[1, 2]),
            (20, &[1, 2, 3, 4]),
            (1, &[2, 3]),
            (20, &[5, 6]),
        ],
        16,
    ),
    // a long body in which nothing repeats
    (
        5,
        &[(1, &[1, 2, 3, 4, 5, 6, 7, 8, 9, 10, 11, 12, 13, 14, 15, 16])],
        17,
    ),
];

// Adds these items so many times.
fn add(items: &mut Vec<u32>, times: u32, stretch: &[u32]) -> Result<(), AllocError> {
    for _ in 0..times {
        items.extend_from_slice(stretch)?;
    }
    Ok(())
}

fn items_of(
    alloc: Global,
    turns: u32,
    stretches: &[(u32, &[u32])],
) -> Result<Vec<u32>, AllocError> {
    let mut items = Vec::new(alloc);
    for _ in 0..turns {
        for (times, stretch) in stretches {
            add(&mut items, *times, stretch)?;
        }
    }
    Ok(items)
}

#[test]
fn what_repeats_folds_to_few_nodes(rt: HostRuntime) -> Result<(), Fail> {
    for (turns, stretches, nodes) in &LOOPS {
        let items = items_of(rt.alloc(), *turns, stretches)?;
        let blocks = fold(rt.alloc(), items.as_slice())?;
        assert!(rt; blocks.nodes() <= *nodes);
        let mut cursor = Cursor::new(rt.alloc(), &blocks)?;
        assert!(rt; cursor.next(&blocks) == items.as_slice().first().copied());
    }
    Ok(())
}

#[test]
fn a_list_that_grew_is_a_script(rt: HostRuntime) -> Result<(), Fail> {
    let mut builder = ScriptBuilder::new(rt.alloc());
    builder.push(5u32)?;
    builder.push(6)?;
    let script = builder.script(rt.alloc())?;
    assert!(rt; script.len() == 2);
    Ok(())
}
