ghost use Rattle.std.specs.Prelude.{◌≡◌, [], length};
ghost use Rattle.matrix_load.specs.Summary.{wrapping_sum as sum_of};
ghost use Rattle.net_text.specs.NetworkText.{event_count as count_of_events};
ghost use Rattle.command_answers.specs.Judging.{Judges};
ghost use Rattle.command_answers.specs.Load.{Loads, product_cells};
ghost use Rattle.command_answers.specs.Replying.{as_reply};

use crate::answer::Answer;
use crate::network_run::{NetworkRun, run_by_threads};
use crate::refusal::{Stop, too_many_rows};
use crate::source::size_of;
use io_edge::Gate;
use matrix_load::{Summary, matrix_inputs, matrix_nest, wrapping_sum};
use net_text::event_count;
use sanlp::Arrays;
use std::alloc::Global;
use std::sync::Wait;
use std::thread::Threads;
use witness_plan::Policy;

/// The most rows that the matrices may have.
const LOAD_LIMIT: u64 = 2_147_483_647;

fn product_sum(arrays: &Arrays) -> i64
    ensures { result ≡ sum_of (product_cells arrays.now.arrays) }
{
    match arrays.arrays.get(2) {
        Some(cells) => wrapping_sum(cells.as_slice()),
        None => wrapping_sum(&[]),
    }
}

fn summary_of(run: &NetworkRun) -> Summary
    ensures points { result.points ≡ run.now.entries }
    ensures channels { result.channels ≡ length run.now.network.channels }
    ensures events { result.events ≡ count_of_events run.now.network }
    ensures sum { result.sum ≡ sum_of (product_cells run.now.arrays.arrays) }
{
    Summary {
        points: run.entries,
        channels: run.network.channels.len() as u64,
        events: event_count(&run.network),
        sum: product_sum(&run.arrays),
    }
}

/// The summary of the product of two matrices with so many rows, which is run by its network with one thread for each process.
pub fn load<R: Threads + Wait + Sync, G: Gate + Sync>(
    rt: &R,
    alloc: Global,
    policy: Policy,
    rows: u64,
    gate: &G,
) -> Result<Answer, Stop>
    ensures { Judges (λ answer. Loads policy rows (as_reply answer)) result }
{
    if rows > LOAD_LIMIT {
        return Err(Stop::Refused(too_many_rows()));
    }
    let count = rows as u32;
    let nest = matrix_nest(alloc, count)?;
    size_of(&nest)?;
    let inputs = matrix_inputs(alloc, count)?;
    let run = run_by_threads(rt, alloc, &nest, &inputs, policy, gate)?;
    Ok(Answer::Summary(summary_of(&run)))
}
