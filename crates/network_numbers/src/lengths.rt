ghost use Rattle.std.specs.Prelude.{◌≡◌, ◌<◌, ◌+◌, length, map, slice_index, slice_set, IfOk};
ghost use Rattle.channel_plan.specs.Plans.{plans_of};
ghost use Rattle.plan_numbers.specs.Numbers.{numbers_of};
ghost use Rattle.process_derive.specs.Derived.{net};
ghost use Rattle.sanlp.specs.Size.{SizeIsOk};
ghost use Rattle.source_tree.specs.Sources.{sources_of};
ghost use Rattle.witness_plan.specs.Sequential.{capacities, sequential_schedule};

use crate::entry::pass_run;
use crate::links::{channels_of_processes, read_lists};
use crate::queues::{QueueCounts, greatest_lengths};
use fire_runs::trace_runs;
use plan_numbers::PlanNumbers;
use sanlp::Nest;
use source_tree::SourceTable;
use std::alloc::{AllocError, Global};

// Counts so many turns more of a process, and answers the first of them.
fn next_turns(turns: &mut [usize], process: usize, count: usize) -> usize
    requires exists { process < length turns.old }
    requires few { slice_index turns.old process + count < 4294967296 }
    ensures turn { result ≡ slice_index turns.old process }
    ensures counted { turns.new
        ≡ slice_set turns.old process (slice_index turns.old process + count) }
{
    let turn = turns[process];
    turns[process] = turn + count;
    turn
}

/// The greatest length of each channel's queue along the sequential schedule, without the schedule. It goes once over the
/// trace, run by run, and in each run goes through the turns of the process once for each of its channels.
pub(crate) fn capacities(
    alloc: Global,
    nest: &Nest,
    plans: &[PlanNumbers],
    sources: &SourceTable,
) -> Result<Vec<u32>, AllocError>
    requires size { SizeIsOk nest.now }
    requires plans { plans.now ≡ map numbers_of (plans_of nest.now) }
    requires sources { sources.now.of ≡ sources_of nest.now }
    ensures { IfOk result (λ lengths.
        lengths.items ≡ capacities (net nest.now) (sequential_schedule nest.now)) }
{
    let table = sources.of.as_slice();
    let lists = read_lists(alloc, nest, plans)?;
    let channels = channels_of_processes(alloc, plans, nest.statements.len())?;
    let runs = trace_runs(alloc, nest)?;
    let mut turns = vec![in alloc; 0; nest.statements.len()]?;
    let mut queues = vec![in alloc; QueueCounts::EMPTY; plans.len()]?;
    for run in runs.as_slice() {
        let count = run.count;
        if count > 0 {
            let process = run.process as usize;
            let first = next_turns(&mut turns, process, count);
            pass_run(
                plans,
                &lists,
                table,
                channels[process].as_slice(),
                run.process,
                first,
                count,
                &mut queues,
            );
        }
    }
    greatest_lengths(alloc, &queues)
}
