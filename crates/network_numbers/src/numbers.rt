ghost use Rattle.std.specs.Prelude.{◌≡◌, ◌<◌, ◌^◌, ℕ, length, map, IfOk};
ghost use Rattle.network_numbers.specs.PlanNumbers.{channel_by_plan, channels_by_plans, process_by_plans, processes_by_plans, slots_in};
ghost use Rattle.number_text.specs.Numbers.{network_numbers};
ghost use Rattle.sanlp.specs.Points.{points_of};
ghost use Rattle.sanlp.specs.Size.{SizeIsOk};
ghost use Rattle.source_tree.specs.Sources.{sources_of};
ghost use Rattle.witness_plan.specs.Schedules.{planned_network};
ghost use Rattle.witness_plan.specs.declared.schedules.Policy.TheVariants.{Seq};

use crate::lengths::capacities;
use crate::totals::event_total;
use net_text::{ChannelNumbers, ProcessNumbers};
use number_text::NetworkNumbers;
use plain_data::Items;
use plan_numbers::{PlanNumbers, numbers_of_plans};
use process_derive::number_at;
use sanlp::Nest;
use shadow_sweep::sweep_counted;
use source_tree::SourceTable;
use std::alloc::{AllocError, Global};

// How many slots the channels have that a process reads.
fn slots_in(plans: &[PlanNumbers], process: u32) -> u64
    requires { slots_in plans.now process < 2 ^ 64 }
    ensures { result ≡ slots_in plans.now process }
{
    plans
        .iter()
        .map(|plan| {
            if plan.reader == process {
                u64::from(plan.hold)
            } else {
                0
            }
        })
        .sum()
}

// The numbers of a process that fires so often.
fn process_by_plans(plans: &[PlanNumbers], process: u32, fires: usize) -> ProcessNumbers
    requires { slots_in plans.now process < 2 ^ 64 }
    ensures { result ≡ process_by_plans plans.now process fires }
{
    ProcessNumbers {
        fires: fires as u64,
        slots: slots_in(plans, process),
    }
}

// For each process its numbers, where the processes have so many turns.
fn process_numbers(
    alloc: Global,
    plans: &[PlanNumbers],
    turns: &[usize],
) -> Result<Items<ProcessNumbers>, AllocError>
    requires few { length turns.now < 2 ^ 32 }
    requires slots { (p : ℕ) → slots_in plans.now p < 2 ^ 64 }
    ensures { IfOk result (λ numbers. numbers ≡ processes_by_plans plans.now turns.now) }
{
    let mut numbers = Vec::with_capacity(alloc, turns.len())?;
    for (process, fires) in turns.iter().enumerate() {
        numbers.push(process_by_plans(plans, process as u32, *fires))?;
    }
    Ok(Items::from_vec(numbers))
}

// The numbers of a channel with this capacity.
fn channel_by_plan(plan: &PlanNumbers, capacity: u32) -> ChannelNumbers
    ensures { result ≡ channel_by_plan plan.now capacity }
{
    ChannelNumbers {
        writer: plan.writer,
        reader: plan.reader,
        read: plan.read,
        tokens: u64::from(plan.tokens),
        capacity,
        hold: u64::from(plan.hold),
        class: plan.class,
    }
}

// For each channel its numbers, where the channels have these capacities.
fn channel_numbers(
    alloc: Global,
    plans: &[PlanNumbers],
    capacities: &[u32],
) -> Result<Items<ChannelNumbers>, AllocError>
    ensures { IfOk result (λ numbers. numbers ≡ channels_by_plans plans.now capacities.now) }
{
    let mut numbers = Vec::with_capacity(alloc, plans.len())?;
    for (channel, plan) in plans.iter().enumerate() {
        numbers.push(channel_by_plan(plan, number_at(capacities, channel)))?;
    }
    Ok(Items::from_vec(numbers))
}

// The numbers of `sequential_numbers`, where the statements have so many turns. The table of sources is the exact one.
fn numbers_by_turns(
    alloc: Global,
    nest: &Nest,
    turns: &[usize],
    sources: &SourceTable,
) -> Result<NetworkNumbers, AllocError>
    requires size { SizeIsOk nest.now }
    requires turns { turns.now ≡ map length (points_of nest.now) }
    requires sources { sources.now.of ≡ sources_of nest.now }
    ensures { IfOk result (λ numbers. numbers ≡ network_numbers (planned_network nest.now Seq)) }
{
    let channels = numbers_of_plans(alloc, nest, turns, sources)?;
    let plans = channels.as_slice();
    let capacities = capacities(alloc, nest, plans, sources)?;
    Ok(NetworkNumbers {
        processes: process_numbers(alloc, plans, turns)?,
        channels: channel_numbers(alloc, plans, &capacities)?,
        events: event_total(turns, plans),
    })
}

/// What the text tells of the network of a nest (Compaan 2000, pn 2007) with the capacities that the sequential schedule needs:
/// for each process its fires and its slots; for each channel its ends, its read, its tokens, its capacity, its hold and its
/// class; and the number of events. It goes twice over the trace, once by its points and once by its runs, and there through the
/// turns of each run once for each channel of its process. It makes no event, no script and no schedule, and no table of slots.
/// Nothing is refused but want of memory.
pub fn sequential_numbers(alloc: Global, nest: &Nest) -> Result<NetworkNumbers, AllocError>
    requires { SizeIsOk nest.now }
    ensures { IfOk result (λ numbers. numbers ≡ network_numbers (planned_network nest.now Seq)) }
{
    let swept = sweep_counted(alloc, nest)?;
    numbers_by_turns(alloc, nest, &swept.turns, &swept.sources)
}
