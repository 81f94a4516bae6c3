ghost use Rattle.std.specs.Prelude.{◌≡◌, ◌<◌, ◌≤◌, ◌^◌, length, map, take, IfOk};
ghost use Rattle.std.specs.List.{range_with_len};
ghost use Rattle.channel_plan.specs.Plans.{plans_of};
ghost use Rattle.network_numbers.specs.Links.{channels_at, has_end_at, read_lists};
ghost use Rattle.plan_numbers.specs.Numbers.{numbers_of};
ghost use Rattle.source_tree.specs.Sources.{read_number};

use plain_data::Items;
use plan_numbers::PlanNumbers;
use sanlp::Nest;
use std::alloc::{AllocError, Global};

// Whether a process reads a channel or writes to it.
fn has_end_at(process: u32, plan: &PlanNumbers) -> bool
    ensures { result ≡ has_end_at process plan.now }
{
    plan.reader == process || plan.writer == process
}

// The numbers of the channels that a process reads or writes to, ascending.
fn channels_at(alloc: Global, plans: &[PlanNumbers], process: u32) -> Result<Items<u32>, AllocError>
    requires { length plans.now < 2 ^ 32 }
    ensures { IfOk result (λ channels. channels ≡ channels_at plans.now process) }
{
    let mut channels = Items::new(alloc);
    for (channel, plan) in plans.iter().enumerate() {
        if has_end_at(process, plan) {
            channels.push(channel as u32)?;
        }
    }
    Ok(channels)
}

/// For each of so many processes the numbers of the channels that it reads or writes to, ascending.
pub(crate) fn channels_of_processes(
    alloc: Global,
    plans: &[PlanNumbers],
    processes: usize,
) -> Result<Vec<Items<u32>>, AllocError>
    requires few { length plans.now < 2 ^ 32 }
    requires processes { processes < 2 ^ 32 }
    ensures { IfOk result (λ channels.
        channels.items ≡ map (channels_at plans.now) (range_with_len 0 processes)) }
{
    let mut channels = Vec::with_capacity(alloc, processes)?;
    for process in 0..processes {
        channels.push(channels_at(alloc, plans, process as u32)?)?;
    }
    Ok(channels)
}

// For each statement the number of its first read among all reads.
fn first_reads(alloc: Global, nest: &Nest) -> Result<Vec<usize>, AllocError>
    ensures { IfOk result (λ firsts.
        firsts.items ≡ map (λ p. read_number nest.now p 0)
        (range_with_len 0 (length nest.now.statements))) }
{
    let mut firsts = Vec::with_capacity(alloc, nest.statements.len())?;
    let mut first = 0;
    for statement in nest.statements.as_slice() {
        firsts.push(first)?;
        first += statement.reads.len();
    }
    Ok(firsts)
}

/// For each channel the number of its read among all reads, at which the table of sources has the list of that read.
pub(crate) fn read_lists(
    alloc: Global,
    nest: &Nest,
    plans: &[PlanNumbers],
) -> Result<Vec<usize>, AllocError>
    requires { plans.now ≡ map numbers_of (plans_of nest.now) }
    ensures { IfOk result (λ lists. lists.items ≡ read_lists nest.now plans.now) }
{
    let firsts = first_reads(alloc, nest)?;
    let mut lists = Vec::with_capacity(alloc, plans.len())?;
    for plan in plans {
        lists.push(firsts[plan.reader as usize] + plan.read as usize)?;
    }
    Ok(lists)
}
