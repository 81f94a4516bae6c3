ghost use Rattle.std.specs.Prelude.{◌≡◌, ◌<◌, length, map, IfOk};
ghost use Rattle.std.specs.List.{range_with_len};
ghost use Rattle.channel_plan.specs.Plans.{plans_of, sources_at, turn_count};
ghost use Rattle.sanlp.specs.Access.{read_count};
ghost use Rattle.sanlp.specs.Size.{SizeIsOk};
ghost use Rattle.sanlp.specs.Points.{points_of};
ghost use Rattle.source_tree.specs.Sources.{sources_of};
ghost use Rattle.process_derive.specs.Derived.{process_of};

use crate::events::script_of;
use crate::incoming::{incoming_channels, outgoing_channels, slot_count};
use channel_plan::ChannelPlan;
use net_core::Process;
use plain_data::Items;
use sanlp::{Nest, Tag};
use source_tree::SourceTable;
use std::alloc::{AllocError, Global};

// The process of the statement of this number, which has so many points and these sources, by read. Its script is folded.
fn make_process(
    alloc: Global,
    nest: &Nest,
    plans: &[ChannelPlan],
    number: u32,
    fires: usize,
    sources: &[Items<Option<Tag>>],
) -> Result<Process, AllocError>
    requires size { SizeIsOk nest.now }
    requires plans { plans.now ≡ plans_of nest.now }
    requires exists { number < length nest.now.statements }
    requires fires { fires ≡ turn_count nest.now number }
    requires sources { sources.now ≡ map (sources_at nest.now number)
        (range_with_len 0 (read_count nest.now number)) }
    ensures { IfOk result (λ process. process ≡ process_of nest.now number) }
{
    let incoming = incoming_channels(alloc, plans, number)?;
    let outgoing = outgoing_channels(alloc, plans, number)?;
    let events = script_of(
        alloc,
        plans,
        incoming.as_slice(),
        sources,
        nest.statements.len(),
        outgoing.as_slice(),
        fires,
    )?;
    Ok(Process {
        slots: slot_count(plans, number),
        script: events.script(alloc)?,
    })
}

/// The processes of a nest, one for each statement, with folded scripts. The table of sources is the exact one. Besides
/// what it makes, it keeps the events of one process at a time: four bytes for each, and each different event once.
pub(crate) fn make_processes(
    alloc: Global,
    nest: &Nest,
    turns: &[usize],
    sources: &SourceTable,
    plans: &[ChannelPlan],
) -> Result<Items<Process>, AllocError>
    requires size { SizeIsOk nest.now }
    requires turns { turns.now ≡ map length (points_of nest.now) }
    requires sources { sources.now.of ≡ sources_of nest.now }
    requires plans { plans.now ≡ plans_of nest.now }
    ensures { IfOk result (λ processes.
        processes ≡ map (process_of nest.now) (range_with_len 0 (length nest.now.statements))) }
{
    let mut processes = Vec::new(alloc);
    let mut rest = sources.of.as_slice();
    for (number, statement) in nest.statements.as_slice().iter().enumerate() {
        let (own, later) = rest.split_at(statement.reads.len());
        let fires = turns[number];
        processes.push(make_process(alloc, nest, plans, number as u32, fires, own)?)?;
        rest = later;
    }
    Ok(Items::from_vec(processes))
}
