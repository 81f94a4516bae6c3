ghost use Rattle.std.specs.Prelude.{◌≡◌, ◌↔◌, ◌<◌, ◌+◌, ◌^◌, ℕ, ℤ, List, [], ◌∷◌, None, length, slice_get, IfOk, IfSome, IsFalse, IsTrue, OnOk};
ghost use Rattle.source_tree.specs.Sources.{sources_of};
ghost use Rattle.net_core.specs.Cuts.{positions};
ghost use Rattle.net_core.specs.Machine.{net_of};
ghost use Rattle.net_core.specs.Names.{name_of};
ghost use Rattle.net_core.specs.Rules.{vector_at};
ghost use Rattle.net_checker.specs.Choice.{first_below};
ghost use Rattle.net_checker.specs.Entries.{entry_refusal, is_wanted, name_refusal, point_of, schedule_refusal, seen_of, unended, wanted_of};
ghost use Rattle.net_checker.specs.Lookups.{refused_reference, source_in};
ghost use Rattle.net_checker.specs.Schedules.{LeadsTo, entries_in};
ghost use Rattle.net_checker.specs.SlotRows.{slots_in};
ghost use Rattle.net_checker.specs.TagStates.{IsTagState, cut_in, state_of};
ghost use Rattle.script_blocks.specs.Expansion.{part_expansion, parts_expansion, repeated};

use crate::nest_network::ShapedNetwork;
use crate::schedule::Schedule;
use crate::slots::Slots;
use crate::tag_state::TagState;
use crate::verdict::{Refusal, Seen, Wanted};
use affine_core::Vector;
use net_core::{Event, Network, Ref, Refs};
use sanlp::{Point, Points, Tag, reads_before};
use script_blocks::{BlockPart, Script};
use source_tree::SourceTable;
use std::alloc::{AllocError, Global};

// The source of a read at a turn, or none where the table has no such entry.
fn source_in(table: &SourceTable, read: usize, turn: usize) -> Option<Tag>
    ensures { result ≡ source_in table.now.of read turn }
{
    match table.of.get(read) {
        Some(turns) => match turns.get(turn) {
            Some(source) => *source,
            None => None,
        },
        None => None,
    }
}

// The iteration vector of a tag, or the empty one where there is no such point.
#[tactic(auto, using(crate::proofs::Lists::vector_found, crate::proofs::Lists::vectors_past))]
fn vector_at(points: &Points, tag: Tag) -> Vector
    ensures { result ≡ vector_at points.now.of tag.process tag.turn }
{
    match points.of.get(tag.process as usize) {
        Some(vectors) => match vectors.get(tag.turn as usize) {
            Some(at) => at.copy(),
            None => Vector::empty(points.of.allocator()),
        },
        None => Vector::empty(points.of.allocator()),
    }
}

// The point of a tag.
fn point_of(points: &Points, tag: Tag) -> Point
    ensures { result ≡ point_of points.now.of tag }
{
    Point {
        statement: tag.process,
        at: vector_at(points, tag),
    }
}

// Whether a reference names what the read wants, which is the value of this source or zero.
fn is_wanted(slots: &Slots<Tag>, reference: Ref, source: Option<Tag>) -> bool
    ensures { result ≡ is_wanted (name_of (slots_in slots.now) reference) source }
{
    match reference {
        Ref::Zero => source.is_none(),
        Ref::Slot(slot) => match (slots.get(slot), source) {
            (Some(Some(token)), Some(source)) => token == source,
            _ => false,
        },
    }
}

// What a reference names.
fn seen(points: &Points, slots: &Slots<Tag>, reference: Ref) -> Seen
    ensures { result ≡ seen_of points.now.of (name_of (slots_in slots.now) reference) }
{
    match reference {
        Ref::Zero => Seen::Zero,
        Ref::Slot(slot) => match slots.get(slot) {
            Some(Some(token)) => Seen::At(point_of(points, token)),
            _ => Seen::Empty,
        },
    }
}

// What a read with this source wants.
fn wanted(points: &Points, source: Option<Tag>) -> Wanted
    ensures { result ≡ wanted_of points.now.of source }
{
    match source {
        Some(tag) => Wanted::At(point_of(points, tag)),
        None => Wanted::Zero,
    }
}

// Why a reference of a fire is refused, if it is. Its read has this number in the table.
fn judge_reference(
    points: &Points,
    table: &SourceTable,
    read: usize,
    turn: usize,
    entry: u32,
    slots: &Slots<Tag>,
    reference: Ref,
) -> Option<Refusal>
    ensures { result
        ≡ name_refusal points.now.of entry (name_of (slots_in slots.now) reference)
        (source_in table.now.of read turn) }
{
    let source = source_in(table, read, turn);
    if is_wanted(slots, reference, source) {
        return None;
    }
    let seen = seen(points, slots, reference);
    Some(Refusal::Tag(entry, seen, wanted(points, source)))
}

// The first reference of a fire that doesn't name what its read wants. The first read has this number in the table.
fn judge_fire(
    points: &Points,
    table: &SourceTable,
    first_read: usize,
    turn: usize,
    entry: u32,
    slots: &Slots<Tag>,
    refs: &Refs,
) -> Option<Refusal>
    requires { first_read + length refs.now < 2 ^ 64 }
    ensures { result
        ≡ first_below
        (λ j. refused_reference points.now.of table.now.of first_read turn
        (slots_in slots.now) entry j (slice_get refs.now j)) (length refs.now) }
{
    for read in 0..refs.len() {
        let number = first_read + read;
        if let Some(refusal) = judge_reference(
            points,
            table,
            number,
            turn,
            entry,
            slots,
            refs.at(read),
        ) {
            return Some(refusal);
        }
    }
    None
}

// Why an entry of the schedule is refused in this state, if it is.
fn judge(
    fitting: &ShapedNetwork,
    table: &SourceTable,
    state: &TagState,
    entry: u32,
    process: u32,
) -> Option<Refusal>
    requires table { table.now.of ≡ sources_of fitting.now.nest.now }
    requires state { IsTagState (net_of fitting.now.network.now) state.now }
    ensures { result
        ≡ entry_refusal fitting.now.nest.now (net_of fitting.now.network.now)
        (positions (state_of (net_of fitting.now.network.now) state.now)) entry process }
{
    let network = fitting.network;
    if !state.is_enabled(network, process) {
        return Some(Refusal::NotEnabled(entry));
    }
    match state.next(network, process) {
        Event::Get { .. } | Event::Put { .. } => None,
        Event::Fire { refs } => {
            let first_read = reads_before(fitting.nest, process as usize);
            let turn = state.turn(network, process) as usize;
            judge_fire(
                fitting.points,
                table,
                first_read,
                turn,
                entry,
                state.slots(network, process),
                refs,
            )
        }
    }
}

// Whether each reference of a fire names what its read wants. The first read has this number in the table.
fn names_are_wanted(
    table: &SourceTable,
    first_read: usize,
    turn: usize,
    slots: &Slots<Tag>,
    refs: &Refs,
) -> bool
    requires { first_read + length refs.now < 2 ^ 64 }
    ensures { (points : List (List (List ℤ))) (entry : ℕ) → (IsTrue result ↔ first_below
        (λ j. refused_reference points table.now.of first_read turn (slots_in slots.now) entry j
        (slice_get refs.now j)) (length refs.now) ≡ None) }
{
    for read in 0..refs.len() {
        let source = source_in(table, first_read + read, turn);
        if !is_wanted(slots, refs.at(read), source) {
            return false;
        }
    }
    true
}

// Makes one entry of the schedule, if it is fine. It answers whether it is. A refusal is a large value, so it is made only
// where one is.
fn step_if_fine(
    fitting: &ShapedNetwork,
    table: &SourceTable,
    state: &mut TagState,
    process: u32,
) -> Result<bool, AllocError>
    requires table { table.now.of ≡ sources_of fitting.now.nest.now }
    requires state { IsTagState (net_of fitting.now.network.now) state.old }
    ensures state { OnOk result (IsTagState (net_of fitting.now.network.now) state.new) }
    ensures fine { IfOk result (λ fine. IsTrue fine
        → LeadsTo fitting.now.nest.now (net_of fitting.now.network.now) (process ∷ [])
        state.old state.new) }
    ensures unchanged { IfOk result (λ fine. IsFalse fine → state.new ≡ state.old) }
    ensures refused { IfOk result (λ fine. IsFalse fine → (entry : ℕ)
        → entry_refusal fitting.now.nest.now (net_of fitting.now.network.now)
        (cut_in state.old) entry process ≡ None → ⊥) }
{
    let network = fitting.network;
    if process as usize >= network.processes.len() {
        return Ok(false);
    }
    match state.next_event(network, process) {
        Some(Event::Get { channel, slot }) => {
            let (channel, slot) = (*channel, *slot);
            if !state.can_get(network, process, channel, slot) {
                return Ok(false);
            }
            state.step_get(network, process, channel, slot)?;
            Ok(true)
        }
        Some(Event::Fire { refs }) => {
            let first_read = reads_before(fitting.nest, process as usize);
            let turn = state.turn(network, process) as usize;
            let slots = state.slots(network, process);
            if !names_are_wanted(table, first_read, turn, slots, refs) {
                return Ok(false);
            }
            state.step_fire(network, process);
            Ok(true)
        }
        Some(Event::Put { channel }) => {
            let channel = *channel;
            if !state.can_put(network, process, channel) {
                return Ok(false);
            }
            state.step_put(network, process, channel)?;
            Ok(true)
        }
        None => Ok(false),
    }
}

// The least process that isn't at its script's end, if there is one.
fn unended(network: &Network, state: &TagState) -> Option<Refusal>
    requires { IsTagState (net_of network.now) state.now }
    ensures { result ≡ first_below (unended (net_of network.now) (cut_in state.now))
        (length network.now.processes) }
{
    for process in 0..network.processes.len() as u32 {
        if let Some(_) = state.next_event(network, process) {
            return Some(Refusal::Unended(process));
        }
    }
    None
}

// What is wrong with a schedule that stands in a list, if anything is.
fn listed_refusal(
    alloc: Global,
    fitting: &ShapedNetwork,
    table: &SourceTable,
    schedule: &[u32],
) -> Result<Option<Refusal>, AllocError>
    requires { table.now.of ≡ sources_of fitting.now.nest.now }
    ensures { IfOk result
        (λ refusal. refusal
        ≡ schedule_refusal fitting.now.nest.now fitting.now.network.now schedule.now) }
{
    let mut state = TagState::new(alloc, fitting)?;
    for (entry, process) in schedule.iter().enumerate() {
        if !step_if_fine(fitting, table, &mut state, *process)? {
            let entry = entry as u32;
            return Ok(judge(fitting, table, &state, entry, *process));
        }
    }
    Ok(unended(fitting.network, &state))
}

// Makes the entries for which these parts stand, up to the first that isn't fine. It answers whether all are.
#[cycle(stepping)]
fn step_over_parts(
    fitting: &ShapedNetwork,
    table: &SourceTable,
    state: &mut TagState,
    parts: &[BlockPart<u32>],
) -> Result<bool, AllocError>
    requires table { table.now.of ≡ sources_of fitting.now.nest.now }
    requires state { IsTagState (net_of fitting.now.network.now) state.old }
    ensures state { OnOk result (IsTagState (net_of fitting.now.network.now) state.new) }
    ensures fine { IfOk result (λ fine. IsTrue fine
        → LeadsTo fitting.now.nest.now (net_of fitting.now.network.now)
        (parts_expansion parts.now) state.old state.new) }
{
    for part in parts {
        if !step_over_part(fitting, table, state, part)? {
            return Ok(false);
        }
    }
    Ok(true)
}

// The same of one part.
#[cycle(stepping)]
fn step_over_part(
    fitting: &ShapedNetwork,
    table: &SourceTable,
    state: &mut TagState,
    part: &BlockPart<u32>,
) -> Result<bool, AllocError>
    requires table { table.now.of ≡ sources_of fitting.now.nest.now }
    requires state { IsTagState (net_of fitting.now.network.now) state.old }
    ensures state { OnOk result (IsTagState (net_of fitting.now.network.now) state.new) }
    ensures fine { IfOk result (λ fine. IsTrue fine
        → LeadsTo fitting.now.nest.now (net_of fitting.now.network.now)
        (part_expansion part.now) state.old state.new) }
{
    match part {
        BlockPart::Item(process) => step_if_fine(fitting, table, state, *process),
        BlockPart::Repeat(count, body) => {
            step_over_copies(fitting, table, state, *count, body.parts.as_slice())
        }
    }
}

// The entry for which these parts stand, if they are one item.
fn only_item(parts: &[BlockPart<u32>]) -> Option<u32>
    ensures { IfSome result (λ process. parts_expansion parts.now ≡ process ∷ []) }
{
    let Some((part, rest)) = parts.split_first() else {
        return None;
    };
    if !rest.is_empty() {
        return None;
    }
    match part {
        BlockPart::Item(process) => Some(*process),
        BlockPart::Repeat(..) => None,
    }
}

// So many entries of one process.
fn step_over_run(
    fitting: &ShapedNetwork,
    table: &SourceTable,
    state: &mut TagState,
    count: u32,
    process: u32,
) -> Result<bool, AllocError>
    requires table { table.now.of ≡ sources_of fitting.now.nest.now }
    requires state { IsTagState (net_of fitting.now.network.now) state.old }
    ensures state { OnOk result (IsTagState (net_of fitting.now.network.now) state.new) }
    ensures fine { IfOk result (λ fine. IsTrue fine
        → LeadsTo fitting.now.nest.now (net_of fitting.now.network.now)
        (repeated count (process ∷ [])) state.old state.new) }
{
    for _ in 0..count {
        if !step_if_fine(fitting, table, state, process)? {
            return Ok(false);
        }
    }
    Ok(true)
}

// The same of so many copies of these parts.
#[cycle(stepping)]
fn step_over_copies(
    fitting: &ShapedNetwork,
    table: &SourceTable,
    state: &mut TagState,
    count: u32,
    parts: &[BlockPart<u32>],
) -> Result<bool, AllocError>
    requires table { table.now.of ≡ sources_of fitting.now.nest.now }
    requires state { IsTagState (net_of fitting.now.network.now) state.old }
    ensures state { OnOk result (IsTagState (net_of fitting.now.network.now) state.new) }
    ensures fine { IfOk result (λ fine. IsTrue fine
        → LeadsTo fitting.now.nest.now (net_of fitting.now.network.now)
        (repeated count (parts_expansion parts.now)) state.old state.new) }
{
    if let Some(process) = only_item(parts) {
        return step_over_run(fitting, table, state, count, process);
    }
    for _ in 0..count {
        if !step_over_parts(fitting, table, state, parts)? {
            return Ok(false);
        }
    }
    Ok(true)
}

// What is wrong with a schedule that is kept folded, if anything is, found entry by entry.
fn first_bad_entry(
    alloc: Global,
    fitting: &ShapedNetwork,
    table: &SourceTable,
    schedule: &Script<u32>,
) -> Result<Option<Refusal>, AllocError>
    requires { table.now.of ≡ sources_of fitting.now.nest.now }
    ensures { IfOk result
        (λ refusal. refusal
        ≡ schedule_refusal fitting.now.nest.now fitting.now.network.now schedule.now) }
{
    let mut state = TagState::new(alloc, fitting)?;
    let mut entry: u32 = 0;
    for process in schedule.iter() {
        if !step_if_fine(fitting, table, &mut state, process)? {
            return Ok(judge(fitting, table, &state, entry, process));
        }
        entry += 1;
    }
    Ok(unended(fitting.network, &state))
}

// The same. Where the schedule's blocks tell that all entries are fine, none is sought.
fn folded_refusal(
    alloc: Global,
    fitting: &ShapedNetwork,
    table: &SourceTable,
    schedule: &Script<u32>,
) -> Result<Option<Refusal>, AllocError>
    requires { table.now.of ≡ sources_of fitting.now.nest.now }
    ensures { IfOk result
        (λ refusal. refusal
        ≡ schedule_refusal fitting.now.nest.now fitting.now.network.now schedule.now) }
{
    let mut state = TagState::new(alloc, fitting)?;
    let parts = schedule.blocks().parts.as_slice();
    if step_over_parts(fitting, table, &mut state, parts)? {
        return Ok(unended(fitting.network, &state));
    }
    drop(state);
    first_bad_entry(alloc, fitting, table, schedule)
}

// The first entry of the schedule that is refused, and else the least process that it leaves unended, if there is one.
pub(crate) fn schedule_refusal(
    alloc: Global,
    fitting: &ShapedNetwork,
    table: &SourceTable,
    schedule: &Schedule,
) -> Result<Option<Refusal>, AllocError>
    requires { table.now.of ≡ sources_of fitting.now.nest.now }
    ensures { IfOk result
        (λ refusal. refusal
        ≡ schedule_refusal fitting.now.nest.now fitting.now.network.now
        (entries_in schedule.now)) }
{
    match schedule {
        Schedule::Listed(entries) => listed_refusal(alloc, fitting, table, *entries),
        Schedule::Folded(script) => folded_refusal(alloc, fitting, table, *script),
    }
}
