ghost use Rattle.std.specs.Prelude.{◌≡◌, ◌<◌, ◌≤◌, ◌+◌, ◌^◌, ℕ, [], ◌∷◌, ◌++◌, None, Some, length, map, slice_index, slice_index_or, IfOk, OnOk};
ghost use Rattle.std.specs.List.{flat_map, range_with_len};
ghost use Rattle.process_derive.specs.Incoming.{carries, puts_to};
ghost use Rattle.process_derive.specs.Scripts.{gets_for_uses, gets_of, ref_of};
ghost use Rattle.process_derive.specs.Uses.{events_at, usages_at, use_at, uses_by_read, with_slots, CountedBefore, OnlyBelow, SlotsFit, UseFits};

use crate::incoming::Incoming;
use crate::uses::{ChannelUse, next_use, no_counts};
use channel_plan::ChannelPlan;
use net_core::{Event, Ref, Refs, equal_is_same};
use plain_data::Items;
use reorder_slots::SlotPlan;
use sanlp::Tag;
use script_blocks::ScriptBuilder;
use std::alloc::{AllocError, Global};

// A number for these numbers, one after the other.
fn mixed(key: u32, number: u32) -> u32 {
    (key.rotate_left(5) ^ number).wrapping_mul(0x9e37_79b1)
}

// A number by which an event is soon found again. Nothing rests on it.
fn key_of(event: &Event) -> u32 {
    match event {
        Event::Get { channel, slot } => mixed(mixed(1, *channel), *slot),
        Event::Fire { refs } => {
            let mut key = 2;
            for read in 0..refs.len() {
                key = match refs.at(read) {
                    Ref::Zero => mixed(key, 0),
                    Ref::Slot(slot) => mixed(mixed(key, 1), slot),
                };
            }
            key
        }
        Event::Put { channel } => mixed(3, *channel),
    }
}

// Adds an event.
fn push_event(event: Event, events: &mut ScriptBuilder<Event>) -> Result<(), AllocError>
    ensures { OnOk result (events.new ≡ events.old ++ event ∷ []) }
{
    equal_is_same();
    events.push_with_key(key_of(&event), &event)
}

/// The number at a place, 0 past the end.
pub fn number_at(numbers: &[u32], at: usize) -> u32
    ensures { result ≡ slice_index numbers.now at }
{
    numbers.get(at).copied().unwrap_or(0)
}

/// How many Gets of a channel stand before so many of its uses.
pub fn gets_for(slots: &SlotPlan, uses: u32) -> u32
    ensures { result ≡ gets_for_uses slots.now uses }
{
    match uses.checked_sub(1) {
        Some(last) => number_at(slots.gets_before.as_slice(), last as usize),
        None => 0,
    }
}

// Adds the Gets that a use adds: those behind the Gets of the uses before it.
fn add_gets(
    slots: &SlotPlan,
    found: ChannelUse,
    events: &mut ScriptBuilder<Event>,
) -> Result<(), AllocError>
    requires { SlotsFit found.base slots.now }
    ensures { OnOk result
        (events.new
        ≡ events.old
        ++ gets_of
        (Some (record { channel = found.channel; base = found.base; slots = slots.now; number = found.number }))) }
{
    let done = gets_for(slots, found.number);
    let needed = number_at(slots.gets_before.as_slice(), found.number as usize);
    for get in done..needed {
        let slot = found.base + number_at(slots.slot_of_get.as_slice(), get as usize);
        push_event(
            Event::Get {
                channel: found.channel,
                slot,
            },
            events,
        )?;
    }
    Ok(())
}

// The slot in which a use finds its token.
fn slot_of(slots: &SlotPlan, found: ChannelUse) -> Ref
    requires { SlotsFit found.base slots.now }
    ensures { result
        ≡ ref_of (Some
        (record { channel = found.channel; base = found.base; slots = slots.now; number = found.number })) }
{
    Ref::Slot(found.base + number_at(slots.slot_of_use.as_slice(), found.number as usize))
}

// Adds the Gets of what a fire uses for a read, and answers what it names there.
fn add_use(
    plans: &[ChannelPlan],
    found: Option<ChannelUse>,
    events: &mut ScriptBuilder<Event>,
) -> Result<Ref, AllocError>
    requires { UseFits plans.now found }
    ensures gets { OnOk result
        (events.new ≡ events.old ++ gets_of (with_slots plans.now found)) }
    ensures named { IfOk result (λ named. named ≡ ref_of (with_slots plans.now found)) }
{
    match found {
        None => Ok(Ref::Zero),
        Some(found) => {
            let slots = &plans[found.channel as usize].slots;
            add_gets(slots, found, events)?;
            Ok(slot_of(slots, found))
        }
    }
}

/// Whether a turn of its writer is a token of a channel. Where there is no such channel none is.
pub fn is_token(plans: &[ChannelPlan], turn: usize, channel: u32) -> bool
    ensures { result ≡ carries plans.now turn channel }
{
    match plans.get(channel as usize) {
        Some(plan) => plan.is_token.has(turn),
        None => false,
    }
}

/// Adds a Put to each of these channels of which the turn is a token.
pub(crate) fn add_puts(
    plans: &[ChannelPlan],
    outgoing: &[u32],
    turn: usize,
    events: &mut ScriptBuilder<Event>,
) -> Result<(), AllocError>
    ensures { OnOk result
        (events.new ≡ events.old ++ puts_to plans.now outgoing.now turn) }
{
    for channel in outgoing {
        if is_token(plans, turn, *channel) {
            push_event(Event::Put { channel: *channel }, events)?;
        }
    }
    Ok(())
}

// The source of a read at a fire.
fn source_at(sources: &Items<Option<Tag>>, turn: usize) -> Option<Tag>
    requires { turn < length sources.now }
    ensures { result ≡ slice_index_or sources.now turn None }
{
    sources.as_slice()[turn]
}

// Adds by read the Gets of what a point uses, and answers what its Fire names. The uses are counted.
fn add_uses(
    plans: &[ChannelPlan],
    incoming: &[Incoming],
    sources: &[Items<Option<Tag>>],
    processes: usize,
    turn: usize,
    counts: &mut Vec<Items<u32>>,
    events: &mut ScriptBuilder<Event>,
) -> Result<Refs, AllocError>
    requires few { length sources.now ≤ 8 }
    requires turn { turn < 4294967295 }
    requires there { (k : ℕ) → k < length sources.now
        → turn < length (slice_index_or sources.now k []) }
    requires exist { (k f : ℕ)
        → OnlyBelow processes (slice_index_or (slice_index_or sources.now k []) f None) }
    requires fit { (k f : ℕ) → UseFits plans.now
        (use_at incoming.now k (slice_index_or sources.now k []) f) }
    requires counted { CountedBefore sources.now processes turn counts.old.items }
    ensures gets { let uses = uses_by_read incoming.now sources.now in
        OnOk result
        (events.new ≡ events.old ++ flat_map gets_of (usages_at plans.now uses turn)) }
    ensures refs { let uses = uses_by_read incoming.now sources.now in
        IfOk result (λ refs. refs ≡ map ref_of (usages_at plans.now uses turn)) }
    ensures counted { OnOk result
        (CountedBefore sources.now processes (turn + 1) counts.new.items) }
{
    let mut refs = Refs::empty();
    for (read, of_read) in sources.iter().enumerate() {
        let found = next_use(incoming, read, source_at(of_read, turn), counts);
        refs.push(add_use(plans, found, events)?);
    }
    Ok(refs)
}

// Adds the events of a point: by read the Gets, one Fire, and by channel the Puts. Its uses are counted.
fn add_point(
    plans: &[ChannelPlan],
    incoming: &[Incoming],
    sources: &[Items<Option<Tag>>],
    processes: usize,
    outgoing: &[u32],
    turn: usize,
    counts: &mut Vec<Items<u32>>,
    events: &mut ScriptBuilder<Event>,
) -> Result<(), AllocError>
    requires few { length sources.now ≤ 8 }
    requires turn { turn < 4294967295 }
    requires there { (k : ℕ) → k < length sources.now
        → turn < length (slice_index_or sources.now k []) }
    requires exist { (k f : ℕ)
        → OnlyBelow processes (slice_index_or (slice_index_or sources.now k []) f None) }
    requires fit { (k f : ℕ) → UseFits plans.now
        (use_at incoming.now k (slice_index_or sources.now k []) f) }
    requires counted { CountedBefore sources.now processes turn counts.old.items }
    ensures events { OnOk result
        (events.new
        ≡ events.old
        ++ events_at plans.now (uses_by_read incoming.now sources.now) outgoing.now turn) }
    ensures counted { OnOk result
        (CountedBefore sources.now processes (turn + 1) counts.new.items) }
{
    let refs = add_uses(plans, incoming, sources, processes, turn, counts, events)?;
    push_event(Event::Fire { refs }, events)?;
    add_puts(plans, outgoing, turn, events)
}

/// The events of a process with so many points, in order, given the sources of its reads, of so many processes, and the
/// numbers of the channels that it writes. It keeps four bytes for each, and each different event once.
pub(crate) fn script_of(
    alloc: Global,
    plans: &[ChannelPlan],
    incoming: &[Incoming],
    sources: &[Items<Option<Tag>>],
    processes: usize,
    outgoing: &[u32],
    fires: usize,
) -> Result<ScriptBuilder<Event>, AllocError>
    requires few { length sources.now ≤ 8 }
    requires fires { fires < 2 ^ 32 }
    requires there { (k : ℕ) → k < length sources.now
        → fires ≤ length (slice_index_or sources.now k []) }
    requires exist { (k f : ℕ)
        → OnlyBelow processes (slice_index_or (slice_index_or sources.now k []) f None) }
    requires fit { (k f : ℕ) → UseFits plans.now
        (use_at incoming.now k (slice_index_or sources.now k []) f) }
    ensures { let uses = uses_by_read incoming.now sources.now in IfOk result (λ script.
        script ≡ flat_map (events_at plans.now uses outgoing.now) (range_with_len 0 fires)) }
{
    let mut counts = no_counts(alloc, sources, processes)?;
    let mut events = ScriptBuilder::new(alloc);
    for turn in 0..fires {
        add_point(
            plans,
            incoming,
            sources,
            processes,
            outgoing,
            turn,
            &mut counts,
            &mut events,
        )?;
    }
    Ok(events)
}
