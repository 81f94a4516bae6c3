ghost use Rattle.std.specs.Prelude.{◌≡◌, ◌<◌, ◌+◌, ◌^◌, ℕ, [], ◌∷◌, ◌++◌, length, replicate, count_by, slice_get, slice_index, slice_index_or, Some, None, IfOk, OnOk};
ghost use Rattle.std.specs.List.{flat_map};
ghost use Rattle.net_core.specs.Machine.{net_of};
ghost use Rattle.net_core.specs.Shape.{is_get};
ghost use Rattle.net_core.specs.Uses.{use_of, uses, uses_before};
ghost use Rattle.net_checker.specs.Classes.{class_refusal, same_class};
ghost use Rattle.net_checker.specs.Collected.{IsCollected, IsCollectedBefore};
ghost use Rattle.net_checker.specs.SlotRows.{slots_in};
ghost use Rattle.script_blocks.specs.Expansion.{part_expansion, parts_expansion, repeated};

use crate::nest_network::ShapedNetwork;
use crate::parts::{process_of, script_of};
use crate::slots::Slots;
use crate::tag_state::empty_slots;
use crate::verdict::Refusal;
use channel_class::{ChannelClass, class_of};
use net_core::{Event, Network, Ref, Refs};
use plain_data::Items;
use script_blocks::BlockPart;
use std::alloc::{AllocError, Global};

// Adds what a reference uses: the Get whose token it names, to the list of that Get's channel.
fn add_use(
    reference: Ref,
    slots: &Slots<(u32, u32)>,
    uses: &mut [Items<u32>],
) -> Result<(), AllocError>
    requires { (k : ℕ) (got : ℕ × ℕ) → slice_get (slots_in slots.now) k ≡ Some (Some got)
        → got.0 < length uses.old }
    ensures { OnOk result ((c : ℕ) → c < length uses.old
        → slice_index_or uses.new c []
        ≡ slice_index_or uses.old c [] ++ use_of c (slots_in slots.now) reference) }
{
    match reference {
        Ref::Zero => Ok(()),
        Ref::Slot(slot) => match slots.get(slot) {
            Some(Some((channel, get))) => uses[channel as usize].push(get),
            _ => Ok(()),
        },
    }
}

// Adds what the references of a fire use.
fn add_fire(
    refs: &Refs,
    slots: &Slots<(u32, u32)>,
    uses: &mut [Items<u32>],
) -> Result<(), AllocError>
    requires { (k : ℕ) (got : ℕ × ℕ) → slice_get (slots_in slots.now) k ≡ Some (Some got)
        → got.0 < length uses.old }
    ensures { OnOk result ((c : ℕ) → c < length uses.old
        → slice_index_or uses.new c []
        ≡ slice_index_or uses.old c [] ++ flat_map (use_of c (slots_in slots.now)) refs.now) }
{
    for read in 0..refs.len() {
        add_use(refs.at(read), slots, uses)?;
    }
    Ok(())
}

// Goes past an event of a process's script: a Get is counted and fills its slot, and a Fire adds what it uses.
fn add_event(
    fitting: &ShapedNetwork,
    process: u32,
    event: &Event,
    slots: &mut Slots<(u32, u32)>,
    gets: &mut [u32],
    uses: &mut [Items<u32>],
) -> Result<(), AllocError>
    requires { IsCollectedBefore (net_of fitting.now.network.now) process (event.now ∷ [])
        gets.old uses.old (slots_in slots.old) }
    ensures { OnOk result
        ((place : IsCollectedBefore (net_of fitting.now.network.now) process (event.now ∷ [])
        gets.old uses.old (slots_in slots.old))
        → IsCollected (net_of fitting.now.network.now) process place.first_gets place.first_uses
        gets.new uses.new (slots_in slots.new) (length (place.before ++ event.now ∷ []))) }
{
    let _ = fitting;
    let _ = process;
    match event {
        Event::Get { channel, slot } => {
            let (channel, slot) = (*channel, *slot);
            let get = gets[channel as usize];
            slots.fill(slot, (channel, get))?;
            gets[channel as usize] = get + 1;
            Ok(())
        }
        Event::Fire { refs } => add_fire(refs, slots, uses),
        Event::Put { .. } => Ok(()),
    }
}

// The same of all events for which these parts stand.
#[cycle(adding)]
fn add_parts(
    fitting: &ShapedNetwork,
    process: u32,
    parts: &[BlockPart<Event>],
    slots: &mut Slots<(u32, u32)>,
    gets: &mut [u32],
    uses: &mut [Items<u32>],
) -> Result<(), AllocError>
    requires { IsCollectedBefore (net_of fitting.now.network.now) process
        (parts_expansion parts.now) gets.old uses.old (slots_in slots.old) }
    ensures { OnOk result
        ((place : IsCollectedBefore (net_of fitting.now.network.now) process
        (parts_expansion parts.now) gets.old uses.old (slots_in slots.old))
        → IsCollected (net_of fitting.now.network.now) process place.first_gets place.first_uses
        gets.new uses.new (slots_in slots.new)
        (length (place.before ++ parts_expansion parts.now))) }
{
    for part in parts {
        add_part(fitting, process, part, slots, gets, uses)?;
    }
    Ok(())
}

#[cycle(adding)]
fn add_part(
    fitting: &ShapedNetwork,
    process: u32,
    part: &BlockPart<Event>,
    slots: &mut Slots<(u32, u32)>,
    gets: &mut [u32],
    uses: &mut [Items<u32>],
) -> Result<(), AllocError>
    requires { IsCollectedBefore (net_of fitting.now.network.now) process (part_expansion part.now)
        gets.old uses.old (slots_in slots.old) }
    ensures { OnOk result
        ((place : IsCollectedBefore (net_of fitting.now.network.now) process
        (part_expansion part.now) gets.old uses.old (slots_in slots.old))
        → IsCollected (net_of fitting.now.network.now) process place.first_gets place.first_uses
        gets.new uses.new (slots_in slots.new)
        (length (place.before ++ part_expansion part.now))) }
{
    match part {
        BlockPart::Item(event) => add_event(fitting, process, event, slots, gets, uses),
        BlockPart::Repeat(count, body) => {
            let parts = body.parts.as_slice();
            add_copies(fitting, process, *count, parts, slots, gets, uses)
        }
    }
}

// The same of so many copies of these parts.
#[cycle(adding)]
fn add_copies(
    fitting: &ShapedNetwork,
    process: u32,
    count: u32,
    parts: &[BlockPart<Event>],
    slots: &mut Slots<(u32, u32)>,
    gets: &mut [u32],
    uses: &mut [Items<u32>],
) -> Result<(), AllocError>
    requires { IsCollectedBefore (net_of fitting.now.network.now) process
        (repeated count (parts_expansion parts.now)) gets.old uses.old (slots_in slots.old) }
    ensures { OnOk result
        ((place : IsCollectedBefore (net_of fitting.now.network.now) process
        (repeated count (parts_expansion parts.now)) gets.old uses.old (slots_in slots.old))
        → IsCollected (net_of fitting.now.network.now) process place.first_gets place.first_uses
        gets.new uses.new (slots_in slots.new)
        (length (place.before ++ repeated count (parts_expansion parts.now)))) }
{
    for _ in 0..count {
        add_parts(fitting, process, parts, slots, gets, uses)?;
    }
    Ok(())
}

// Counts the Gets of a process's script, and adds its uses. No slot was filled, and none of its channels got from before.
fn add_events(
    fitting: &ShapedNetwork,
    process: u32,
    slots: &mut Slots<(u32, u32)>,
    gets: &mut [u32],
    uses: &mut [Items<u32>],
) -> Result<(), AllocError>
    requires process { process < length fitting.now.network.now.processes }
    requires slots { slots_in slots.old
        ≡ replicate ((net_of fitting.now.network.now).slots process) None }
    requires gets { length gets.old ≡ length fitting.now.network.now.channels }
    requires uses { length uses.old ≡ length fitting.now.network.now.channels }
    requires fresh { (c : ℕ) → (net_of fitting.now.network.now).reader c ≡ process
        → slice_index gets.old c ≡ 0 }
    ensures gets { OnOk result ((c : ℕ) → c < length fitting.now.network.now.channels
        → slice_index gets.new c
        ≡ slice_index gets.old c
        + count_by (is_get c) ((net_of fitting.now.network.now).script process)) }
    ensures uses { OnOk result ((c : ℕ) → c < length fitting.now.network.now.channels
        → slice_index_or uses.new c []
        ≡ slice_index_or uses.old c []
        ++ uses_before (net_of fitting.now.network.now) c process
        (length ((net_of fitting.now.network.now).script process))) }
{
    let parts = script_of(fitting.network, process)
        .blocks()
        .parts
        .as_slice();
    add_parts(fitting, process, parts, slots, gets, uses)
}

// The same, with slots of its own.
fn add_script(
    alloc: Global,
    fitting: &ShapedNetwork,
    process: u32,
    gets: &mut [u32],
    uses: &mut [Items<u32>],
) -> Result<(), AllocError>
    requires process { process < length fitting.now.network.now.processes }
    requires gets { length gets.old ≡ length fitting.now.network.now.channels }
    requires uses { length uses.old ≡ length fitting.now.network.now.channels }
    requires fresh { (c : ℕ) → (net_of fitting.now.network.now).reader c ≡ process
        → slice_index gets.old c ≡ 0 }
    ensures gets { OnOk result ((c : ℕ) → c < length fitting.now.network.now.channels
        → slice_index gets.new c
        ≡ slice_index gets.old c
        + count_by (is_get c) ((net_of fitting.now.network.now).script process)) }
    ensures uses { OnOk result ((c : ℕ) → c < length fitting.now.network.now.channels
        → slice_index_or uses.new c []
        ≡ slice_index_or uses.old c []
        ++ uses_before (net_of fitting.now.network.now) c process
        (length ((net_of fitting.now.network.now).script process))) }
{
    let mut slots = empty_slots(alloc, process_of(fitting.network, process))?;
    add_events(fitting, process, &mut slots, gets, uses)
}

// So many empty lists.
fn empty_lists(alloc: Global, count: usize) -> Result<Vec<Items<u32>>, AllocError>
    ensures { IfOk result (λ lists. lists.items ≡ replicate count []) }
{
    let mut lists = Vec::new(alloc);
    for _ in 0..count {
        lists.push(Items::new(alloc))?;
    }
    Ok(lists)
}

// The uses of each channel.
fn channel_uses(alloc: Global, fitting: &ShapedNetwork) -> Result<Vec<Items<u32>>, AllocError>
    ensures length { IfOk result
        (λ lists. length lists.items ≡ length fitting.now.network.now.channels) }
    ensures uses { IfOk result
        (λ lists. (c : ℕ) → c < length fitting.now.network.now.channels
        → slice_index_or lists.items c [] ≡ uses (net_of fitting.now.network.now) c) }
{
    let mut uses = empty_lists(alloc, fitting.network.channels.len())?;
    let mut gets = vec![in alloc; 0; fitting.network.channels.len()]?;
    for process in 0..fitting.network.processes.len() as u32 {
        add_script(alloc, fitting, process, &mut gets, &mut uses)?;
    }
    Ok(uses)
}

fn is_class(said: ChannelClass, class: ChannelClass) -> bool
    ensures { result ≡ same_class said class }
{
    said == class
}

// The first channel whose class isn't that of its uses, which are these.
fn first_other_class(
    alloc: Global,
    network: &Network,
    lists: &[Items<u32>],
) -> Result<Option<Refusal>, AllocError>
    requires channels { length network.now.channels < 2 ^ 32 }
    requires length { length lists.now ≡ length network.now.channels }
    requires uses { (c : ℕ) → c < length network.now.channels
        → slice_index_or lists.now c [] ≡ uses (net_of network.now) c }
    ensures { IfOk result (λ refusal. refusal ≡ class_refusal network.now) }
{
    for (at, channel) in network.channels.as_slice().iter().enumerate() {
        let class = class_of(alloc, lists[at].as_slice())?;
        if !is_class(channel.class, class) {
            return Ok(Some(Refusal::Class(at as u32, channel.class, class)));
        }
    }
    Ok(None)
}

/// The first channel whose class isn't that of its uses, if there is one.
pub(crate) fn class_refusal(
    alloc: Global,
    fitting: &ShapedNetwork,
) -> Result<Option<Refusal>, AllocError>
    ensures { IfOk result (λ refusal. refusal ≡ class_refusal fitting.now.network.now) }
{
    let uses = channel_uses(alloc, fitting)?;
    first_other_class(alloc, fitting.network, &uses)
}
