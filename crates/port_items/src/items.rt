ghost use Rattle.std.specs.Prelude.{◌≡◌, [], ◌∷◌, ◌++◌, List, IfOk, OnOk};
ghost use Rattle.net_core.specs.declared.network.Event.{Event};
ghost use Rattle.net_core.specs.Shape.{is_fire};
ghost use Rattle.port_items.specs.Items.{begins_with_fire, fire_if, fire_items, get_items, get_items_before, port_gets, put_items};
ghost use Rattle.port_items.specs.declared.items.GetItem.{GetItem};
ghost use Rattle.port_items.specs.Walks.{behind_fire, behind_get};

use crate::laws::equal_items;
use net_core::{Event, Refs, equal_is_same};
use script_blocks::{Script, ScriptBuilder};
use std::alloc::{AllocError, Global};

/// What a Get port does in turn: a Get into a slot, if there is one, and behind it a fire of its process, if there is one.
#[derive(Clone, Copy, Debug, PartialEq, Eq)]
pub struct GetItem {
    pub get: Option<u32>,
    pub fire: bool,
}

/// What a Put port does in turn: a fire of its process, if there is one, and behind it a Put, if there is one.
#[derive(Clone, Copy, Debug, PartialEq, Eq)]
pub struct PutItem {
    pub fire: bool,
    pub put: bool,
}

/// The items of a Get port. Where the script's first one is a fire without a Get, the port begins behind it: it waits for that
/// fire, and the fire stands at the end of the items.
#[derive(Drop)]
pub struct GetPort {
    pub items: Script<GetItem>,
    pub waits: bool,
}

/// The references of each Fire of a script, in order, folded, or want of memory.
pub fn fires_of(alloc: Global, script: &Script<Event>) -> Result<Script<Refs>, AllocError>
    ensures { IfOk result (λ fires. fires ≡ fire_items script.now) }
{
    equal_is_same();
    let mut fires = ScriptBuilder::new(alloc);
    for event in script.iter() {
        if let Event::Fire { refs } = event {
            fires.push(refs)?;
        }
    }
    fires.script(alloc)
}

fn push_get(
    get: Option<u32>,
    fire: bool,
    items: &mut ScriptBuilder<GetItem>,
) -> Result<(), AllocError>
    ensures { OnOk result (items.new ≡ items.old ++ record { get = get; fire = fire } ∷ []) }
{
    equal_items();
    items.push(GetItem { get, fire })
}

fn push_put(fire: bool, put: bool, items: &mut ScriptBuilder<PutItem>) -> Result<(), AllocError>
    ensures { OnOk result (items.new ≡ items.old ++ record { fire = fire; put = put } ∷ []) }
{
    equal_items();
    items.push(PutItem { fire, put })
}

// Adds the items that are whole at this event, where a Get into a slot may wait for its fire, and gives the one that waits then.
fn add_event_of_get(
    event: Event,
    channel: u32,
    waiting: Option<u32>,
    items: &mut ScriptBuilder<GetItem>,
) -> Result<Option<u32>, AllocError>
    ensures { IfOk result (λ next. (script : List Event) (behind : List GetItem)
        → items.new ++ behind_get next (get_items_before channel behind script)
        ≡ items.old ++ behind_get waiting (get_items_before channel behind (event ∷ script))) }
{
    match event {
        Event::Get { channel: of, slot } => {
            if of != channel {
                return Ok(waiting);
            }
            if waiting.is_some() {
                push_get(waiting, false, items)?;
            }
            Ok(Some(slot))
        }
        Event::Fire { .. } => {
            push_get(waiting, true, items)?;
            Ok(None)
        }
        Event::Put { .. } => Ok(waiting),
    }
}

// Adds the last item: the Get that waits, or a fire where the walk is to end with one, or both.
fn add_last_get(
    waiting: Option<u32>,
    fire: bool,
    items: &mut ScriptBuilder<GetItem>,
) -> Result<(), AllocError>
    ensures { OnOk result (items.new ≡ items.old ++ behind_get waiting (fire_if fire)) }
{
    if fire || waiting.is_some() {
        push_get(waiting, fire, items)?;
    }
    Ok(())
}

fn begins_behind_fire(script: &Script<Event>, channel: u32) -> bool
    ensures { result ≡ begins_with_fire (get_items channel script.now) }
{
    for event in script.iter() {
        match event {
            Event::Get { channel: of, .. } => {
                if of == channel {
                    return false;
                }
            }
            Event::Fire { .. } => return true,
            Event::Put { .. } => {}
        }
    }
    false
}

fn is_fire(event: &Event) -> bool
    ensures { result ≡ is_fire event.now }
{
    matches!(event, Event::Fire { .. })
}

// The items of a Get port, which begins behind a fire or not.
fn items_of_gets(
    alloc: Global,
    script: &Script<Event>,
    channel: u32,
    behind: bool,
) -> Result<Script<GetItem>, AllocError>
    requires { behind ≡ begins_with_fire (get_items channel script.now) }
    ensures { IfOk result (λ items. items ≡ port_gets channel script.now) }
{
    let mut items = ScriptBuilder::new(alloc);
    let mut skips = behind;
    let mut waiting = None;
    for event in script.iter() {
        if skips {
            skips = !is_fire(&event);
        } else {
            waiting = add_event_of_get(event, channel, waiting, &mut items)?;
        }
    }
    add_last_get(waiting, behind, &mut items)?;
    items.script(alloc)
}

/// The items of the port at which a process of this script gets from a channel, folded, or want of memory.
pub fn get_port(alloc: Global, script: &Script<Event>, channel: u32) -> Result<GetPort, AllocError>
    ensures items { IfOk result (λ port. port.items ≡ port_gets channel script.now) }
    ensures waits { IfOk result (λ port. port.waits
        ≡ begins_with_fire (get_items channel script.now)) }
{
    let waits = begins_behind_fire(script, channel);
    let items = items_of_gets(alloc, script, channel, waits)?;
    Ok(GetPort { items, waits })
}

// Adds the items that are whole at this event, where a fire may wait for its Put, and tells whether one waits then.
fn add_event_of_put(
    event: Event,
    channel: u32,
    waiting: bool,
    items: &mut ScriptBuilder<PutItem>,
) -> Result<bool, AllocError>
    ensures { IfOk result (λ next. (script : List Event)
        → items.new ++ behind_fire next (put_items channel script)
        ≡ items.old ++ behind_fire waiting (put_items channel (event ∷ script))) }
{
    match event {
        Event::Get { .. } => Ok(waiting),
        Event::Fire { .. } => {
            if waiting {
                push_put(true, false, items)?;
            }
            Ok(true)
        }
        Event::Put { channel: of } => {
            if of != channel {
                return Ok(waiting);
            }
            push_put(waiting, true, items)?;
            Ok(false)
        }
    }
}

fn add_last_fire(waiting: bool, items: &mut ScriptBuilder<PutItem>) -> Result<(), AllocError>
    ensures { OnOk result (items.new ≡ items.old ++ behind_fire waiting []) }
{
    if waiting {
        push_put(true, false, items)?;
    }
    Ok(())
}

/// The items of the port at which a process of this script puts to a channel, folded, or want of memory.
pub fn put_port(
    alloc: Global,
    script: &Script<Event>,
    channel: u32,
) -> Result<Script<PutItem>, AllocError>
    ensures { IfOk result (λ items. items ≡ put_items channel script.now) }
{
    let mut items = ScriptBuilder::new(alloc);
    let mut waiting = false;
    for event in script.iter() {
        waiting = add_event_of_put(event, channel, waiting, &mut items)?;
    }
    add_last_fire(waiting, &mut items)?;
    items.script(alloc)
}
