//! A process that runs alone, over ends in memory.
ghost use Rattle.std.specs.Prelude.{◌≡◌, ◌+◌, ◌-◌, ◌<◌, ℕ, ℤ, true, false, [], ◌∷◌, ◌++◌, length, if◌then◌else◌, slice_get, Some, IfOk, IfSome, OnOk};
ghost use Rattle.net_core.specs.Held.{held_of, run_of, IsFor};
ghost use Rattle.net_core.specs.Machine.{net_of, start};
ghost use Rattle.net_core.specs.Names.{fired};
ghost use Rattle.net_core.specs.Orders.{EndsAll};
ghost use Rattle.net_core.specs.Rules.{tags};
ghost use Rattle.net_core.specs.Shape.{fires, is_fire, is_put};
ghost use Rattle.net_core.specs.Sound.{IsSound, tag_value};
ghost use Rattle.node_runner.specs.Logs.{nth_stream};
ghost use Rattle.node_runner.specs.Nodes.{stream};

use crate::bound::Made;
use io_edge::Open;
use net_core::{Event, Network, Room, State, Values, every_order, kept, sound, start};
use node_runner::{LogEnds, run_node};
use plain_data::Items;
use sanlp::{Inputs, Tag};
use script_blocks::Script;
use std::alloc::{AllocError, Global};
use std::sync::Wait;
use witness_plan::run_by;

// Runs a network along the schedule of its certificate.
fn run_along(made: &Made, inputs: &Inputs, state: &mut State<i64>)
    requires sound { IsSound made.now.nest made.now.network }
    requires ends { EndsAll (net_of made.now.network) tags made.now.cert.schedule }
    requires opening { run_of state.old ≡ start (net_of made.now.network) }
    requires state { IsFor (net_of made.now.network) (held_of state.old) }
    ensures kept { (p : ℕ)
        → ((run_of state.new).local p).kept
        ≡ fired (tag_value made.now.nest inputs.now) p
        (fires (net_of made.now.network) p (length ((net_of made.now.network).script p))) }
    ensures state { IsFor (net_of made.now.network) (held_of state.new) }
{
    every_order::<Tag, i64>();
    sound();
    let rule = Values {
        nest: &made.nest,
        points: &made.points,
        inputs,
    };
    run_by(state, &made.network, &rule, made.cert.schedule.as_slice());
}

// Whether an event puts to this channel.
fn is_put(event: &Event, channel: u32) -> bool
    ensures { result ≡ is_put channel event.now }
{
    match event {
        Event::Put { channel: to } => channel == *to,
        _ => false,
    }
}

// So many fires, and one more where the event is one.
fn counted(fires: usize, event: &Event) -> Option<usize>
    ensures { IfSome result (λ after. after ≡ fires + (if is_fire event.now then 1 else 0)) }
{
    match event {
        Event::Fire { .. } => fires.checked_add(1),
        _ => Some(fires),
    }
}

// The last of the first so many values.
fn last_of(values: &[i64], many: usize) -> Option<i64>
    ensures { IfSome result (λ value. slice_get values.now (many - 1) ≡ Some value) }
{
    values.get(many.checked_sub(1)?).copied()
}

// Puts to the values of a channel what was kept last after so many fires, where the event is a Put of the channel.
fn put_value(
    values: &mut Vec<i64>,
    kept: &[i64],
    fires: usize,
    event: &Event,
    channel: u32,
) -> Result<(), AllocError>
    ensures put { OnOk result (is_put channel event.now ≡ true
        → (value : ℤ) × (slice_get kept.now (fires - 1) ≡ Some value)
        × (values.new.items ≡ values.old.items ++ value ∷ [])) }
    ensures none { OnOk result (is_put channel event.now ≡ false
        → values.new.items ≡ values.old.items) }
{
    if is_put(event, channel) {
        let value = last_of(kept, fires).ok_or(AllocError)?;
        values.push(value)?;
    }
    Ok(())
}

// Passes an event of a channel's writer: answers so many fires, and one more where the event is one.
fn pass_event(
    values: &mut Vec<i64>,
    kept: &[i64],
    fires: usize,
    event: &Event,
    channel: u32,
) -> Result<usize, AllocError>
    ensures fires { IfOk result
        (λ after. after ≡ fires + (if is_fire event.now then 1 else 0)) }
    ensures put { OnOk result (is_put channel event.now ≡ true
        → (value : ℤ) × (slice_get kept.now (fires - 1) ≡ Some value)
        × (values.new.items ≡ values.old.items ++ value ∷ [])) }
    ensures none { OnOk result (is_put channel event.now ≡ false
        → values.new.items ≡ values.old.items) }
{
    put_value(values, kept, fires, event, channel)?;
    match counted(fires, event) {
        Some(after) => Ok(after),
        None => Err(AllocError),
    }
}

// The stream of a channel whose writer has this script and has kept this: what it kept last before each of its Puts.
fn values_put(
    alloc: Global,
    _made: &Made,
    _inputs: &Inputs,
    events: &[Event],
    kept: &[i64],
    channel: u32,
) -> Result<Vec<i64>, AllocError>
    requires events { events.now
        ≡ (net_of _made.now.network).script ((net_of _made.now.network).writer channel) }
    requires kept { kept.now
        ≡ fired (tag_value _made.now.nest _inputs.now) ((net_of _made.now.network).writer channel)
        (fires (net_of _made.now.network) ((net_of _made.now.network).writer channel)
        (length events.now)) }
    ensures { IfOk result
        (λ values. values.items ≡ stream _made.now.nest _made.now.network _inputs.now channel) }
{
    let mut values = Vec::new(alloc);
    let mut fires = 0;
    for event in events {
        fires = pass_event(&mut values, kept, fires, event, channel)?;
    }
    Ok(values)
}

// The writer of a channel.
fn writer_of(network: &Network, channel: u32) -> u32
    requires { channel < length network.now.channels }
    ensures { result ≡ (net_of network.now).writer channel }
{
    network.channels.as_slice()[channel as usize].writer
}

// The script of a process.
fn script_of(network: &Network, process: u32) -> &Script<Event>
    requires { process < length network.now.processes }
    ensures { result.now ≡ (net_of network.now).script process }
{
    &network.processes.as_slice()[process as usize].script
}

// The events of a script, one by one.
fn expanded(alloc: Global, script: &Script<Event>) -> Result<Items<Event>, AllocError>
    ensures { IfOk result (λ events. events ≡ script.now) }
{
    let events = script.iter().collect(alloc)?;
    Ok(Items::from_vec(events))
}

// The stream of a channel.
fn stream_of(
    alloc: Global,
    made: &Made,
    inputs: &Inputs,
    state: &State<i64>,
    channel: u32,
) -> Result<Vec<i64>, AllocError>
    requires sound { IsSound made.now.nest made.now.network }
    requires kept { (p : ℕ)
        → ((run_of state.now).local p).kept
        ≡ fired (tag_value made.now.nest inputs.now) p
        (fires (net_of made.now.network) p (length ((net_of made.now.network).script p))) }
    requires state { IsFor (net_of made.now.network) (held_of state.now) }
    requires channel { channel < length made.now.network.channels }
    ensures { IfOk result
        (λ values. values.items ≡ stream made.now.nest made.now.network inputs.now channel) }
{
    let writer = writer_of(&made.network, channel);
    let kept = kept(state, writer);
    let events = expanded(alloc, script_of(&made.network, writer))?;
    values_put(alloc, made, inputs, events.as_slice(), kept, channel)
}

// The streams of all channels, in order.
fn streams_of(
    alloc: Global,
    made: &Made,
    inputs: &Inputs,
    state: &State<i64>,
) -> Result<Vec<Vec<i64>>, AllocError>
    requires sound { IsSound made.now.nest made.now.network }
    requires kept { (p : ℕ)
        → ((run_of state.now).local p).kept
        ≡ fired (tag_value made.now.nest inputs.now) p
        (fires (net_of made.now.network) p (length ((net_of made.now.network).script p))) }
    requires state { IsFor (net_of made.now.network) (held_of state.now) }
    ensures number { IfOk result
        (λ streams. length streams.items ≡ length made.now.network.channels) }
    ensures each { IfOk result
        (λ streams. (c : ℕ) → c < length made.now.network.channels
        → nth_stream streams.items c ≡ stream made.now.nest made.now.network inputs.now c) }
{
    let mut streams = Vec::new(alloc);
    for channel in 0..made.network.channels.len() {
        streams.push(stream_of(alloc, made, inputs, state, channel as u32)?)?;
    }
    Ok(streams)
}

// The streams of all channels of a sound network.
fn streams_along(alloc: Global, made: &Made, inputs: &Inputs) -> Result<Vec<Vec<i64>>, AllocError>
    requires sound { IsSound made.now.nest made.now.network }
    requires ends { EndsAll (net_of made.now.network) tags made.now.cert.schedule }
    ensures number { IfOk result
        (λ streams. length streams.items ≡ length made.now.network.channels) }
    ensures each { IfOk result
        (λ streams. (c : ℕ) → c < length made.now.network.channels
        → nth_stream streams.items c ≡ stream made.now.nest made.now.network inputs.now c) }
{
    let mut state = start(alloc, &made.network, &made.points)?;
    run_along(made, inputs, &mut state);
    let streams = streams_of(alloc, made, inputs, &state);
    drop(state);
    streams
}

/// What a process of a sound network has kept, and the calls of its ends, where it runs alone over ends in memory.
pub(crate) fn run_alone<R: Wait>(
    rt: &R,
    alloc: Global,
    made: &Made,
    inputs: &Inputs,
    process: u32,
) -> Result<(Room<i64>, LogEnds), AllocError>
    requires sound { IsSound made.now.nest made.now.network }
    requires ends { EndsAll (net_of made.now.network) tags made.now.cert.schedule }
    requires process { process < length made.now.network.processes }
{
    let streams = streams_along(alloc, made, inputs)?;
    let mut room = Room::new(alloc, &made.network, &made.points, process)?;
    let mut ends = LogEnds::new(alloc, &made.network, process, &streams)?;
    run_node(
        rt,
        &made.nest,
        &made.points,
        inputs,
        &made.network,
        process,
        &mut room,
        &mut ends,
        &Open,
    );
    Ok((room, ends))
}
