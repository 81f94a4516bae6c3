ghost use Rattle.std.specs.Prelude.{◌≡◌, ◌<◌, ◌≤◌, ◌+◌, ◌*◌, ◌^◌, ℕ, [], ◌∷◌, length, slice_index, count_by, IfOk, slice_get, Some};
ghost use Rattle.net_core.specs.Machine.{net_of, start};
ghost use Rattle.net_core.specs.Shape.{is_put, put_count, IsShaped, FitsNumbers};
ghost use Rattle.script_blocks.specs.Expansion.{part_expansion, parts_expansion};
ghost use Rattle.net_core.specs.Held.{held_of, run_of, IsFor, AreFresh, AreEmpty};

use crate::machine::{Local, State};
use crate::network::{Event, Network};
use crate::room::Room;
use crate::wired_network::WiredNetwork;
use sanlp::Points;
use script_blocks::{BlockPart, Script};
use std::alloc::{AllocError, Global};
use std::collections::VecDeque;

/// The opening state, with a cursor for each process. It has the room for all that is to come: each queue for the lesser of
/// its capacity and its number of Puts, and each kept list for its process's points.
pub fn start<T: Copy>(
    alloc: Global,
    network: &Network,
    points: &Points,
) -> Result<State<T>, AllocError>
    requires shaped { IsShaped (net_of network.now) points.now.of }
    requires numbers { FitsNumbers (net_of network.now) }
    ensures run { IfOk result (λ state. run_of state ≡ start (net_of network.now)) }
    ensures state { IfOk result (λ state. IsFor (net_of network.now) (held_of state)) }
{
    let locals = fresh_locals(alloc, network, points)?;
    let wired = WiredNetwork { network };
    let queues = empty_queues(alloc, &wired)?;
    Ok(State { locals, queues })
}

fn fresh_locals<T: Copy>(
    alloc: Global,
    network: &Network,
    points: &Points,
) -> Result<Vec<Local<T>>, AllocError>
    requires shaped { IsShaped (net_of network.now) points.now.of }
    requires numbers { FitsNumbers (net_of network.now) }
    ensures { IfOk result
        (λ locals. AreFresh (net_of network.now) locals.items (length network.now.processes)) }
{
    let mut locals = Vec::new(alloc);
    for at in 0..network.processes.len() {
        let room = Room::new(alloc, network, points, at as u32)?;
        locals.push(Local { position: 0, room })?;
    }
    Ok(locals)
}

// Adds so many to the count of the channel to which an event puts, if it is a Put.
fn count_put(event: &Event, times: u32, counts: &mut [u32])
    requires channels { (c : ℕ) → 0 < count_by (is_put c) (event.now ∷ []) → c < length counts.old }
    requires room { (c : ℕ) → c < length counts.old
        → slice_index counts.old c + times * count_by (is_put c) (event.now ∷ []) < 2 ^ 32 }
    ensures { (c : ℕ) → c < length counts.old
        → slice_index counts.new c
        ≡ slice_index counts.old c + times * count_by (is_put c) (event.now ∷ []) }
{
    if let Event::Put { channel } = event {
        counts[*channel as usize] += times;
    }
}

// Adds to each channel's count how often so many copies of these parts put to it. All channels are counted in one walk.
#[cycle(puts)]
fn count_puts_of_parts(parts: &[BlockPart<Event>], times: u32, counts: &mut [u32])
    requires channels { (c : ℕ) → 0 < count_by (is_put c) (parts_expansion parts.now)
        → c < length counts.old }
    requires room { (c : ℕ) → c < length counts.old
        → slice_index counts.old c + times * count_by (is_put c) (parts_expansion parts.now)
        < 2 ^ 32 }
    ensures { (c : ℕ) → c < length counts.old
        → slice_index counts.new c
        ≡ slice_index counts.old c + times * count_by (is_put c) (parts_expansion parts.now) }
{
    for part in parts {
        count_puts_of_part(part, times, counts);
    }
}

// Only a body without Puts may have copies past the greatest number, so it doesn't matter that they are cut off there.
#[cycle(puts)]
fn count_puts_of_part(part: &BlockPart<Event>, times: u32, counts: &mut [u32])
    requires channels { (c : ℕ) → 0 < count_by (is_put c) (part_expansion part.now)
        → c < length counts.old }
    requires room { (c : ℕ) → c < length counts.old
        → slice_index counts.old c + times * count_by (is_put c) (part_expansion part.now)
        < 2 ^ 32 }
    ensures { (c : ℕ) → c < length counts.old
        → slice_index counts.new c
        ≡ slice_index counts.old c + times * count_by (is_put c) (part_expansion part.now) }
{
    match part {
        BlockPart::Item(event) => count_put(event, times, counts),
        BlockPart::Repeat(count, body) => {
            if *count == 0 {
                return;
            }
            count_puts_of_parts(body.parts.as_slice(), times.saturating_mul(*count), counts);
        }
    }
}

// Adds to each channel's count how often a script puts to it.
fn count_puts(script: &Script<Event>, counts: &mut [u32])
    requires channels { (k c : ℕ) → slice_get script.now k ≡ Some (Event.Put c)
        → c < length counts.old }
    requires room { (c : ℕ) → c < length counts.old
        → slice_index counts.old c + count_by (is_put c) script.now < 2 ^ 32 }
    ensures { (c : ℕ) → c < length counts.old
        → slice_index counts.new c ≡ slice_index counts.old c + count_by (is_put c) script.now }
{
    count_puts_of_parts(script.blocks().parts.as_slice(), 1, counts);
}

// How many Puts each channel has.
fn put_counts(alloc: Global, wired: &WiredNetwork) -> Result<Vec<u32>, AllocError>
    ensures length { IfOk result
        (λ counts. length counts.items ≡ length wired.now.network.now.channels) }
    ensures counts { IfOk result
        (λ counts. (c : ℕ) → c < length wired.now.network.now.channels
        → slice_index counts.items c ≡ put_count (net_of wired.now.network.now) c) }
{
    let mut counts = vec![in alloc; 0; wired.network.channels.len()]?;
    for process in wired.network.processes.as_slice() {
        count_puts(&process.script, &mut counts);
    }
    Ok(counts)
}

fn empty_queues<T: Copy>(
    alloc: Global,
    wired: &WiredNetwork,
) -> Result<Vec<VecDeque<T>>, AllocError>
    ensures { IfOk result
        (λ queues. AreEmpty (net_of wired.now.network.now) queues.items
        (length wired.now.network.now.channels)) }
{
    let counts = put_counts(alloc, wired)?;
    let mut queues = Vec::new(alloc);
    for (at, channel) in wired.network.channels.as_slice().iter().enumerate() {
        let room = counts[at].min(channel.capacity);
        queues.push(VecDeque::with_capacity(alloc, room as usize)?)?;
    }
    Ok(queues)
}
