//! Events, channels and processes.

use channel_class::{ChannelClass, UseOrder};
use net_core::{Channel, Event, Process, Ref, Refs, equal_is_same};
use plain_data::Items;
use script_blocks::Script;
use std::alloc::{AllocError, Global};

/// An event of a script.
#[derive(Clone, Copy)]
pub(crate) enum Step {
    /// From a channel to a slot.
    Get(u32, u32),
    Fire(&'static [Ref]),
    Put(u32),
}

fn refs(references: &[Ref]) -> Refs {
    let mut refs = Refs::empty();
    for reference in references {
        if refs.len() < 8 {
            refs.push(*reference);
        }
    }
    refs
}

fn event(step: Step) -> Event {
    match step {
        Step::Get(channel, slot) => Event::Get { channel, slot },
        Step::Fire(references) => Event::Fire {
            refs: refs(references),
        },
        Step::Put(channel) => Event::Put { channel },
    }
}

/// These events, and behind them so many fires without references.
fn events(alloc: Global, steps: &[Step], fires: u32) -> Result<Items<Event>, AllocError> {
    let mut events = Items::new(alloc);
    for step in steps {
        events.push(event(*step))?;
    }
    for _ in 0..fires {
        events.push(event(Step::Fire(&[])))?;
    }
    Ok(events)
}

/// The folded script of these events, and of so many fires without references behind them.
pub(crate) fn script(
    alloc: Global,
    steps: &[Step],
    fires: u32,
) -> Result<Script<Event>, AllocError> {
    equal_is_same();
    let events = events(alloc, steps, fires)?;
    let few = events.len().min(100_000);
    Script::folded(alloc, &events.as_slice()[..few])
}

/// A process with these events, whose script is folded.
pub(crate) fn folded(alloc: Global, slots: u32, steps: &[Step]) -> Result<Process, AllocError> {
    let script = script(alloc, steps, 0)?;
    Ok(Process { slots, script })
}

/// A channel with its writer, reader, read and capacity.
pub(crate) fn channel(numbers: [u32; 4], order: UseOrder, multiplicity: bool) -> Channel {
    let [writer, reader, read, capacity] = numbers;
    Channel {
        writer,
        reader,
        read,
        capacity,
        class: ChannelClass {
            order,
            multiplicity,
        },
    }
}
