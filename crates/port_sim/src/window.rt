ghost use Rattle.std.specs.Prelude.{◌≡◌, ◌<◌, ◌≤◌, ◌+◌, ◌^◌, ℕ, Some, List, Bool, true, false, [], ◌++◌, drop, length, map, slice_get, IfOk};
ghost use Rattle.net_core.specs.declared.network.Event.{Event};
ghost use Rattle.net_core.specs.Machine.{replaced};
ghost use Rattle.port_runs.specs.Ports.{are_dependent, is_due};
ghost use Rattle.port_sim.specs.declared.window.Pending.{Pending};
ghost use Rattle.port_sim.specs.Windows.{IsWindow, is_of_kind, round, waiting};

use net_core::Event;
use script_blocks::ScriptCursor;
use std::alloc::AllocError;

/// The kinds of events, in the order in which they come in a clock.
#[derive(Clone, Copy)]
pub(crate) enum Kind {
    Puts,
    Fires,
    Gets,
}

/// An event of a window, and whether it has come.
#[derive(Clone, Copy)]
pub(crate) struct Pending {
    pub event: Event,
    pub has_come: bool,
}

/// The part of a process's script in which an event may come: from behind its last fire up to its next one, with it, or to the
/// script's end. All before it have come.
#[derive(Drop)]
pub(crate) struct Window {
    /// The place of its first event.
    pub first: u32,
    pub events: Vec<Pending>,
    /// What is left of the script behind it.
    pub rest: ScriptCursor<Event>,
}

/// Whether an event is of a kind.
pub(crate) fn is_of_kind(kind: Kind, event: &Event) -> bool
    ensures { result ≡ is_of_kind kind event.now }
{
    match kind {
        Kind::Puts => matches!(event, Event::Put { .. }),
        Kind::Fires => matches!(event, Event::Fire { .. }),
        Kind::Gets => matches!(event, Event::Get { .. }),
    }
}

// Whether two events of a process are dependent: one is a Fire, or both are at one port, or both fill one slot.
fn are_dependent(event: &Event, other: &Event) -> bool
    ensures { result ≡ are_dependent event.now other.now }
{
    match event {
        Event::Get { channel, slot } => match other {
            Event::Get {
                channel: port,
                slot: filled,
            } => *channel == *port || *slot == *filled,
            Event::Fire { .. } => true,
            Event::Put { .. } => false,
        },
        Event::Fire { .. } => true,
        Event::Put { channel } => match other {
            Event::Get { .. } => false,
            Event::Fire { .. } => true,
            Event::Put { channel: port } => *channel == *port,
        },
    }
}

/// Takes the next events of a script up to its next fire, with it, or to its end.
pub(crate) fn take_round(
    events: &mut Vec<Pending>,
    rest: &mut ScriptCursor<Event>,
) -> Result<(), AllocError>
    ensures events { IfOk result
        (λ _. events.new.items ≡ events.old.items ++ map waiting (round rest.old)) }
    ensures rest { IfOk result (λ _. rest.new ≡ drop (length (round rest.old)) rest.old) }
{
    let mut more = true;
    while more {
        let Some(event) = rest.next() else {
            return Ok(());
        };
        events.push(Pending {
            event,
            has_come: false,
        })?;
        more = !matches!(event, Event::Fire { .. });
    }
    Ok(())
}

/// Whether each event of a window before one of it on which this depends has come. So it is due, since all before the window have.
/// The nearest is looked at first: where a port's events stand side by side, that is the one which hinders.
pub(crate) fn is_due(events: &[Pending], at: usize) -> bool
    requires at { at < length events.now }
    ensures { (script : List Event) (has_come : ℕ → Bool) (first : ℕ) (x : Pending)
        → ((k : ℕ) → k < first → has_come k ≡ true)
        → ((i : ℕ) (y : Pending) → slice_get events.now i ≡ Some y
        → (slice_get script (first + i) ≡ Some y.event) × (has_come (first + i) ≡ y.has_come))
        → slice_get events.now at ≡ Some x
        → result ≡ is_due script has_come x.event (first + at) }
{
    for passed in 0..at {
        let earlier = at - 1 - passed;
        let other = events[earlier];
        if !other.has_come && are_dependent(&events[at].event, &other.event) {
            return false;
        }
    }
    true
}

impl Window {
    /// Lets the event at a place of the script come, which is in the window, and tells which it is. Whether it may come isn't asked
    /// here. Behind a fire the next window begins.
    pub(crate) fn make_event(&mut self, place: u32) -> Result<Event, AllocError>
        requires first { self.old.first ≤ place }
        requires within { place < self.old.first + length self.old.events.items }
        requires small { self.old.first + length self.old.events.items < 2 ^ 32 }
        ensures { IfOk result (λ event. (script : List Event) (has_come : ℕ → Bool) (e : Event)
            → IsWindow script has_come self.old → slice_get script place ≡ Some e
            → has_come place ≡ false → is_due script has_come e place ≡ true
            → (event ≡ e) × IsWindow script (replaced has_come place true) self.new) }
    {
        let at = (place - self.first) as usize;
        let event = self.events[at].event;
        if is_of_kind(Kind::Fires, &event) {
            self.first += self.events.len() as u32;
            self.events.clear();
            take_round(&mut self.events, &mut self.rest)?;
        } else {
            self.events[at].has_come = true;
        }
        Ok(event)
    }
}
