ghost use Rattle.std.specs.Prelude.{◌≡◌, ◌<◌, [], ◌∷◌, length, slice_get, Some, IfOk};
ghost use Rattle.std.specs.Option.{option_copied};
ghost use Rattle.net_core.specs.Machine.{last_of, net_of};
ghost use Rattle.net_core.specs.Shape.{IsShaped};
ghost use Rattle.net_core.specs.Rooms.{fresh_store, store_past_event, store_with_token, store_with_value};

use crate::network::{Event, Network};
use sanlp::Points;
use script_blocks::ScriptCursor;
use std::alloc::{AllocError, Global};
use std::marker::Model;

/// What one process holds while it runs: what is left of its script, its slots, and space for all that it fires.
#[derive(Drop)]
pub struct Room<T> {
    script: ScriptCursor<Event>,
    slots: Vec<Option<T>>,
    kept: Vec<T>,
}

impl<T> Model for Room<T> {
    ghost use Rattle.std.specs.Prelude.{vec_capacity};
    ghost use Rattle.net_core.specs.Rooms.{Store, store};

    ghost Value = { Store T };

    ghost view = { λ room. store room.script room.slots.items room.kept.items
        (vec_capacity room.kept) };
}

impl<T: Copy> Room<T> {
    /// The room of a process that has made no event, with space for a value for each of its points.
    pub fn new(
        alloc: Global,
        network: &Network,
        points: &Points,
        process: u32,
    ) -> Result<Room<T>, AllocError>
        requires shaped { IsShaped (net_of network.now) points.now.of }
        requires process { process < length network.now.processes }
        ensures { IfOk result (λ room. room ≡ fresh_store (net_of network.now) process) }
    {
        let at = process as usize;
        let found = &network.processes.as_slice()[at];
        let fires = points.of.as_slice()[at].len();
        Ok(Room {
            script: ScriptCursor::new(&found.script)?,
            slots: vec![in alloc; None; found.slots as usize]?,
            kept: Vec::with_capacity(alloc, fires)?,
        })
    }

    /// The next event of the script, or `None` at its end. It takes no memory.
    pub fn upcoming(&self) -> Option<&Event>
        ensures { option_copied result ≡ slice_get self.now.left 0 }
    {
        self.script.peek()
    }

    /// Passes over the next event of the script and gives it, or `None` at the script's end. It takes no memory.
    pub fn pass(&mut self) -> Option<Event>
        ensures event { result ≡ slice_get self.old.left 0 }
        ensures passed { self.new ≡ store_past_event self.old }
    {
        self.script.next()
    }

    /// What the process has fired so far, in order.
    pub fn kept(&self) -> &[T]
        ensures { result.now ≡ self.now.kept }
    {
        &self.kept
    }

    /// What lies in the slots: in each the token that was put there last, if there was one.
    pub fn slots(&self) -> &[Option<T>]
        ensures { result.now ≡ self.now.slots }
    {
        &self.slots
    }

    /// A Get: the token goes to the slot.
    pub fn fill(&mut self, slot: usize, token: T)
        requires { slot < length self.old.slots }
        ensures { self.new ≡ store_with_token self.old slot token }
    {
        self.slots[slot] = Some(token);
    }

    /// A Fire: the value is kept. It takes no memory.
    pub fn keep(&mut self, value: T)
        requires { length self.old.kept < self.old.space }
        ensures { self.new ≡ store_with_value self.old value }
    {
        self.kept.push_reserved(value);
    }

    /// The value that was fired last.
    pub fn last(&self) -> T
        requires { 0 < length self.now.kept }
        ensures { last_of self.now.kept ≡ result ∷ [] }
    {
        self.kept[self.kept.len() - 1]
    }
}
