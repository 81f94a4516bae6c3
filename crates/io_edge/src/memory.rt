ghost use Rattle.std.specs.Prelude.{◌≡◌, ◌≤◌, ◌+◌, ◌++◌, [], take, drop, length, IsTrue, IsErr, IfOk, Ok};
ghost use Rattle.std.specs.Io.{ReadsAtMost, WritesAtMost};
ghost use Rattle.std.specs.Io.KnownBytes.{ReadConsumes, WriteAppends};
ghost use Rattle.io_edge.specs.Causes.{ReadCause, WriteCause};
ghost use Rattle.io_edge.specs.InMemory.{is_among, given_count, taken_count, after_read, after_failed_read, after_write, after_failed_write};

use crate::edge::{Failed, Sink, Source, raised};
use std::alloc::{AllocError, Global};
use std::marker::Model;

/// Whether the call of this number is among those that fail.
fn fails(failing: &[u32], call: u64) -> bool
    ensures { result ≡ is_among failing.now call }
{
    failing.iter().any(|number| u64::from(*number) == call)
}

/// A source over bytes in memory, which gives them in pieces and fails at some calls.
#[derive(Drop)]
pub struct MemSource {
    bytes: Vec<u8>,
    at: usize,
    piece: usize,
    failing: Vec<u32>,
    calls: u64,
    faults: u64,
}

impl Model for MemSource {
    ghost use Rattle.std.specs.Prelude.{◌≤◌, drop, length};
    ghost use Rattle.io_edge.specs.InMemory.{SourceState, source_code};

    ghost Value = { SourceState };

    ghost coded = { source_code };

    ghost view = { λ s. record {
      left = drop s.at s.bytes.items;
      piece = s.piece;
      failing = s.failing.items;
      calls = s.calls;
      faults = s.faults;
    } };

    ghost invariant = { λ s. (s.at ≤ length s.bytes.items) × (1 ≤ s.piece) };
}

impl MemSource {
    /// A source of these bytes, of which a call gives at most `piece`. The calls whose numbers, from 0, stand in
    /// `failing` fail.
    pub fn new(
        alloc: Global,
        bytes: &[u8],
        piece: usize,
        failing: &[u32],
    ) -> Result<MemSource, AllocError>
        requires { 1 ≤ piece }
        ensures { IfOk result (λ source. source ≡ record {
          left = bytes.now;
          piece = piece;
          failing = failing.now;
          calls = 0;
          faults = 0;
        }) }
    {
        Ok(MemSource {
            bytes: Vec::from_slice(alloc, bytes)?,
            at: 0,
            piece,
            failing: Vec::from_slice(alloc, failing)?,
            calls: 0,
            faults: 0,
        })
    }
}

impl Source for MemSource {
    ghost use Rattle.std.specs.Prelude.{Some};

    ghost left = { λ s. Some s.left };

    ghost faults = { λ s. s.faults };

    ghost reads = { λ s. s.calls };

    fn read(&mut self, buf: &mut [u8]) -> Result<usize, Failed>
        ensures bound { ReadsAtMost result buf.new }
        ensures bytes { ReadConsumes (Some self.old.left) (Some self.new.left) result buf.new }
        ensures cause { ReadCause self.old.faults self.new.faults result }
        ensures one { self.new.calls ≤ self.old.calls + 1 }

        // Which calls fail, and what every other call gives.
        ensures fails { IsTrue (is_among self.old.failing self.old.calls) →
            IsErr result × (self.new ≡ after_failed_read self.old) }
        ensures gives { ¬ IsTrue (is_among self.old.failing self.old.calls) →
            let count = given_count self.old (length buf.old) in
            (result ≡ Ok count) × (self.new ≡ after_read self.old count) }
    {
        let failed = fails(&self.failing, self.calls);
        self.calls = raised(self.calls);
        if failed {
            self.faults = raised(self.faults);
            return Err(Failed);
        }
        let (_, rest) = self.bytes.split_at(self.at);
        let count = rest.len().min(self.piece).min(buf.len());
        let (front, _) = rest.split_at(count);
        let (target, _) = buf.split_at_mut(count);
        target.copy_from_slice(front);
        self.at += count;
        Ok(count)
    }
}

/// A sink that holds bytes in memory, takes them in pieces, and fails at some calls.
#[derive(Drop)]
pub struct MemSink {
    held: Vec<u8>,
    room: usize,
    piece: usize,
    failing: Vec<u32>,
    calls: u64,
    faults: u64,
}

impl Model for MemSink {
    ghost use Rattle.std.specs.Prelude.{◌≤◌, length, vec_capacity};
    ghost use Rattle.io_edge.specs.InMemory.{SinkState, sink_code};

    ghost Value = { SinkState };

    ghost coded = { sink_code };

    ghost view = { λ s. record {
      held = s.held.items;
      room = s.room;
      piece = s.piece;
      failing = s.failing.items;
      calls = s.calls;
      faults = s.faults;
    } };

    ghost invariant = { λ s. (length s.held.items ≤ s.room) × (s.room ≤ vec_capacity s.held) };
}

impl MemSink {
    /// A sink that takes at most `piece` bytes per call, and nothing where `room` bytes are held. The calls whose
    /// numbers, from 0, stand in `failing` fail. The room is reserved here, so a write takes no memory.
    pub fn new(
        alloc: Global,
        room: usize,
        piece: usize,
        failing: &[u32],
    ) -> Result<MemSink, AllocError>
        ensures { IfOk result (λ sink. sink ≡ record {
          held = [];
          room = room;
          piece = piece;
          failing = failing.now;
          calls = 0;
          faults = 0;
        }) }
    {
        Ok(MemSink {
            held: Vec::with_capacity(alloc, room)?,
            room,
            piece,
            failing: Vec::from_slice(alloc, failing)?,
            calls: 0,
            faults: 0,
        })
    }

    /// What it holds.
    pub fn held(&self) -> &[u8]
        ensures { result.now ≡ self.now.held }
    {
        self.held.as_slice()
    }
}

impl Sink for MemSink {
    ghost use Rattle.std.specs.Prelude.{Some};

    ghost held = { λ s. Some s.held };

    ghost faults = { λ s. s.faults };

    fn write(&mut self, piece: &[u8]) -> Result<usize, Failed>
        ensures bound { WritesAtMost result piece.now }
        ensures bytes { WriteAppends (Some self.old.held) (Some self.new.held) result piece.now }
        ensures cause { WriteCause self.old.faults self.new.faults piece.now result }

        // Which calls fail, and what every other call takes.
        ensures fails { IsTrue (is_among self.old.failing self.old.calls) →
            IsErr result × (self.new ≡ after_failed_write self.old) }
        ensures takes { ¬ IsTrue (is_among self.old.failing self.old.calls) →
            (result ≡ Ok (taken_count self.old (length piece.now)))
            × (self.new ≡ after_write self.old piece.now) }
    {
        let failed = fails(&self.failing, self.calls);
        self.calls = raised(self.calls);
        if failed {
            self.faults = raised(self.faults);
            return Err(Failed);
        }
        let count = piece.len().min(self.piece).min(self.room - self.held.len());
        let (front, _) = piece.split_at(count);
        if self.held.extend_from_slice(front).is_err() {
            unreachable!();
        }
        if count == 0 && !piece.is_empty() {
            self.faults = raised(self.faults);
        }
        Ok(count)
    }
}
