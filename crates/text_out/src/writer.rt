ghost use Rattle.std.specs.Prelude.{◌≡◌, ◌≤◌, ◌<◌, true, false, [], ◌++◌, length, take, OnOk, OnErr};
ghost use Rattle.std.specs.Io.KnownBytes.{Appends};
ghost use Rattle.io_edge.specs.Causes.{Rose, AppendsFront};
ghost use Rattle.text_out.specs.Wrote.{Given, Wrote};
ghost use Rattle.text_out.specs.ReachesSink.{ReachesSink, ReachesSink-prop};

use crate::past::Past;
use crate::waiting::Waiting;
use io_edge::{Sink, WriteFault, write_all};

/// Where a text is written piece by piece. No call tells of a failure: after one, nothing more is written.
pub trait TextWriter {
    /// What it was given so far.
    ghost given: { Self → Given };

    /// Writes a piece.
    fn put(&mut self, piece: &[u8])
        ensures { Wrote given self.old self.new piece.now };
}

/// A writer to a sink, with a buffer in place. It takes no memory.
///
/// The sink is handed 4096 bytes at a time, and what is left by `finish`.
#[derive(Drop)]
pub struct Writer<'a, K: Sink> {
    sink: &'a mut K,
    waiting: Waiting,
    failed: bool,
    past: Past<K>,

    // What became of the text that was handed to the sink.
    ghost reaches: { ReachesSink failed (K.held past.start) (K.held sink.now)
        (K.faults past.start) (K.faults sink.now) past.text } by { ReachesSink-prop failed (K.held past.start) (K.held sink.now)
            (K.faults past.start) (K.faults sink.now) past.text },
}

impl<'a, K: Sink> Writer<'a, K> {
    ghost use Rattle.text_out.specs.Writer.{given_of, sink_of};

    /// A writer that was given nothing.
    pub fn new(sink: &'a mut K) -> Writer<'a, K>
        ensures { given_of K.Sink result ≡ record {
          start = record {
            sink = sink.entry.ghost_name;
            held = K.held sink.old;
            faults = K.faults sink.old;
          };
          text = [];
        } }
    {
        let past = Past::new(sink);
        Writer {
            sink,
            waiting: Waiting::new(),
            failed: false,
            past,
        }
    }

    /// Hands what waits to the sink.
    fn flush(&mut self)
        ensures written { Wrote (given_of K.Sink) self.old self.new [] }
        ensures empty { self.new.waiting ≡ [] }
    {
        self.failed = hand_over(self.sink, self.waiting.as_slice(), self.failed);
        self.past = self.past.and(&self.waiting);
        self.waiting.clear();
    }

    /// Takes a front of the piece, and gives its length.
    fn gather(&mut self, piece: &[u8]) -> usize
        requires { 0 < length piece.now }
        ensures written { Wrote (given_of K.Sink) self.old self.new (take result piece.now) }
        ensures front { result ≤ length piece.now }
        ensures some { 0 < result }
    {
        if self.waiting.room() == 0 {
            self.flush();
        }
        let (front, _) = piece.split_at(piece.len().min(self.waiting.room()));
        self.waiting.append(front);
        front.len()
    }

    /// Hands the last bytes to the sink, and tells what became of the text.
    ///
    /// At `Ok` the sink took all of it, and at `WriteFault`, which is of this write or an earlier one, a front of it.
    pub fn finish(&mut self) -> Result<(), WriteFault>
        ensures given { given_of K.Sink self.new ≡ given_of K.Sink self.old }
        ensures ok { let given = given_of K.Sink self.old in
            OnOk result (Appends given.start.held (K.held (sink_of self.new)) given.text) }
        ensures quiet { let given = given_of K.Sink self.old in
            OnOk result (K.faults (sink_of self.new) ≡ given.start.faults) }
        ensures front { let given = given_of K.Sink self.old in
            OnErr result (AppendsFront given.start.held (K.held (sink_of self.new)) given.text) }
        ensures cause { let given = given_of K.Sink self.old in
            OnErr result (Rose given.start.faults (K.faults (sink_of self.new))) }
    {
        self.flush();
        if self.failed { Err(WriteFault) } else { Ok(()) }
    }
}

/// Writes these bytes, unless a write failed before, and tells whether one has failed by now.
#[tactic(auto, using(crate::proofs::SinkParts::holds_front))]
fn hand_over<K: Sink>(sink: &mut K, bytes: &[u8], failed: bool) -> bool
    ensures stopped { failed ≡ true → (result ≡ true) × (sink.new ≡ sink.old) }
    ensures going { failed ≡ false
        → ReachesSink result (K.held sink.old) (K.held sink.new)
        (K.faults sink.old) (K.faults sink.new) bytes.now }
{
    failed || write_all(sink, bytes).is_err()
}

impl<K: Sink> TextWriter for Writer<'_, K> {
    ghost use Rattle.text_out.specs.Writer.{given_of};

    ghost given = { given_of K.Sink };

    fn put(&mut self, piece: &[u8]) {
        let mut at = 0;
        while at < piece.len() {
            let (_, rest) = piece.split_at(at);
            at += self.gather(rest);
        }
    }
}
