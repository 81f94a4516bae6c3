ghost use Rattle.std.specs.Prelude.{◌≡◌, ◌++◌, ◌∷◌, [], ℕ, List, Option, true, Bool};
ghost use Rattle.ruled_links.specs.Ports.{Port};
ghost use Rattle.ruled_links.specs.Channels.{CanGet, IsNext, grown_at};
ghost use Rattle.ruled_links.specs.declared.ends.Call.{Call};

use std::sync::Wait;

/// A call of a process's ends, with its channel.
#[derive(Clone, Copy, Debug, PartialEq, Eq)]
pub enum Call {
    Got(u32),
    Put(u32),
}

/// One process's view of its channels.
pub trait Ends {
    /// For each channel that it gets from, the stream and what was got so far.
    ghost from: { Self → ℕ → Option Port };

    /// For each channel that it puts to, the stream and what was put so far.
    ghost to: { Self → ℕ → Option Port };

    /// Whether it tells the list of its calls.
    ghost tells: { Bool };

    /// The list of its calls, in order, where it tells that.
    ghost calls: { Self → List Call };

    /// The next value of a channel that it gets from.
    fn get<R: Wait>(&mut self, rt: &R, channel: u32) -> i64
        requires { CanGet (from self.old channel) }
        ensures next { IsNext (from self.old channel) result }
        ensures from { (c : ℕ) → from self.new c ≡ grown_at (from self.old) channel result c }
        ensures to { (c : ℕ) → to self.new c ≡ to self.old c }
        ensures told { tells ≡ true → calls self.new ≡ calls self.old ++ Call.Got channel ∷ [] };

    /// Puts the next value of a channel that it puts to.
    fn put<R: Wait>(&mut self, rt: &R, channel: u32, value: i64)
        requires { IsNext (to self.old channel) value }
        ensures from { (c : ℕ) → from self.new c ≡ from self.old c }
        ensures to { (c : ℕ) → to self.new c ≡ grown_at (to self.old) channel value c }
        ensures told { tells ≡ true → calls self.new ≡ calls self.old ++ Call.Put channel ∷ [] };
}
