//! Links between two processes: a bounded channel under a rule that names the whole stream which goes through it.
//!
//! The stream is for contracts alone; the running program holds nothing of it. What was got is a prefix of what was put,
//! and at most the capacity lies between them, whatever the order in which the two threads work.
//!
//! Between two calls, or from one step of the main loop to the next: what was got and then what is held is what was
//! put, which is a front of the stream, and no more is held than the capacity; both ends are of one line.
#![tactic(auto)]

ghost use Rattle.std.specs.Prelude.{◌≡◌, ◌<◌, ℤ, List, length, IfOk};
ghost use Rattle.ruled_links.specs.Ports.{AreOfOneLine, fresh, link_end, stream_at};

mod ends;
mod ports;
mod rule;

pub use ends::{Call, Ends};
use ports::linked;
pub use ports::{GetEnd, PutEnd};
use std::alloc::{AllocError, Global};
use std::marker::Brand;

/// The streams of a run, one for each channel. It has no calls: it is for contracts alone.
pub trait Plan {
    ghost use Rattle.std.specs.Prelude.{ℤ, List};

    ghost streams: { List (List ℤ) };
}

impl Plan for Brand {
    ghost use Rattle.std.specs.Prelude.{[]};

    ghost streams = { [] };
}

/// The two ends of one link, whose stream is the one of this channel in the plan. Nothing has gone through them.
pub fn link<P: Plan>(
    alloc: Global,
    capacity: u32,
    channel: u32,
) -> Result<(PutEnd, GetEnd), AllocError>
    requires room { 0 < capacity }
    requires channel { channel < length P.streams }
    ensures fresh { IfOk result
        (λ ends. (ends.0 ≡ link_end ends.0.line (fresh (stream_at P.streams channel)) capacity)
        × (ends.1 ≡ link_end ends.1.line (fresh (stream_at P.streams channel)) capacity)) }
    ensures line { IfOk result (λ ends. AreOfOneLine ends.0 ends.1) }
{
    linked::<Brand>(alloc, capacity, channel)
}
