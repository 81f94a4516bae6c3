ghost use Rattle.std.specs.Prelude.{◌≡◌, ◌<◌, length, IfOk, Some, slice_get};
ghost use Rattle.ruled_links.specs.Ports.{AreOfOneLine, fresh, link_end, moved_by};

use crate::rule::{InStep, Named, Received, Sent, Stream, View};
use crossbeam_channel::{Pass, RuledReceiver, RuledSender, bounded_with};
use std::alloc::{AllocError, Global};
use std::marker::Model;
use std::sync::Wait;
use std::thread;

/// The end of a link that values are put into.
#[derive(Drop)]
pub struct PutEnd {
    line: RuledSender<i64, View, InStep>,
    pass: Pass<i64, View>,
}

impl Model for PutEnd {
    ghost use Rattle.std.specs.Prelude.{◌≡◌};
    ghost use Rattle.crossbeam_channel.specs.Claims.{view as known_by, IsSeatAt};
    ghost use Rattle.crossbeam_channel.specs.Ends.{sends_on, ruled_capacity};
    ghost use Rattle.ruled_links.specs.Ports.{LinkEnd, link_end, port};
    ghost use Rattle.ruled_links.specs.Rule.{line_of, put_view};

    ghost Value = { LinkEnd };

    ghost view = { λ e. link_end (line_of (sends_on e.line))
        (port (known_by e.pass).stream (known_by e.pass).moved) (known_by e.pass).capacity };

    ghost invariant = { λ e. IsSeatAt (sends_on e.line) e.pass
        × (known_by e.pass
        ≡ put_view (known_by e.pass).stream (ruled_capacity (sends_on e.line))
        (known_by e.pass).moved) };
}

/// The end of a link that values are got from.
#[derive(Drop)]
pub struct GetEnd {
    line: RuledReceiver<i64, View, InStep>,
    pass: Pass<i64, View>,
}

impl Model for GetEnd {
    ghost use Rattle.std.specs.Prelude.{◌≡◌};
    ghost use Rattle.crossbeam_channel.specs.Claims.{view as known_by, IsSeatAt};
    ghost use Rattle.crossbeam_channel.specs.Ends.{receives_on, ruled_capacity};
    ghost use Rattle.ruled_links.specs.Ports.{LinkEnd, link_end, port};
    ghost use Rattle.ruled_links.specs.Rule.{line_of, get_view};

    ghost Value = { LinkEnd };

    ghost view = { λ e. link_end (line_of (receives_on e.line))
        (port (known_by e.pass).stream (known_by e.pass).moved) (known_by e.pass).capacity };

    ghost invariant = { λ e. IsSeatAt (receives_on e.line) e.pass
        × (known_by e.pass
        ≡ get_view (known_by e.pass).stream (ruled_capacity (receives_on e.line))
        (known_by e.pass).moved) };
}

/// The two ends of a new link. The channel is given so that a caller can pick its stream.
pub(crate) fn linked<S: Stream>(
    alloc: Global,
    capacity: u32,
    _channel: u32,
) -> Result<(PutEnd, GetEnd), AllocError>
    requires room { 0 < capacity }
    requires capacity { capacity ≡ S.capacity }
    ensures fresh { IfOk result
        (λ ends. (ends.0 ≡ link_end ends.0.line (fresh S.values) capacity)
        × (ends.1 ≡ link_end ends.1.line (fresh S.values) capacity)) }
    ensures line { IfOk result (λ ends. AreOfOneLine ends.0 ends.1) }
{
    let (sender, receiver, mut pass) = bounded_with::<i64, View, InStep, Global>(
        alloc,
        capacity as usize,
    )?;
    let other = sender.another::<Named<S>>(&mut pass);
    Ok((
        PutEnd { line: sender, pass },
        GetEnd {
            line: receiver,
            pass: other,
        },
    ))
}

impl PutEnd {
    /// Puts a value, which is the next one of the stream. It waits while the link is full, and takes no memory.
    ///
    /// Where the channel answers that the other end is gone, it tries again.
    pub fn put<R: Wait>(&mut self, rt: &R, value: i64)
        requires { slice_get self.old.port.stream (length self.old.port.moved) ≡ Some value }
        ensures { self.new
            ≡ link_end self.old.line (moved_by self.old.port value) self.old.capacity }
    {
        for _ in rt.forever() {
            if self
                .line
                .send_as::<Sent, R>(rt, &mut self.pass, value)
                .is_ok()
            {
                return;
            }
            thread::yield_now();
        }
        unreachable!()
    }
}

impl GetEnd {
    /// Gets the next value of the stream, which was put and not got before. It waits while the link is empty, and takes
    /// no memory.
    ///
    /// Where the channel answers that the other end is gone, it tries again.
    pub fn get<R: Wait>(&mut self, rt: &R) -> i64
        requires { length self.old.port.moved < length self.old.port.stream }
        ensures next { slice_get self.old.port.stream (length self.old.port.moved) ≡ Some result }
        ensures moved { self.new
            ≡ link_end self.old.line (moved_by self.old.port result) self.old.capacity }
    {
        for _ in rt.forever() {
            if let Ok(value) = self.line.recv_as::<Received, R>(rt, &mut self.pass) {
                return value;
            }
            thread::yield_now();
        }
        unreachable!()
    }
}
