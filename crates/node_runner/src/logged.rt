ghost use Rattle.std.specs.Prelude.{◌≡◌, ◌+◌, ◌*◌, ◌≤◌, ◌<◌, ℕ, [], ◌∷◌, length, slice_get, vec_len, vec_capacity, sum_by, Option, Some, None, IfOk, IfSome, if◌then◌else◌, ◌==◌, slice_index_or};
ghost use Rattle.ruled_links.specs.Ports.{fresh, moved_by};
ghost use Rattle.node_runner.specs.Nodes.{incoming, outgoing};
ghost use Rattle.node_runner.specs.Logs.{left_in, nth_stream, value_count};

use net_core::Network;
use ruled_links::{Call, Ends};
use std::alloc::{AllocError, Global};
use std::marker::Model;
use std::sync::Wait;

// One end of a whole stream in memory.
#[derive(Drop)]
struct StreamEnd {
    values: Vec<i64>,
    done: usize,
}

impl Model for StreamEnd {
    ghost use Rattle.std.specs.Prelude.{◌≤◌, take, vec_len};
    ghost use Rattle.ruled_links.specs.Ports.{Port, port};

    ghost Value = { Port };

    ghost view = { λ e. port e.values.items (take e.done e.values.items) };

    ghost invariant = { λ e. e.done ≤ vec_len e.values };
}

impl StreamEnd {
    fn new(alloc: Global, values: &[i64]) -> Result<StreamEnd, AllocError>
        ensures { IfOk result (λ end. end ≡ fresh values.now) }
    {
        Ok(StreamEnd {
            values: Vec::from_slice(alloc, values)?,
            done: 0,
        })
    }

    // The next value of the stream.
    fn pass(&mut self) -> i64
        requires { length self.old.moved < length self.old.stream }
        ensures next { slice_get self.old.stream (length self.old.moved) ≡ Some result }
        ensures moved { self.new ≡ moved_by self.old result }
    {
        let value = self.values[self.done];
        self.done += 1;
        value
    }

    // Passes over the next value of the stream, which is this one.
    fn skip(&mut self, _value: i64)
        requires { slice_get self.old.stream (length self.old.moved) ≡ Some _value }
        ensures within { length self.old.moved < length self.old.stream }
        ensures moved { self.new ≡ moved_by self.old _value }
    {
        self.pass();
    }
}

/// One process's ends in memory, over whole streams. They never wait, and they keep the list of their calls.
#[derive(Drop)]
pub struct LogEnds {
    gets: Vec<Option<StreamEnd>>,
    puts: Vec<Option<StreamEnd>>,
    calls: Vec<Call>,
    ghost room: { vec_len calls + left_in gets.items + left_in puts.items ≤ vec_capacity calls },
}

// How many values the streams have, where that is a number of the machine.
fn value_count(streams: &[Vec<i64>]) -> Option<usize>
    ensures { IfSome result (λ count. count ≡ value_count streams.now) }
{
    let mut count = 0usize;
    for stream in streams {
        count = count.checked_add(stream.len())?;
    }
    Some(count)
}

// An end of the stream, if there is one.
fn end_if(alloc: Global, there: bool, values: &[i64]) -> Result<Option<StreamEnd>, AllocError>
    ensures { IfOk result (λ end. end ≡ (if there then Some (fresh values.now) else None)) }
{
    if there {
        Ok(Some(StreamEnd::new(alloc, values)?))
    } else {
        Ok(None)
    }
}

impl LogEnds {
    /// The ends of a process over these streams, one for each channel, through which nothing has gone. There is room for
    /// twice as many calls as the streams have values.
    pub fn new(
        alloc: Global,
        network: &Network,
        process: u32,
        streams: &[Vec<i64>],
    ) -> Result<LogEnds, AllocError>
        requires { length streams.now ≡ length network.now.channels }
        ensures from { IfOk result
            (λ ends. (c : ℕ)
            → ⟦<LogEnds as Ends>⟧.from ends c
            ≡ incoming (nth_stream streams.now) network.now process c) }
        ensures to { IfOk result
            (λ ends. (c : ℕ)
            → ⟦<LogEnds as Ends>⟧.to ends c
            ≡ outgoing (nth_stream streams.now) network.now process c) }
        ensures calls { IfOk result (λ ends. ⟦<LogEnds as Ends>⟧.calls ends ≡ []) }
    {
        let count = value_count(streams).ok_or(AllocError)?;
        let room = count.checked_mul(2).ok_or(AllocError)?;
        let mut gets = Vec::new(alloc);
        let mut puts = Vec::new(alloc);
        for (at, channel) in network.channels.as_slice().iter().enumerate() {
            gets.push(end_if(alloc, channel.reader == process, &streams[at])?)?;
            puts.push(end_if(alloc, channel.writer == process, &streams[at])?)?;
        }
        let calls = Vec::with_capacity(alloc, room)?;
        Ok(LogEnds { gets, puts, calls })
    }

    /// Its calls, in order.
    pub fn calls(&self) -> &[Call]
        ensures { result.now ≡ ⟦<LogEnds as Ends>⟧.calls self.now }
    {
        &self.calls
    }
}

impl Ends for LogEnds {
    ghost use Rattle.std.specs.Prelude.{true, None, slice_index_or};

    ghost from = { λ e c. slice_index_or e.gets.items c None };

    ghost to = { λ e c. slice_index_or e.puts.items c None };

    ghost tells = { true };

    ghost calls = { λ e. e.calls.items };

    fn get<R: Wait>(&mut self, _rt: &R, channel: u32) -> i64 {
        match &mut self.gets[channel as usize] {
            Some(end) => {
                let value = end.pass();
                self.calls.push_reserved(Call::Got(channel));
                value
            }
            None => unreachable!(),
        }
    }

    fn put<R: Wait>(&mut self, _rt: &R, channel: u32, value: i64) {
        match &mut self.puts[channel as usize] {
            Some(end) => {
                end.skip(value);
                self.calls.push_reserved(Call::Put(channel));
            }
            None => unreachable!(),
        }
    }
}
