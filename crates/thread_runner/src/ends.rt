ghost use Rattle.std.specs.Prelude.{◌≡◌, ◌<◌, ◌≤◌, ℕ, IfOk, Some, length, vec_len, slice_get, slice_set};
ghost use Rattle.sanlp.specs.Points.{points_of};
ghost use Rattle.net_core.specs.Machine.{net_of};
ghost use Rattle.net_core.specs.Shape.{FitsNumbers};
ghost use Rattle.net_core.specs.Sound.{IsSound};
ghost use Rattle.node_runner.specs.Nodes.{stream};
ghost use Rattle.thread_runner.specs.Made.{AreBlank, IsBlank, AreJoined, AreMade, AreOfCapacities, IsPlaced, all_streams};
ghost use Rattle.thread_runner.specs.Runs.{AreEndsOf};
ghost use Rattle.thread_runner.specs.declared.ends.NodeEnds.{NodeEnds};

use net_core::Network;
use ruled_links::{Ends, GetEnd, Plan, PutEnd, link};
use sanlp::{Inputs, Nest, Points};
use std::alloc::{AllocError, Global};
use std::marker::Brand;
use std::sync::Wait;

/// One process's ends of its links, at the places of their channels. It doesn't tell its calls.
#[derive(Drop)]
pub struct NodeEnds {
    gets: Vec<Option<GetEnd>>,
    puts: Vec<Option<PutEnd>>,
}

impl Ends for NodeEnds {
    ghost use Rattle.std.specs.Prelude.{[], false};
    ghost use Rattle.thread_runner.specs.Made.{port_at};

    ghost from = { λ e c. port_at e.gets.items c };

    ghost to = { λ e c. port_at e.puts.items c };

    ghost tells = { false };

    ghost calls = { λ e. [] };

    fn get<R: Wait>(&mut self, rt: &R, channel: u32) -> i64 {
        match &mut self.gets[channel as usize] {
            Some(end) => end.get(rt),
            None => unreachable!(),
        }
    }

    fn put<R: Wait>(&mut self, rt: &R, channel: u32, value: i64) {
        match &mut self.puts[channel as usize] {
            Some(end) => end.put(rt, value),
            None => unreachable!(),
        }
    }
}

/// One link for each channel, whose stream is that of the channel's tokens. It holds as many values as the channel's capacity,
/// and one where that is 0, since then no value goes through. There is one answer for each process, in order,
/// which gets from the process's incoming channels and puts to its outgoing ones. A channel's writer and its reader hold the two
/// ends of its one link.
pub fn make_ends(
    alloc: Global,
    nest: &Nest,
    _points: &Points,
    inputs: &Inputs,
    network: &Network,
) -> Result<Vec<NodeEnds>, AllocError>
    requires numbers { FitsNumbers (net_of network.now) }
    requires sound { IsSound nest.now network.now }
    ensures ends { IfOk result
        (λ ends. AreEndsOf ⟦<NodeEnds as Ends>⟧.from ⟦<NodeEnds as Ends>⟧.to nest.now network.now
        inputs.now ends.items) }
    ensures capacities { IfOk result (λ ends. AreOfCapacities network.now ends.items) }
    ensures joined { IfOk result (λ ends. AreJoined ends.items) }
{
    made::<Brand>(alloc, nest, inputs, network)
}

// The plan's streams are those of the network.
fn made<P: Plan>(
    alloc: Global,
    nest: &Nest,
    inputs: &Inputs,
    network: &Network,
) -> Result<Vec<NodeEnds>, AllocError>
    requires plan { P.streams ≡ all_streams nest.now network.now inputs.now }
    requires numbers { FitsNumbers (net_of network.now) }
    requires sound { IsSound nest.now network.now }
    ensures ends { IfOk result
        (λ ends. AreEndsOf ⟦<NodeEnds as Ends>⟧.from ⟦<NodeEnds as Ends>⟧.to nest.now network.now
        inputs.now ends.items) }
    ensures capacities { IfOk result (λ ends. AreOfCapacities network.now ends.items) }
    ensures joined { IfOk result (λ ends. AreJoined ends.items) }
{
    let channels = network.channels.as_slice();
    let mut ends = blanks(alloc, network.processes.len(), channels.len())?;
    for at in 0..channels.len() {
        let channel = &channels[at];
        let (put, get) = link::<P>(alloc, channel.capacity.max(1), at as u32)?;
        place(
            &mut ends,
            at,
            channel.writer as usize,
            channel.reader as usize,
            put,
            get,
        );
    }
    Ok(ends)
}

// Sets the two ends of a channel at its processes.
fn place(
    ends: &mut Vec<NodeEnds>,
    at: usize,
    writer: usize,
    reader: usize,
    put: PutEnd,
    get: GetEnd,
)
    requires writer { writer < vec_len ends.old }
    requires reader { reader < vec_len ends.old }
    requires rows { (p : ℕ) (e : NodeEnds) → slice_get ends.old.items p ≡ Some e
        → (at < length e.gets.items) × (at < length e.puts.items) }
    ensures { IsPlaced at writer reader put get ends.old.items ends.new.items }
{
    set_put(&mut ends[writer], at, put);
    set_get(&mut ends[reader], at, get);
}

fn set_put(row: &mut NodeEnds, at: usize, put: PutEnd)
    requires { at < length row.old.puts.items }
    ensures puts { row.new.puts.items ≡ slice_set row.old.puts.items at (Some put) }
    ensures gets { row.new.gets.items ≡ row.old.gets.items }
{
    row.puts[at] = Some(put);
}

fn set_get(row: &mut NodeEnds, at: usize, get: GetEnd)
    requires { at < length row.old.gets.items }
    ensures gets { row.new.gets.items ≡ slice_set row.old.gets.items at (Some get) }
    ensures puts { row.new.puts.items ≡ row.old.puts.items }
{
    row.gets[at] = Some(get);
}

// So many processes without any end.
fn blanks(alloc: Global, processes: usize, channels: usize) -> Result<Vec<NodeEnds>, AllocError>
    ensures { IfOk result (λ ends. AreBlank processes channels ends.items) }
{
    let mut ends = Vec::with_capacity(alloc, processes)?;
    for _ in 0..processes {
        ends.push(blank(alloc, channels)?)?;
    }
    Ok(ends)
}

fn blank(alloc: Global, channels: usize) -> Result<NodeEnds, AllocError>
    ensures { IfOk result (λ ends. IsBlank channels ends) }
{
    let mut gets = Vec::with_capacity(alloc, channels)?;
    let mut puts = Vec::with_capacity(alloc, channels)?;
    for _ in 0..channels {
        gets.push(None)?;
        puts.push(None)?;
    }
    Ok(NodeEnds { gets, puts })
}
