ghost use Rattle.std.specs.Prelude.{◌≡◌, ◌<◌, ◌^◌, length, slice_get, Some, IfOk};
ghost use Rattle.sanlp.specs.Points.{points_of};
ghost use Rattle.net_core.specs.Machine.{net_of};
ghost use Rattle.net_core.specs.Shape.{FitsNumbers, IsShaped};
ghost use Rattle.node_automata.specs.Automata.{automata, incoming, outgoing};

use crate::copy::copied;
use affine_core::Vector;
use net_core::{Event, Network};
use plain_data::Items;
use sanlp::{Nest, Points, Role};
use script_blocks::Script;
use std::alloc::{AllocError, Global};
use wrap_expr::Expr;

/// A process of a network with all that it does: a counter over its events can run it.
#[derive(Drop)]
pub struct NodeAuto {
    /// The process's number.
    pub process: u32,
    /// What its statement does.
    pub role: Role,
    /// The number of its statement's loops.
    pub depth: u32,
    /// The number of its statement's reads.
    pub reads: u32,
    /// The channels that it reads, ascending.
    pub gets: Items<u32>,
    /// The channels that it writes, ascending.
    pub puts: Items<u32>,
    /// The number of its slots.
    pub slots: u32,
    /// Its script, whose blocks it shares with the network.
    pub events: Script<Event>,
    /// Its points.
    pub values: Items<Vector>,
    /// Its statement's expression.
    pub expr: Expr,
}

/// The numbers of the channels that a process reads, ascending.
pub(crate) fn channels_in(
    alloc: Global,
    network: &Network,
    process: u32,
) -> Result<Items<u32>, AllocError>
    requires { length network.now.channels < 2 ^ 32 }
    ensures { IfOk result (λ gets. gets ≡ incoming (net_of network.now) process) }
{
    let mut gets = Items::new(alloc);
    for (number, channel) in network.channels.as_slice().iter().enumerate() {
        if channel.reader == process {
            gets.push(number as u32)?;
        }
    }
    Ok(gets)
}

/// The numbers of the channels that a process writes, ascending.
pub(crate) fn channels_out(
    alloc: Global,
    network: &Network,
    process: u32,
) -> Result<Items<u32>, AllocError>
    requires { length network.now.channels < 2 ^ 32 }
    ensures { IfOk result (λ puts. puts ≡ outgoing (net_of network.now) process) }
{
    let mut puts = Items::new(alloc);
    for (number, channel) in network.channels.as_slice().iter().enumerate() {
        if channel.writer == process {
            puts.push(number as u32)?;
        }
    }
    Ok(puts)
}

/// Iteration vectors again.
fn copied_vectors(alloc: Global, vectors: &[Vector]) -> Result<Items<Vector>, AllocError>
    ensures { IfOk result (λ copies. copies ≡ vectors.now) }
{
    let mut copies = Items::new(alloc);
    for vector in vectors {
        copies.push(vector.copy())?;
    }
    Ok(copies)
}

/// The automaton of a process: its events are the process's script, and its values the process's points.
pub fn automaton(
    alloc: Global,
    nest: &Nest,
    points: &Points,
    network: &Network,
    process: u32,
) -> Result<NodeAuto, AllocError>
    requires points { points.now.of ≡ points_of nest.now }
    requires shaped { IsShaped (net_of network.now) points.now.of }
    requires numbers { FitsNumbers (net_of network.now) }
    requires process { process < length network.now.processes }
    ensures { IfOk result (λ auto. slice_get (automata nest.now network.now) process ≡ Some auto) }
{
    let at = process as usize;
    let statement = nest.statement(process);
    let body = &network.processes.as_slice()[at];
    let gets = channels_in(alloc, network, process)?;
    let puts = channels_out(alloc, network, process)?;
    let events = body.script.share()?;
    let values = copied_vectors(alloc, points.of.as_slice()[at].as_slice())?;
    let expr = copied(alloc, &statement.expr)?;
    Ok(NodeAuto {
        process,
        role: statement.role,
        depth: statement.loops.len() as u32,
        reads: statement.reads.len() as u32,
        gets,
        puts,
        slots: body.slots,
        events,
        values,
        expr,
    })
}

/// The automata of all processes, in order.
pub fn automata(
    alloc: Global,
    nest: &Nest,
    points: &Points,
    network: &Network,
) -> Result<Vec<NodeAuto>, AllocError>
    requires points { points.now.of ≡ points_of nest.now }
    requires shaped { IsShaped (net_of network.now) points.now.of }
    requires numbers { FitsNumbers (net_of network.now) }
    ensures { IfOk result (λ autos. autos.items ≡ automata nest.now network.now) }
{
    let mut autos = Vec::new(alloc);
    for process in 0..network.processes.len() as u32 {
        autos.push(automaton(alloc, nest, points, network, process)?)?;
    }
    Ok(autos)
}
