ghost use Rattle.std.specs.Prelude.{◌≡◌, ◌<◌, ◌++◌, ◌∷◌, [], ℕ, true, length, count_by};
ghost use Rattle.sanlp.specs.Laws.{values_of};
ghost use Rattle.sanlp.specs.Points.{points_of};
ghost use Rattle.net_core.specs.Machine.{net_of};
ghost use Rattle.net_core.specs.Rooms.{fresh_store};
ghost use Rattle.net_core.specs.Rules.{values, value_limits};
ghost use Rattle.net_core.specs.Shape.{is_get, is_put, FitsNumbers};
ghost use Rattle.net_core.specs.Sound.{IsSound};
ghost use Rattle.ruled_links.specs.Channels.{advanced};
ghost use Rattle.node_runner.specs.Nodes.{stream, incoming, outgoing, calls_of, CanTurn, Turns};

use io_edge::Gate;
use net_core::{Event, Firing, Network, Room, Values};
use ruled_links::Ends;
use sanlp::{Inputs, Nest, Points};
use std::sync::Wait;

// Makes one event.
fn turn<R: Wait, E: Ends, G: Gate>(
    rt: &R,
    rule: &Values,
    event: &Event,
    process: u32,
    room: &mut Room<i64>,
    ends: &mut E,
    gate: &G,
)
    requires { CanTurn (value_limits rule.now.nest.now) process event.now (E.from ends.old)
        (E.to ends.old) room.old }
    ensures turned { Turns (values rule.now.nest.now rule.now.inputs.now) process event.now
        (E.from ends.old) (E.to ends.old) room.old (E.from ends.new) (E.to ends.new) room.new }
    ensures told { E.tells ≡ true
        → E.calls ends.new ≡ E.calls ends.old ++ calls_of (event.now ∷ []) }
{
    match event {
        Event::Get { channel, slot } => {
            let value = ends.get(rt, *channel);
            room.fill(*slot as usize, value);
        }
        Event::Fire { refs } => {
            let at = room.kept().len() as u32;
            let value = rule.fire(process, at, refs, room.slots());
            room.keep(value);
        }
        Event::Put { channel } => {
            let value = room.last();
            gate.moved(process, *channel, value);
            ends.put(rt, *channel, value);
        }
    }
}

/// Does the whole script of one process through its ends, from a fresh room. Before each put it tells the gate. It waits
/// only in the ends, and takes no memory.
pub fn run_node<R: Wait, E: Ends, G: Gate>(
    rt: &R,
    nest: &Nest,
    points: &Points,
    inputs: &Inputs,
    network: &Network,
    process: u32,
    room: &mut Room<i64>,
    ends: &mut E,
    gate: &G,
)
    requires points { points.now.of ≡ points_of nest.now }
    requires numbers { FitsNumbers (net_of network.now) }
    requires sound { IsSound nest.now network.now }
    requires process { process < length network.now.processes }
    requires room { room.old ≡ fresh_store (net_of network.now) process }
    requires incoming { (c : ℕ)
        → E.from ends.old c
        ≡ incoming (stream nest.now network.now inputs.now) network.now process c }
    requires outgoing { (c : ℕ)
        → E.to ends.old c
        ≡ outgoing (stream nest.now network.now inputs.now) network.now process c }
    ensures got { (c : ℕ)
        → E.from ends.new c
        ≡ advanced (E.from ends.old c) (count_by (is_get c) ((net_of network.now).script process)) }
    ensures put { (c : ℕ)
        → E.to ends.new c
        ≡ advanced (E.to ends.old c) (count_by (is_put c) ((net_of network.now).script process)) }
    ensures kept { room.new.kept ≡ values_of nest.now inputs.now process }
    ensures told { E.tells ≡ true
        → E.calls ends.new ≡ E.calls ends.old ++ calls_of ((net_of network.now).script process) }
{
    let rule = Values {
        nest,
        points,
        inputs,
    };
    let _ = network;
    while let Some(event) = room.pass() {
        turn(rt, &rule, &event, process, room, ends, gate);
    }
}
