ghost use Rattle.std.specs.Prelude.{◌≡◌, ◌<◌, ◌≤◌, IfOk};
ghost use Rattle.sanlp.specs.Points.{points_of};
ghost use Rattle.net_core.specs.Machine.{net_of};
ghost use Rattle.net_core.specs.Orders.{EndsAll, EndsAlways};
ghost use Rattle.net_core.specs.Rules.{tags};
ghost use Rattle.net_core.specs.Shape.{FitsNumbers, IsWired};
ghost use Rattle.net_core.specs.Sound.{IsSound};

use crate::board::Board;
use crate::lanes::Advance;
use io_edge::Gate;
use net_core::{Network, every_order};
use sanlp::{Nest, Points, Tag};
use std::alloc::{AllocError, Global};
use std::sync::{Mutex, Wait};
use std::thread;
use std::thread::Threads;

// What a worker does: it passes the gate, locks the board and advances its lane, until all processes of the lane have
// ended.
fn work<R: Wait, G: Gate>(rt: &R, board: &Mutex<Board>, lane: u32, lanes: u32, gate: &G)
    requires { lane < lanes }
{
    for _ in rt.forever() {
        gate.pass(lane);
        let advance = board.lock(rt).advance(lane, lanes);
        match advance {
            Advance::Stepped(_) => {}
            Advance::Idle => thread::yield_now(),
            Advance::Done => return,
        }
    }
}

// What the caller does meanwhile: it passes the gate under its own number, locks the board and advances the one lane
// that has all processes, until none of them steps.
fn help<R: Wait, G: Gate>(rt: &R, board: &Mutex<Board>, number: u32, gate: &G) {
    for _ in rt.forever() {
        gate.pass(number);
        let advance = board.lock(rt).advance(0, 1);
        match advance {
            Advance::Stepped(_) => {}
            Advance::Idle | Advance::Done => return,
        }
    }
}

// Advances a board by one worker for each lane and by the caller, and gives it back. Where no thread can be made for
// a lane, the others and the caller go on without it.
fn run_workers<R: Threads + Wait + Sync, G: Gate + Sync>(
    rt: &R,
    board: Board,
    lanes: u32,
    gate: &G,
) -> Board {
    let lock = Mutex::new(board);
    let shared = &lock;
    thread::scope(thread::scope_env(), rt, |scope| {
        for lane in 0..lanes {
            let _ = scope.spawn(
                move ||
                    requires { lane < lanes }
                { work(rt, shared, lane, lanes, gate) },
            );
        }
        help(rt, shared, lanes, gate);
    });
    lock.into_inner()
}

// The first board if it is one of this network, and else the second, which is.
fn board_of(network: &Network, first: Board, second: Board) -> Board
    requires { second.network ≡ network.now }
    ensures { result.network ≡ network.now }
{
    if first.network().same(network) {
        first
    } else {
        second
    }
}

// Advances a board until all its processes have ended, and gives its history.
fn finish(mut board: Board) -> Vec<u32>
    requires wired { IsWired (net_of board.network) }
    requires ends { EndsAlways (net_of board.network) tags }
    ensures { EndsAll (net_of board.network) tags result.items }
{
    while let Advance::Stepped(_) = board.advance(0, 1) {}
    board.into_history()
}

/// Runs a network by workers over one locked board, and gives the run that they made, which ends all.
///
/// There is a worker for each lane, in a thread of its own, and the caller steps any process meanwhile. Each asks the
/// gate before it locks, a worker under the number of its lane and the caller under the number of lanes. Where a
/// thread can't be started the others do its work, and the caller finishes what is left. Both boards, the one that is
/// locked and one in reserve, are made before the first start, so the only answer beside the run is want of memory
/// for them. Which run it is depends on the threads.
pub fn run_board<R: Threads + Wait + Sync, G: Gate + Sync>(
    rt: &R,
    alloc: Global,
    nest: &Nest,
    network: &Network,
    points: &Points,
    lanes: u32,
    gate: &G,
) -> Result<Vec<u32>, AllocError>
    requires points { points.now.of ≡ points_of nest.now }
    requires numbers { FitsNumbers (net_of network.now) }
    requires sound { IsSound nest.now network.now }
    requires lanes { 1 ≤ lanes }
    ensures { IfOk result (λ history. EndsAll (net_of network.now) tags history.items) }
{
    let _ = nest;
    every_order::<i64, Tag>();
    let board = Board::new(alloc, network.copy(alloc)?, points)?;
    let spare = Board::new(alloc, network.copy(alloc)?, points)?;
    let last = run_workers(rt, board, lanes, gate);
    Ok(finish(board_of(network, last, spare)))
}
