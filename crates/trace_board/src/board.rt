ghost use Rattle.std.specs.Prelude.{◌≡◌, ◌<◌, ◌↔◌, ◌++◌, ◌∷◌, [], ℕ, true, vec_capacity, IfOk};
ghost use Rattle.net_core.specs.Held.{held_of, run_of};
ghost use Rattle.net_core.specs.Machine.{net_of, enabled};
ghost use Rattle.net_core.specs.Shape.{IsShaped, FitsNumbers};
ghost use Rattle.trace_board.specs.Advances.{history_after};
ghost use Rattle.trace_board.specs.Boards.{IsBoard, IsRunFromStart, state_of};
ghost use Rattle.trace_board.specs.Lanes.{IsLeastEnabled, IsLaneIdle, HasLaneEnded};

use crate::lanes::{Advance, look};
use net_core::{Network, State, Tags, event_count, start, step};
use sanlp::{Points, Tag};
use std::alloc::{AllocError, Global};
use std::marker::Model;

/// A network, a state of its machine over tags, and a history: the numbers of the processes that made the events so
/// far, in order. The history is always a run of the network from its start, and the state is where it leads.
/// Contracts see the network and the history.
#[derive(Drop)]
pub struct Board {
    network: Network,
    state: State<Tag>,
    history: Vec<u32>,
}

impl Model for Board {
    ghost use Rattle.std.specs.Prelude.{vec_capacity};
    ghost use Rattle.net_core.specs.Held.{held_of};
    ghost use Rattle.trace_board.specs.Boards.{NetworkRun, IsBoard, network_run};

    ghost Value = { NetworkRun };

    ghost view = { λ board. network_run board.network board.history.items };

    ghost invariant = { λ board. IsBoard board.network (held_of board.state) board.history.items
        (vec_capacity board.history) };
}

// One event of an enabled process, which the history notes. It takes no memory.
fn make_event(network: &Network, state: &mut State<Tag>, history: &mut Vec<u32>, process: u32)
    requires board { IsBoard network.now (held_of state.old) history.old.items
        (vec_capacity history.old) }
    requires enabled { enabled (net_of network.now) (run_of state.old) process ≡ true }
    ensures board { IsBoard network.now (held_of state.new) history.new.items
        (vec_capacity history.new) }
    ensures history { history.new.items ≡ history.old.items ++ process ∷ [] }
{
    step(state, network, &Tags {}, process);
    history.push_reserved(process);
}

impl Board {
    /// The board of this network before its first event, with room for all its events, or want of memory.
    pub fn new(alloc: Global, network: Network, points: &Points) -> Result<Board, AllocError>
        requires shaped { IsShaped (net_of network) points.now.of }
        requires numbers { FitsNumbers (net_of network) }
        ensures network { IfOk result (λ board. board.network ≡ network) }
        ensures history { IfOk result (λ board. board.history ≡ []) }
    {
        let state = start(alloc, &network, points)?;
        let history = Vec::with_capacity(alloc, event_count(&network) as usize)?;
        Ok(Board {
            network,
            state,
            history,
        })
    }

    /// Lets the least enabled process of a lane make its next event. The lane of number `lane` out of `lanes` has the
    /// processes whose numbers leave it when divided by `lanes`. The answer is `Idle` exactly where no process of the
    /// lane is enabled and one hasn't ended, and `Done` exactly where all have; both change nothing. It takes no
    /// memory.
    pub fn advance(&mut self, lane: u32, lanes: u32) -> Advance
        requires { lane < lanes }
        ensures stepped { (p : ℕ) → result ≡ Advance.Stepped p
            → IsLeastEnabled (net_of self.old.network) (state_of self.old) lane lanes p }
        ensures idle { (result ≡ Advance.Idle)
            ↔ IsLaneIdle (net_of self.old.network) (state_of self.old) lane lanes }
        ensures done { (result ≡ Advance.Done)
            ↔ HasLaneEnded (net_of self.old.network) (state_of self.old) lane lanes }
        ensures network { self.new.network ≡ self.old.network }
        ensures history { self.new.history ≡ history_after self.old.history result }
        ensures run { IsRunFromStart self.new }
    {
        let advance = look(&self.state, &self.network, lane, lanes);
        let Advance::Stepped(process) = advance else {
            return advance;
        };
        make_event(&self.network, &mut self.state, &mut self.history, process);
        advance
    }

    /// The network.
    pub fn network(&self) -> &Network
        ensures { result.now ≡ self.now.network }
    {
        &self.network
    }

    /// The numbers of the processes that made the events so far, in order: a run of the network from its start.
    pub fn history(&self) -> &[u32]
        ensures history { result.now ≡ self.now.history }
        ensures run { IsRunFromStart self.now }
    {
        &self.history
    }

    /// The history, in the board's own memory.
    pub fn into_history(self) -> Vec<u32>
        ensures history { result.items ≡ self.history }
        ensures run { IsRunFromStart self }
    {
        let Board {
            network: _,
            state: _,
            history,
        } = self;
        history
    }
}
