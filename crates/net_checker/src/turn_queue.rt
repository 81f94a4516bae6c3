ghost use Rattle.std.specs.Prelude.{◌≡◌, [], ◌∷◌, ◌++◌, All, MatchOption, OnOk};
ghost use Rattle.net_checker.specs.TurnQueues.{HasToken, turns_in};

use std::alloc::{AllocError, Global};
use std::collections::VecDeque;
use std::marker::Model;

/// So many tokens of one turn, one after the other.
#[derive(Clone, Copy)]
pub(crate) struct Stretch {
    turn: u32,
    count: u32,
}

/// No token.
const NO_TOKEN: Stretch = Stretch { turn: 0, count: 0 };

/// The turns of the tokens in a queue, first in, first out, which contracts see as their list. Tokens of one turn that follow each
/// other are kept as one with their number, so the queue takes memory for the turns that it holds, and not for their tokens.
#[derive(Drop)]
pub(crate) struct TurnQueue {
    front: Stretch,
    middle: VecDeque<Stretch>,
    back: Stretch,
}

impl Model for TurnQueue {
    ghost use Rattle.std.specs.Prelude.{All, List, ℕ};
    ghost use Rattle.net_checker.specs.TurnQueues.{HasToken, turns_in};

    ghost Value = { List ℕ };

    ghost view = { λ queue. turns_in queue.front queue.middle.items queue.back };

    ghost invariant = { λ queue. All HasToken queue.middle.items };
}

// Where the front has no token left, the next stretch comes there, if there is one.
fn refill(front: &mut Stretch, middle: &mut VecDeque<Stretch>, back: &mut Stretch)
    requires { All HasToken middle.old.items }
    ensures stretches { All HasToken middle.new.items }
    ensures turns { turns_in front.new middle.new.items back.new
        ≡ turns_in front.old middle.old.items back.old }
    ensures empty { front.new.count ≡ 0
        → turns_in front.new middle.new.items back.new ≡ [] }
{
    if front.count > 0 {
        return;
    }
    match middle.pop_front() {
        Some(stretch) => *front = stretch,
        None => {
            *front = *back;
            *back = NO_TOKEN;
        }
    }
}

impl TurnQueue {
    /// No token. It takes no memory.
    pub(crate) fn new(alloc: Global) -> TurnQueue
        ensures { result ≡ [] }
    {
        TurnQueue {
            front: NO_TOKEN,
            middle: VecDeque::new(alloc),
            back: NO_TOKEN,
        }
    }

    /// Takes the first token off and gives its turn, or `None` where there is none. It takes no memory.
    pub(crate) fn pop(&mut self) -> Option<u32>
        ensures { MatchOption result (self.old ≡ []) (λ turn. self.old ≡ turn ∷ self.new) }
    {
        refill(&mut self.front, &mut self.middle, &mut self.back);
        if self.front.count == 0 {
            return None;
        }
        self.front.count -= 1;
        Some(self.front.turn)
    }

    /// Adds a token of this turn at the end, or answers want of memory.
    pub(crate) fn push(&mut self, turn: u32) -> Result<(), AllocError>
        ensures { OnOk result (self.new ≡ self.old ++ turn ∷ []) }
    {
        if self.back.count > 0 && (self.back.turn != turn || self.back.count == u32::MAX) {
            self.middle.push_back(self.back)?;
            self.back = NO_TOKEN;
        }
        self.back = Stretch {
            turn,
            count: self.back.count + 1,
        };
        Ok(())
    }
}
