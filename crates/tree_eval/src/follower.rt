ghost use Rattle.std.specs.Prelude.{◌≡◌, ◌<◌, ◌≤ℤ◌, ◌+◌, ◌+ℤ◌, ◌++◌, ◌↔◌, pos, None, Some, [], ◌∷◌, length, IfOk, IfSome, IsTrue, IsFalse};
ghost use Rattle.std.specs.Result.{result_ok};
ghost use Rattle.source_tree.specs.declared.tree.Found.{Found};
ghost use Rattle.source_tree.specs.declared.tree.Found.TheVariants as found;
ghost use Rattle.source_tree.specs.declared.tree.Tree.{Tree};
ghost use Rattle.source_tree.specs.Gives.{gives};
ghost use Rattle.source_tree.specs.Walk.{is_ready, outcome_of};
ghost use Rattle.tree_eval.specs.Stretches.{IsKnownAt, IsStretch, IsStretchOf, LiesIn, turn_limit};

use crate::leaf::Leaf;
use crate::row::follow_row;
use crate::walk::eval_narrow;
use affine_core::{KeptValues, Overflow, Vector};
use source_tree::{Found, Tree};
use std::alloc::Global;

/// The values of the innermost loop, from the first to the last, at which a tree comes to the same leaf, with these values
/// of the loops round it.
#[derive(Drop)]
struct Stretch {
    outer: KeptValues,
    first: i64,
    last: i64,
    leaf: Leaf,
}

/// What is known of a tree along its innermost loop, for trees that are followed at one point of a statement after the
/// other. Where no stretch is found, some points are passed before one is looked for again: `left` are still to pass, and
/// last time there were `pause` of them, 63 at most.
#[derive(Drop)]
pub struct Follower {
    stretch: Option<Stretch>,
    left: u32,
    pause: u32,
}

/// How many turns a stretch goes past its first value at most.
const TURN_LIMIT: i64 = 1_073_741_824;

/// How many points are passed at most before a stretch is looked for again.
const PAUSE_LIMIT: u32 = 63;

// How many turns a stretch that begins at this value may have.
fn turns_from(first: i64) -> i64
    ensures not_negative { pos 0 ≤ℤ result }
    ensures few { result ≤ℤ pos turn_limit }
    ensures fits { (first +ℤ result) ≤ℤ pos 9223372036854775807 }
{
    if first <= i64::MAX - TURN_LIMIT {
        TURN_LIMIT
    } else {
        i64::MAX - first
    }
}

impl Stretch {
    // The stretch that begins at this value.
    fn beginning(alloc: Global, tree: &Tree, outer: &[i64], first: i64) -> Option<Stretch>
        requires ready { IsTrue (is_ready (length outer.now + 1) tree.now (length outer.now + 1)) }
        requires short { length outer.now < 6 }
        ensures { IfSome result (IsStretch tree.now) }
    {
        let row = follow_row(alloc, tree, outer, first, turns_from(first))?;
        Some(Stretch {
            outer: KeptValues::of(outer),
            first,
            last: first + row.turns,
            leaf: row.leaf,
        })
    }

    // Whether the loops round the innermost one have these values.
    fn is_at(&self, outer: &[i64]) -> bool
        ensures { IsTrue result ↔ self.now.outer ≡ outer.now }
    {
        self.outer.as_slice() == outer
    }

    // Whether this value lies in the stretch.
    fn has(&self, outer: &[i64], value: i64) -> bool
        ensures first { IsTrue result → self.now.first ≤ℤ value }
        ensures last { IsTrue result → value ≤ℤ self.now.last }
        ensures outer { IsTrue result → self.now.outer ≡ outer.now }
        ensures elsewhere { IsFalse result → LiesIn (outer.now ++ value ∷ []) self.now → ⊥ }
    {
        self.first <= value && value <= self.last && self.is_at(outer)
    }

    // What a tree gives at this value of its stretch.
    fn found(&self, value: i64) -> Found
        requires along { (tree : Tree) × IsStretch tree self.now }
        requires first { self.now.first ≤ℤ value }
        requires last { value ≤ℤ self.now.last }
        ensures { (tree : Tree) → IsStretch tree self.now
            → outcome_of tree (self.now.outer ++ value ∷ []) ≡ Some result }
    {
        self.leaf.at(value - self.first)
    }

    // Whether this point of this statement is what a tree gives at this value of its stretch.
    fn tells(&self, value: i64, statement: u32, point: &[i64]) -> bool
        requires along { (tree : Tree) × IsStretch tree self.now }
        requires first { self.now.first ≤ℤ value }
        requires last { value ≤ℤ self.now.last }
        ensures { (tree : Tree) → IsStretch tree self.now
            → (IsTrue result ↔ outcome_of tree (self.now.outer ++ value ∷ [])
            ≡ Some (found.At (record { statement = statement; at = point.now }))) }
    {
        self.leaf.is_at(value - self.first, statement, point)
    }
}

impl Follower {
    /// Nothing is known.
    pub fn new() -> Follower
        ensures { (tree : Tree) → IsStretchOf tree result }
    {
        Follower {
            stretch: None,
            left: 0,
            pause: 0,
        }
    }

    // Whether these loop values lie in the stretch, so that the tree gives something there.
    fn has(&self, at: &Vector) -> bool
        ensures { IsTrue result → (tree : Tree) → IsStretchOf tree self.now
            → (found : Found) × (outcome_of tree at.now ≡ Some found) }
    {
        let Some(stretch) = &self.stretch else {
            return false;
        };
        let Some((value, outer)) = at.as_slice().split_last() else {
            return false;
        };
        stretch.has(outer, *value)
    }

    // Whether no stretch is looked for at this point.
    fn passes(&mut self) -> bool
        ensures { self.new.stretch ≡ self.old.stretch }
    {
        if self.left > 0 {
            self.left -= 1;
            return true;
        }
        false
    }

    // None was found: twice as many points as before are passed.
    fn pass_longer(&mut self)
        ensures { self.new.stretch ≡ self.old.stretch }
    {
        if self.pause < PAUSE_LIMIT {
            self.pause = 2 * self.pause + 1;
        }
        self.left = self.pause;
    }

    // Begins a stretch at this value, if there is one.
    fn begin(&mut self, alloc: Global, tree: &Tree, outer: &[i64], value: i64)
        requires ready { IsTrue (is_ready (length outer.now + 1) tree.now (length outer.now + 1)) }
        requires short { length outer.now < 6 }
        requires known { IsStretchOf tree.now self.old }
        ensures { IsStretchOf tree.now self.new }
    {
        match Stretch::beginning(alloc, tree, outer, value) {
            Some(stretch) => {
                self.stretch = Some(stretch);
                self.pause = 0;
            }
            None => self.pass_longer(),
        }
    }

    // Begins a stretch at these loop values, if there is one and it is looked for.
    fn renew(&mut self, tree: &Tree, at: &Vector)
        requires ready { IsTrue (is_ready (length at.now) tree.now (length at.now)) }
        requires known { IsStretchOf tree.now self.old }
        ensures { IsStretchOf tree.now self.new }
    {
        if self.passes() {
            return;
        }
        if let Some((value, outer)) = at.as_slice().split_last() {
            self.begin(at.allocator(), tree, outer, *value);
        }
    }

    // What the tree gives at these loop values: by the stretch, where they lie in it.
    fn tell(&self, tree: &Tree, at: &Vector) -> Result<Found, Overflow>
        requires ready { IsTrue (is_ready (length at.now) tree.now (length at.now)) }
        requires known { IsStretchOf tree.now self.now }
        ensures exact { result_ok result ≡ outcome_of tree.now at.now }
        ensures value { IfOk result (λ found. found ≡ gives tree.now at.now) }
    {
        let Some(stretch) = &self.stretch else {
            return eval_narrow(tree, at);
        };
        let Some((value, outer)) = at.as_slice().split_last() else {
            return eval_narrow(tree, at);
        };
        if stretch.has(outer, *value) {
            return Ok(stretch.found(*value));
        }
        eval_narrow(tree, at)
    }

    /// Whether it is known already that the tree gives this point of this statement at these loop values, where what is known
    /// is of this tree: `true` comes exactly where the loop values lie in the stretch that is known, and the tree gives this
    /// point there. After `false` `eval` says what the tree gives. It takes a comparison for each value, and makes no point.
    pub fn tells(&self, at: &Vector, statement: u32, point: &[i64]) -> bool
        requires { (tree : Tree) × IsStretchOf tree self.now }
        ensures { (tree : Tree) → IsStretchOf tree self.now
            → (IsTrue result ↔ IsKnownAt self.now at.now × (outcome_of tree at.now
            ≡ Some (found.At (record { statement = statement; at = point.now })))) }
    {
        let Some(stretch) = &self.stretch else {
            return false;
        };
        let Some((value, outer)) = at.as_slice().split_last() else {
            return false;
        };
        if stretch.has(outer, *value) {
            stretch.tells(*value, statement, point)
        } else {
            false
        }
    }

    /// What the tree gives at these loop values, as `source_tree::eval` tells it (Feautrier 1991), where what is known is of
    /// this tree, and stays so. `Overflow` comes exactly where a form of the path that is taken leaves 128 bits, or a value of
    /// the leaf's map 64 bits. The tree is followed anew only where the values don't lie in the stretch that is known.
    pub fn eval(&mut self, tree: &Tree, at: &Vector) -> Result<Found, Overflow>
        requires ready { IsTrue (is_ready (length at.now) tree.now (length at.now)) }
        requires known { IsStretchOf tree.now self.old }
        ensures exact { result_ok result ≡ outcome_of tree.now at.now }
        ensures value { IfOk result (λ found. found ≡ gives tree.now at.now) }
        ensures known { IsStretchOf tree.now self.new }
    {
        if !self.has(at) {
            self.renew(tree, at);
        }
        self.tell(tree, at)
    }

    /// Whether the tree overflows at these loop values, as `eval` tells it. In a stretch it doesn't.
    pub fn overflows(&mut self, tree: &Tree, at: &Vector) -> bool
        requires ready { IsTrue (is_ready (length at.now) tree.now (length at.now)) }
        requires known { IsStretchOf tree.now self.old }
        ensures exact { IsTrue result ↔ outcome_of tree.now at.now ≡ None }
        ensures known { IsStretchOf tree.now self.new }
    {
        if self.has(at) {
            return false;
        }
        self.eval(tree, at).is_err()
    }
}
