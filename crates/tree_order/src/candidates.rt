ghost use Rattle.std.specs.Prelude.{◌≡◌};
ghost use Rattle.tree_order.specs.Candidates.{is_candidate_of, levels_before};
ghost use Rattle.source_tree.specs.References.{occurrence_of};

use int_polyhedra::System;
use plain_data::Items;
use sanlp::common_loops;
use source_tree::{Reference, Tree};
use std::alloc::Global;
use tree_graphs::{Closure, Cycle, Edge, Problem, Writes};

/// A read, the context in which its candidates are joined, and the writes of its array, one after the other in the text.
#[derive(Clone, Copy)]
pub struct Read<'a> {
    pub alloc: Global,
    pub reference: Reference<'a>,
    pub context: &'a System,
    pub problems: &'a [Problem<'a>],
}

/// The writes of one statement to the read's cell at one level of order before the read: the tree of the greatest one, the
/// edges of the rows on a writer's point with their least sums, and their cycles through 0.
#[derive(Drop)]
pub struct Candidate<'a> {
    pub writes: Writes<'a>,
    pub tree: Tree,
    pub edges: Items<Edge>,
    pub closure: Closure,
    pub cycles: Items<Cycle>,
}

impl Candidate<'_> {
    /// Whether these are the writes of this statement at this level.
    pub fn is_of(&self, writer: u32, level: usize) -> bool
        ensures { result ≡ is_candidate_of writer level self.now }
    {
        self.writes.write.number == writer && self.writes.level == level
    }
}

/// How many levels of order there are at which the first statement stands before the second: one for each loop round both,
/// and one more where the first stands before the second in the text.
pub fn level_count(first: &Reference, second: &Reference) -> usize
    ensures { result ≡ levels_before (occurrence_of first.now) (occurrence_of second.now) }
{
    let loops = first.statement.loops.as_slice();
    let common = common_loops(loops, second.statement.loops.as_slice());
    if first.number < second.number {
        common + 1
    } else {
        common
    }
}
