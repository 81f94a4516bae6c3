ghost use Rattle.std.specs.Prelude.{◌≡◌, All, Contains, IfOk, OnOk};
ghost use Rattle.tree_order.specs.Candidates.{AddsLevel, AreCandidates, IsCandidate};
ghost use Rattle.tree_order.specs.Reads.{read_in, write_in, IsJoined};
ghost use Rattle.tree_graphs.specs.Asked.{depth_of_write, read_of, write_of};
ghost use Rattle.tree_graphs.specs.Closed.{IsClosure};
ghost use Rattle.tree_graphs.specs.Cycles.{IsCycle};
ghost use Rattle.tree_graphs.specs.Level.{HasLevel};
ghost use Rattle.tree_graphs.specs.Rounds.{IsGraphOf};

use lex_max::tree_of;
use plain_data::Items;
use sanlp::common_loops;
use std::alloc::AllocError;
use tree_graphs::{Closure, Cycle, Edge, Graph, Problem, Writes, closure_of, cycles_of, edges_of};
use tree_order::{Candidate, Read, level_count};

fn cycles_in(writes: &Writes, edges: &[Edge], closure: &Closure) -> Result<Items<Cycle>, AllocError>
    requires graph { IsGraphOf writes.now edges.now }
    requires closure { IsClosure edges.now (depth_of_write writes.now) closure.now }
    ensures { IfOk result (All (IsCycle writes.now.vars edges.now)) }
{
    match closure {
        Closure::Closed(bounds) => {
            let graph = Graph {
                writes: *writes,
                edges,
                bounds,
            };
            cycles_of(&graph)
        }
        Closure::Negative(_) => Ok(Items::new(writes.alloc)),
    }
}

// The writes of a problem at one level before the read.
fn writes_at<'a>(read: &Read<'a>, problem: &'a Problem<'a>, level: usize) -> Writes<'a>
    requires asked { HasLevel (read_in read.now problem.now) (write_in problem.now) level }
    requires joined { IsJoined read.now }
    requires problem { Contains read.now.problems.now problem.now }
    ensures vars { result.vars ≡ read.now.context.now.vars }
    ensures read { read_of result ≡ read_in read.now problem.now }
    ensures write { write_of result ≡ write_in problem.now }
    ensures level { result.level ≡ level }
{
    let loops = problem.write.statement.loops.as_slice();
    let rows = problem.rows.as_slice();
    let write_forms = problem.write_forms.as_slice();
    let read_forms = problem.read_forms.as_slice();
    Writes {
        alloc: read.alloc,
        vars: read.context.vars as usize,
        read: read.reference,
        write: problem.write,
        rows,
        write_forms,
        read_forms,
        common: common_loops(loops, read.reference.statement.loops.as_slice()),
        level,
    }
}

fn candidate_of<'a>(
    read: &Read<'a>,
    problem: &'a Problem<'a>,
    level: usize,
) -> Result<Candidate<'a>, AllocError>
    requires joined { IsJoined read.now }
    requires problem { Contains read.now.problems.now problem.now }
    requires asked { HasLevel (read_in read.now problem.now) (write_in problem.now) level }
    ensures candidate { IfOk result (IsCandidate read.now) }
    ensures writer { IfOk result (λ c. c.writes.write.number ≡ problem.now.write.number) }
    ensures level { IfOk result (λ c. c.writes.level ≡ level) }
{
    let writes = writes_at(read, problem, level);
    let edges = edges_of(&writes)?;
    let closure = closure_of(read.alloc, edges.as_slice(), writes.depth())?;
    let cycles = cycles_in(&writes, edges.as_slice(), &closure)?;
    let tree = tree_of(&writes, read.context)?;
    Ok(Candidate {
        writes,
        tree,
        edges,
        closure,
        cycles,
    })
}

// Adds the candidates of these problems at one level, of those that have the reader in the loop of the level, or of the
// others. The last one comes first.
fn push_level<'a>(
    candidates: &mut Items<Candidate<'a>>,
    read: &Read<'a>,
    problems: &'a [Problem<'a>],
    level: usize,
    within: bool,
) -> Result<(), AllocError>
    requires joined { IsJoined read.now }
    requires problems { All (Contains read.now.problems.now) problems.now }
    ensures { OnOk result (AddsLevel read.now problems.now level within candidates.old
        candidates.new) }
{
    let Some((problem, problems)) = problems.split_first() else {
        return Ok(());
    };
    push_level(candidates, read, problems, level, within)?;
    let loops = problem.write.statement.loops.as_slice();
    let common = common_loops(loops, read.reference.statement.loops.as_slice());
    if level >= level_count(&problem.write, &read.reference) {
        return Ok(());
    }
    let inside = level < common;
    if inside != within {
        return Ok(());
    }
    candidates.push(candidate_of(read, problem, level)?)
}

/// The candidates of a read, those of the deepest level first. Of one level those within its loop come first, and then
/// those of later statements: the order decides how large the joined tree is, and nothing else.
pub fn candidates_of<'a>(read: &Read<'a>) -> Result<Items<Candidate<'a>>, AllocError>
    requires { IsJoined read.now }
    ensures { IfOk result (AreCandidates read.now) }
{
    let mut candidates = Items::new(read.alloc);
    for outer in 0..7 {
        push_level(&mut candidates, read, read.problems, 6 - outer, true)?;
        push_level(&mut candidates, read, read.problems, 6 - outer, false)?;
    }
    Ok(candidates)
}
