ghost use Rattle.std.specs.Prelude.{◌≡◌, length, Some, IfOk};
ghost use Rattle.lex_max.specs.Answer.{root_of, IsAnswer, IsContextOf};
ghost use Rattle.tree_graphs.specs.Asked.{depth_of_read, read_of, write_of, AreAsked, HasLevelOf, WritesArrayOf};
ghost use Rattle.tree_graphs.specs.Problems.{IsProblem};
ghost use Rattle.tree_graphs.specs.Class.{IsInDifferenceClass};
ghost use Rattle.tree_graphs.specs.Level.{GivesGreatest};
ghost use Rattle.tree_graphs.specs.Simple.{IsSimple};
ghost use Rattle.source_tree.specs.Checked.{IsCheckedIn};
ghost use Rattle.source_tree.specs.Systems.{just, named_write, read_at, root_context, Occurrence};
ghost use Rattle.source_tree.specs.References.{occurrence_of};

use crate::decide::conditions;
use crate::zeros::zero_leaf;
use int_polyhedra::System;
use sanlp::{Nest, common_loops};
use source_tree::{Reference, Tree};
use std::alloc::{AllocError, Global};
use tree_graphs::{Closure, Graph, Writes, closure_of, cycles_of, edges_of, system_of};

// The reader's domain rows.
fn root(w: &Writes) -> Result<System, AllocError>
    ensures { IfOk result (λ context. context ≡ root_of w.now) }
{
    let vars = w.vars as u32;
    system_of(w.alloc, vars, w.read.statement.rows.as_slice())
}

// The writes that a read and a write name.
fn writes_between<'a>(
    alloc: Global,
    read: Reference<'a>,
    write: Reference<'a>,
    level: usize,
) -> Writes<'a>
    requires { IsProblem (length read.statement.now.loops) (occurrence_of read)
        (occurrence_of write) level }
    ensures read { read_of result ≡ occurrence_of read.entry }
    ensures write { write_of result ≡ occurrence_of write.entry }
    ensures vars { result.vars ≡ depth_of_read result }
    ensures level { result.level ≡ level }
{
    let loops = read.statement.loops.as_slice();
    let rows = write.statement.rows.as_slice();
    let write_forms = write.access.subscripts.as_slice();
    let read_forms = read.access.subscripts.as_slice();
    let common = common_loops(write.statement.loops.as_slice(), loops);
    Writes {
        alloc,
        vars: loops.len(),
        read,
        write,
        rows,
        write_forms,
        read_forms,
        common,
        level,
    }
}

// The read and the write of these numbers.
fn looked_up<'a>(
    nest: &'a Nest,
    statement: u32,
    read: u32,
    writer: u32,
) -> (Reference<'a>, Reference<'a>)
    requires { WritesArrayOf nest.now statement read writer }
    ensures read { read_at nest.now statement read ≡ Some (occurrence_of result.0) }
    ensures write { named_write nest.now (occurrence_of result.0) writer
        ≡ Some (occurrence_of result.1) }
{
    let reading = nest.statement(statement);
    let writing = nest.statement(writer);
    let (Some(read), Some(write)) = (reading.reads.get(read as usize), &writing.write) else {
        unreachable!()
    };
    let read = Reference {
        number: statement,
        statement: reading,
        access: read,
    };
    let write = Reference {
        number: writer,
        statement: writing,
        access: write,
    };
    (read, write)
}

/// The writes of one statement at one level before a read.
pub fn writes_of<'a>(
    alloc: Global,
    nest: &'a Nest,
    statement: u32,
    read: u32,
    writer: u32,
    level: u32,
) -> Writes<'a>
    requires class { IsInDifferenceClass nest.now statement read }
    requires writes { WritesArrayOf nest.now statement read writer }
    requires level { HasLevelOf nest.now statement read writer level }
    ensures stands { AreAsked nest.now (read_of result) (write_of result) result.level }
    ensures vars { result.vars ≡ depth_of_read result }
    ensures read { read_at nest.now statement read ≡ Some (read_of result) }
    ensures write { named_write nest.now (read_of result) writer ≡ Some (write_of result) }
    ensures level { result.level ≡ level }
{
    let found = looked_up(nest, statement, read, writer);
    writes_between(alloc, found.0, found.1, level as usize)
}

// The tree of a context, where no sum of edges from a loop variable back to itself is negative.
fn closed_tree(graph: &Graph, context: &System) -> Result<Tree, AllocError>
    requires { IsContextOf graph.now.writes 3584 context.now }
    ensures { IfOk result (IsAnswer graph.now.writes context.now 3584) }
{
    let cycles = cycles_of(graph)?;
    conditions(graph, context, cycles.as_slice())
}

/// At each point that meets a context the greatest point of the writer at its level before the read, or zero where there is
/// none (Feautrier 1991, over difference constraints).
pub fn tree_of(w: &Writes, context: &System) -> Result<Tree, AllocError>
    requires { IsContextOf w.now 3584 context.now }
    ensures { IfOk result (IsAnswer w.now context.now 3584) }
{
    let found = edges_of(w)?;
    let edges = found.as_slice();
    let nodes = w.depth();
    let closure = closure_of(w.alloc, edges, nodes)?;
    match closure {
        Closure::Negative(rows) => {
            let terms = rows.as_slice();
            zero_leaf(w, context, &[], terms)
        }
        Closure::Closed(bounds) => {
            let graph = Graph {
                writes: *w,
                edges,
                bounds: &bounds,
            };
            closed_tree(&graph, context)
        }
    }
}

/// At each point of the reader the greatest point of one writer at one level of order that writes the read's cell before the
/// read, or zero where there is none (Feautrier 1991, over the difference constraints of the class). The tree is checked for
/// that writer and that level, each of its proofs is a Sum, and it has no Divides. Its numbers lie within 2^48, the
/// multipliers of a proof add up to 2^48 at most, and no path has more than 65,536 Tests. Nothing is refused but want of
/// memory.
pub fn candidate(
    alloc: Global,
    nest: &Nest,
    statement: u32,
    read: u32,
    writer: u32,
    level: u32,
) -> Result<Tree, AllocError>
    requires class { IsInDifferenceClass nest.now statement read }
    requires writes { WritesArrayOf nest.now statement read writer }
    requires level { HasLevelOf nest.now statement read writer level }
    ensures checked { IfOk result (λ tree. (r : Occurrence)
        → read_at nest.now statement read ≡ Some r
        → IsCheckedIn nest.now r (just writer level) (root_context r) tree) }
    ensures simple { IfOk result (IsSimple 65536) }
    ensures greatest { IfOk result (λ tree. (r w : Occurrence)
        → read_at nest.now statement read ≡ Some r → named_write nest.now r writer ≡ Some w
        → GivesGreatest nest.now r w level tree) }
{
    let w = writes_of(alloc, nest, statement, read, writer, level);
    let context = root(&w)?;
    tree_of(&w, &context)
}
