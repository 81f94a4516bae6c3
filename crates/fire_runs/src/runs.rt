ghost use Rattle.std.specs.Prelude.{◌≡◌, ◌+◌, ◌<◌, ◌+ℤ◌, ◌-ℤ◌, pos, ◌++◌, length, map, replicate, IfOk, IsTrue, OnOk};
ghost use Rattle.loop_walk.specs.EnteredLoops.{parts_within, turns_within};
ghost use Rattle.fire_runs.specs.Runs.{processes_in, processes_of};
ghost use Rattle.sanlp.specs.Cells.{natural};
ghost use Rattle.sanlp.specs.Loops.{interval};
ghost use Rattle.sanlp.specs.Size.{SizeIsOk, is_loop_value, node_within};
ghost use Rattle.sanlp.specs.Trace.{all_points, trace, trace_node, turn_points};
ghost use Rattle.sanlp.specs.WellFormed.{all_forms_fit, forms_fit};

use loop_walk::{LoopValues, loop_range, only_assignment, rows_hold};
use sanlp::{Nest, Node};
use std::alloc::{AllocError, Global};

/// So many fires of one process in a row; maybe none.
#[derive(Drop)]
pub struct FireRun {
    pub process: u32,
    pub count: usize,
}

// How many turns a loop has from its first value to its last.
fn turns_of(first: i64, last: i64) -> usize
    requires first_within { IsTrue (is_loop_value first) }
    requires last_within { IsTrue (is_loop_value last) }
    ensures { result ≡ natural (last +ℤ pos 1 -ℤ first) }
{
    if last < first {
        0
    } else {
        (last as i128 + 1 - first as i128) as usize
    }
}

// Adds a run of so many fires of a process.
fn add_run(process: u32, count: usize, runs: &mut Vec<FireRun>) -> Result<(), AllocError>
    ensures { OnOk result
        (processes_in runs.new.items ≡ processes_in runs.old.items ++ replicate count process) }
{
    runs.push(FireRun { process, count })?;
    Ok(())
}

// Adds the fires of these parts of a body.
#[cycle(runs)]
fn add_parts(parts: &[Node], at: &LoopValues, runs: &mut Vec<FireRun>) -> Result<(), AllocError>
    requires fit { IsTrue (all_forms_fit parts.now (length at.now)) }
    requires within { IsTrue (parts_within parts.now at.now) }
    ensures { OnOk result
        (processes_in runs.new.items ≡ processes_in runs.old.items
        ++ processes_of (all_points (map trace_node parts.now) at.now)) }
{
    for part in parts {
        add_node(part, at, runs)?;
    }
    Ok(())
}

// Adds the fires of a part of a body.
#[cycle(runs)]
fn add_node(node: &Node, at: &LoopValues, runs: &mut Vec<FireRun>) -> Result<(), AllocError>
    requires fits { IsTrue (forms_fit node.now (length at.now)) }
    requires within { IsTrue (node_within node.now at.now) }
    ensures { OnOk result
        (processes_in runs.new.items ≡ processes_in runs.old.items
        ++ processes_of (trace_node node.now at.now)) }
{
    match node {
        Node::Loop {
            lower,
            upper,
            step,
            body,
            ..
        } => {
            let body = body.as_slice();
            let Some((first, last)) = loop_range(lower.as_slice(), upper.as_slice(), *step, at)
            else {
                unreachable!()
            };
            add_turns(body, at, first, last, runs)
        }
        Node::Guard { rows, body } => {
            if rows_hold(rows.as_slice(), at) {
                add_parts(body.as_slice(), at, runs)
            } else {
                Ok(())
            }
        }
        Node::Assign(process) => add_run(*process, 1, runs),
    }
}

// Adds the fires of the turns of a loop: one run where its body is one assignment.
#[cycle(runs)]
fn add_turns(
    body: &[Node],
    at: &LoopValues,
    first: i64,
    last: i64,
    runs: &mut Vec<FireRun>,
) -> Result<(), AllocError>
    requires shallow { length at.now < 6 }
    requires first_within { IsTrue (is_loop_value first) }
    requires last_within { IsTrue (is_loop_value last) }
    requires fit { IsTrue (all_forms_fit body.now (length at.now + 1)) }
    requires within { IsTrue (turns_within body.now at.now (interval first last)) }
    ensures { OnOk result
        (processes_in runs.new.items
        ≡ processes_in runs.old.items
        ++ processes_of
        (turn_points (all_points (map trace_node body.now)) (interval first last) at.now)) }
{
    if let Some(process) = only_assignment(body) {
        return add_run(process, turns_of(first, last), runs);
    }
    for value in first..=last {
        add_parts(body, &at.extended(value), runs)?;
    }
    Ok(())
}

/// The fires of a nest's processes in the order of its trace, run by run. It goes through the loops, and makes no point: the
/// turns of a loop over one assignment are one run. Nothing is refused but want of memory.
pub fn trace_runs(alloc: Global, nest: &Nest) -> Result<Vec<FireRun>, AllocError>
    requires { SizeIsOk nest.now }
    ensures { IfOk result (λ runs. processes_in runs.items ≡ processes_of (trace nest.now)) }
{
    let mut runs = Vec::new(alloc);
    add_parts(nest.parts(), &LoopValues::empty(), &mut runs)?;
    Ok(runs)
}
