ghost use Rattle.std.specs.Prelude.{◌≡◌, ◌+◌, ◌<◌, [], ◌∷◌, ◌++◌, length, map, IfOk, IsTrue, OnOk};
ghost use Rattle.sanlp.specs.Laws.{sink_values};
ghost use Rattle.sanlp.specs.Loops.{interval};
ghost use Rattle.sanlp.specs.Meaning.{arrays, exec, exec_node, in_turn, turns};
ghost use Rattle.sanlp.specs.Memory.{no_cells};
ghost use Rattle.sanlp.specs.WellFormed.{all_forms_fit, forms_fit};
ghost use Rattle.loop_run.specs.CellMemory.{memory_of};
ghost use Rattle.sanlp.specs.Size.{SizeIsOk, is_loop_value, node_within};
ghost use Rattle.loop_run.specs.Execution.{all_placed, node_placed};
ghost use Rattle.loop_walk.specs.EnteredLoops.{parts_within, turns_within};
ghost use Rattle.cell_rows.specs.Narrow.{narrowed};

use crate::along::execute_values;
use crate::execute::execute_point;
use crate::outputs::output_arrays;
use cell_rows::{Cells, NarrowStatement, narrow_statements};
use loop_walk::{LoopValues, loop_range, only_assignment, rows_hold};
use sanlp::{Arrays, Inputs, Nest, Node};
use std::alloc::{AllocError, Global};

// Executes the parts of a body, in turn.
#[cycle(run)]
fn run_parts(
    alloc: Global,
    nest: &Nest,
    accesses: &[NarrowStatement],
    inputs: &Inputs,
    parts: &[Node],
    at: &LoopValues,
    cells: &mut Cells<i64>,
) -> Result<(), AllocError>
    requires same { accesses.now ≡ map narrowed nest.now.statements }
    requires fit { IsTrue (all_forms_fit parts.now (length at.now)) }
    requires placed { IsTrue (all_placed nest.now.statements parts.now (length at.now)) }
    requires within { IsTrue (parts_within parts.now at.now) }
    ensures { OnOk result
        (memory_of cells.new
        ≡ in_turn (map (exec_node nest.now inputs.now) parts.now) at.now (memory_of cells.old)) }
{
    for part in parts {
        run_node(alloc, nest, accesses, inputs, part, at, cells)?;
    }
    Ok(())
}

#[cycle(run)]
fn run_node(
    alloc: Global,
    nest: &Nest,
    accesses: &[NarrowStatement],
    inputs: &Inputs,
    node: &Node,
    at: &LoopValues,
    cells: &mut Cells<i64>,
) -> Result<(), AllocError>
    requires same { accesses.now ≡ map narrowed nest.now.statements }
    requires fits { IsTrue (forms_fit node.now (length at.now)) }
    requires placed { IsTrue (node_placed nest.now.statements node.now (length at.now)) }
    requires within { IsTrue (node_within node.now at.now) }
    ensures { OnOk result
        (memory_of cells.new
        ≡ exec_node nest.now inputs.now node.now at.now (memory_of cells.old)) }
{
    match node {
        Node::Loop {
            lower,
            upper,
            step,
            body,
            ..
        } => {
            let range = loop_range(lower.as_slice(), upper.as_slice(), *step, at);
            let Some((first, last)) = range else {
                unreachable!()
            };
            run_turns(
                alloc,
                nest,
                accesses,
                inputs,
                body.as_slice(),
                at,
                first,
                last,
                cells,
            )
        }
        Node::Guard { rows, body } => {
            if rows_hold(rows.as_slice(), at) {
                run_parts(alloc, nest, accesses, inputs, body.as_slice(), at, cells)
            } else {
                Ok(())
            }
        }
        Node::Assign(statement) => execute_point(
            alloc, nest, accesses, inputs, *statement, at, cells,
        ),
    }
}

// Executes the turns of a loop.
#[cycle(run)]
fn run_turns(
    alloc: Global,
    nest: &Nest,
    accesses: &[NarrowStatement],
    inputs: &Inputs,
    parts: &[Node],
    at: &LoopValues,
    first: i64,
    last: i64,
    cells: &mut Cells<i64>,
) -> Result<(), AllocError>
    requires same { accesses.now ≡ map narrowed nest.now.statements }
    requires shallow { length at.now < 6 }
    requires first_within { IsTrue (is_loop_value first) }
    requires last_within { IsTrue (is_loop_value last) }
    requires fit { IsTrue (all_forms_fit parts.now (length at.now + 1)) }
    requires placed { IsTrue (all_placed nest.now.statements parts.now (length at.now + 1)) }
    requires within { IsTrue (turns_within parts.now at.now (interval first last)) }
    ensures { OnOk result
        (memory_of cells.new
        ≡ turns (in_turn (map (exec_node nest.now inputs.now) parts.now))
        (interval first last) at.now (memory_of cells.old)) }
{
    if let Some(statement) = only_assignment(parts) {
        return execute_values(
            alloc, nest, accesses, inputs, statement, at, first, last, cells,
        );
    }
    for value in first..=last {
        run_turn(alloc, nest, accesses, inputs, parts, at, value, cells)?;
    }
    Ok(())
}

// Executes one turn of a loop.
#[cycle(run)]
fn run_turn(
    alloc: Global,
    nest: &Nest,
    accesses: &[NarrowStatement],
    inputs: &Inputs,
    parts: &[Node],
    at: &LoopValues,
    value: i64,
    cells: &mut Cells<i64>,
) -> Result<(), AllocError>
    requires same { accesses.now ≡ map narrowed nest.now.statements }
    requires shallow { length at.now < 6 }
    requires value_within { IsTrue (is_loop_value value) }
    requires fit { IsTrue (all_forms_fit parts.now (length at.now + 1)) }
    requires placed { IsTrue (all_placed nest.now.statements parts.now (length at.now + 1)) }
    requires within { IsTrue (parts_within parts.now (at.now ++ value ∷ [])) }
    ensures { OnOk result
        (memory_of cells.new
        ≡ in_turn (map (exec_node nest.now inputs.now) parts.now) (at.now ++ value ∷ [])
        (memory_of cells.old)) }
{
    run_parts(
        alloc,
        nest,
        accesses,
        inputs,
        parts,
        &at.extended(value),
        cells,
    )
}

/// Executes a nest one statement after another: the values of each output array after it, in row-major order, which are
/// the values of the points of the array's sink. Nothing is refused but want of memory.
pub fn interpret(alloc: Global, nest: &Nest, inputs: &Inputs) -> Result<Arrays, AllocError>
    requires { SizeIsOk nest.now }
    ensures meaning { IfOk result (λ outputs. outputs.arrays ≡ arrays nest.now inputs.now) }
    ensures sinks { IfOk result (λ outputs. outputs.arrays ≡ sink_values nest.now inputs.now) }
{
    let mut cells = Cells::new(alloc, nest.arrays.as_slice())?;
    run_nest(alloc, nest, inputs, &mut cells)?;
    Ok(Arrays {
        arrays: output_arrays(alloc, nest, &cells)?,
    })
}

// Executes all parts of a nest, from the memory without cells on.
fn run_nest(
    alloc: Global,
    nest: &Nest,
    inputs: &Inputs,
    cells: &mut Cells<i64>,
) -> Result<(), AllocError>
    requires sized { SizeIsOk nest.now }
    requires fresh { memory_of cells.old ≡ no_cells }
    ensures { OnOk result (memory_of cells.new ≡ exec nest.now inputs.now) }
{
    let accesses = narrow_statements(alloc, nest)?;
    run_parts(
        alloc,
        nest,
        accesses.as_slice(),
        inputs,
        nest.parts(),
        &LoopValues::empty(),
        cells,
    )
}
