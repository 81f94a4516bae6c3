ghost use Rattle.std.specs.List.{list_all};
ghost use Rattle.std.specs.Option.{option_map};
ghost use Rattle.std.specs.Prelude.{◌≡◌, ◌≤◌, true, length, map, take, IsTrue, OnOk};
ghost use Rattle.sanlp.specs.Access.{cell_at};
ghost use Rattle.sanlp.specs.Meaning.{execute, store};
ghost use Rattle.sanlp.specs.Memory.{cell_value};
ghost use Rattle.wrap_expr.specs.Value.{value_of};
ghost use Rattle.loop_run.specs.CellMemory.{memory_of};
ghost use Rattle.cell_rows.specs.ShortAccesses.{access_short, statement_short};
ghost use Rattle.cell_rows.specs.SmallValues.{are_small_values};
ghost use Rattle.loop_run.specs.Execution.{is_of_depth};
ghost use Rattle.cell_rows.specs.Narrow.{narrowed};

use cell_rows::{Cells, NarrowAccess, NarrowStatement, are_small};
use loop_walk::LoopValues;
use sanlp::{Inputs, Nest, Statement, given_value};
use std::alloc::{AllocError, Global};
use wrap_expr::eval;

// Puts the values of the cells that a statement reads into the first places.
fn read_values(
    alloc: Global,
    reads: &[NarrowAccess],
    at: &[i64],
    small: bool,
    cells: &Cells<i64>,
    values: &mut [i64; 8],
)
    requires small { small ≡ true → IsTrue (are_small_values at.now) }
    requires few { length reads.now ≤ 8 }
    requires fit { IsTrue (list_all (access_short (length at.now)) reads.now) }
    ensures { take (length reads.now) values.new
        ≡ map (cell_value (memory_of cells.now)) (map (cell_at at.now) reads.now) }
{
    for (slot, access) in reads.iter().enumerate() {
        values[slot] = cells.read(alloc, access, at, small).unwrap_or(0);
    }
}

/// Executes a statement: it reads its cells, evaluates its expression and writes its cell.
pub(crate) fn execute_statement(
    alloc: Global,
    statement: &Statement,
    accesses: &NarrowStatement,
    given: i64,
    at: &[i64],
    cells: &mut Cells<i64>,
) -> Result<(), AllocError>
    requires short { IsTrue (statement_short (length at.now) statement.now) }
    requires same { accesses.now ≡ narrowed statement.now }
    ensures { let values = map (cell_value (memory_of cells.old))
        (map (cell_at at.now) statement.now.reads) in
        let value = value_of statement.now.expr (record { at = at.now; reads = values; given = given }) in
        OnOk result (memory_of cells.new
        ≡ store (memory_of cells.old) (option_map (cell_at at.now) statement.now.write) value) }
{
    let small = are_small(at);
    let reads = accesses.reads.as_slice();
    let mut values = [0; 8];
    read_values(alloc, reads, at, small, cells, &mut values);
    let value = eval(&statement.expr, at, &values[..reads.len()], given);
    match &accesses.write {
        Some(access) => cells.write(alloc, access, at, small, value),
        None => Ok(()),
    }
}

/// Executes the statement of this number.
pub(crate) fn execute_point(
    alloc: Global,
    nest: &Nest,
    accesses: &[NarrowStatement],
    inputs: &Inputs,
    statement: u32,
    at: &LoopValues,
    cells: &mut Cells<i64>,
) -> Result<(), AllocError>
    requires depth { IsTrue (is_of_depth nest.now.statements (length at.now) statement) }
    requires same { accesses.now ≡ map narrowed nest.now.statements }
    ensures { OnOk result
        (memory_of cells.new
        ≡ execute nest.now inputs.now (memory_of cells.old)
        (record { statement = statement; at = at.now })) }
{
    let found = nest.statement(statement);
    let values = at.as_slice();
    let given = given_value(nest, inputs, found.role, values);
    execute_statement(
        alloc,
        found,
        &accesses[statement as usize],
        given,
        values,
        cells,
    )
}
