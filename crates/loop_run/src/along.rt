ghost use Rattle.std.specs.List.{list_all};
ghost use Rattle.std.specs.Option.{option_map};
ghost use Rattle.std.specs.Prelude.{◌≡◌, ◌≤◌, ◌<◌, ◌+◌, ◌≤ℤ◌, ◌∷◌, ◌++◌, [], length, map, slice_get, take, unsigned_abs, IfSome, IsTrue, OnOk, Some};
ghost use Rattle.sanlp.specs.Access.{cell_at};
ghost use Rattle.sanlp.specs.Loops.{interval};
ghost use Rattle.sanlp.specs.Meaning.{execute, store, turns};
ghost use Rattle.sanlp.specs.Memory.{cell_value};
ghost use Rattle.wrap_expr.specs.Value.{value_of};
ghost use Rattle.loop_run.specs.CellMemory.{memory_of};
ghost use Rattle.cell_rows.specs.CellMap.{places_in};
ghost use Rattle.sanlp.specs.Size.{is_loop_value};
ghost use Rattle.cell_rows.specs.ShortAccesses.{access_short, statement_short};
ghost use Rattle.loop_run.specs.Execution.{is_of_depth};
ghost use Rattle.cell_lines.specs.LinePlaces.{ArePlacedBy, AreStatementLines, IsStatementPlaced};
ghost use Rattle.cell_rows.specs.Narrow.{narrowed};

use crate::execute::execute_statement;
use cell_lines::{Line, Lines, lines_along, place_at};
use cell_rows::{Cells, NarrowAccess, NarrowStatement};
use loop_walk::LoopValues;
use sanlp::{Inputs, Nest, Statement, given_value};
use std::alloc::{AllocError, Global};
use wrap_expr::eval;

// Puts the values of the cells that a statement reads into the first places.
fn read_along(
    alloc: Global,
    reads: &[NarrowAccess],
    lines: &[Line; 8],
    turn: i64,
    at: &[i64],
    cells: &Cells<i64>,
    values: &mut [i64; 8],
)
    requires few { length reads.now ≤ 8 }
    requires fit { IsTrue (list_all (access_short (length at.now)) reads.now) }
    requires turn { unsigned_abs turn ≤ 268435456 }
    requires placed { ArePlacedBy (places_in cells.now) at.now turn reads.now lines.now
        (length reads.now) }
    ensures { take (length reads.now) values.new
        ≡ map (cell_value (memory_of cells.now)) (map (cell_at at.now) reads.now) }
{
    for (slot, access) in reads.iter().enumerate() {
        let place = place_at(lines[slot], turn);
        values[slot] = cells.read_at(alloc, access, at, place).unwrap_or(0);
    }
}

// Executes a statement, whose accesses have the places of these lines at this turn.
fn execute_turn(
    alloc: Global,
    statement: &Statement,
    accesses: &NarrowStatement,
    lines: &Lines,
    turn: i64,
    given: i64,
    at: &[i64],
    cells: &mut Cells<i64>,
) -> Result<(), AllocError>
    requires short { IsTrue (statement_short (length at.now) statement.now) }
    requires same { accesses.now ≡ narrowed statement.now }
    requires turn { unsigned_abs turn ≤ 268435456 }
    requires placed { IsStatementPlaced (places_in cells.old) at.now turn accesses.now lines.now }
    ensures memory { let values = map (cell_value (memory_of cells.old))
        (map (cell_at at.now) statement.now.reads) in
        let value = value_of statement.now.expr (record { at = at.now; reads = values; given = given }) in
        OnOk result (memory_of cells.new
        ≡ store (memory_of cells.old) (option_map (cell_at at.now) statement.now.write) value) }
    ensures places { OnOk result (places_in cells.new ≡ places_in cells.old) }
{
    let reads = accesses.reads.as_slice();
    let mut values = [0; 8];
    read_along(alloc, reads, &lines.reads, turn, at, cells, &mut values);
    let value = eval(&statement.expr, at, &values[..reads.len()], given);
    match &accesses.write {
        Some(access) => cells.write_at(alloc, access, at, place_at(lines.write, turn), value),
        None => Ok(()),
    }
}

// Executes a statement at one value of the innermost loop round it. The places along the loop may be known.
fn execute_value(
    alloc: Global,
    nest: &Nest,
    inputs: &Inputs,
    number: u32,
    statement: &Statement,
    accesses: &NarrowStatement,
    lines: &Option<Lines>,
    at: &LoopValues,
    first: i64,
    last: i64,
    value: i64,
    inner: &mut LoopValues,
    cells: &mut Cells<i64>,
) -> Result<(), AllocError>
    requires found { slice_get nest.now.statements number ≡ Some statement.now }
    requires short { IsTrue (statement_short (length at.now + 1) statement.now) }
    requires same { accesses.now ≡ narrowed statement.now }
    requires lines { IfSome lines.now
        (AreStatementLines (places_in cells.old) at.now first last accesses.now) }
    requires within { IsTrue (is_loop_value value) }
    requires from { first ≤ℤ value }
    requires to { value ≤ℤ last }
    requires deeper { length inner.old ≡ length at.now + 1 }
    requires outer { take (length at.now) inner.old ≡ at.now }
    ensures memory { OnOk result
        (memory_of cells.new
        ≡ execute nest.now inputs.now (memory_of cells.old)
        (record { statement = number; at = at.now ++ value ∷ [] })) }
    ensures lines { OnOk result
        (IfSome lines.now
        (AreStatementLines (places_in cells.new) at.now first last accesses.now)) }
    ensures inner { inner.new ≡ at.now ++ value ∷ [] }
{
    inner.set_last(at, value);
    let values = inner.as_slice();
    let given = given_value(nest, inputs, statement.role, values);
    match lines {
        Some(lines) => execute_turn(
            alloc,
            statement,
            accesses,
            lines,
            value - first,
            given,
            values,
            cells,
        ),
        None => execute_statement(alloc, statement, accesses, given, values, cells),
    }
}

/// Executes a statement at each value of the innermost loop round it.
pub(crate) fn execute_values(
    alloc: Global,
    nest: &Nest,
    accesses: &[NarrowStatement],
    inputs: &Inputs,
    number: u32,
    at: &LoopValues,
    first: i64,
    last: i64,
    cells: &mut Cells<i64>,
) -> Result<(), AllocError>
    requires same { accesses.now ≡ map narrowed nest.now.statements }
    requires shallow { length at.now < 6 }
    requires depth { IsTrue (is_of_depth nest.now.statements (length at.now + 1) number) }
    requires first_within { IsTrue (is_loop_value first) }
    requires last_within { IsTrue (is_loop_value last) }
    ensures { OnOk result
        (memory_of cells.new
        ≡ turns (λ at m. execute nest.now inputs.now m (record { statement = number; at = at }))
        (interval first last) at.now (memory_of cells.old)) }
{
    let statement = nest.statement(number);
    let narrow = &accesses[number as usize];
    let lines = lines_along(narrow, at.as_slice(), first, last, cells);
    let mut inner = at.extended(first);
    for value in first..=last {
        execute_value(
            alloc, nest, inputs, number, statement, narrow, &lines, at, first, last, value,
            &mut inner, cells,
        )?;
    }
    Ok(())
}
