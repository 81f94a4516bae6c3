ghost use Rattle.std.specs.Prelude.{◌≡◌, ◌+◌, ◌<◌, ◌≤◌, [], ◌∷◌, ◌++◌, length, map, IfOk, IsTrue, OnOk, ℤ, List};
ghost use Rattle.sanlp.specs.Cells.{all_subscripts};
ghost use Rattle.sanlp.specs.Meaning.{arrays_from, output_values};
ghost use Rattle.sanlp.specs.Memory.{cell_value};
ghost use Rattle.loop_run.specs.CellMemory.{memory_of};
ghost use Rattle.loop_run.specs.Outputs.{values_inside};

use affine_core::Subscripts;
use cell_rows::Cells;
use plain_data::Items;
use sanlp::{ArrayDecl, Nest};
use std::alloc::{AllocError, Global};

// Adds the values of an array's cells in row-major order. Some subscripts are given, and the extents are those of the others.
#[cycle(values)]
fn push_values(
    cells: &Cells<i64>,
    array: usize,
    extents: &[i64],
    at: &Subscripts,
    values: &mut Items<i64>,
) -> Result<(), AllocError>
    requires { length at.now + length extents.now ≤ 6 }
    ensures { OnOk result
        (values.new ≡ values.old ++ values_inside (memory_of cells.now) array extents.now at.now) }
{
    let Some((extent, inner)) = extents.split_first() else {
        return push_value(cells, array, at, values);
    };
    for subscript in 0..*extent {
        push_values_at(cells, array, inner, at, subscript, values)?;
    }
    Ok(())
}

// The same, where one subscript more is given.
#[cycle(values)]
fn push_values_at(
    cells: &Cells<i64>,
    array: usize,
    extents: &[i64],
    at: &Subscripts,
    subscript: i64,
    values: &mut Items<i64>,
) -> Result<(), AllocError>
    requires { length at.now + 1 + length extents.now ≤ 6 }
    ensures { OnOk result
        (values.new
        ≡ values.old
        ++ values_inside (memory_of cells.now) array extents.now (at.now ++ subscript ∷ [])) }
{
    let mut longer = at.copy();
    longer.push(subscript as i128);
    push_values(cells, array, extents, &longer, values)
}

fn push_value(
    cells: &Cells<i64>,
    array: usize,
    at: &Subscripts,
    values: &mut Items<i64>,
) -> Result<(), AllocError>
    ensures { OnOk result
        (values.new ≡ values.old ++ cell_value (memory_of cells.now) (array, at.now) ∷ []) }
{
    values.push(cells.get(array, at).unwrap_or(0))
}

// Adds the values of all cells of an array.
fn push_all_values(
    alloc: Global,
    cells: &Cells<i64>,
    array: usize,
    extents: &[i64],
    values: &mut Items<i64>,
) -> Result<(), AllocError>
    requires { length extents.now ≤ 6 }
    ensures { OnOk result
        (values.new ≡ values.old ++ values_inside (memory_of cells.now) array extents.now []) }
{
    push_values(cells, array, extents, &Subscripts::empty(alloc), values)
}

// The values of an array, if it is an output.
#[tactic(auto, using(crate::proofs::ValuesInside::values_are))]
fn output_values_of(
    alloc: Global,
    cells: &Cells<i64>,
    number: usize,
    array: &ArrayDecl,
) -> Result<Items<i64>, AllocError>
    requires { length array.now.extents ≤ 6 }
    ensures { IfOk result
        (λ values. values ≡ output_values (memory_of cells.now) number array.now) }
{
    let mut values = Items::new(alloc);
    if array.kind.is_output() {
        push_all_values(alloc, cells, number, array.extents.as_slice(), &mut values)?;
    }
    Ok(values)
}

/// The values of each output array, in row-major order.
pub(crate) fn output_arrays(
    alloc: Global,
    nest: &Nest,
    cells: &Cells<i64>,
) -> Result<Items<Items<i64>>, AllocError>
    ensures { IfOk result (λ arrays. arrays ≡ arrays_from (memory_of cells.now) 0 nest.now.arrays) }
{
    let mut arrays = Items::new(alloc);
    for (number, array) in nest.arrays.as_slice().iter().enumerate() {
        arrays.push(output_values_of(alloc, cells, number, array)?)?;
    }
    Ok(arrays)
}
