ghost use Rattle.std.specs.Prelude.{◌≡◌, ◌≤◌, ◌*◌, IfOk, map};
ghost use Rattle.std.specs.List.{range_with_len};
ghost use Rattle.sanlp.specs.Access.{HasInputLengths};
ghost use Rattle.sanlp.specs.declared.nest.Nest.{Nest};
ghost use Rattle.matrix_load.specs.Cells.{a_cell as cell_of_a, b_cell as cell_of_b, matrix_inputs as inputs_of};
ghost use Rattle.matrix_load.specs.Product.{IsMatrixNest};

use plain_data::Items;
use sanlp::Inputs;
use std::alloc::{AllocError, Global};

fn a_cell(number: u64) -> i64
    ensures { result ≡ cell_of_a number }
{
    ((7 * u128::from(number) + 3) % 11) as i64 - 5
}

fn b_cell(number: u64) -> i64
    ensures { result ≡ cell_of_b number }
{
    ((5 * u128::from(number) + 1) % 13) as i64 - 6
}

fn a_cells(alloc: Global, cells: u64) -> Result<Items<i64>, AllocError>
    ensures { IfOk result (λ list. list ≡ map cell_of_a (range_with_len 0 cells)) }
{
    let mut list = Items::new(alloc);
    for number in 0..cells {
        list.push(a_cell(number))?;
    }
    Ok(list)
}

fn b_cells(alloc: Global, cells: u64) -> Result<Items<i64>, AllocError>
    ensures { IfOk result (λ list. list ≡ map cell_of_b (range_with_len 0 cells)) }
{
    let mut list = Items::new(alloc);
    for number in 0..cells {
        list.push(b_cell(number))?;
    }
    Ok(list)
}

fn square(count: u32) -> u64
    ensures { result ≡ count * count }
{
    u64::from(count) * u64::from(count)
}

fn matrix_cells(alloc: Global, count: u32) -> Result<Items<Items<i64>>, AllocError>
    ensures { IfOk result (λ lists. lists ≡ inputs_of count) }
{
    let cells = square(count);
    let mut lists = Items::new(alloc);
    lists.push(a_cells(alloc, cells)?)?;
    lists.push(b_cells(alloc, cells)?)?;
    lists.push(Items::new(alloc))?;
    Ok(lists)
}

/// The inputs of the matrix product, where each matrix has so many rows and so many columns: the cells of A, those of B,
/// and none for C. They have the lengths that its nest wants.
pub fn matrix_inputs(alloc: Global, count: u32) -> Result<Inputs, AllocError>
    requires { count ≤ 2147483647 }
    ensures cells { IfOk result (λ inputs. inputs.arrays ≡ inputs_of count) }
    ensures lengths { IfOk result
        (λ inputs. (nest : Nest) → IsMatrixNest count nest → HasInputLengths nest inputs) }
{
    let arrays = matrix_cells(alloc, count)?;
    Ok(Inputs { arrays })
}
