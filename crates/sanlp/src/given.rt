ghost use Rattle.std.specs.Prelude.{◌≡◌, [], pos, slice_index_or};
ghost use Rattle.sanlp.specs.Access.{extents_of, given_at};
ghost use Rattle.sanlp.specs.Cells.{place_of};

use crate::cells::capped_place;
use crate::nest::{Inputs, Nest, Role};

// The extents of a declared array, or none where there is no such array.
fn declared_extents(nest: &Nest, array: u32) -> &[i64]
    ensures { result.now ≡ extents_of nest.now array }
{
    match nest.arrays.get(array as usize) {
        Some(declared) => declared.extents.as_slice(),
        None => &[],
    }
}

// The input values of an array, or none where there is no such array.
fn input_values(inputs: &Inputs, array: u32) -> &[i64]
    ensures { result.now ≡ slice_index_or inputs.now.arrays array [] }
{
    match inputs.arrays.get(array as usize) {
        Some(values) => values.as_slice(),
        None => &[],
    }
}

// The value at a cell's place in row-major order, or 0 where there are fewer values.
fn value_at_place(values: &[i64], extents: &[i64], at: &[i64]) -> i64
    ensures { result ≡ slice_index_or values.now (place_of extents.now at.now) (pos 0) }
{
    let place = capped_place(extents, at);
    if place < values.len() {
        values[place]
    } else {
        0
    }
}

/// The input value of a source's point, and 0 for the other statements.
pub fn given_value(nest: &Nest, inputs: &Inputs, role: Role, at: &[i64]) -> i64
    ensures { result ≡ given_at nest.now inputs.now role at.now }
{
    match role {
        Role::Source(array) => {
            let values = input_values(inputs, array);
            value_at_place(values, declared_extents(nest, array), at)
        }
        Role::Assign | Role::Sink(_) => 0,
    }
}
