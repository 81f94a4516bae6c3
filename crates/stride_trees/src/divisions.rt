ghost use Rattle.std.specs.Prelude.{◌≡◌, ◌≤◌, ◌<◌, ◌+◌, ◌-ℤ◌, ◌^◌, [], ◌∷◌, ◌++◌, unsigned_abs, length, All, IfOk, OnOk};
ghost use Rattle.std.specs.Option.{option_map_or};
ghost use Rattle.tree_sums.specs.Parts.{IsWithin};
ghost use Rattle.tree_cuts.specs.Class.{stride_of as stride_of_form};
ghost use Rattle.stride_trees.specs.Divisions.{division_of, divisions_from};

use affine_core::Form;
use plain_data::Items;
use std::alloc::{AllocError, Global};
use tree_cuts::small_stride;
use tree_graphs::negative;

/// The test whether a write's subscript `c v + d` can be that of a read: the divisor is the size of c, and the form is
/// `read - d`, taken with the sign of c. `rises` says whether c is above 0.
#[derive(Drop)]
pub struct Division {
    pub subscript: u32,
    pub rises: bool,
    pub form: Form,
    pub divisor: i128,
}

/// The read's form less the write's constant.
pub fn moved(write: &Form, read: &Form) -> Form
    requires write { IsWithin (2 ^ 32) write.now }
    requires read { IsWithin (2 ^ 32) read.now }
    ensures { result ≡ record read.now { constant = read.now.constant -ℤ write.now.constant } }
{
    Form {
        constant: read.constant - write.constant,
        coefs: read.coefs.copy(),
    }
}

// The test of one subscript, whose stride is c.
fn division_by(subscript: u32, write: &Form, read: &Form, c: i128) -> Division
    requires write { IsWithin (2 ^ 32) write.now }
    requires read { IsWithin (2 ^ 32) read.now }
    requires stride { unsigned_abs c ≤ 2 ^ 32 }
    ensures { result ≡ division_of subscript write.now read.now c }
{
    let form = moved(write, read);
    if c > 0 {
        return Division {
            subscript,
            rises: true,
            form,
            divisor: c,
        };
    }
    let turned = negative(&form);
    Division {
        subscript,
        rises: false,
        form: turned,
        divisor: -c,
    }
}

// Adds the test of one subscript, if it has a stride.
fn push_division(
    divisions: &mut Items<Division>,
    write: &Form,
    read: &Form,
    number: u32,
) -> Result<(), AllocError>
    requires write { IsWithin (2 ^ 32) write.now }
    requires read { IsWithin (2 ^ 32) read.now }
    ensures { OnOk result (divisions.new ≡ divisions.old ++ option_map_or
        (λ c. division_of number write.now read.now c ∷ []) (stride_of_form write.now) []) }
{
    match small_stride(write) {
        Some(c) => divisions.push(division_by(number, write, read, c)),
        None => Ok(()),
    }
}

// Adds the tests of these subscripts, of which the first has this number.
fn push_divisions(
    divisions: &mut Items<Division>,
    writes: &[Form],
    reads: &[Form],
    number: u32,
) -> Result<(), AllocError>
    requires count { number + length writes.now < 2 ^ 32 }
    requires writes { All (IsWithin (2 ^ 32)) writes.now }
    requires reads { All (IsWithin (2 ^ 32)) reads.now }
    ensures { OnOk result
        (divisions.new ≡ divisions.old ++ divisions_from number writes.now reads.now) }
{
    let (Some((write, writes)), Some((read, reads))) = (writes.split_first(), reads.split_first())
    else {
        return Ok(());
    };
    push_division(divisions, write, read, number)?;
    push_divisions(divisions, writes, reads, number + 1)
}

/// The tests of divisibility for the subscripts of a write and a read, in order: one for each subscript of the write with a
/// coefficient outside -1 to 1.
pub fn divisions_of(
    alloc: Global,
    writes: &[Form],
    reads: &[Form],
) -> Result<Items<Division>, AllocError>
    requires few { length writes.now ≤ 6 }
    requires writes { All (IsWithin (2 ^ 32)) writes.now }
    requires reads { All (IsWithin (2 ^ 32)) reads.now }
    ensures { IfOk result (λ divisions. divisions ≡ divisions_from 0 writes.now reads.now) }
{
    let mut divisions = Items::new(alloc);
    push_divisions(&mut divisions, writes, reads, 0)?;
    Ok(divisions)
}
