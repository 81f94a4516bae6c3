ghost use Rattle.std.specs.Prelude.{◌≡◌, ◌≤◌, length, map, true, IfOk, IsTrue};
ghost use Rattle.std.specs.List.{list_all};
ghost use Rattle.std.specs.Option.{option_map_or};
ghost use Rattle.affine_core.specs.Affine.{form_at};
ghost use Rattle.sanlp.specs.Access.{cell_at};
ghost use Rattle.cell_rows.specs.ShortAccesses.{access_short};
ghost use Rattle.cell_rows.specs.Narrow.{narrowed};
ghost use Rattle.cell_rows.specs.RowPlaces.{place_from};
ghost use Rattle.cell_rows.specs.SmallValues.{are_small_values};

use crate::narrow_form::NarrowForm;
use crate::places::{small_place, wide_place};
use affine_core::Subscripts;
use plain_data::Items;
use sanlp::{Access, Nest, Statement};
use std::alloc::{AllocError, Global};
use std::marker::Model;

/// An access whose forms have their numbers in 64 bits.
#[derive(Drop)]
pub struct NarrowAccess {
    array: u32,
    subscripts: Items<NarrowForm>,
}

impl Model for NarrowAccess {
    ghost use Rattle.sanlp.specs.declared.nest.Access.{Access};

    ghost Value = { Access };

    ghost view = { λ access. record { array = access.array; subscripts = access.subscripts } };
}

impl NarrowAccess {
    /// The same access.
    pub fn new(alloc: Global, access: &Access, depth: usize) -> Result<NarrowAccess, AllocError>
        requires shallow { depth ≤ 6 }
        requires fits { IsTrue (access_short depth access.now) }
        ensures { IfOk result (λ narrow. narrow ≡ access.now) }
    {
        let mut subscripts = Items::new(alloc);
        for form in access.subscripts.as_slice() {
            subscripts.push(NarrowForm::new(form))?;
        }
        Ok(NarrowAccess {
            array: access.array,
            subscripts,
        })
    }

    /// The number of the array.
    pub fn array(&self) -> usize
        ensures { result ≡ self.now.array }
    {
        self.array as usize
    }

    /// The place of the cell in the rows of an array with these extents: its place in row-major order, if its subscripts
    /// are within the extents and the place within the limit. It may be known that the loop values are small.
    pub fn place(&self, extents: &[i64], at: &[i64], small: bool) -> Option<usize>
        requires fits { IsTrue (access_short (length at.now) self.now) }
        requires small { small ≡ true → IsTrue (are_small_values at.now) }
        ensures { result
            ≡ place_from 0 extents.now (map (λ form. form_at form at.now) self.now.subscripts) }
    {
        let forms = self.subscripts.as_slice();
        if extents.len() != forms.len() {
            None
        } else if small {
            small_place(extents, forms, at)
        } else {
            wide_place(extents, forms, at)
        }
    }

    /// The cell.
    pub fn cell(&self, alloc: Global, at: &[i64]) -> (usize, Subscripts)
        requires { IsTrue (access_short (length at.now) self.now) }
        ensures { result ≡ cell_at at.now self.now }
    {
        let mut subscripts = Subscripts::empty(alloc);
        for form in self.subscripts.as_slice() {
            subscripts.push(form.value(at));
        }
        (self.array as usize, subscripts)
    }
}

/// What a statement writes and reads.
#[derive(Drop)]
pub struct NarrowStatement {
    pub write: Option<NarrowAccess>,
    pub reads: Items<NarrowAccess>,
}

// What a statement of a nest writes and reads.
fn narrow_statement(
    alloc: Global,
    statement: &Statement,
    depth: usize,
) -> Result<NarrowStatement, AllocError>
    requires shallow { depth ≤ 6 }
    requires write { IsTrue (option_map_or (access_short depth) statement.now.write true) }
    requires reads { IsTrue (list_all (access_short depth) statement.now.reads) }
    ensures { IfOk result (λ narrow. narrow ≡ narrowed statement.now) }
{
    let mut reads = Items::new(alloc);
    for access in statement.reads.as_slice() {
        reads.push(NarrowAccess::new(alloc, access, depth)?)?;
    }
    let write = match &statement.write {
        Some(access) => Some(NarrowAccess::new(alloc, access, depth)?),
        None => None,
    };
    Ok(NarrowStatement { write, reads })
}

/// What the statements of a nest write and read.
pub fn narrow_statements(alloc: Global, nest: &Nest) -> Result<Items<NarrowStatement>, AllocError>
    ensures { IfOk result (λ narrow. narrow ≡ map narrowed nest.now.statements) }
{
    let mut narrow = Items::new(alloc);
    for statement in nest.statements.as_slice() {
        let depth = statement.loops.len();
        narrow.push(narrow_statement(alloc, statement, depth)?)?;
    }
    Ok(narrow)
}
