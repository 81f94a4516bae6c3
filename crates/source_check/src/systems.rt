ghost use Rattle.std.specs.Prelude.{◌≡◌, ◌≤◌, ◌+◌, [], ◌++◌, map, IfOk};
ghost use Rattle.source_check.specs.Making.{forms_of, system_with_all, IsMadeOver};
ghost use Rattle.source_check.specs.Paths.{path_rows, quotient_rows, test_rows};
ghost use Rattle.source_check.specs.Verdict.{made_system};
ghost use Rattle.source_tree.specs.Places.{cell_rows, domain_rows, same_rows, variables};
ghost use Rattle.source_tree.specs.Rows.{Take};

use crate::make::Space;
use crate::path::Path;
use affine_core::{Form, KeptForm, Row};
use int_polyhedra::System;
use plain_data::Items;
use source_tree::Reference;
use std::alloc::{AllocError, Global};

/// The system again.
pub fn copy(alloc: Global, system: &Option<System>) -> Result<Option<System>, AllocError>
    ensures { IfOk result (λ copy. copy ≡ system.now) }
{
    let Some(system) = system else {
        return Ok(None);
    };
    let mut rows = Items::new(alloc);
    for row in system.rows.as_slice() {
        rows.push(row.copy())?;
    }
    Ok(Some(System {
        vars: system.vars,
        rows,
    }))
}

/// So many variables from this number on.
pub fn place(alloc: Global, first: u32, count: usize) -> Result<Items<Form>, AllocError>
    requires { first + count ≤ 18 }
    ensures { IfOk result (λ place. place ≡ variables first count) }
{
    let mut place = Items::new(alloc);
    for i in 0..count {
        let number = first as usize + i;
        place.push(Form::variable(alloc, number + 1, number))?;
    }
    Ok(place)
}

/// The context at the end of a path, for a reader with these domain rows.
pub fn context(path: &Path, space: &Space, reader: &[Row]) -> Result<Option<System>, AllocError>
    ensures value { IfOk result
        (λ system. system ≡ made_system space.now.vars (path_rows reader.now path.now)) }
    ensures over { IfOk result (λ system. IsMadeOver space.now.vars system) }
{
    match path {
        Path::Root => with_taken(space, no_rows(space), reader),
        Path::Test(above, form, yes) => {
            let system = context(&**above, space, reader)?;
            with_test(space, system, form, *yes)
        }
        Path::Divides(above, form, divisor, quotient, yes) => {
            let system = context(&**above, space, reader)?;
            with_quotient(space, system, form, *divisor, *quotient, *yes)
        }
    }
}

fn no_rows(space: &Space) -> Option<System>
    ensures value { result ≡ made_system space.now.vars [] }
    ensures over { IsMadeOver space.now.vars result }
{
    Some(System {
        vars: space.vars,
        rows: Items::new(space.alloc),
    })
}

// With these rows as they are.
fn with_taken(
    space: &Space,
    system: Option<System>,
    rows: &[Row],
) -> Result<Option<System>, AllocError>
    requires { IsMadeOver space.now.vars system }
    ensures { IfOk result
        (λ more. more ≡ system_with_all system (forms_of space.now.vars (map Take rows.now))) }
{
    let Some((row, rows)) = rows.split_first() else {
        return Ok(system);
    };
    let more = space.with_row(system, space.taken(row))?;
    with_taken(space, more, rows)
}

// With what a Test answered.
fn with_test(
    space: &Space,
    system: Option<System>,
    form: &KeptForm,
    yes: bool,
) -> Result<Option<System>, AllocError>
    requires { IsMadeOver space.now.vars system }
    ensures { IfOk result
        (λ more. more ≡ system_with_all system (forms_of space.now.vars (test_rows form.now yes))) }
{
    let value = space.taken(&form.get());
    if yes {
        space.with_row(system, value)
    } else {
        space.with_row(system, space.below_zero(&value))
    }
}

// With what a Divides answered, whose quotient is the variable of this number.
fn with_quotient(
    space: &Space,
    system: Option<System>,
    form: &KeptForm,
    divisor: i128,
    quotient: u32,
    yes: bool,
) -> Result<Option<System>, AllocError>
    requires { IsMadeOver space.now.vars system }
    ensures { IfOk result
        (λ more. more ≡ system_with_all system
        (forms_of space.now.vars (quotient_rows quotient form.now divisor yes))) }
{
    let value = space.taken(&form.get());
    let multiple = space.times(divisor, &space.variable(quotient));
    if yes {
        return space.with_equal(system, &value, &multiple);
    }
    let least = space.one_less(&space.minus(&value, &multiple));
    let most = space.one_less(&space.plus(&multiple, &space.constant(divisor)));
    let more = space.with_row(system, least)?;
    space.with_row(more, space.minus(&most, &value))
}

// With the rows that a point of a statement is in its domain.
fn with_domain(
    space: &Space,
    system: Option<System>,
    rows: &[Row],
    point: &[Form],
) -> Result<Option<System>, AllocError>
    requires { IsMadeOver space.now.vars system }
    ensures { IfOk result
        (λ more. more ≡ system_with_all system
        (forms_of space.now.vars (domain_rows rows.now point.now))) }
{
    let Some((row, rows)) = rows.split_first() else {
        return Ok(system);
    };
    let more = space.with_row(system, space.at_place(row, point))?;
    with_domain(space, more, rows, point)
}

// With the rows that a point writes the cell that is read.
fn with_cell(
    space: &Space,
    system: Option<System>,
    writes: &[Form],
    reads: &[Form],
    point: &[Form],
) -> Result<Option<System>, AllocError>
    requires { IsMadeOver space.now.vars system }
    ensures { IfOk result
        (λ more. more ≡ system_with_all system
        (forms_of space.now.vars (cell_rows writes.now reads.now point.now))) }
{
    let (Some((write, writes)), Some((read, reads))) = (writes.split_first(), reads.split_first())
    else {
        return Ok(system);
    };
    let more = space.with_equal(system, &space.at_place(write, point), &space.taken(read))?;
    with_cell(space, more, writes, reads, point)
}

/// With the rows that two places are equal in all loops.
pub fn with_same(
    space: &Space,
    system: Option<System>,
    first: &[Form],
    second: &[Form],
) -> Result<Option<System>, AllocError>
    requires { IsMadeOver space.now.vars system }
    ensures { IfOk result
        (λ more. more ≡ system_with_all system
        (forms_of space.now.vars (same_rows first.now second.now))) }
{
    let (Some((a, first)), Some((b, second))) = (first.split_first(), second.split_first()) else {
        return Ok(system);
    };
    let more = space.with_equal(system, &space.taken(a), &space.taken(b))?;
    with_same(space, more, first, second)
}

/// The context and the rows that a point of a writer writes the cell that is read.
pub fn write_at(
    space: &Space,
    reader: &Reference,
    path: &Path,
    writer: &Reference,
    point: &[Form],
) -> Result<Option<System>, AllocError>
    ensures value { IfOk result
        (λ system. system ≡ made_system space.now.vars
        (path_rows reader.now.statement.now.rows path.now
        ++ (domain_rows writer.now.statement.now.rows point.now
        ++ cell_rows writer.now.access.now.subscripts reader.now.access.now.subscripts
        point.now))) }
    ensures over { IfOk result (λ system. IsMadeOver space.now.vars system) }
{
    let system = context(path, space, reader.statement.rows.as_slice())?;
    let system = with_domain(space, system, writer.statement.rows.as_slice(), point)?;
    with_cell(
        space,
        system,
        writer.access.subscripts.as_slice(),
        reader.access.subscripts.as_slice(),
        point,
    )
}
