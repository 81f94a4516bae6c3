ghost use Rattle.std.specs.Prelude.{◌≡◌, ◌+◌, ◌++◌, IfOk, OnOk, length};
ghost use Rattle.loop_bind.specs.Declarations.{declared, declare, declare_name, declare_parameter, declare_array, processes_of, own_findings, extents_of};
ghost use Rattle.loop_bind.specs.Following.{Declares, Stands, seen};
ghost use Rattle.loop_bind.specs.Judging.{findings_of};
ghost use Rattle.loop_bind.specs.Reasons.{least_from};

use crate::affine::is_small;
use crate::error::{BindError, note};
use crate::judge::form_or_zero;
use crate::params::Params;
use crate::parts::note_new_name;
use crate::scope::{Place, Scope, What};
use loop_grammar::{DeclWord, Declaration, Name, Named, Operand};
use plain_data::Items;
use sanlp::{ArrayDecl, Kind};
use std::alloc::{AllocError, Global};

/// What has been declared: the names in scope, the arrays, how many processes they are, and the
/// least reason that was found.
#[derive(Drop)]
pub struct Table {
    pub scope: Scope,
    pub arrays: Items<ArrayDecl>,
    pub processes: u32,
    pub least: Option<BindError>,
}

fn declare_parameter(
    alloc: Global,
    params: &Params,
    name: &Name,
    table: &mut Table,
) -> Result<(), AllocError>
    ensures { OnOk result (Declares table.old table.new
        (declare_parameter params.now (seen table.old) name.now)) }
{
    note_new_name(&table.scope, name, &mut table.least);
    let value = params.get(name.text.as_slice());
    match value {
        None => note(&mut table.least, BindError::Unbound(name.token)),
        Some(value) => {
            if !is_small(value) {
                note(&mut table.least, BindError::Large(name.token));
            }
        }
    }
    let what = What::Parameter(value.unwrap_or(0));
    table.scope.add(alloc, name.text.as_slice(), what)?;
    Ok(())
}

// How many processes an array of this kind is.
fn processes(kind: Kind) -> u32
    ensures { result ≡ processes_of kind }
{
    match kind {
        Kind::Input => 1,
        Kind::Output => 1,
        Kind::Both => 2,
        Kind::Var => 0,
    }
}

// The extents of an array. Each reason that stands in them is noted.
fn extents(
    alloc: Global,
    scope: &Scope,
    operands: &[Operand],
    least: &mut Option<BindError>,
) -> Result<Items<i64>, AllocError>
    ensures extents { IfOk result (λ extents. extents ≡ extents_of scope.now operands.now) }
    ensures least { OnOk result (least.new ≡ least_from least.old
        (findings_of Place.Extent scope.now operands.now)) }
{
    let mut extents = Items::new(alloc);
    for operand in operands {
        let form = form_or_zero(scope, Place::Extent, operand, least);
        extents.push(form.constant)?;
    }
    Ok(extents)
}

// Notes what is wrong with an array besides its extents, where so many processes were counted
// before it and with it.
fn note_array(scope: &Scope, before: u32, after: u32, array: &Named, least: &mut Option<BindError>)
    ensures { least.new ≡ least_from least.old (own_findings scope.now before after array.now) }
{
    note_new_name(scope, &array.name, least);
    if before <= 64 && after > 64 {
        note(least, BindError::TooManyProcesses(array.name.token));
    }
    if array.extents.len() > 6 {
        note(least, BindError::TooDeep(array.name.token));
    }
}

// An array as it is declared. Each reason that stands in its extents is noted.
fn array_decl(
    alloc: Global,
    kind: Kind,
    array: &Named,
    scope: &Scope,
    least: &mut Option<BindError>,
) -> Result<ArrayDecl, AllocError>
    ensures decl { IfOk result (λ decl. decl ≡ record {
      name = array.now.name.text;
      kind = kind;
      extents = extents_of scope.now array.now.extents;
    }) }
    ensures least { OnOk result (least.new ≡ least_from least.old
        (findings_of Place.Extent scope.now array.now.extents)) }
{
    let name = Items::from_slice(alloc, array.name.text.as_slice())?;
    let Ok(extents) = extents(alloc, scope, array.extents.as_slice(), least) else {
        drop(name);
        return Err(AllocError);
    };
    Ok(ArrayDecl {
        name,
        kind,
        extents,
    })
}

fn declare_array(
    alloc: Global,
    kind: Kind,
    array: &Named,
    table: &mut Table,
) -> Result<(), AllocError>
    ensures { OnOk result (Declares table.old table.new
        (declare_array kind (seen table.old) array.now)) }
{
    let before = table.processes;
    let after = before.checked_add(processes(kind)).ok_or(AllocError)?;
    note_array(&table.scope, before, after, array, &mut table.least);
    let number = u32::try_from(table.arrays.len()).or(Err(AllocError))?;
    let decl = array_decl(alloc, kind, array, &table.scope, &mut table.least)?;
    let what = What::Array(number, array.extents.len());
    let Ok(_) = table.scope.add(alloc, array.name.text.as_slice(), what) else {
        drop(decl);
        return Err(AllocError);
    };
    table.arrays.push(decl)?;
    table.processes = after;
    Ok(())
}

fn declare_name(
    alloc: Global,
    params: &Params,
    word: DeclWord,
    named: &Named,
    table: &mut Table,
) -> Result<(), AllocError>
    ensures { OnOk result (Declares table.old table.new
        (declare_name params.now word (seen table.old) named.now)) }
{
    match word {
        DeclWord::Param => declare_parameter(alloc, params, &named.name, table),
        DeclWord::Input => declare_array(alloc, Kind::Input, named, table),
        DeclWord::Output => declare_array(alloc, Kind::Output, named, table),
        DeclWord::Both => declare_array(alloc, Kind::Both, named, table),
        DeclWord::Var => declare_array(alloc, Kind::Var, named, table),
    }
}

fn declare_names(
    alloc: Global,
    params: &Params,
    declaration: &Declaration,
    table: &mut Table,
) -> Result<(), AllocError>
    ensures { OnOk result (Declares table.old table.new
        (declare params.now (seen table.old) declaration.now)) }
{
    for named in declaration.names.as_slice() {
        declare_name(alloc, params, declaration.word, named, table)?;
    }
    Ok(())
}

/// What these declarations declare, with values for the parameters.
pub(crate) fn declare_all(
    alloc: Global,
    params: &Params,
    declarations: &[Declaration],
) -> Result<Table, AllocError>
    ensures { IfOk result (λ table. Stands table (declared params.now declarations.now)) }
{
    let mut table = Table {
        scope: Scope::new(alloc),
        arrays: Items::new(alloc),
        processes: 0,
        least: None,
    };
    for declaration in declarations {
        declare_names(alloc, params, declaration, &mut table)?;
    }
    Ok(table)
}
