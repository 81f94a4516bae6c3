ghost use Rattle.std.specs.Prelude.{◌≡◌, IfOk};

use affine_core::Row;
use int_polyhedra::System;
use plain_data::Items;
use std::alloc::{AllocError, Global};

/// Copies of the rows.
pub fn copied_rows(alloc: Global, rows: &[Row]) -> Result<Items<Row>, AllocError>
    ensures { IfOk result (λ copies. copies ≡ rows.now) }
{
    let mut copies = Items::new(alloc);
    for row in rows {
        copies.push(row.copy())?;
    }
    Ok(copies)
}

/// The system of these rows over so many variables.
pub fn system_of(alloc: Global, vars: u32, rows: &[Row]) -> Result<System, AllocError>
    ensures { IfOk result (λ system. system ≡ record { vars = vars; rows = rows.now }) }
{
    let rows = copied_rows(alloc, rows)?;
    Ok(System { vars, rows })
}
