ghost use Rattle.std.specs.Prelude.{◌≡◌, ◌++◌, IfOk, OnOk};

use affine_core::Row;
use int_polyhedra::System;
use plain_data::Items;
use std::alloc::{AllocError, Global};
use tree_graphs::copied_rows;

fn push_copies(out: &mut Items<Row>, rows: &[Row]) -> Result<(), AllocError>
    ensures { OnOk result (out.new ≡ out.old ++ rows.now) }
{
    let Some((row, rows)) = rows.split_first() else {
        return Ok(());
    };
    out.push(row.copy())?;
    push_copies(out, rows)
}

/// The context with these rows behind its own.
pub fn with_facts(alloc: Global, context: &System, facts: &[Row]) -> Result<System, AllocError>
    ensures { IfOk result (λ told. told
        ≡ record { vars = context.now.vars; rows = context.now.rows ++ facts.now }) }
{
    let mut rows = copied_rows(alloc, context.rows.as_slice())?;
    push_copies(&mut rows, facts)?;
    Ok(System {
        vars: context.vars,
        rows,
    })
}
