ghost use Rattle.std.specs.Prelude.{IfOk};
ghost use Rattle.deps_text.specs.FireLines.{IsSweptOf};
ghost use Rattle.sanlp.specs.Size.{SizeIsOk};

use loop_walk::points;
use sanlp::{Nest, Points};
use shadow_sweep::sweep;
use source_tree::SourceTable;
use std::alloc::{AllocError, Global};

/// The points of a nest, and the tag of the last writer of each read at each of them.
#[derive(Drop)]
pub struct Swept {
    pub points: Points,
    pub table: SourceTable,
}

/// The points of the nest and its exact table, which walks over the trace. Nothing is refused but want of memory.
pub fn sweep_nest(alloc: Global, nest: &Nest) -> Result<Swept, AllocError>
    requires { SizeIsOk nest.now }
    ensures { IfOk result (IsSweptOf nest.now) }
{
    let points = points(alloc, nest)?;
    let table = sweep(alloc, nest, &points)?;
    Ok(Swept { points, table })
}
