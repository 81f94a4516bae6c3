ghost use Rattle.std.specs.Prelude.{◌≡◌, ◌<◌, [], length, replicate, vec_len, IfOk, OnOk};
ghost use Rattle.sanlp.specs.Points.{points_of};
ghost use Rattle.sanlp.specs.Size.{SizeIsOk};
ghost use Rattle.loop_walk.specs.PointLists.{with_point};

use crate::walk::Walk;
use affine_core::Vector;
use plain_data::Items;
use sanlp::{Nest, Point, Points};
use std::alloc::{AllocError, Global};

// So many empty lists.
fn empty_lists(alloc: Global, count: usize) -> Result<Vec<Items<Vector>>, AllocError>
    ensures { IfOk result (λ lists. lists.items ≡ replicate count []) }
{
    let mut lists = Vec::new(alloc);
    for _ in 0..count {
        lists.push(Items::new(alloc))?;
    }
    Ok(lists)
}

// Adds a point to the list of its statement.
fn add_point(lists: &mut Vec<Items<Vector>>, point: Point) -> Result<(), AllocError>
    requires { point.statement < vec_len lists.old }
    ensures { OnOk result (lists.new.items ≡ with_point lists.old.items point) }
{
    let Point { statement, at } = point;
    lists[statement as usize].push(at)
}

/// The points of each statement, in the order of the trace.
pub fn points(alloc: Global, nest: &Nest) -> Result<Points, AllocError>
    requires { SizeIsOk nest.now }
    ensures { IfOk result (λ points. points.of ≡ points_of nest.now) }
{
    let mut lists = empty_lists(alloc, nest.statements.len())?;
    let mut walk = Walk::new(alloc, nest)?;
    while let Some(point) = walk.next(nest) {
        add_point(&mut lists, point)?;
    }
    Ok(Points {
        of: Items::from_vec(lists),
    })
}
