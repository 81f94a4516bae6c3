ghost use Rattle.std.specs.Prelude.{◌≡◌, length, map, IfOk};
ghost use Rattle.sanlp.specs.Points.{points_of};
ghost use Rattle.sanlp.specs.Size.{SizeIsOk};
ghost use Rattle.source_tree.specs.Sources.{sources_of};

use crate::along::pass_along;
use crate::state::{first_reads, next_turn};
use crate::stretch::no_stretches;
use cell_rows::{Cells, narrow_statements};
use loop_walk::Walk;
use plain_data::Items;
use sanlp::{Nest, Points, Tag};
use source_tree::SourceTable;
use std::alloc::{AllocError, Global};

/// What one walk over a nest's trace finds: where its reads have their values from, and how many turns each of its
/// statements has.
#[derive(Drop)]
pub struct CountedSources {
    pub sources: SourceTable,
    pub turns: Vec<usize>,
}

/// The tag of the last writer of each read at each of its fires, or `None` where there is none: the exact table of the
/// nest (Feautrier 1991); and how many turns each statement has. It walks once over the trace, with a shadow of the memory.
/// Nothing is refused but want of memory.
pub fn sweep_counted(alloc: Global, nest: &Nest) -> Result<CountedSources, AllocError>
    requires { SizeIsOk nest.now }
    ensures sources { IfOk result (λ swept. swept.sources.of ≡ sources_of nest.now) }
    ensures turns { IfOk result
        (λ swept. swept.turns.items ≡ map length (points_of nest.now)) }
{
    let mut lists = Vec::new(alloc);
    let firsts = first_reads(alloc, nest, &mut lists)?;
    let mut turns = vec![in alloc; 0; nest.statements.len()]?;
    let narrow = narrow_statements(alloc, nest)?;
    let accesses = narrow.as_slice();
    let mut stretches = no_stretches(alloc, accesses.len())?;
    let mut cells = Cells::new(alloc, nest.arrays.as_slice())?;
    let mut walk = Walk::new(alloc, nest)?;
    while let Some(point) = walk.next(nest) {
        let process = point.statement;
        let turn = next_turn(&mut turns, process as usize);
        let statement = &accesses[process as usize];
        let at = point.at.as_slice();
        let first = firsts[process as usize];
        let tag = Tag { process, turn };
        let stretch = &mut stretches[process as usize];
        pass_along(
            alloc, statement, stretch, at, tag, first, &mut cells, &mut lists,
        )?;
    }
    Ok(CountedSources {
        sources: SourceTable {
            of: Items::from_vec(lists),
        },
        turns,
    })
}

/// The sources of `sweep_counted` alone, beside points, which it doesn't need.
pub fn sweep(alloc: Global, nest: &Nest, _points: &Points) -> Result<SourceTable, AllocError>
    requires { SizeIsOk nest.now }
    ensures { IfOk result (λ table. table.of ≡ sources_of nest.now) }
{
    let swept = sweep_counted(alloc, nest)?;
    Ok(swept.sources)
}
