ghost use Rattle.std.specs.Prelude.{◌≡◌, length, map, IfOk};
ghost use Rattle.sanlp.specs.Size.{SizeIsOk};
ghost use Rattle.sanlp.specs.Points.{points_of};
ghost use Rattle.source_tree.specs.Sources.{sources_of};
ghost use Rattle.channel_plan.specs.Plans.{plans_of};

use crate::read::add_channels_to;
use crate::token_marks::TokenMarks;
use channel_class::ChannelClass;
use plain_data::Items;
use reorder_slots::SlotPlan;
use sanlp::{Nest, Points};
use source_tree::SourceTable;
use std::alloc::{AllocError, Global};

/// A channel: it carries the points of one writer that are the sources of one read.
#[derive(Drop)]
pub struct ChannelPlan {
    /// The process that reads.
    pub reader: u32,
    /// The number of its read.
    pub read: u32,
    /// The process that writes.
    pub writer: u32,
    /// For each turn of the writer, whether it is a token: whether some fire of the reader names it.
    pub is_token: TokenMarks,
    /// The number of tokens.
    pub tokens: u32,
    pub class: ChannelClass,
    /// Where the reader keeps the tokens until their last use.
    pub slots: SlotPlan,
}

/// How many turns each process has.
pub fn turn_counts(alloc: Global, points: &Points) -> Result<Vec<usize>, AllocError>
    ensures { IfOk result (λ turns. turns.items ≡ map length points.now.of) }
{
    let mut turns = Vec::with_capacity(alloc, points.of.len())?;
    for vectors in points.of.as_slice() {
        turns.push(vectors.len())?;
    }
    Ok(turns)
}

/// The channels of a nest, in the order of reader, read and writer (Compaan 2000 and pn 2007 for the general form), where
/// the statements have so many turns. The table is the exact one. It takes near the time of the table's entries and of the
/// turns that it marks. Nothing is refused but want of memory.
pub fn channel_plans(
    alloc: Global,
    nest: &Nest,
    turns: &[usize],
    sources: &SourceTable,
) -> Result<Items<ChannelPlan>, AllocError>
    requires size { SizeIsOk nest.now }
    requires turns { turns.now ≡ map length (points_of nest.now) }
    requires sources { sources.now.of ≡ sources_of nest.now }
    ensures { IfOk result (λ plans. plans ≡ plans_of nest.now) }
{
    let table = sources.of.as_slice();
    let mut plans = Vec::new(alloc);
    let mut first = 0;
    for (reader, statement) in nest.statements.as_slice().iter().enumerate() {
        let next = first + statement.reads.len();
        add_channels_to(alloc, turns, reader as u32, &table[first..next], &mut plans)?;
        first = next;
    }
    Ok(Items::from_vec(plans))
}
