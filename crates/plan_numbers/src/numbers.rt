ghost use Rattle.std.specs.Prelude.{◌≡◌, length, map, IfOk};
ghost use Rattle.sanlp.specs.Size.{SizeIsOk};
ghost use Rattle.sanlp.specs.Points.{points_of};
ghost use Rattle.source_tree.specs.Sources.{sources_of};
ghost use Rattle.channel_plan.specs.Plans.{plans_of};
ghost use Rattle.plan_numbers.specs.Numbers.{numbers_of};

use crate::read::add_numbers_to;
use channel_class::ChannelClass;
use plain_data::Items;
use sanlp::Nest;
use source_tree::SourceTable;
use std::alloc::{AllocError, Global};

/// The numbers of a channel: of its plan all but where its reader keeps each token.
#[derive(Drop)]
pub struct PlanNumbers {
    /// The process that reads.
    pub reader: u32,
    /// The number of its read.
    pub read: u32,
    /// The process that writes.
    pub writer: u32,
    /// For each turn of the writer, and behind the last one, how many turns before it are tokens. Where a turn is a token, this
    /// is the token's number.
    pub tokens_before: Items<u32>,
    /// The number of tokens.
    pub tokens: u32,
    pub class: ChannelClass,
    /// How many slots its reader needs.
    pub hold: u32,
}

/// The numbers of a nest's channels, in the order of reader, read and writer (Compaan 2000 and pn 2007 for the general form),
/// where the statements have so many turns. The table is the exact one. It takes near the time of the table's entries and of
/// the turns that it marks. Nothing is refused but want of memory.
pub fn numbers_of_plans(
    alloc: Global,
    nest: &Nest,
    turns: &[usize],
    sources: &SourceTable,
) -> Result<Items<PlanNumbers>, AllocError>
    requires size { SizeIsOk nest.now }
    requires turns { turns.now ≡ map length (points_of nest.now) }
    requires sources { sources.now.of ≡ sources_of nest.now }
    ensures { IfOk result (λ numbers. numbers ≡ map numbers_of (plans_of nest.now)) }
{
    let table = sources.of.as_slice();
    let mut numbers = Vec::new(alloc);
    let mut first = 0;
    for (reader, statement) in nest.statements.as_slice().iter().enumerate() {
        let next = first + statement.reads.len();
        add_numbers_to(
            alloc,
            turns,
            reader as u32,
            &table[first..next],
            &mut numbers,
        )?;
        first = next;
    }
    Ok(Items::from_vec(numbers))
}
