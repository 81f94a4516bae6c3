ghost use Rattle.std.specs.Option.{option_and_then};
ghost use Rattle.std.specs.Prelude.{◌≡◌, ◌<◌, ◌≤◌, ◌+◌, [], length, replicate, slice_index, slice_index_or, slice_set, vec_len, IfOk};
ghost use Rattle.process_derive.specs.Uses.{counted, use_from, CountedBefore, CountsBelow, OnlyBelow};

use crate::incoming::{Incoming, channel_from};
use plain_data::Items;
use sanlp::Tag;
use std::alloc::{AllocError, Global};

/// A use of a channel by a fire.
#[derive(Clone, Copy)]
pub(crate) struct ChannelUse {
    /// The number of the channel.
    pub channel: u32,
    /// Where its slots begin among those of the process.
    pub base: u32,
    /// The number of the use.
    pub number: u32,
}

// Use number so many of the channel from this writer to this read, if there is such a channel.
fn use_number(incoming: &[Incoming], read: u32, writer: u32, number: u32) -> Option<ChannelUse>
    ensures { result ≡ use_from incoming.now read writer number }
{
    let channel = channel_from(incoming, writer, read)?;
    Some(ChannelUse {
        channel: channel.channel,
        base: channel.base,
        number,
    })
}

// The count of a process, which is raised by one.
fn count_one(counts: &mut Items<u32>, process: usize) -> u32
    requires exists { process < length counts.old }
    requires few { slice_index counts.old process < 4294967295 }
    ensures count { result ≡ slice_index counts.old process }
    ensures raised { counts.new
        ≡ slice_set counts.old process (slice_index counts.old process + 1) }
{
    let count = counts.as_slice()[process];
    counts.set(process, count + 1);
    count
}

// What a fire uses by a read that has this source, given how often the fires before it used a token of each process.
// The use is counted.
fn next_use_of(
    incoming: &[Incoming],
    read: u32,
    source: Option<Tag>,
    counts: &mut Items<u32>,
) -> Option<ChannelUse>
    requires exists { OnlyBelow (length counts.old) source }
    requires few { CountsBelow 4294967295 counts.old source }
    ensures found { result
        ≡ option_and_then
        (λ t. use_from incoming.now read t.process (slice_index counts.old t.process)) source }
    ensures counted { counts.new ≡ counted counts.old source }
{
    match source {
        None => None,
        Some(tag) => {
            let number = count_one(counts, tag.process as usize);
            use_number(incoming, read, tag.process, number)
        }
    }
}

/// What a fire uses by a read that has this source, given by read how often the fires before it used a token of each
/// process. The use is counted.
pub(crate) fn next_use(
    incoming: &[Incoming],
    read: usize,
    source: Option<Tag>,
    counts: &mut Vec<Items<u32>>,
) -> Option<ChannelUse>
    requires read { read < vec_len counts.old }
    requires few_reads { vec_len counts.old ≤ 8 }
    requires exists { OnlyBelow (length (slice_index_or counts.old.items read [])) source }
    requires few { CountsBelow 4294967295 (slice_index_or counts.old.items read []) source }
    ensures found { let before = slice_index_or counts.old.items read [] in
        result
        ≡ option_and_then
        (λ t. use_from incoming.now read t.process (slice_index before t.process)) source }
    ensures counted { let before = slice_index_or counts.old.items read [] in
        counts.new.items ≡ slice_set counts.old.items read (counted before source) }
{
    next_use_of(incoming, read as u32, source, &mut counts[read])
}

// So many counts of 0.
fn zeros(alloc: Global, count: usize) -> Result<Items<u32>, AllocError>
    ensures { IfOk result (λ counts. counts ≡ replicate count 0) }
{
    let zeros = vec![in alloc; 0; count]?;
    Ok(Items::from_vec(zeros))
}

/// The counts before the first fire: by read none of each of so many processes.
pub(crate) fn no_counts(
    alloc: Global,
    sources: &[Items<Option<Tag>>],
    processes: usize,
) -> Result<Vec<Items<u32>>, AllocError>
    ensures { IfOk result (λ counts. CountedBefore sources.now processes 0 counts.items) }
{
    let mut counts = Vec::new(alloc);
    for _ in 0..sources.len() {
        counts.push(zeros(alloc, processes)?)?;
    }
    Ok(counts)
}
