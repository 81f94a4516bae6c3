ghost use Rattle.std.specs.Prelude.{◌≡◌, ◌<◌, ◌≤◌, ◌+◌, [], ◌∷◌, None, drop, length, slice_index, slice_index_or, slice_set, take};
ghost use Rattle.network_numbers.specs.Entries.{after_run, after_turns, sources_for, tokens_among, turns_passed, turns_wanted, wanted_after, wanted_by};
ghost use Rattle.network_numbers.specs.Links.{channels_at};
ghost use Rattle.network_numbers.specs.Queues.{empty_queue};

use crate::queues::QueueCounts;
use plain_data::Items;
use plan_numbers::PlanNumbers;
use process_derive::number_at;
use sanlp::Tag;

// How many turns of a writer a source wants: up to itself where it is a turn of this writer, and else none.
fn turns_wanted(writer: u32, source: Option<Tag>) -> usize
    ensures { result ≡ turns_wanted writer source }
{
    match source {
        Some(tag) => {
            if tag.process == writer {
                tag.turn as usize + 1
            } else {
                0
            }
        }
        None => 0,
    }
}

// How many of so many first turns of a channel's writer are tokens.
fn tokens_among(plan: &PlanNumbers, turns: usize) -> u32
    ensures { result ≡ tokens_among plan.now turns }
{
    number_at(plan.tokens_before.as_slice(), turns)
}

// The source at a place in a list, or `None` past its end.
fn source_at(sources: &[Option<Tag>], place: usize) -> Option<Tag>
    ensures { result ≡ slice_index_or sources.now place None }
{
    sources.get(place).copied().unwrap_or(None)
}

// Counts the use that a turn with this source makes of a channel, where its process reads the channel.
fn pass_use(plan: &PlanNumbers, process: u32, source: Option<Tag>, queue: &mut QueueCounts)
    ensures { queue.new
        ≡ record {
          wanted = wanted_by plan.now process (source ∷ []) queue.old.wanted;
          greatest = queue.old.greatest;
        } }
{
    if plan.reader == process {
        queue.note_use(turns_wanted(plan.writer, source));
    }
}

// Counts the uses that turns with these sources make of a channel.
fn pass_uses(plan: &PlanNumbers, sources: &[Option<Tag>], queue: &mut QueueCounts)
    ensures { queue.new
        ≡ record {
          wanted = wanted_after plan.now sources.now queue.old.wanted;
          greatest = queue.old.greatest;
        } }
{
    for source in sources {
        queue.note_use(turns_wanted(plan.writer, *source));
    }
}

// Counts so many turns of the writer of a channel, from this one on. Where it reads the channel too, it has these sources.
fn pass_ends(
    plan: &PlanNumbers,
    process: u32,
    sources: &[Option<Tag>],
    first: usize,
    count: usize,
    queue: &mut QueueCounts,
)
    requires few { first + count < 4294967296 }
    requires many { length sources.now ≤ count }
    requires writer { plan.now.writer ≡ process }
    ensures { queue.new ≡ after_turns plan.now process sources.now first count queue.old }
{
    for place in 0..count {
        pass_use(plan, process, source_at(sources, place), queue);
        let put = tokens_among(plan, first + place + 1);
        let got = tokens_among(plan, queue.wanted);
        queue.note_end(put.saturating_sub(got));
    }
}

// Counts so many turns of a process, from this one on, for a channel for whose read these are its sources there.
fn pass_turns(
    plan: &PlanNumbers,
    process: u32,
    sources: &[Option<Tag>],
    first: usize,
    count: usize,
    queue: &mut QueueCounts,
)
    requires few { first + count < 4294967296 }
    requires many { length sources.now ≤ count }
    ensures { queue.new ≡ after_turns plan.now process sources.now first count queue.old }
{
    if plan.writer == process {
        pass_ends(plan, process, sources, first, count, queue);
    } else if plan.reader == process {
        pass_uses(plan, sources, queue);
    }
}

// The number at a place, 0 past the end.
fn list_at(lists: &[usize], place: usize) -> usize
    ensures { result ≡ slice_index lists.now place }
{
    lists.get(place).copied().unwrap_or(0)
}

// The sources for the read of a channel, where the channels' reads have these numbers.
fn sources_for<'a>(
    lists: &[usize],
    table: &'a [Items<Option<Tag>>],
    channel: u32,
) -> &'a [Option<Tag>]
    ensures { result.now ≡ sources_for lists.now table.now channel }
{
    match table.get(list_at(lists, channel as usize)) {
        Some(sources) => sources.as_slice(),
        None => &[],
    }
}

// The sources at so many turns, from this one on, or at as many as there are.
fn sources_from(sources: &[Option<Tag>], first: usize, count: usize) -> &[Option<Tag>]
    ensures { result.now ≡ take count (drop first sources.now) }
{
    let start = first.min(sources.len());
    let end = start + count.min(sources.len() - start);
    &sources[start..end]
}

// Counts what so many turns of a process make of one of its channels.
#[tactic(auto, using(crate::proofs::RunQueues::channel_read))]
fn pass_channel(
    plans: &[PlanNumbers],
    lists: &[usize],
    table: &[Items<Option<Tag>>],
    process: u32,
    first: usize,
    count: usize,
    channel: u32,
    queues: &mut [QueueCounts],
)
    requires few { first + count < 4294967296 }
    requires queue { channel < length queues.old }
    requires plan { channel < length plans.now }
    ensures { queues.new
        ≡ slice_set queues.old channel
        (turns_passed plans.now lists.now table.now process first count channel
        (slice_index_or queues.old channel empty_queue)) }
{
    let sources = sources_from(sources_for(lists, table, channel), first, count);
    let queue = &mut queues[channel as usize];
    pass_turns(
        &plans[channel as usize],
        process,
        sources,
        first,
        count,
        queue,
    );
}

/// Counts so many turns of the process with these channels, from this one on, channel after channel, since none has to do with
/// another: what they use of it, and its length at the end of each turn of its writer. There is a queue for each channel.
#[tactic(auto, using(crate::proofs::RunQueues::with_channel_length))]
pub(crate) fn pass_run(
    plans: &[PlanNumbers],
    lists: &[usize],
    table: &[Items<Option<Tag>>],
    channels: &[u32],
    process: u32,
    first: usize,
    count: usize,
    queues: &mut [QueueCounts],
)
    requires few { first + count < 4294967296 }
    requires channels { channels.now ≡ channels_at plans.now process }
    requires queues { length queues.old ≡ length plans.now }
    ensures { queues.new
        ≡ after_run plans.now lists.now table.now process first count queues.old }
{
    for channel in channels {
        pass_channel(plans, lists, table, process, first, count, *channel, queues);
    }
}
