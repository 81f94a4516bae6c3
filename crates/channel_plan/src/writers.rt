ghost use Rattle.std.specs.List.{All, filter, list_any, range_with_len};
ghost use Rattle.std.specs.Prelude.{◌≡◌, ◌<◌, false, length, map, slice_index_or, IfOk};
ghost use Rattle.channel_plan.specs.Reads.{AreFew, IsTurnAmong};
ghost use Rattle.channel_plan.specs.Tokens.{is_from, writers_of};

use sanlp::Tag;
use std::alloc::{AllocError, Global};

// For each process, whether some source is a turn of it.
fn marked_writers(
    alloc: Global,
    turns: &[usize],
    sources: &[Option<Tag>],
) -> Result<Vec<bool>, AllocError>
    requires { All (IsTurnAmong turns.now) sources.now }
    ensures { IfOk result (λ marks.
        marks.items ≡ map (λ w. list_any (is_from w) sources.now)
        (range_with_len 0 (length turns.now))) }
{
    let mut marks = vec![in alloc; false; turns.len()]?;
    for source in sources {
        if let Some(tag) = source {
            marks[tag.process as usize] = true;
        }
    }
    Ok(marks)
}

// The places of the marks, ascending.
fn places(alloc: Global, marks: &[bool]) -> Result<Vec<u32>, AllocError>
    requires { length marks.now < 4294967296 }
    ensures { IfOk result (λ places.
        places.items ≡ filter (λ place. slice_index_or marks.now place false)
        (range_with_len 0 (length marks.now))) }
{
    let mut places = Vec::new(alloc);
    for (place, mark) in marks.iter().enumerate() {
        if *mark {
            places.push(place as u32)?;
        }
    }
    Ok(places)
}

/// The processes of which some source is a turn, ascending.
pub(crate) fn writers_of(
    alloc: Global,
    turns: &[usize],
    sources: &[Option<Tag>],
) -> Result<Vec<u32>, AllocError>
    requires few { AreFew turns.now }
    requires among { All (IsTurnAmong turns.now) sources.now }
    ensures { IfOk result (λ writers. writers.items ≡ writers_of (length turns.now) sources.now) }
{
    let marks = marked_writers(alloc, turns, sources)?;
    places(alloc, &marks)
}
