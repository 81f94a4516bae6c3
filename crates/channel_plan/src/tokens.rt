ghost use Rattle.std.specs.List.{All, range_with_len};
ghost use Rattle.std.specs.Prelude.{◌≡◌, ◌<◌, length, map, take, count_by, IfOk};
ghost use Rattle.channel_plan.specs.Tokens.{tokens_among, turn_of, turns_used};

use sanlp::Tag;
use std::alloc::{AllocError, Global};

// The turn of a process that a source is, or `None` where it is none.
fn turn_of(writer: u32, source: &Option<Tag>) -> Option<u32>
    ensures { result ≡ turn_of writer source.now }
{
    match source {
        Some(tag) => {
            if tag.process == writer {
                Some(tag.turn)
            } else {
                None
            }
        }
        None => None,
    }
}

/// The turns of a process among the sources of a read, in their order.
pub(crate) fn turns_used(
    alloc: Global,
    writer: u32,
    sources: &[Option<Tag>],
) -> Result<Vec<u32>, AllocError>
    ensures { IfOk result (λ used. used.items ≡ turns_used writer sources.now) }
{
    let mut used = Vec::with_capacity(alloc, sources.len())?;
    for source in sources {
        if let Some(turn) = turn_of(writer, source) {
            used.push(turn)?;
        }
    }
    Ok(used)
}

/// For each of so many turns of the writer, whether it is a token: whether it is among those that are used.
pub(crate) fn tokens_among(
    alloc: Global,
    turns: usize,
    used: &[u32],
) -> Result<Vec<bool>, AllocError>
    requires { All (λ turn. turn < turns) used.now }
    ensures { IfOk result (λ marks. marks.items ≡ tokens_among turns used.now) }
{
    let mut marks = vec![in alloc; false; turns]?;
    for turn in used {
        marks[*turn as usize] = true;
    }
    Ok(marks)
}

/// How many turns are tokens.
pub(crate) fn token_count(is_token: &[bool]) -> u32
    requires { length is_token.now < 4294967296 }
    ensures { result ≡ count_by (λ mark. mark) is_token.now }
{
    let mut count = 0;
    for mark in is_token {
        if *mark {
            count += 1;
        }
    }
    count
}

// For each turn, how many turns before it are tokens.
fn token_numbers(alloc: Global, is_token: &[bool]) -> Result<Vec<u32>, AllocError>
    requires { length is_token.now < 4294967296 }
    ensures { IfOk result (λ numbers.
        numbers.items ≡ map (λ turn. count_by (λ mark. mark) (take turn is_token.now))
        (range_with_len 0 (length is_token.now))) }
{
    let mut numbers = Vec::with_capacity(alloc, is_token.len())?;
    let mut number = 0;
    for mark in is_token {
        numbers.push(number)?;
        if *mark {
            number += 1;
        }
    }
    Ok(numbers)
}

/// For each turn that is used, the number of its token: how many turns before it are tokens.
pub(crate) fn uses_of(
    alloc: Global,
    used: Vec<u32>,
    is_token: &[bool],
) -> Result<Vec<u32>, AllocError>
    requires few { length is_token.now < 4294967296 }
    requires within { All (λ turn. turn < length is_token.now) used.items }
    ensures { IfOk result
        (λ uses. uses.items
        ≡ map (λ turn. count_by (λ mark. mark) (take turn is_token.now)) used.items) }
{
    let numbers = token_numbers(alloc, is_token)?;
    let mut uses = Vec::with_capacity(alloc, used.len())?;
    for turn in &used {
        uses.push(numbers[*turn as usize])?;
    }
    Ok(uses)
}
