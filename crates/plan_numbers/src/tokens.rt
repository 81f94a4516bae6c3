ghost use Rattle.std.specs.List.{All};
ghost use Rattle.std.specs.Prelude.{◌≡◌, ◌<◌, length, IfOk};
ghost use Rattle.channel_class.specs.Classes.{class_of};
ghost use Rattle.channel_plan.specs.Tokens.{tokens_among};
ghost use Rattle.plan_numbers.specs.Numbers.{order_of, tokens_before};

use channel_class::{ChannelClass, UseOrder};
use std::alloc::{AllocError, Global};

/// What one pass over the turns that are used finds.
#[derive(Drop)]
pub(crate) struct MarkedTurns {
    /// For each turn of the writer, whether it is a token.
    pub is_token: Vec<bool>,
    /// The class of the turns that are used, which is that of their tokens.
    pub class: ChannelClass,
}

// The order of uses, of which none is below the one before it, or some is.
fn order_of(never_falls: bool) -> UseOrder
    ensures { result ≡ order_of never_falls }
{
    if never_falls {
        UseOrder::InOrder
    } else {
        UseOrder::Reorder
    }
}

/// Which of so many turns are tokens, where these are used, and the class of those uses.
pub(crate) fn marked_turns(
    alloc: Global,
    turns: usize,
    used: &[u32],
) -> Result<MarkedTurns, AllocError>
    requires { All (λ turn. turn < turns) used.now }
    ensures tokens { IfOk result
        (λ marked. marked.is_token.items ≡ tokens_among turns used.now) }
    ensures class { IfOk result (λ marked. marked.class ≡ class_of used.now) }
{
    let mut is_token = vec![in alloc; false; turns]?;
    let mut last = 0;
    let mut never_falls = true;
    let mut multiplicity = false;
    for turn in used {
        never_falls &= last <= *turn;
        multiplicity |= is_token[*turn as usize];
        is_token[*turn as usize] = true;
        last = *turn;
    }
    let order = order_of(never_falls);
    Ok(MarkedTurns {
        is_token,
        class: ChannelClass {
            order,
            multiplicity,
        },
    })
}

/// For each turn, and behind the last one, how many turns before it are tokens.
pub(crate) fn tokens_before(alloc: Global, is_token: &[bool]) -> Result<Vec<u32>, AllocError>
    requires { length is_token.now < 4294967295 }
    ensures { IfOk result (λ numbers. numbers.items ≡ tokens_before is_token.now) }
{
    let mut numbers = Vec::with_capacity(alloc, is_token.len() + 1)?;
    let mut number = 0;
    for mark in is_token {
        numbers.push(number)?;
        if *mark {
            number += 1;
        }
    }
    numbers.push(number)?;
    Ok(numbers)
}
