//! Tests of `channel_plan`: the channels of a nest, with the turns of the writers that are tokens, and their classes.

ghost use Rattle.sanlp.specs.Size.{SizeIsOk};

use crate::bound::nest_of;
use channel_class::{ChannelClass, UseOrder};
use channel_plan::{ChannelPlan, channel_plans};
use sanlp::Nest;
use shadow_sweep::sweep_counted;
use std::alloc::{AllocError, Global};
use std::test::Fail;

const IN_ORDER: ChannelClass = ChannelClass {
    order: UseOrder::InOrder,
    multiplicity: false,
};

const REORDERED: ChannelClass = ChannelClass {
    order: UseOrder::Reorder,
    multiplicity: false,
};

const REORDERED_AND_REPEATED: ChannelClass = ChannelClass {
    order: UseOrder::Reorder,
    multiplicity: true,
};

/// A channel: its reader, read and writer, whether each turn of the writer is a token, and its class.
type Carried = (u32, u32, u32, &'static [bool], ChannelClass);

/// Sources with their channels.
static CHANNELS: [(&[u8], &[Carried]); 4] = [
    // transpose
    (
        b"in a[2][2]; out b[2][2]; for (j = 0; j < 2; j++) for (i = 0; i < 2; i++) b[j][i] = a[i][j];",
        &[
            (1, 0, 0, &[true, true, true, true], REORDERED),
            (2, 0, 1, &[true, true, true, true], IN_ORDER),
        ],
    ),
    // reversed_rows
    (
        b"in x[3]; out b[2][3]; for (i = 0; i < 2; i++) for (j = 0; j < 3; j++) b[i][j] = x[2-j];",
        &[
            (1, 0, 0, &[true, true, true], REORDERED_AND_REPEATED),
            (2, 0, 1, &[true, true, true, true, true, true], IN_ORDER),
        ],
    ),
    // last_value
    (
        b"out y[3]; var t; for (i = 0; i < 3; i++) { y[i] = t; t = i; t = t + 10; }",
        &[
            (0, 0, 2, &[true, true, false], IN_ORDER),
            (2, 0, 1, &[true, true, true], IN_ORDER),
            (3, 0, 0, &[true, true, true], IN_ORDER),
        ],
    ),
    // two_writers
    (
        b"in x[3]; out y[3]; var a[3]; for (i = 0; i < 3; i++) { if (i < 2) { a[i] = x[i]; } else { a[i] = 0 - x[i]; } } for (i = 0; i < 3; i++) y[i] = a[i];",
        &[
            (1, 0, 0, &[true, true, false], IN_ORDER),
            (2, 0, 0, &[false, false, true], IN_ORDER),
            (3, 0, 1, &[true, true], IN_ORDER),
            (3, 0, 2, &[true], IN_ORDER),
            (4, 0, 3, &[true, true, true], IN_ORDER),
        ],
    ),
];

// Whether the turns of the writer that are tokens are these.
fn has_tokens(plan: &ChannelPlan, is_token: &[bool]) -> bool {
    for (turn, token) in is_token.iter().enumerate() {
        if plan.is_token.has(turn) != *token {
            return false;
        }
    }
    !plan.is_token.has(is_token.len())
}

fn is_channel(plan: &ChannelPlan, wanted: Carried) -> bool {
    let (reader, read, writer, is_token, class) = wanted;
    plan.reader == reader
        && plan.read == read
        && plan.writer == writer
        && has_tokens(plan, is_token)
        && plan.tokens as usize == is_token.iter().filter(|token| **token).count()
        && plan.class == class
}

fn are_channels(plans: &[ChannelPlan], wanted: &[Carried]) -> bool {
    plans.len() == wanted.len()
        && plans
            .iter()
            .zip(wanted)
            .all(|(plan, channel)| is_channel(plan, *channel))
}

// Whether a nest has these channels.
fn has_channels(alloc: Global, nest: &Nest, wanted: &[Carried]) -> Result<bool, AllocError>
    requires { SizeIsOk nest.now }
{
    let swept = sweep_counted(alloc, nest)?;
    let plans = channel_plans(alloc, nest, &swept.turns, &swept.sources);
    drop(swept);
    Ok(are_channels(plans?.as_slice(), wanted))
}

#[test]
fn channels_carry_what_is_read(rt: HostRuntime) -> Result<(), Fail> {
    for (source, wanted) in &CHANNELS {
        let nest = nest_of(rt.alloc(), *source, 0)?;
        let is_right = has_channels(rt.alloc(), &nest, *wanted);
        drop(nest);
        assert!(rt; is_right?);
    }
    Ok(())
}
