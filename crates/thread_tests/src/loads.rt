//! The matrix product of `load`.

use std::test::Fail;
use top_calls::{Call, UNREAD, expect_all};

/// Sizes and summaries, and sizes past the limits. No other command leaves its input unread.
static LOADS: [Call; 9] = [
    (
        &["load", "0"],
        b"$",
        0,
        b"points 0\nchannels 0\nevents 0\nsum 0\n",
    ),
    (
        &["load", "1"],
        b"$",
        0,
        b"points 5\nchannels 4\nevents 13\nsum 10\n",
    ),
    (
        &["load", "2"],
        b"$",
        0,
        b"points 24\nchannels 5\nevents 64\nsum 9\n",
    ),
    (
        &["load", "002", "--policy", "down"],
        b"$",
        0,
        b"points 24\nchannels 5\nevents 64\nsum 9\n",
    ),
    // the sums by another program
    (
        &["load", "100"],
        b"$",
        0,
        b"points 1040000\nchannels 5\nevents 3100000\nsum 4\n",
    ),
    (
        &["load", "101"],
        b"$",
        0,
        b"points 1071105\nchannels 5\nevents 3192913\nsum 109\n",
    ),
    (&["load", "160"], b"", 8, b"limit: Size 8388609\n"),
    (&["load", "2147483647"], b"", 8, b"limit: Size 8388609\n"),
    (&["load", "2147483648"], b"", 8, b"limit: Large 6\n"),
];

#[test]
fn loads_are_summed(rt: HostRuntime) -> Result<(), Fail> {
    expect_all(&rt, UNREAD, &LOADS)
}
