//! Capacities that are lowered.

use crate::certificates::LAST_VALUE;
use std::test::Fail;
use top_calls::{Call, INCREMENT, SOUND, expect_all};

const INCREMENT_TRIMMED: &[u8] =
    b"trim 1\nchannel 0 capacity 1 rest 1 0 0\nchannel 1 capacity 1 rest 5 2 0\nend\n";

const LAST_VALUE_TRIMMED: &[u8] = b"trim 1\n\
    channel 0 capacity 1 rest 1 0 0 0\nchannel 1 capacity 2 rest 8 6 1 0\n\
    channel 2 capacity 1 rest 11 8 1 0\nchannel 3 capacity 1 rest 11 9 3 0\n\
    end\n";

static TRIMMED: [Call; 6] = [
    (&["trim", "N=3"], INCREMENT, 0, INCREMENT_TRIMMED),
    (
        &["trim", "N=3", "--policy=down"],
        INCREMENT,
        0,
        INCREMENT_TRIMMED,
    ),
    (&["trim", "N=4"], LAST_VALUE, 0, LAST_VALUE_TRIMMED),
    (
        &["trim", "N=4", "--policy=down"],
        LAST_VALUE,
        0,
        LAST_VALUE_TRIMMED,
    ),
    (&["trim", "N=0"], INCREMENT, 0, b"trim 1\nend\n"),
    // the data part is passed over, and a size is refused
    (
        &["trim"],
        b"in x; out y[2147483647][2147483647];\n%%\nz,1\n",
        8,
        b"limit: Size 8388609\n",
    ),
];

#[test]
fn capacities_are_lowered(rt: HostRuntime) -> Result<(), Fail> {
    expect_all(&rt, SOUND, &TRIMMED)
}
