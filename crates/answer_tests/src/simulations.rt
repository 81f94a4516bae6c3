//! Answers and clocks by `sim`.

use crate::kernels::KERNELS;
use std::process::Abort;
use std::sync::Wait;
use std::test::Fail;
use std::thread::Threads;
use top_calls::{Call, Devices, SOUND, UNREAD, USAGE, end_of, expect, expect_all};

static SIMULATIONS: [Call; 5] = [
    (
        &["sim", "N=1"],
        b"param N; in x[N]; out y[N]; for (i = 0; i < N; i++) y[i] = x[i] + 1;\n%%\nx,5\n",
        0,
        b"y,6\nclocks 7\n",
    ),
    // 21 events, up to three at a clock
    (
        &["sim", "N=3"],
        b"param N; in x[N]; out y[N]; for (i = 0; i < N; i++) y[i] = x[i] + 1;\n%%\nx,5,6,7",
        0,
        b"y,6,7,8\nclocks 13\n",
    ),
    (
        &["--policy=down", "sim", "--", "N=3"],
        b"param N; in x[N]; out y[N]; for (i = 0; i < N; i++) y[i] = x[i] + 1;\n%%\nx,5,6,7\n",
        0,
        b"y,6,7,8\nclocks 13\n",
    ),
    (
        &["sim", "N=0"],
        b"param N; in x[N]; out y[N]; for (i = 0; i < N; i++) y[i] = x[i] + 1;\n%%\nx\n",
        0,
        b"y\nclocks 0\n",
    ),
    // a third part is passed over
    (
        &["sim", "N=0"],
        b"param N; in x[N]; out y[N]; for (i = 0; i < N; i++) y[i] = x[i] + 1;\n%%\nx\n%%\ncert 3\n",
        0,
        b"y\nclocks 0\n",
    ),
];

/// For each kernel what `sim` writes behind its answer, by `seq` and by `down`: the clocks that another program, GHDL, counts
/// where it simulates the network's VHDL.
static KERNEL_CLOCKS: [[&[u8]; 2]; 12] = [
    [b"clocks 228\n", b"clocks 228\n"],
    [b"clocks 72\n", b"clocks 72\n"],
    [b"clocks 44\n", b"clocks 46\n"],
    [b"clocks 78\n", b"clocks 78\n"],
    [b"clocks 47\n", b"clocks 47\n"],
    [b"clocks 101\n", b"clocks 109\n"],
    [b"clocks 168\n", b"clocks 180\n"],
    [b"clocks 195\n", b"clocks 201\n"],
    [b"clocks 549\n", b"clocks 549\n"],
    [b"clocks 78\n", b"clocks 78\n"],
    [b"clocks 59\n", b"clocks 66\n"],
    [b"clocks 87\n", b"clocks 117\n"],
];

/// Words and bundles with several faults, and the status and the line of the first of them.
static REFUSED: [Call; 9] = [
    (&["sim", "3"], b"$", 2, USAGE),
    (&["sim"], b"param ; $\n%%\nz,1\n", 6, b"text: BadByte 8\n"),
    (&["sim"], b"y = ;\n%%\nz,1\n", 6, b"text: Syntax 4\n"),
    (
        &["sim"],
        b"out y[2147483647][2147483647]; y = 1;\n%%\nz,1\n",
        7,
        b"class: WrongCount 31\n",
    ),
    (
        &["sim"],
        b"out y[2147483648];\n%%\nz,1\n",
        8,
        b"limit: Large 6\n",
    ),
    (
        &["sim"],
        b"out y[2147483647][2147483647];\n%%\nz,1\n",
        8,
        b"limit: Size 8388609\n",
    ),
    (&["sim"], b"in x; out y; y = x;", 9, b"data: Missing x\n"),
    (
        &["sim"],
        b"in x; out y; y = x;\n%%\nz,1\n",
        9,
        b"data: UnknownArray 1\n",
    ),
    (
        &["sim"],
        b"in x; out y; y = x;\n%%\nx,1,2\n%%\ncert 3\n",
        9,
        b"data: Count 1 2 1\n",
    ),
];

const SMALL_OUTPUT: Devices = Devices {
    output_room: 8,
    ..SOUND
};

#[test]
fn clocks_are_counted(rt: HostRuntime) -> Result<(), Fail> {
    expect_all(&rt, SOUND, &SIMULATIONS)?;
    expect_all(&rt, SOUND, &REFUSED)?;
    // a source that fails, and an output that takes a front of the line of clocks
    expect(&rt, UNREAD, &["sim"], b"$", 3, b"", b"")?;
    expect(&rt, SMALL_OUTPUT, &["sim"], b"out y;", 4, b"y,0\ncloc", b"")
}

/// Expects this answer of `sim` and this line behind it.
fn expect_clocks(
    rt: &(impl Abort + AllocGlobal + Threads + Wait + Sync),
    words: &[&str],
    params: &[&str],
    bundle: &[u8],
    answer: &[u8],
    line: &[u8],
) -> Result<(), Fail> {
    let end = end_of(rt, SOUND, words, params, bundle)?;
    let holds = end.status == 0
        && end.output.held().strip_prefix(answer) == Some(line)
        && end.complaint.held().is_empty();
    drop(end);
    assert!(rt; holds);
    Ok(())
}

#[test]
fn kernels_are_simulated(rt: HostRuntime) -> Result<(), Fail> {
    for ((params, bundle, answer), [seq, down]) in KERNELS.iter().zip(&KERNEL_CLOCKS) {
        expect_clocks(&rt, &["sim", "--policy=seq"], params, bundle, answer, seq)?;
        expect_clocks(&rt, &["sim", "--policy=down"], params, bundle, answer, down)?;
    }
    Ok(())
}
