//! Runs by `trace`.

use crate::certificates::{THRICE, expect_checked};
use std::process::Abort;
use std::sync::Wait;
use std::test::Fail;
use std::thread::Threads;
use top_calls::{Call, INCREMENT, SOUND, UNREAD, expect, expect_all, written_by};

/// The trace of the increment with N=1, which has one run.
const ONCE: &[u8] = b"trace 1\n0\n0\n1\n1\n1\n2\n2\nend\n";

/// The trace of a network without events.
const NOTHING: &[u8] = b"trace 1\nend\n";

// The lines of a trace between its first and its last.
fn entries_of(text: &[u8]) -> Option<&[u8]> {
    text.strip_prefix(b"trace 1\n".as_slice())?
        .strip_suffix(b"end\n".as_slice())
}

// What stands before the schedule of a certificate with this many lines of it, and `end`.
fn front_of(text: &[u8], entries: usize) -> Option<&[u8]> {
    let front = text.strip_suffix(b"end\n".as_slice())?;
    let length = front.len().checked_sub(entries)?;
    front.get(..length)
}

/// Expects of a trace of the increment with N=3 that it stands as the schedule of the certificate that `cert` writes, whose 21
/// entries have a digit each.
fn expect_schedule(
    rt: &(impl Abort + AllocGlobal + Threads + Wait + Sync),
    trace: &[u8],
) -> Result<(), Fail> {
    let (Some(entries), Some(front)) = (entries_of(trace), front_of(THRICE, 42)) else {
        return Err(Fail::new("another text"));
    };
    assert!(rt; entries.len() == 42);
    let parts = [INCREMENT, b"\n%%\n%%\n", front, entries, b"end\n"];
    expect_checked(rt, &["N=3"], &parts, b"accepted\n")
}

static TRACES: [Call; 5] = [
    (&["trace", "N=1", "--policy=seq"], INCREMENT, 0, ONCE),
    (&["trace", "N=1", "--policy=down"], INCREMENT, 0, ONCE),
    (&["trace", "N=0", "--policy=seq"], INCREMENT, 0, NOTHING),
    (&["trace", "N=0", "--policy=down"], INCREMENT, 0, NOTHING),
    // the data part is passed over
    (
        &["trace"],
        b"out y[2147483648];\n%%\nz,1\n",
        8,
        b"limit: Large 6\n",
    ),
];

#[test]
fn traces_are_runs(rt: HostRuntime) -> Result<(), Fail> {
    expect_all(&rt, SOUND, &TRACES)?;
    expect(&rt, UNREAD, &["trace"], b"$", 3, b"", b"")?;
    let written = written_by(&rt, "trace", &["N=3"], INCREMENT, 1_000)?;
    let checked = expect_schedule(&rt, written.output.held());
    drop(written);
    checked
}
