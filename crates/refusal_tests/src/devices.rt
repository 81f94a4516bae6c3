//! Devices that fail.

use std::process::Abort;
use std::sync::Wait;
use std::test::Fail;
use std::thread::Threads;
use top_calls::{Devices, INCREMENT, INCREMENT_NETWORK, SOUND, end_of, expect};

const SUMS: &[u8] = b"param N; out y[N]; var s; for (i = 0; i < N; i++) { s = s + i; y[i] = s; }";

const INCREMENTS: &[u8] =
    b"param N; in x[N]; out y[N]; for (i = 0; i < N; i++) y[i] = x[i] + 1;\n%%\nx,5,6,7\n";

const SQUARES: &[u8] = b"param N; in a[N]; out y[N]; for (i = 0; i < N; i++) y[i] = a[i*i];";

const FAILING_READ: Devices = Devices {
    piece: 16,
    failing: 1,
    ..SOUND
};

const SMALL_PIECES: Devices = Devices { piece: 1, ..SOUND };

const NO_OUTPUT: Devices = Devices {
    output_room: 0,
    ..SOUND
};

const SOME_OUTPUT: Devices = Devices {
    output_room: 5,
    ..SOUND
};

const SOME_COMPLAINT: Devices = Devices {
    complaint_room: 7,
    ..SOUND
};

const NO_COMPLAINT: Devices = Devices {
    complaint_room: 0,
    ..SOUND
};

/// Devices, words and bundles, the status, and what the two sinks then hold.
static FAULTS: [(Devices, &[&str], &[u8], u8, &[u8], &[u8]); 9] = [
    (FAILING_READ, &["run", "N=4"], SUMS, 3, b"", b""),
    (SMALL_PIECES, &["run", "N=4"], SUMS, 0, b"y,0,1,3,6\n", b""),
    (NO_OUTPUT, &["run", "N=4"], SUMS, 4, b"", b""),
    (SOME_OUTPUT, &["run", "N=4"], SUMS, 4, b"y,0,1", b""),
    (FAILING_READ, &["run", "N=3"], INCREMENTS, 3, b"", b""),
    (NO_OUTPUT, &["run", "N=3"], INCREMENTS, 4, b"", b""),
    (SOME_COMPLAINT, &["run"], b"$", 4, b"", b"text: B"),
    (SOME_COMPLAINT, &[], b"", 4, b"", b"usage: "),
    (NO_COMPLAINT, &["run", "N=2"], SQUARES, 4, b"", b""),
];

#[test]
fn faults_of_devices_are_told(rt: HostRuntime) -> Result<(), Fail> {
    for (devices, words, bundle, status, output, complaint) in &FAULTS {
        expect(&rt, *devices, words, bundle, *status, output, complaint)?;
    }
    Ok(())
}

// Whether the increments meet the failure of this read. Where they do they tell it, and else they give their answer.
fn meet_read(
    rt: &(impl Abort + AllocGlobal + Threads + Wait + Sync),
    failing: u32,
) -> Result<bool, Fail> {
    let devices = Devices {
        piece: 16,
        failing,
        ..SOUND
    };
    let end = end_of(rt, devices, &["run"], &["N=3"], INCREMENTS)?;
    let meets = end.is(3, b"", b"");
    let passes = end.is(0, b"y,6,7,8\n", b"");
    drop(end);
    assert!(rt; meets || passes, "read {failing}");
    Ok(meets)
}

#[test]
fn a_failed_read_is_told_wherever_it_comes(rt: HostRuntime) -> Result<(), Fail> {
    for failing in 0..1_000 {
        if !meet_read(&rt, failing)? {
            // each piece was to be read, and then the end
            assert!(rt; failing as usize > INCREMENTS.len() / 16);
            return Ok(());
        }
    }
    Err(Fail::new("each run met the failing read"))
}

// Whether the text of a network meets the failure of this write. Where it does its front is written, and else the whole.
fn meets_write(
    rt: &(impl Abort + AllocGlobal + Threads + Wait + Sync),
    output_failing: u32,
) -> Result<bool, Fail> {
    let devices = Devices {
        output_piece: 7,
        output_failing,
        ..SOUND
    };
    let end = end_of(rt, devices, &["net"], &["N=3"], INCREMENT)?;
    let held = end.output.held();
    let most = (output_failing as usize).saturating_mul(7);
    let is_front = INCREMENT_NETWORK.starts_with(held) && held.len() <= most;
    let meets = is_front && end.is(4, held, b"");
    let passes = end.is(0, INCREMENT_NETWORK, b"");
    drop(end);
    assert!(rt; meets || passes, "write {output_failing}");
    Ok(meets)
}

#[test]
fn a_failed_write_leaves_a_front_of_the_text(rt: HostRuntime) -> Result<(), Fail> {
    for output_failing in 0..1_000 {
        if !meets_write(&rt, output_failing)? {
            return Ok(());
        }
    }
    Err(Fail::new("each run met the failing write"))
}
