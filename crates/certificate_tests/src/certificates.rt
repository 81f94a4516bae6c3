//! Certificates, by what `cert` writes and by what `check` answers.

use cert_text::read_cert;
use std::alloc::{AllocError, Global};
use std::process::Abort;
use std::sync::Wait;
use std::test::Fail;
use std::thread::Threads;
use top_calls::{Call, INCREMENT, SOUND, expect_all, expect_of, written_by};

/// Changes of a certificate: the number of a line, from 1, and what stands in its place.
type Changes<'a> = &'a [(usize, &'a [u8])];

/// Changes of a certificate, and the line that `check` answers.
pub(crate) type Change = (Changes<'static>, &'static [u8]);

const COPY: &[u8] = b"param N; in x[N]; out y[N];";

const TRANSPOSE: &[u8] =
    b"in a[2][2]; out b[2][2]; for (j = 0; j < 2; j++) for (i = 0; i < 2; i++) b[j][i] = a[i][j];";

pub(crate) const LAST_VALUE: &[u8] =
    b"param N; in a[N]; out c[N]; var b[N]; for (i = 0; i < N; i++) b[i] = a[i]; for (i = 0; i < N; i++) c[i] = a[i] + b[N-1];";

const TWO_PARAMETERS: &[u8] =
    b"param N, M; in x[N]; out y[M]; for (i = 0; i < N; i++) y[i] = x[i] + 1;";

/// The certificate of the increment with N=1, under either policy.
const ONCE: &[u8] = b"cert 1\nsizes 3 2 2 7\n\
    process 0 2\nf\np 0\n\
    process 1 3\ng 0 0\nf 0\np 1\n\
    process 1 2\ng 1 0\nf 0\n\
    channel 0 1 0 1 inorder\nchannel 1 2 0 1 inorder\n\
    sweep\nsweep\n\
    0\n0\n1\n1\n1\n2\n2\n\
    end\n";

/// That with N=3.
pub(crate) const THRICE: &[u8] = b"cert 1\nsizes 3 2 2 21\n\
    process 0 6\nf\np 0\nf\np 0\nf\np 0\n\
    process 1 9\ng 0 0\nf 0\np 1\ng 0 0\nf 0\np 1\ng 0 0\nf 0\np 1\n\
    process 1 6\ng 1 0\nf 0\ng 1 0\nf 0\ng 1 0\nf 0\n\
    channel 0 1 0 3 inorder\nchannel 1 2 0 3 inorder\n\
    sweep\nsweep\n\
    0\n0\n0\n0\n0\n0\n\
    1\n1\n1\n1\n1\n1\n1\n1\n1\n\
    2\n2\n2\n2\n2\n2\n\
    end\n";

/// That of the transpose.
const TRANSPOSED: &[u8] = b"cert 1\nsizes 3 2 2 28\n\
    process 0 8\nf\np 0\nf\np 0\nf\np 0\nf\np 0\n\
    process 2 12\ng 0 0\nf 0\np 1\ng 0 0\ng 0 1\nf 1\np 1\nf 0\np 1\ng 0 0\nf 0\np 1\n\
    process 1 8\ng 1 0\nf 0\ng 1 0\nf 0\ng 1 0\nf 0\ng 1 0\nf 0\n\
    channel 0 1 0 4 reorder\nchannel 1 2 0 4 inorder\n\
    sweep\nsweep\n\
    0\n0\n0\n0\n0\n0\n0\n0\n\
    1\n1\n1\n1\n1\n1\n1\n1\n1\n1\n1\n1\n\
    2\n2\n2\n2\n2\n2\n2\n2\n\
    end\n";

/// That of the last value with N=4, under the policy that takes the highest process.
const DOWNWARD: &[u8] = b"cert 1\nsizes 4 4 4 42\n\
    process 0 12\nf\np 0\np 1\nf\np 0\np 1\nf\np 0\np 1\nf\np 0\np 1\n\
    process 1 9\ng 0 0\nf 0\ng 0 0\nf 0\ng 0 0\nf 0\ng 0 0\nf 0\np 2\n\
    process 2 13\ng 1 0\ng 2 1\nf 0 1\np 3\ng 1 0\nf 0 1\np 3\ng 1 0\nf 0 1\np 3\ng 1 0\nf 0 1\np 3\n\
    process 1 8\ng 3 0\nf 0\ng 3 0\nf 0\ng 3 0\nf 0\ng 3 0\nf 0\n\
    channel 0 1 0 1 inorder\nchannel 0 2 0 2 inorder\nchannel 1 2 1 1 inorder+\nchannel 2 3 0 1 inorder\n\
    sweep\nsweep\nsweep\nsweep\n\
    0\n0\n1\n1\n0\n2\n0\n0\n1\n1\n0\n0\n0\n1\n1\n0\n0\n0\n1\n1\n1\n\
    2\n2\n2\n3\n3\n2\n2\n2\n3\n3\n2\n2\n2\n3\n3\n0\n2\n2\n2\n3\n3\n\
    end\n";

/// Words behind the command, sources, certificates of the networks that `cert` writes of them, and how its texts end, from the
/// schedule on. The certificates were worked out from the definitions by another program, and the ends from these by hand.
static WRITTEN: [(&[&str], &[u8], &[u8], &[u8]); 6] = [
    (
        &["N=1", "--policy=seq"],
        INCREMENT,
        ONCE,
        b"r 2 1\n0\nr 3 1\n1\nr 2 1\n2\nend\n",
    ),
    (
        &["N=1", "--policy=down"],
        INCREMENT,
        ONCE,
        b"r 2 1\n0\nr 3 1\n1\nr 2 1\n2\nend\n",
    ),
    (
        &["N=1", "M=1"],
        TWO_PARAMETERS,
        ONCE,
        b"r 2 1\n0\nr 3 1\n1\nr 2 1\n2\nend\n",
    ),
    (
        &["N=3"],
        INCREMENT,
        THRICE,
        b"r 6 1\n0\nr 9 1\n1\nr 6 1\n2\nend\n",
    ),
    (
        &[],
        TRANSPOSE,
        TRANSPOSED,
        b"r 8 1\n0\nr 12 1\n1\nr 8 1\n2\nend\n",
    ),
    (
        &["N=4", "--policy=down"],
        LAST_VALUE,
        DOWNWARD,
        b"r 2 1\n0\nr 2 1\n1\n0\n2\nr 2 1\n0\nr 2 1\n1\nr 3 1\n0\nr 2 1\n1\nr 3 1\n0\nr 3 1\n1\n\
            r 3 1\n2\nr 2 1\n3\nr 3 1\n2\nr 2 1\n3\nr 3 1\n2\nr 2 1\n3\n0\nr 3 1\n2\nr 2 1\n3\nend\n",
    ),
];

/// Writes to every second cell, and reads of each.
const EVEN_CELLS: &[u8] =
    b"param N; in x[N]; out y[N]; var a[N]; for (i = 0; i < N; i++) a[2*i] = x[i]; for (i = 0; i < N; i++) y[i] = a[i];";

/// A certificate of it with N=3, worked out by hand. The second source is a tree: where 2 divides i the value is from process 1 at
/// the quotient, and elsewhere nobody wrote the cell, since a quotient between would differ from it by less than 1.
const HALVED: &[u8] = b"cert 1\nsizes 4 3 3 28\n\
    process 0 6\nf\np 0\nf\np 0\nf\np 0\n\
    process 1 8\ng 0 0\nf 0\np 1\ng 0 0\nf 0\np 1\ng 0 0\nf 0\n\
    process 1 8\ng 1 0\nf 0\np 2\nf z\np 2\ng 1 0\nf 0\np 2\n\
    process 1 6\ng 2 0\nf 0\ng 2 0\nf 0\ng 2 0\nf 0\n\
    channel 0 1 0 3 inorder\nchannel 1 2 0 2 inorder\nchannel 2 3 0 3 inorder\n\
    sweep\n\
    tree\nd 2 0 1\nw 1 1 5\nm 0 0 1\n\
    s 0 1 3 1 4 2\ns 1 1 2 1 4 2\ns 2 1 4 1\ns 3 1 4 1\ns 3 1 7 1 8 2\n\
    z 1\nc 2 2 1 6 1\ns 3 1 7 1 8 2\n\
    sweep\n\
    0\n0\n0\n0\n0\n0\n\
    1\n1\n1\n1\n1\n1\n1\n1\n\
    2\n2\n2\n2\n2\n2\n2\n2\n\
    3\n3\n3\n3\n3\n3\n\
    end\n";

/// Changes of it, and the line that `check` answers.
static HALVED_CHANGES: [Change; 7] = [
    (&[], b"accepted\n"),
    // the reader's own loop value as the writer's
    (
        &[(42, b"m 0 1 0\n")],
        b"refused Source 2 0 Proof 0 0 NotContradictory\n",
    ),
    // another divisor
    (
        &[(40, b"d 3 0 1\n")],
        b"refused Source 2 0 Proof 0 0 NotContradictory\n",
    ),
    (&[(40, b"d 1 0 1\n")], b"refused Source 2 0 BadForm 0\n"),
    // a Cut with another divisor, and none
    (
        &[(49, b"c 3 2 1 6 1\n")],
        b"refused Source 2 0 Proof 1 0 NotDivisible\n",
    ),
    (
        &[(49, b"s 3 1 7 1\n"), (50, b"")],
        b"refused Source 2 0 Proof 1 0 NotContradictory\n",
    ),
    // the other cells
    (
        &[(40, b"d 2 1 1\n")],
        b"refused Source 2 0 Proof 0 2 NotContradictory\n",
    ),
];

/// Sources with the values of their parameters; each read of theirs is of the difference class.
static ALL_OF_CLASS: [(&[&str], &[u8]); 4] = [
    (
        &["N=3"],
        b"param N; in x[N]; out s[N]; for (i = 0; i < N; i++) s[i] = s[i-1] + x[i];",
    ),
    (
        &["N=3"],
        b"param N; out y[N]; var t; for (i = 0; i < N; i++) { y[i] = t; t = i; t = t + 10; }",
    ),
    (
        &["N=3"],
        b"param N; in x[N]; out y[N]; var a[N]; for (i = 0; i < N; i++) { if (i < 2) { a[i] = x[i]; } else { a[i] = 0 - x[i]; } } for (i = 0; i < N; i++) y[i] = a[i];",
    ),
    (
        &["N=2"],
        b"param N; in A[N][N], B[N][N]; out C[N][N]; for (i = 0; i < N; i++) for (j = 0; j < N; j++) { C[i][j] = 0; for (k = 0; k < N; k++) C[i][j] = C[i][j] + A[i][k] * B[k][j]; }",
    ),
];

/// The certificate of the increment with N=1 in version 2.
const FOLDED: &[u8] = b"cert 2\nsizes 3 2 2 3\n\
    process 0 2\nf\np 0\n\
    process 1 3\ng 0 0\nf 0\np 1\n\
    process 1 2\ng 1 0\nf 0\n\
    channel 0 1 0 1 inorder\nchannel 1 2 0 1 inorder\n\
    sweep\nsweep\n\
    r 2 1\n0\nr 3 1\n1\nr 2 1\n2\n\
    end\n";

/// Changes of it, and the line that `check` answers.
static FOLDED_CHANGES: [Change; 8] = [
    (&[], b"accepted\n"),
    (&[(19, b"r 2 1\n")], b"refused NotEnabled 4\n"),
    (
        &[
            (3, b"process 0 1\nr 4294967295 1\nr 4294967295 1\n"),
            (5, b""),
        ],
        b"refused Long 0\n",
    ),
    (&[(17, b"r 1 1\n")], b"refused Number 17\n"),
    (&[(1, b"cert 1\n")], b"refused Line 17\n"),
    (&[(1, b"cert 3\n")], b"refused Line 1\n"),
    (&[(17, b"r 142606337 1\n")], b"refused Long 3\n"),
    (&[(17, b"r 2 4294967295\n")], b"refused Line 23\n"),
];

/// Changes of the certificate of the increment with N=1, and the line that `check` answers.
static CHANGES: [Change; 24] = [
    (&[], b"accepted\n"),
    (&[(1, b"cert 3\n")], b"refused Line 1\n"),
    (&[(2, b"sizes 3 2 2 4294967296\n")], b"refused Number 2\n"),
    (&[(2, b"sizes 3 2 2 4294967295\n")], b"refused Line 24\n"),
    (&[(3, b"process 0 02\n")], b"refused Line 3\n"),
    (&[(24, b"")], b"refused Truncated\n"),
    (&[(24, b"end")], b"refused Truncated\n"),
    (&[(24, b"end\nend\n")], b"refused Line 25\n"),
    (&[(13, b"channel 0 1 9 1 inorder\n")], b"refused Shape 3\n"),
    (&[(11, b"g 0 0\n")], b"refused Shape 2\n"),
    (&[(10, b"process 2 2\n")], b"refused Shape 2\n"),
    (&[(4, b"p 0\n"), (5, b"f\n")], b"refused Fires 0 0\n"),
    (&[(8, b"f\n")], b"refused Fires 1 1\n"),
    (
        &[(13, b"channel 0 1 0 0 inorder\n")],
        b"refused NotEnabled 1\n",
    ),
    (&[(17, b"7\n")], b"refused NotEnabled 0\n"),
    (&[(23, b"1\n")], b"refused NotEnabled 6\n"),
    (&[(8, b"f z\n")], b"refused Tag 3 zero 0(0)\n"),
    (
        &[(7, b"f 0\n"), (8, b"g 0 0\n")],
        b"refused Tag 2 empty 0(0)\n",
    ),
    (
        &[(14, b"channel 1 2 0 1 reorder\n")],
        b"refused Class 1 reorder inorder\n",
    ),
    (
        &[(2, b"sizes 3 2 2 6\n"), (23, b"")],
        b"refused Unended 2\n",
    ),
    // a token that nobody uses
    (
        &[
            (2, b"sizes 3 2 2 8\n"),
            (3, b"process 0 3\n"),
            (5, b"p 0\np 0\n"),
            (13, b"channel 0 1 0 2 inorder\n"),
            (18, b"0\n0\n"),
        ],
        b"accepted\n",
    ),
    (&[(12, b"f 0 0 0 0 0 0 0 0 0\n")], b"refused Line 12\n"),
    (&[(15, b"tree\n")], b"refused Line 16\n"),
    (&[(7, b"g -5 0\n")], b"refused Number 7\n"),
];

/// A tree with its proofs, which gives the last writer of what the increment with N=1 reads.
const TREE: &[u8] = b"tree\nw 0 1 5\nm 0 1\ns 0 1 2 1\ns 1 1 2 1\ns 2 1\ns 2 1\ns 5 1 6 1\n";

/// Changes of the certificate of the increment with N=1 where this tree, in lines 15 to 22, is the first source, and the line
/// that `check` answers.
static TREE_CHANGES: [Change; 8] = [
    (&[], b"accepted\n"),
    (
        &[(17, b"m 1 1\n")],
        b"refused Source 1 0 Proof 0 1 NotContradictory\n",
    ),
    (
        &[(22, b"s 5 1\n")],
        b"refused Source 1 0 Proof 0 4 NotContradictory\n",
    ),
    (
        &[(22, b"s 5 1 7 1\n")],
        b"refused Source 1 0 Proof 0 4 BadIndex\n",
    ),
    (
        &[(22, b"s 5 -1 6 1\n")],
        b"refused Source 1 0 Proof 0 4 Negative\n",
    ),
    (
        &[(16, b"w 0 1 4\n"), (22, b"")],
        b"refused Source 1 0 Proofs 0 4 5\n",
    ),
    (&[(16, b"w 1 1 5\n")], b"refused Source 1 0 NoWriter 0\n"),
    (
        &[(16, b"w 0 0 5\n"), (17, b"")],
        b"refused Source 1 0 BadForm 0\n",
    ),
];

/// Parameters, sources and certificates with their changes, and the line that `check` answers.
static LONGER: [(&[&str], &[u8], &[u8], Changes<'static>, &[u8]); 8] = [
    // a smaller capacity, and a schedule that ends before the last event
    (
        &["N=3"],
        INCREMENT,
        THRICE,
        &[(27, b"channel 0 1 0 2 inorder\n")],
        b"refused NotEnabled 5\n",
    ),
    (
        &["N=3"],
        INCREMENT,
        THRICE,
        &[(2, b"sizes 3 2 2 20\n"), (51, b"")],
        b"refused Unended 2\n",
    ),
    // other values of the parameter, and another source
    (&["N=2"], INCREMENT, THRICE, &[], b"refused Fires 0 4\n"),
    (&["N=3"], COPY, THRICE, &[], b"refused Shape 2\n"),
    // the other slot
    (
        &[],
        TRANSPOSE,
        TRANSPOSED,
        &[(18, b"f 0\n")],
        b"refused Tag 13 0(0,1) 0(1,0)\n",
    ),
    // parameters agree by name
    (&["M=1", "N=1"], TWO_PARAMETERS, ONCE, &[], b"accepted\n"),
    (
        &["K=7", "M=1", "N=1"],
        TWO_PARAMETERS,
        ONCE,
        &[],
        b"accepted\n",
    ),
    // with a smaller capacity every run of this network sticks
    (
        &["N=4"],
        LAST_VALUE,
        DOWNWARD,
        &[(50, b"channel 0 2 0 1 inorder\n")],
        b"refused NotEnabled 15\n",
    ),
];

static WITHOUT_CERTIFICATE: [Call; 4] = [
    (&["check", "N=1"], b"", 5, b"bundle: NoPart\n"),
    (&["check", "N=1"], b"$\n%%\n", 5, b"bundle: NoPart\n"),
    (
        &["check", "N=1"],
        b"param N; in x[N]; out y[N];\n%%\nx,1\n",
        5,
        b"bundle: NoPart\n",
    ),
    // the source is judged before the certificate
    (
        &["check", "N=1"],
        b"var a; $\n%%\n%%\ncert 3\n",
        6,
        b"text: BadByte 7\n",
    ),
];

/// What stands in the place of this line, if it is changed.
fn changed_line<'a>(changes: Changes<'a>, number: usize) -> Option<&'a [u8]> {
    for (at, other) in changes {
        if *at == number {
            return Some(*other);
        }
    }
    None
}

/// A text with these changes.
fn changed(alloc: Global, text: &[u8], changes: Changes<'_>) -> Result<Vec<u8>, AllocError> {
    let mut made = Vec::new(alloc);
    let mut number = 1_usize;
    let mut begins = true;
    for byte in text {
        match changed_line(changes, number) {
            None => made.push(*byte)?,
            Some(other) if begins => made.extend_from_slice(other)?,
            Some(_) => {}
        }
        begins = *byte == b'\n';
        if begins {
            number = number.saturating_add(1);
        }
    }
    Ok(made)
}

/// Expects this line where a certificate is checked that stands in these parts.
pub(crate) fn expect_checked(
    rt: &(impl Abort + AllocGlobal + Threads + Wait + Sync),
    params: &[&str],
    parts: &[&[u8]],
    line: &[u8],
) -> Result<(), Fail> {
    let bundle = parts.concat(rt.alloc())?;
    let status = u8::from(line != b"accepted\n".as_slice());
    let end = expect_of(rt, "check", params, &bundle, status, line);
    drop(bundle);
    end
}

/// Expects this line where a certificate is checked.
pub(crate) fn expect_line(
    rt: &(impl Abort + AllocGlobal + Threads + Wait + Sync),
    params: &[&str],
    source: &[u8],
    certificate: &[u8],
    line: &[u8],
) -> Result<(), Fail> {
    expect_checked(rt, params, &[source, b"\n%%\n%%\n", certificate], line)
}

/// Expects this line where a certificate with these changes is checked.
fn expect_changed(
    rt: &(impl Abort + AllocGlobal + Threads + Wait + Sync),
    params: &[&str],
    source: &[u8],
    certificate: &[u8],
    changes: Changes<'_>,
    line: &[u8],
) -> Result<(), Fail> {
    let certificate = changed(rt.alloc(), certificate, changes)?;
    let end = expect_line(rt, params, source, &certificate, line);
    drop(certificate);
    end
}

/// Expects these lines where a certificate with these changes is checked.
pub(crate) fn expect_lines(
    rt: &(impl Abort + AllocGlobal + Threads + Wait + Sync),
    params: &[&str],
    source: &[u8],
    certificate: &[u8],
    table: &[Change],
) -> Result<(), Fail> {
    for (changes, line) in table {
        expect_changed(rt, params, source, certificate, changes, line)?;
    }
    Ok(())
}

/// Whether both texts are read, as equal networks and equal schedules, with as many sources.
pub(crate) fn stand_for_the_same(alloc: Global, text: &[u8], other: &[u8]) -> bool {
    let Ok(pair) = read_cert(alloc, text) else {
        return false;
    };
    let Ok(other) = read_cert(alloc, other) else {
        drop(pair);
        return false;
    };
    let same = pair.0.same(&other.0)
        && pair.1.sources.len() == other.1.sources.len()
        && pair.1.schedule.as_slice() == other.1.schedule.as_slice();
    drop(pair);
    drop(other);
    same
}

/// Expects of what `cert` writes that it stands for this text and ends with this schedule, and that `check` accepts it.
pub(crate) fn expect_certificate(
    rt: &(impl Abort + AllocGlobal + Threads + Wait + Sync),
    params: &[&str],
    source: &[u8],
    text: &[u8],
    schedule: &[u8],
) -> Result<(), Fail> {
    let written = written_by(rt, "cert", params, source, 2_000)?;
    let held = written.output.held();
    let stands = held.starts_with(b"cert 2\n")
        && held.ends_with(schedule)
        && stand_for_the_same(rt.alloc(), held, text);
    let checked = expect_line(rt, params, source, held, b"accepted\n");
    drop(written);
    assert!(rt; stands);
    checked
}

#[test]
fn certificates_are_written(rt: HostRuntime) -> Result<(), Fail> {
    for (params, source, text, schedule) in &WRITTEN {
        expect_certificate(&rt, params, source, text, schedule)?;
        expect_line(&rt, params, source, text, b"accepted\n")?;
    }
    Ok(())
}

/// Whether this is one of the lines of a text.
fn has_line(text: &[u8], line: &[u8]) -> bool {
    text.split(|byte| *byte == b'\n').any(|found| found == line)
}

/// Expects of what `cert` writes that `check` accepts it, and whether it has trees alone.
pub(crate) fn expect_accepted(
    rt: &(impl Abort + AllocGlobal + Threads + Wait + Sync),
    params: &[&str],
    source: &[u8],
    room: usize,
    has_trees: bool,
) -> Result<(), Fail> {
    let written = written_by(rt, "cert", params, source, room)?;
    let held = written.output.held();
    let holds = !has_trees || has_line(held, b"tree") && !has_line(held, b"sweep");
    let checked = expect_line(rt, params, source, held, b"accepted\n");
    drop(written);
    assert!(rt; holds);
    checked
}

#[test]
fn reads_of_the_class_have_trees(rt: HostRuntime) -> Result<(), Fail> {
    for (params, source) in &ALL_OF_CLASS {
        expect_accepted(&rt, params, source, 10_000, true)?;
    }
    Ok(())
}

#[test]
fn a_certificate_of_equal_points_is_short(rt: HostRuntime) -> Result<(), Fail> {
    // it has fewer than 20,000 bytes
    expect_accepted(&rt, &["N=100000"], INCREMENT, 19_999, false)
}

#[test]
fn folded_certificates_are_judged(rt: HostRuntime) -> Result<(), Fail> {
    expect_lines(&rt, &["N=1"], INCREMENT, FOLDED, &FOLDED_CHANGES)
}

#[test]
fn changed_certificates_are_judged(rt: HostRuntime) -> Result<(), Fail> {
    expect_lines(&rt, &["N=1"], INCREMENT, ONCE, &CHANGES)?;
    expect_line(&rt, &["N=1"], INCREMENT, b"", b"refused Truncated\n")
}

/// A tree of a proof of so many splits, one in the other.
fn deep_tree(alloc: Global, splits: usize) -> Result<Vec<u8>, AllocError> {
    let mut text = Vec::from_slice(alloc, b"tree\nx\n")?;
    for _ in 0..splits {
        text.extend_from_slice(b"b 0\n")?;
    }
    Ok(text)
}

/// Expects this line where the first source of the certificate is a proof of so many splits, one in the other.
fn expect_deep(
    rt: &(impl Abort + AllocGlobal + Threads + Wait + Sync),
    splits: usize,
    line: &[u8],
) -> Result<(), Fail> {
    let deep = deep_tree(rt.alloc(), splits)?;
    let end = expect_changed(rt, &["N=1"], INCREMENT, ONCE, &[(15, &deep)], line);
    drop(deep);
    end
}

#[test]
fn trees_are_judged(rt: HostRuntime) -> Result<(), Fail> {
    let with_tree = changed(rt.alloc(), ONCE, &[(15, TREE)])?;
    let judged = expect_lines(&rt, &["N=1"], INCREMENT, &with_tree, &TREE_CHANGES);
    drop(with_tree);
    judged?;
    expect_deep(&rt, 513, b"refused Deep 529\n")
}

#[test]
fn trees_with_tests_of_divisibility_are_judged(rt: HostRuntime) -> Result<(), Fail> {
    expect_lines(&rt, &["N=3"], EVEN_CELLS, HALVED, &HALVED_CHANGES)
}

#[test]
fn certificates_of_longer_runs_are_judged(rt: HostRuntime) -> Result<(), Fail> {
    for (params, source, certificate, changes, line) in &LONGER {
        expect_changed(&rt, params, source, certificate, changes, line)?;
    }
    Ok(())
}

#[test]
fn a_check_wants_a_certificate_part(rt: HostRuntime) -> Result<(), Fail> {
    expect_all(&rt, SOUND, &WITHOUT_CERTIFICATE)
}
