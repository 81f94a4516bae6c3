//! Loops with steps.

use crate::certificates::{Change, expect_accepted, expect_certificate, expect_lines};
use std::process::Abort;
use std::sync::Wait;
use std::test::Fail;
use std::thread::Threads;
use top_calls::{expect_answer, expect_of};

/// Programs whose loops have steps: the values of their parameters, their sources and data, and their answers.
static STEPPED: [(&[&str], &[u8], &[u8], &[u8]); 11] = [
    (
        &["N=5"],
        b"param N; in x[N]; out y[N]; for (i = 0; i < N; i += 2) y[i] = x[i];",
        b"x,1,2,3,4,5\n",
        b"y,1,0,3,0,5\n",
    ),
    (
        &[],
        b"out y; for (i = 1; i <= 8; i += 3) y = y + i;",
        b"",
        b"y,12\n",
    ),
    (
        &[],
        b"out y[3][7]; for (i = 0; i < 3; i++) for (j = i; j <= 6; j += 2) y[i][j] = 10 * i + j;",
        b"",
        b"y,0,0,2,0,4,0,6,0,11,0,13,0,15,0,0,0,22,0,24,0,26\n",
    ),
    (
        &["N=6", "B=4"],
        b"param N, B; in x[N]; out y[N]; for (b = 0; b < N; b += B) for (i = b; i < min(b + B, N); i++) y[i] = y[i - 1] + x[i] * b;",
        b"x,1,2,3,4,5,6\n",
        b"y,0,0,0,0,20,44\n",
    ),
    (
        &["K=4"],
        b"param K; out y[2]; for (i = -7; i < 5; i += K) y[0] = y[0] * 10 - i; for (i = -7; i <= 5; i += K) y[1] = y[1] * 10 - i;",
        b"",
        b"y,729,7285\n",
    ),
    (
        &["K=1"],
        b"param K; out y; for (i = max(0, 1); i < 4; i += K) y = y + i; for (i = max(2); i <= 9; i += 2 * K + 1) y = 10 * y + i;",
        b"",
        b"y,6258\n",
    ),
    (
        &[],
        b"out y; for (i = 3; i <= 2; i += 2) y = 1; for (i = 5; i < 5; i += 3) y = 2; for (i = 0; i < -2147483647; i += 2147483647) y = 3;",
        b"",
        b"y,0\n",
    ),
    (
        &[],
        b"out y[2]; for (i = -2147483647; i <= 2147483647; i += 2147483647) { y[0] = y[0] + 1; y[1] = y[1] * 2 + i; }",
        b"",
        b"y,3,-6442450941\n",
    ),
    (
        &[],
        b"out y; for (i = 2147483647; i <= 2147483647; i++) for (j = -2147483647 * i; j <= 2147483647 - 2147483647 * i; j += 2147483647) y = y + j;",
        b"",
        b"y,-9223372026117357571\n",
    ),
    (
        &["N=2"],
        b"param N; out y[8]; for (i = 1; i < 8; i += N + 1) for (j = 7 - i; j < min(8, 4 + i); j += N) if (j > i) { y[j] = y[j] + 10 * i + j; } else { y[j - i + 6] = -i; }",
        b"",
        b"y,0,-7,0,-7,0,-7,0,47\n",
    ),
    (
        &[],
        b"out y; for (i = 0; i < min(7, 7, 7, 7, 7, 7, 7, 7, 7, 7, 7, 7, 7, 7, 7, 7, 7, 7, 7, 7, 7, 7, 7, 7, 7, 7, 7, 7, 7, 7, 7); i += 3) y = y + i;",
        b"",
        b"y,9\n",
    ),
];

/// Sources with a loop that has a step, with the values of their parameters, and how they are refused.
static REFUSED: [(&[&str], &[u8], u8, &[u8]); 24] = [
    (
        &[],
        b"var a; for (i = 0; i < 9; i += i) a = 1;",
        7,
        b"class: UnknownName 31\n",
    ),
    (
        &[],
        b"var a[1]; for (i = 0; i < 9; i++) for (j = 0; j < 9; j += a[i]) a[0] = 1;",
        7,
        b"class: UnknownName 58\n",
    ),
    (
        &[],
        b"var a; for (i = 0; i < 9; j += 0) a = 1;",
        7,
        b"class: UnknownName 26\n",
    ),
    (
        &[],
        b"for (i = 0; i < 3; i += 2) a = 1;",
        7,
        b"class: UnknownName 27\n",
    ),
    (
        &[],
        b"var a; for (i = 0; i < 9; i += 2) for (i = 0; i < 9; i += 2) a = 1;",
        7,
        b"class: Duplicate 39\n",
    ),
    (
        &[],
        b"param K; var a; for (i = 0; i < 9; i += K) a = 1;",
        7,
        b"class: Unbound 6\n",
    ),
    (
        &[],
        b"var a; for (i = 0; i < 9; i += max(2, 3)) a = 1;",
        7,
        b"class: NotAffine 31\n",
    ),
    (
        &[],
        b"var a[9]; for (i = 0; i < 9; i += 2) for (j = i; j < 9; j += 3) a[i * j] = 1;",
        7,
        b"class: NotAffine 68\n",
    ),
    (
        &[],
        b"var a[9]; for (i = 0; i < 9; i += 2) a = i;",
        7,
        b"class: WrongCount 37\n",
    ),
    (
        &[],
        b"var a; for (i = 0; i < 9; i += 2) if (i == 4) { a = 1; } else { a = 2; }",
        7,
        b"class: ElseForm 57\n",
    ),
    (
        &[],
        b"inout a, b, c, d, e, f, g, h, i, j, k, l, m, n, o, p, q, r, s, t, u, v, w, x, y, z, A, B, C, D, E, F; for (K = 0; K < 9; K += 2) a = K;",
        8,
        b"limit: TooManyProcesses 129\n",
    ),
    (
        &[],
        b"var a; for (b = 0; b < 9; b += 2) for (c = 0; c < 9; c += 2) for (d = 0; d < 9; d += 2) for (e = 0; e < 9; e += 2) for (f = 0; f < 9; f += 2) for (g = 0; g < 9; g += 2) for (h = 0; h < 9; h += 0) a = 1;",
        8,
        b"limit: TooDeep 174\n",
    ),
    (
        &[],
        b"var a; for (i = 0; i < 9; i += 2) a = a + a + a + a + a + a + a + a + a;",
        8,
        b"limit: TooManyReads 70\n",
    ),
    (
        &[],
        b"var a; for (i = 0; i < min(1, 1, 1, 1, 1, 1, 1, 1, 1, 1, 1, 1, 1, 1, 1, 1, 1, 1, 1, 1, 1, 1, 1, 1, 1, 1, 1, 1, 1, 1, 1, 1); i += 2) a = 1;",
        8,
        b"limit: TooManyRows 132\n",
    ),
    (
        &[],
        b"var a; for (i = 0; i < 9; i += 2147483648) a = 1;",
        8,
        b"limit: Large 31\n",
    ),
    (
        &["K=2147483647"],
        b"param K; var a; for (i = 0; i < 9; i += K + 1) a = 1;",
        8,
        b"limit: Large 42\n",
    ),
    (
        &[],
        b"var a[9]; for (i = 0; i < 9; i += 2147483647) a[2 * i] = 1;",
        8,
        b"limit: Large 50\n",
    ),
    (
        &[],
        b"var a[9]; for (i = 2147483647; i < 9; i += 2) a[i + 1] = 1;",
        8,
        b"limit: Large 50\n",
    ),
    (
        &[],
        b"var a; for (i = max(0, 1); i < 9; i += 2) a = i;",
        7,
        b"class: StepMax 36\n",
    ),
    (
        &["K=2"],
        b"param K; var a; for (i = 0; i < 9; i++) for (j = max(i, 1, K); j < 9; j += K) b = j;",
        7,
        b"class: StepMax 72\n",
    ),
    (
        &[],
        b"var a; for (i = 0; i < 9; i += 0) a = i;",
        7,
        b"class: StepRange 28\n",
    ),
    (
        &["K=3"],
        b"param K; var a; for (i = max(0, 1); i < 9; i += 2 - K) b = i;",
        7,
        b"class: StepRange 45\n",
    ),
    (
        &[],
        b"out y; for (i = 2147483647; i <= 2147483647; i++) for (j = 2147483647 * i; j <= 2147483647 * i; j++) for (k = 2147483647 * j; k < 1; k += 2) y = 1;",
        8,
        b"limit: LoopValue 2\n",
    ),
    (
        &[],
        b"var a; for (i = 0; i < 2147483647; i += 511) a = i;",
        8,
        b"limit: Size 8388609\n",
    ),
];

const EVERY_SECOND: &[u8] = b"param N; in x[N]; out y[N]; for (i = 0; i < N; i += 2) y[i] = x[i];";

/// Its certificate with N=3.
const SECONDS: &[u8] = b"cert 1\nsizes 3 2 2 16\n\
    process 0 5\nf\np 0\nf\nf\np 0\n\
    process 1 6\ng 0 0\nf 0\np 1\ng 0 0\nf 0\np 1\n\
    process 1 5\ng 1 0\nf 0\nf z\ng 1 0\nf 0\n\
    channel 0 1 0 2 inorder\nchannel 1 2 0 2 inorder\n\
    sweep\nsweep\n\
    0\n0\n0\n0\n0\n1\n1\n1\n1\n1\n1\n2\n2\n2\n2\n2\n\
    end\n";

/// Changes of the references of the sink's last two fires. 1(1) is the assignment of x[2].
static SECONDS_CHANGES: [Change; 3] = [
    (&[], b"accepted\n"),
    (&[(19, b"f 0\n")], b"refused Tag 13 1(0) zero\n"),
    (&[(21, b"f z\n")], b"refused Tag 15 zero 1(1)\n"),
];

/// Expects this answer of a program, and that its certificate is accepted.
fn expect_stepped(
    rt: &(impl Abort + AllocGlobal + Threads + Wait + Sync),
    params: &[&str],
    source: &[u8],
    data: &[u8],
    answer: &[u8],
) -> Result<(), Fail> {
    let bundle = [source, b"\n%%\n", data].concat(rt.alloc())?;
    let answered = expect_answer(rt, params, &bundle, 0, answer);
    drop(bundle);
    answered?;
    expect_accepted(rt, params, source, 100_000, false)
}

#[test]
fn loops_with_steps_are_run(rt: HostRuntime) -> Result<(), Fail> {
    for (params, source, data, answer) in &STEPPED {
        expect_stepped(&rt, params, source, data, answer)?;
    }
    Ok(())
}

#[test]
fn wrong_loops_with_steps_are_refused(rt: HostRuntime) -> Result<(), Fail> {
    for (params, source, status, complaint) in &REFUSED {
        expect_of(&rt, "run", params, source, *status, complaint)?;
    }
    Ok(())
}

// A point of a loop with a step has its turn.
#[test]
fn points_hold_turns(rt: HostRuntime) -> Result<(), Fail> {
    let schedule = b"r 5 1\n0\nr 6 1\n1\nr 5 1\n2\nend\n";
    expect_certificate(&rt, &["N=3"], EVERY_SECOND, SECONDS, schedule)?;
    expect_lines(&rt, &["N=3"], EVERY_SECOND, SECONDS, &SECONDS_CHANGES)
}
