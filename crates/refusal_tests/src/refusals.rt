//! Refusals with their lines.

use std::process::Abort;
use std::sync::Wait;
use std::test::Fail;
use std::thread::Threads;
use top_calls::{Call, INCREMENT, SOUND, USAGE, expect_all, expect_answer};

static WRONG_WORDS: [Call; 12] = [
    (&[], b"var a;", 2, USAGE),
    (&["load"], b"var a;", 2, USAGE),
    (&["load", "N=1"], b"var a;", 2, USAGE),
    (&["load", "1", "N=1"], b"var a;", 2, USAGE),
    (&["run", "N"], b"var a;", 2, USAGE),
    (&["run", "N=1", "N=2"], b"var a;", 2, USAGE),
    (&["run", "--policy", "up"], b"var a;", 2, USAGE),
    (&["run", "-x"], b"var a;", 2, USAGE),
    (&["run", "--policy"], b"var a;", 2, USAGE),
    (
        &["run", "--policy=seq", "--policy=seq"],
        b"var a;",
        2,
        USAGE,
    ),
    (&["--help"], b"var a;", 2, USAGE),
    (&["dependences"], b"var a;", 2, USAGE),
];

#[test]
fn wrong_words_are_refused(rt: HostRuntime) -> Result<(), Fail> {
    expect_all(&rt, SOUND, &WRONG_WORDS)
}

static WRONG_SOURCES: [Call; 26] = [
    (&["run"], b"var a; $", 6, b"text: BadByte 7\n"),
    (&["run"], b"var a; /* a = 1;", 6, b"text: OpenComment 7\n"),
    (
        &["run"],
        b"var a; a = 9223372036854775808;",
        6,
        b"text: LargeNumber 11\n",
    ),
    (
        &["run"],
        b"param N; out y[1]; y[0] = ;",
        6,
        b"text: Syntax 26\n",
    ),
    (&["run"], b"var a; a = 1 ", 6, b"text: Syntax 13\n"),
    (&["run"], b"var a; a = 1 \n%%\n;", 6, b"text: Syntax 14\n"),
    (
        &["run", "N=2"],
        b"param N; in a[N]; out y[N]; for (i = 0; i < N; i++) y[i] = a[i*i];",
        7,
        b"class: NotAffine 62\n",
    ),
    (
        &["run", "N=2"],
        b"param N; in a[N]; out y[N]; for (i = 0; i < N; i++) if (a[i] > 0) y[i] = 1;",
        7,
        b"class: NotAffine 56\n",
    ),
    (
        &["run"],
        b"var a; for (i = 0; i < 3; i++) if (i == 1) { a = 1; } else { a = 2; }",
        7,
        b"class: ElseForm 54\n",
    ),
    (
        &["run", "M=1"],
        b"param N; var a;",
        7,
        b"class: Unbound 6\n",
    ),
    (
        &["run", "N=2147483648"],
        b"param N; in x[N]; out y[N]; for (i = 0; i < N; i++) y[i] = x[i] + 1;",
        8,
        b"limit: Large 6\n",
    ),
    (
        &["run", "N=4194305"],
        b"param N; var a; for (i = 0; i < N; i++) a = i;",
        8,
        b"limit: Size 8388609\n",
    ),
    (
        &["run"],
        b"out y[2147483647][2147483647];",
        8,
        b"limit: Size 8388609\n",
    ),
    (
        &["run"],
        b"out y; for (i = 2147483647; i <= 2147483647; i++) for (j = 2147483647 * i; j <= 2147483647 * i; j++) for (k = 2147483647 * j; k < 1; k++) y = 1;",
        8,
        b"limit: LoopValue 2\n",
    ),
    (&["run"], b"var a; a = b;", 7, b"class: UnknownName 11\n"),
    (&["run"], b"y[0] = 1", 6, b"text: Syntax 8\n"),
    (&["run"], b"out y; y = (1;", 6, b"text: Syntax 13\n"),
    (&["run"], b"if (1 < 2) ;", 6, b"text: Syntax 11\n"),
    (
        &["run"],
        b"if (1 < 2) a = 1; else a = 2;",
        6,
        b"text: Syntax 18\n",
    ),
    (&["run"], b"var a; { a = 1;", 6, b"text: Syntax 15\n"),
    (&["run"], b"a = 1; var b;", 6, b"text: Syntax 7\n"),
    (&["run"], b"var a, a;", 7, b"class: Duplicate 7\n"),
    (&["run"], b"var a[2]; a = 1;", 7, b"class: WrongCount 10\n"),
    (
        &["run"],
        b"var a[1][1][1][1][1][1][1];",
        8,
        b"limit: TooDeep 4\n",
    ),
    (
        &["run"],
        b"var a; a = a+a+a+a+a+a+a+a+a;",
        8,
        b"limit: TooManyReads 27\n",
    ),
    (&["run"], b"out y[2147483648];", 8, b"limit: Large 6\n"),
];

#[test]
fn wrong_sources_are_refused(rt: HostRuntime) -> Result<(), Fail> {
    expect_all(&rt, SOUND, &WRONG_SOURCES)
}

/// Sources with what stands behind them, and the lines of their refusals.
static WRONG_DATA: [(&[u8], &[u8], &[u8]); 12] = [
    (INCREMENT, b"\n%%\nx,5\n", b"data: Count 1 1 3\n"),
    (INCREMENT, b"\n%%\nz,1\n", b"data: UnknownArray 1\n"),
    (INCREMENT, b"\n%%\nx,5,12x,7\n", b"data: NotANumber 1 2\n"),
    (INCREMENT, b"\n%%\n", b"data: Missing x\n"),
    (INCREMENT, b"\n%%\n\r\n\n", b"data: Missing x\n"),
    (INCREMENT, b"\n%%\nx,5,6,7\nx,5,6,7\n", b"data: Twice 2\n"),
    (
        INCREMENT,
        b"\n%%\nx,5,6,7\ny,5,6,7\n",
        b"data: UnknownArray 2\n",
    ),
    (INCREMENT, b"\n%%\nx,5,6,7\nx\n", b"data: Twice 2\n"),
    (INCREMENT, b"\n%%\nx,5,6,7,\n", b"data: Count 1 4 3\n"),
    (
        INCREMENT,
        b"\n%%\nx,5,6,9223372036854775808\n",
        b"data: NotANumber 1 3\n",
    ),
    (INCREMENT, b"", b"data: Missing x\n"),
    // a line %% ends the data part, in quotes too
    (
        b"in x; out y; y = x;",
        b"\n%%\n\"x\n%%\n\",5",
        b"data: UnknownArray 1\n",
    ),
];

fn expect_refused_data(
    rt: &(impl Abort + AllocGlobal + Threads + Wait + Sync),
    source: &[u8],
    data: &[u8],
    complaint: &[u8],
) -> Result<(), Fail> {
    let bundle = [source, data].concat(rt.alloc())?;
    let refused = expect_answer(rt, &["N=3"], &bundle, 9, complaint);
    drop(bundle);
    refused
}

#[test]
fn wrong_data_is_refused(rt: HostRuntime) -> Result<(), Fail> {
    for (source, data, complaint) in &WRONG_DATA {
        expect_refused_data(&rt, source, data, complaint)?;
    }
    Ok(())
}
