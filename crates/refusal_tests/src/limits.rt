//! The greatest inputs, and greater ones.

use std::alloc::{AllocError, Global};
use std::process::Abort;
use std::sync::Wait;
use std::test::Fail;
use std::thread::Threads;
use top_calls::{expect_answer, expect_of};

/// The head of a source, how it goes on and how many times, its middle, what then stands as many times, and its tail; the status
/// and the text of `run` and of `seq`.
type Nested = (
    &'static [u8],
    &'static [u8],
    usize,
    &'static [u8],
    &'static [u8],
    &'static [u8],
    u8,
    &'static [u8],
);

fn push_repeated(bytes: &mut Vec<u8>, piece: &[u8], times: usize) -> Result<(), AllocError> {
    for _ in 0..times {
        bytes.extend_from_slice(piece)?;
    }
    Ok(())
}

fn push_nested(source: &mut Vec<u8>, nested: &Nested) -> Result<(), AllocError> {
    let (head, open, times, middle, close, tail, _, _) = nested;
    source.extend_from_slice(head)?;
    push_repeated(source, open, *times)?;
    source.extend_from_slice(middle)?;
    push_repeated(source, close, *times)?;
    source.extend_from_slice(tail)
}

fn expect_nested(
    rt: &(impl Abort + AllocGlobal + Threads + Wait + Sync),
    nested: &Nested,
) -> Result<(), Fail> {
    let mut source = Vec::new(rt.alloc());
    push_nested(&mut source, nested)?;
    let end = expect_answer(rt, &[], &source, nested.6, nested.7);
    drop(source);
    end
}

static LIMITS: [Nested; 3] = [
    (b"var a; ", b"a = 0; ", 64, b"", b"", b"", 0, b""),
    (
        b"var a; ",
        b"a = 0; ",
        65,
        b"",
        b"",
        b"",
        8,
        b"limit: TooManyProcesses 455\n",
    ),
    (
        b"a",
        b" a",
        8_192,
        b"",
        b"",
        b"",
        6,
        b"text: TooMany 16384\n",
    ),
];

#[test]
fn limits_are_met_and_passed(rt: HostRuntime) -> Result<(), Fail> {
    for nested in &LIMITS {
        expect_nested(&rt, nested)?;
    }
    Ok(())
}

/// Sources of nearly as many tokens as there may be, as deep as they can nest.
static DEEP_PROGRAMS: [Nested; 8] = [
    (
        b"out a; a = ",
        b"max(1,",
        1_630,
        b"4",
        b")",
        b";",
        0,
        b"a,4\n",
    ),
    (b"out a; a = ", b"(", 4_090, b"7", b")", b";", 0, b"a,7\n"),
    (
        b"var a[1]; a[",
        b"a[",
        2_700,
        b"0",
        b"]",
        b"] = 1;",
        7,
        b"class: NotAffine 12\n",
    ),
    (
        b"var a[2]; a[",
        b"0-(",
        2_040,
        b"1",
        b")",
        b"] = 1;",
        0,
        b"",
    ),
    (
        b"for (i = 0; i < 3; i++) ",
        b"if(i<2){}else ",
        900,
        b"{}",
        b"",
        b"",
        0,
        b"",
    ),
    (
        b"for (i = 0; i < 3; i++) ",
        b"if(i<2)",
        1_300,
        b"{}",
        b"",
        b"",
        0,
        b"",
    ),
    (b"", b"{", 4_090, b"", b"}", b"", 0, b""),
    (
        b"var a; if (0 < 1",
        b"&& 0 < 1",
        32,
        b"",
        b"",
        b") a = 1;",
        8,
        b"limit: TooManyRows 274\n",
    ),
];

#[test]
fn deep_programs_are_run(rt: HostRuntime) -> Result<(), Fail> {
    for nested in &DEEP_PROGRAMS {
        expect_nested(&rt, nested)?;
    }
    Ok(())
}

/// A source of 677 arrays, the last of which but one is read.
fn source_of_many_arrays(alloc: Global) -> Result<Vec<u8>, AllocError> {
    let mut source = Vec::from_slice(alloc, b"out y; var ")?;
    for first in b'A'..=b'Z' {
        for second in b'A'..=b'Z' {
            source.extend_from_slice(&[first, second, b','])?;
        }
    }
    source.extend_from_slice(b"a; ZZ = 7; y = ZZ + 1;")?;
    Ok(source)
}

#[test]
fn many_arrays_are_declared(rt: HostRuntime) -> Result<(), Fail> {
    let source = source_of_many_arrays(rt.alloc())?;
    let end = expect_answer(&rt, &[], &source, 0, b"y,8\n");
    drop(source);
    end
}

#[test]
fn the_largest_nest_is_run(rt: HostRuntime) -> Result<(), Fail> {
    let loops = b"param N; var a; for (i = 0; i < N; i++) a = i;";
    for turns in ["N=1048577", "N=4194304"] {
        expect_of(&rt, "run", &[turns], loops, 0, b"")?;
    }
    Ok(())
}

#[test]
fn the_longest_bundle_is_read(rt: HostRuntime) -> Result<(), Fail> {
    let spaces = vec![in rt.alloc(); b' '; 67_108_864]?;
    let end = expect_of(&rt, "run", &[], &spaces, 0, b"");
    drop(spaces);
    end
}

#[test]
fn a_longer_bundle_is_refused(rt: HostRuntime) -> Result<(), Fail> {
    let spaces = vec![in rt.alloc(); b' '; 67_108_865]?;
    let end = expect_of(&rt, "run", &[], &spaces, 5, b"bundle: TooLong\n");
    drop(spaces);
    end
}
