//! Tests of `loop_class::bind` and `loop_run::interpret` on sources of nearly as many tokens as there may be.

use crate::bound::binding;
use loop_class::BindError;
use loop_class::BindError::{NotAffine, TooManyRows};
use loop_run::interpret;
use loop_walk::size;
use plain_data::Items;
use sanlp::{Inputs, Nest};
use std::alloc::{AllocError, Global};
use std::test::Fail;

// The text with so many times `open` and `close` round `middle`.
fn nested(
    alloc: Global,
    (head, tail): (&[u8], &[u8]),
    (open, close): (&[u8], &[u8]),
    times: u32,
    middle: &[u8],
) -> Result<Vec<u8>, AllocError> {
    let mut text = Vec::from_slice(alloc, head)?;
    for _ in 0..times {
        text.extend_from_slice(open)?;
    }
    text.extend_from_slice(middle)?;
    for _ in 0..times {
        text.extend_from_slice(close)?;
    }
    text.extend_from_slice(tail)?;
    Ok(text)
}

// The first cell of the first array after the nest was executed, if it is an output.
fn answer(alloc: Global, nest: &Nest) -> Result<Option<i64>, Fail> {
    if size(nest).is_err() {
        return Err(Fail::new("the size is refused"));
    }
    let inputs = Inputs {
        arrays: Items::new(alloc),
    };
    let arrays = interpret(alloc, nest, &inputs)?.arrays;
    Ok(match arrays.get(0) {
        Some(cells) => cells.get(0).copied(),
        None => None,
    })
}

// What a source comes to: its answer, or the reason why it is no nest.
fn outcome(alloc: Global, source: &[u8]) -> Result<Result<Option<i64>, BindError>, Fail> {
    match binding(alloc, source, 0)? {
        Ok(nest) => {
            let answer = answer(alloc, &nest);
            drop(nest);
            Ok(Ok(answer?))
        }
        Err(error) => Ok(Err(error)),
    }
}

// The head and the tail of a source, what stands how often round its middle, and what it comes to.
type Deep = (
    (&'static [u8], &'static [u8]),
    (&'static [u8], &'static [u8]),
    u32,
    &'static [u8],
    Result<Option<i64>, BindError>,
);

static DEEP: [Deep; 9] = [
    (
        (b"var a[2]; a[", b"] = 1;"),
        (b"-", b""),
        8170,
        b"1",
        Ok(None),
    ),
    (
        (b"var a[2]; a[1", b"] = 1;"),
        (b"+1", b""),
        4080,
        b"",
        Ok(None),
    ),
    ((b"out a; a = ", b";"), (b"-", b""), 8170, b"1", Ok(Some(1))),
    (
        (b"out a; a = 1", b";"),
        (b"+1", b""),
        4080,
        b"",
        Ok(Some(4081)),
    ),
    (
        (b"out a; a = max(1", b");"),
        (b",1", b""),
        4080,
        b"",
        Ok(Some(1)),
    ),
    (
        (b"out a; ", b""),
        (b"{", b"}"),
        4080,
        b"a = 1;",
        Ok(Some(1)),
    ),
    (
        (b"var a; ", b""),
        (b"if(1<2)", b""),
        1300,
        b"a = 1;",
        Err(TooManyRows(7803)),
    ),
    (
        (b"var a; ", b""),
        (b"if(1<2){}else ", b""),
        900,
        b"a = 1;",
        Err(TooManyRows(8103)),
    ),
    (
        (b"var a[2]; a[", b"] = 1;"),
        (b"a[", b"]"),
        2600,
        b"0",
        Err(NotAffine(8)),
    ),
];

// On the stack of the main thread. (`rt try` bears fewer levels.)
#[test]
fn deep_sources_are_bound_and_run(rt: HostRuntime) -> Result<(), Fail> {
    for (ends, round, times, middle, want) in &DEEP {
        let source = nested(rt.alloc(), *ends, *round, *times, middle)?;
        assert!(rt; outcome(rt.alloc(), &source)? == *want);
    }
    Ok(())
}
