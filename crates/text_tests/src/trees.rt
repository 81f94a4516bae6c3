//! Tests of `tree_text`.

use cert_lines::{CertError, Lines};
use io_edge::MemSink;
use source_tree::Tree;
use std::alloc::{AllocError, Global};
use std::test::Fail;
use text_out::Writer;
use tree_text::{read_tree, write_tree};

// The one writer of a read, with the proofs that a check of it wants.
const LEAF: &[u8] = b"w 0 1 5\n\
    m 0 1\n\
    s 0 1 2 1\n\
    s 1 1 2 1\n\
    s 2 1\n\
    s 2 1\n\
    s 5 1 6 1\n";

// A tree with a node of each kind and a proof of each kind, and the least and greatest numbers.
const EACH: &[u8] = b"t -1 1 0\n\
    d 2 0 1 -3\n\
    w 4294967295 2 1\n\
    m -170141183460469231731687303715884105728\n\
    m 170141183460469231731687303715884105727 1 2 3\n\
    c 3 0 1 4294967295 -2\n\
    s\n\
    z 0\n\
    x\n\
    b 0 1 2 3 4 5 6 7 8 9 10 11 12 13 14 15 16 17 18\n\
    s 7 0\n\
    c -1\n\
    s\n";

// Whether a tree is written as this text.
fn is_written(alloc: Global, tree: &Tree, text: &[u8]) -> Result<bool, Fail> {
    let mut sink = MemSink::new(alloc, 2_000_000, 100, &[])?;
    let mut out = Writer::new(&mut sink);
    write_tree(tree, &mut out);
    out.finish()?;
    drop(out);
    Ok(sink.held() == text)
}

// What refuses this text, or nothing where it is the whole text of a tree that is written as it is read.
fn refusal(alloc: Global, text: &[u8]) -> Result<Option<CertError>, Fail> {
    let mut lines = Lines::new(text);
    match read_tree(alloc, &mut lines) {
        Ok(tree) => {
            let written = is_written(alloc, tree.get(), text);
            drop(tree);
            let written = written?;
            if let Err(error) = lines.end() {
                return Ok(Some(error));
            }
            if written {
                Ok(None)
            } else {
                Err(Fail::from("another text"))
            }
        }
        Err(error) => Ok(Some(error)),
    }
}

// A text with so many lines between two others.
fn repeated(
    alloc: Global,
    head: &[u8],
    line: &[u8],
    times: u32,
    tail: &[u8],
) -> Result<Vec<u8>, AllocError> {
    let mut text = Vec::from_slice(alloc, head)?;
    for _ in 0..times {
        text.extend_from_slice(line)?;
    }
    text.extend_from_slice(tail)?;
    Ok(text)
}

// Texts, and what refuses each, or nothing where it is read and written again byte for byte.
static TEXTS: [(&[u8], Option<CertError>); 38] = [
    (LEAF, None),
    (EACH, None),
    (b"x\ns\n", None),
    (b"x\nb 0\ns\nc 1\ns 3 4\n", None),
    (b"z 1\ns 0 0 0 0\n", None),
    (b"w 0 0 0\n", None),
    (b"z 0\nz 0\n", Some(CertError::Line(2))),
    (b"\n", Some(CertError::Line(1))),
    (b"y\n", Some(CertError::Line(1))),
    (b"t\n", Some(CertError::Line(1))),
    (b"d 2\n", Some(CertError::Line(1))),
    (b"d\n", Some(CertError::Line(1))),
    (b"w 0 1\n", Some(CertError::Line(1))),
    (b"w 0 1 1 1\n", Some(CertError::Line(1))),
    (b"z\n", Some(CertError::Line(1))),
    (b"z 0 \n", Some(CertError::Line(1))),
    (b"x 0\n", Some(CertError::Line(1))),
    (b"x\nx\n", Some(CertError::Line(2))),
    (b"x\ns 0\n", Some(CertError::Line(2))),
    (b"x\ns 0 1 2\n", Some(CertError::Line(2))),
    (b"x\nc\n", Some(CertError::Line(2))),
    (b"x\nc 1 0\n", Some(CertError::Line(2))),
    (b"x\nb\n", Some(CertError::Line(2))),
    (b"w 0 1 0\nt 0\n", Some(CertError::Line(2))),
    (b"w 0 1 0\nm\n", Some(CertError::Line(2))),
    (b"t 1 -0\n", Some(CertError::Line(1))),
    (b"t +1\n", Some(CertError::Line(1))),
    (
        b"t 0 1 2 3 4 5 6 7 8 9 10 11 12 13 14 15 16 17 18 19\n",
        Some(CertError::Line(1)),
    ),
    (
        b"t 170141183460469231731687303715884105728\n",
        Some(CertError::Number(1)),
    ),
    (
        b"t 0 -170141183460469231731687303715884105729\n",
        Some(CertError::Number(1)),
    ),
    (
        b"t 170141183460469231731687303715884105728 x\n",
        Some(CertError::Line(1)),
    ),
    (
        b"d 170141183460469231731687303715884105728 0\n",
        Some(CertError::Number(1)),
    ),
    (b"w 4294967296 0 0\n", Some(CertError::Number(1))),
    (b"w 0 -1 0\n", Some(CertError::Number(1))),
    (b"z 4294967296\n", Some(CertError::Number(1))),
    (b"x\ns -1 1\n", Some(CertError::Number(2))),
    (b"x\ns 4294967296 1 0\n", Some(CertError::Line(2))),
    (b"z 4294967295\ns\n", Some(CertError::Truncated)),
];

#[test]
fn each_line_is_read_back_or_refused_by_its_number(rt: HostRuntime) -> Result<(), Fail> {
    for (text, want) in &TEXTS {
        assert!(rt; refusal(rt.alloc(), text)? == *want);
    }
    Ok(())
}

// A text as lines, so many times further ones, and so on; and what refuses it.
type Nested = (
    &'static [u8],
    &'static [u8],
    u32,
    &'static [u8],
    &'static [u8],
    u32,
    &'static [u8],
    Option<CertError>,
);

static NESTED: [Nested; 7] = [
    // A proof that goes on in its first branch, at its deepest and one line deeper.
    (b"x\n", b"b 0\n", 511, b"s\n", b"s\n", 511, b"", None),
    (
        b"x\n",
        b"b 0\n",
        512,
        b"s\n",
        b"",
        0,
        b"",
        Some(CertError::Deep(514)),
    ),
    (
        b"x\n",
        b"b 0\n",
        513,
        b"",
        b"",
        0,
        b"",
        Some(CertError::Deep(514)),
    ),
    // The words and the numbers of the line that is too deep are judged before.
    (
        b"x\n",
        b"b 0\n",
        512,
        b"y\n",
        b"",
        0,
        b"",
        Some(CertError::Line(514)),
    ),
    (
        b"x\n",
        b"b 0\n",
        512,
        b"s -1 1\n",
        b"",
        0,
        b"",
        Some(CertError::Number(514)),
    ),
    // A tree that goes on in its second branch, and a proof in its deepest leaf that nests as deep.
    (b"", b"t 0\nz 0\n", 511, b"x\n", b"c 1\n", 511, b"s\n", None),
    // The first branch of the deepest test is a level deeper than its limit.
    (
        b"",
        b"t 0\nz 0\n",
        512,
        b"x\ns\n",
        b"",
        0,
        b"",
        Some(CertError::Deep(1024)),
    ),
];

#[test]
fn trees_and_proofs_nest_512_deep(rt: HostRuntime) -> Result<(), Fail> {
    let alloc = rt.alloc();
    for (head, first, times, middle, second, more, tail, want) in &NESTED {
        let front = repeated(alloc, head, first, *times, middle)?;
        let text = repeated(alloc, front.as_slice(), second, *more, tail)?;
        assert!(rt; refusal(alloc, text.as_slice())? == *want);
    }
    Ok(())
}
