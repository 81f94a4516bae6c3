//! Tests of `cert_text`.
use cert_lines::CertError;
use cert_text::{read_cert, read_folded, write_cert};
use io_edge::MemSink;
use std::alloc::{AllocError, Global};
use std::test::Fail;

// Version 1.
const TEXT: &[u8] = b"cert 1\n\
    sizes 3 2 2 7\n\
    process 0 2\n\
    f\n\
    p 0\n\
    process 1 3\n\
    g 0 0\n\
    f 0\n\
    p 1\n\
    process 1 2\n\
    g 1 0\n\
    f 0\n\
    channel 0 1 0 1 inorder\n\
    channel 1 2 0 1 inorder\n\
    sweep\n\
    sweep\n\
    0\n\
    0\n\
    1\n\
    1\n\
    1\n\
    2\n\
    2\n\
    end\n";

// The same in version 2, as it is written.
const FOLDED: &[u8] = b"cert 2\n\
    sizes 3 2 2 3\n\
    process 0 2\n\
    f\n\
    p 0\n\
    process 1 3\n\
    g 0 0\n\
    f 0\n\
    p 1\n\
    process 1 2\n\
    g 1 0\n\
    f 0\n\
    channel 0 1 0 1 inorder\n\
    channel 1 2 0 1 inorder\n\
    sweep\n\
    sweep\n\
    r 2 1\n\
    0\n\
    r 3 1\n\
    1\n\
    r 2 1\n\
    2\n\
    end\n";

// A source as a tree of one leaf, with the proofs that a check of it wants.
const LEAF: &[u8] = b"tree\n\
    w 0 1 5\n\
    m 0 1\n\
    s 0 1 2 1\n\
    s 1 1 2 1\n\
    s 2 1\n\
    s 2 1\n\
    s 5 1 6 1\n";

// A process whose script has repeats, one of which stands in another. It is written by these blocks, and not event by event.
const REPEATS: &[u8] = b"process 0 2\n\
    r 3 2\n\
    f\n\
    p 0\n\
    r 4 2\n\
    r 2 1\n\
    f\n\
    p 0\n";

/// A text with these lines in place of so many from this number on.
fn with_lines(
    alloc: Global,
    text: &[u8],
    number: usize,
    count: usize,
    lines: &[u8],
) -> Result<Vec<u8>, AllocError> {
    let mut changed = Vec::new(alloc);
    for (at, old) in text.split(|byte| *byte == b'\n').enumerate() {
        if at + 1 == number {
            changed.extend_from_slice(lines)?;
        }
        let stays = at + 1 < number || at + 1 >= number.saturating_add(count);
        if stays && !old.is_empty() {
            changed.extend_from_slice(old)?;
            changed.push(b'\n')?;
        }
    }
    Ok(changed)
}

/// Whether the pair that a text stands for is written as another text, or as a front of it where there is less room.
fn is_written_as(alloc: Global, text: &[u8], want: &[u8], room: usize) -> Result<bool, Fail> {
    let (network, cert) = read_cert(alloc, text)?;
    let mut sink = MemSink::new(alloc, room, 7, &[])?;
    let is_whole = write_cert(&network, &cert, &mut sink).is_ok();
    Ok(
        is_whole == (want.len() <= room)
            && sink.held().len() == want.len().min(room)
            && want.starts_with(sink.held()),
    )
}

#[test]
fn a_network_and_its_certificate_are_written_byte_for_byte(rt: HostRuntime) -> Result<(), Fail> {
    let alloc = rt.alloc();
    let leaf = with_lines(alloc, FOLDED, 15, 1, LEAF)?;
    assert!(rt; is_written_as(alloc, leaf.as_slice(), leaf.as_slice(), 1_000)?);
    let repeats = with_lines(alloc, FOLDED, 3, 3, REPEATS)?;
    assert!(rt; is_written_as(alloc, repeats.as_slice(), repeats.as_slice(), 1_000)?);
    for room in [1_000, 175, 174, 7, 0] {
        assert!(rt; is_written_as(alloc, TEXT, FOLDED, room)?);
        assert!(rt; is_written_as(alloc, FOLDED, FOLDED, room)?);
    }
    Ok(())
}

#[test]
fn a_schedule_that_stays_folded_is_the_same(rt: HostRuntime) -> Result<(), Fail> {
    let alloc = rt.alloc();
    for text in [TEXT, FOLDED] {
        let (network, cert) = read_folded(alloc, text)?;
        assert!(rt; cert.rest.schedule.is_empty());
        assert!(rt; cert.schedule.len() == 7);
        let cert = cert.unfold(alloc)?;
        let mut sink = MemSink::new(alloc, 1_000, 7, &[])?;
        assert!(rt; write_cert(&network, &cert, &mut sink).is_ok());
        assert!(rt; sink.held() == FOLDED);
    }
    let large = with_lines(alloc, FOLDED, 17, 6, b"r 142606334 1\n0\n1\n2\n")?;
    let (network, cert) = read_folded(alloc, large.as_slice())?;
    drop(network);
    assert!(rt; cert.schedule.len() == 142_606_336);
    Ok(())
}

/// Why a text is refused where its schedule stays folded, or `None` where it is read.
fn folded_refusal(alloc: Global, text: &[u8]) -> Option<CertError> {
    match read_folded(alloc, text) {
        Ok(pair) => {
            drop(pair);
            None
        }
        Err(error) => Some(error),
    }
}

/// Why a text is refused, or `None` where it is read.
fn refusal(alloc: Global, text: &[u8]) -> Option<CertError> {
    match read_cert(alloc, text) {
        Ok(pair) => {
            drop(pair);
            None
        }
        Err(error) => Some(error),
    }
}

// A text, from which line on how many lines are changed, what stands in their place, and what the text then comes to.
type Change = (
    &'static [u8],
    usize,
    usize,
    &'static [u8],
    Option<CertError>,
);

static CHANGES: [Change; 43] = [
    (TEXT, 15, 1, LEAF, None),
    (TEXT, 16, 1, LEAF, None),
    (TEXT, 24, 1, b"end\n", None),
    (TEXT, 1, 1, b"cert 1\r\n", Some(CertError::Line(1))),
    (TEXT, 2, 1, b"sizes 3 2 2 8\n", Some(CertError::Line(24))),
    (TEXT, 2, 1, b"sizes 3 2 2 6\n", Some(CertError::Line(23))),
    (TEXT, 2, 1, b"sizes 3 2 2\n", Some(CertError::Line(2))),
    (TEXT, 2, 1, b"sizes 3 2 2 7 0\n", Some(CertError::Line(2))),
    (
        TEXT,
        2,
        1,
        b"sizes 4294967296 2 2 x\n",
        Some(CertError::Line(2)),
    ),
    (TEXT, 3, 1, b"process -0 2\n", Some(CertError::Line(3))),
    (TEXT, 3, 1, b"process -5 2\n", Some(CertError::Number(3))),
    (TEXT, 3, 1, b"process 4294967295 2\n", None),
    (TEXT, 4, 1, b"f 0 1 2 3 4 5 z z\n", None),
    (
        TEXT,
        4,
        1,
        b"f 0 1 2 3 4 5 z z z\n",
        Some(CertError::Line(4)),
    ),
    (TEXT, 4, 1, b"f 4294967296 y\n", Some(CertError::Line(4))),
    (TEXT, 4, 1, b"f 4294967296 z\n", Some(CertError::Number(4))),
    (TEXT, 5, 1, b"p 0 0\n", Some(CertError::Line(5))),
    (
        TEXT,
        13,
        1,
        b"channel 0 1 0 1 inorder++\n",
        Some(CertError::Line(13)),
    ),
    (TEXT, 15, 1, b"sweep 1\n", Some(CertError::Line(15))),
    (TEXT, 15, 1, b"tree 0\nz 0\n", Some(CertError::Line(15))),
    (TEXT, 15, 1, b"tree\nz 0\n", None),
    (
        TEXT,
        15,
        1,
        b"tree\nz 4294967296\n",
        Some(CertError::Number(16)),
    ),
    (TEXT, 15, 1, b"tree\nz 0\nz 0\n", Some(CertError::Line(17))),
    (FOLDED, 23, 1, b"end\n", None),
    (FOLDED, 19, 1, b"r 2 1\n", None),
    (FOLDED, 17, 1, b"r 1 1\n", Some(CertError::Number(17))),
    (FOLDED, 17, 1, b"r 2 0\n", Some(CertError::Number(17))),
    (FOLDED, 17, 1, b"r -2 1\n", Some(CertError::Number(17))),
    (
        FOLDED,
        17,
        1,
        b"r 4294967296 1\n",
        Some(CertError::Number(17)),
    ),
    (
        FOLDED,
        17,
        1,
        b"r 4294967296 x\n",
        Some(CertError::Line(17)),
    ),
    (FOLDED, 17, 1, b"r 02 1\n", Some(CertError::Line(17))),
    (FOLDED, 17, 1, b"r 2\n", Some(CertError::Line(17))),
    // A body that runs on to the end, and into the next process.
    (
        FOLDED,
        17,
        1,
        b"r 2 4294967295\n",
        Some(CertError::Line(23)),
    ),
    (
        FOLDED,
        3,
        1,
        b"process 0 1\nr 2 3\n",
        Some(CertError::Line(7)),
    ),
    (FOLDED, 1, 1, b"cert 2 \n", Some(CertError::Line(1))),
    (FOLDED, 17, 1, b"r 4294967295 1\n", Some(CertError::Long(3))),
    (
        FOLDED,
        17,
        2,
        b"r 142606337 1\n0\n",
        Some(CertError::Long(3)),
    ),
    (
        FOLDED,
        3,
        3,
        b"process 0 1\nr 4294967295 1\nr 4294967295 1\nf\n",
        Some(CertError::Long(0)),
    ),
    (
        FOLDED,
        3,
        3,
        b"process 0 1\nr 142606337 1\nf\n",
        Some(CertError::Long(0)),
    ),
    (
        FOLDED,
        3,
        3,
        b"process 0 1\nr 142606336 1\nf\n",
        Some(CertError::Long(1)),
    ),
    (
        FOLDED,
        3,
        3,
        b"process 0 2\nr 142606331 1\nf\np 0\n",
        Some(CertError::Long(2)),
    ),
    (FOLDED, 3, 3, b"process 0 2\nr 142606330 1\nf\np 0\n", None),
    // What is too long is told behind all else.
    (
        FOLDED,
        17,
        7,
        b"r 4294967295 1\n0\n1\n2\nx\n",
        Some(CertError::Line(21)),
    ),
];

#[test]
fn lines_are_judged_one_by_one(rt: HostRuntime) -> Result<(), Fail> {
    let alloc = rt.alloc();
    for (text, number, count, lines, want) in &CHANGES {
        let changed = with_lines(alloc, text, *number, *count, lines)?;
        assert!(rt; refusal(alloc, changed.as_slice()) == *want);
        assert!(rt; folded_refusal(alloc, changed.as_slice()) == *want);
    }
    let whole = with_lines(alloc, TEXT, 15, 1, LEAF)?;
    for len in 0..whole.len() {
        assert!(rt; refusal(alloc, &whole[..len]) == Some(CertError::Truncated));
    }
    Ok(())
}

// A text, from which line on how many lines are changed, what stands in their place: a line, one so many times, and another so
// many times. And what the text then comes to.
type Nested = (
    &'static [u8],
    usize,
    usize,
    &'static [u8],
    (&'static [u8], u32),
    (&'static [u8], u32),
    Option<CertError>,
);

// The source stands in line 15, so that its first Split stands in line 17.
static NESTED: [Nested; 7] = [
    (
        FOLDED,
        3,
        3,
        b"process 0 1\n",
        (b"r 2 1\n", 1),
        (b"f\n", 1),
        None,
    ),
    (
        FOLDED,
        3,
        3,
        b"process 0 1\n",
        (b"r 2 1\n", 20),
        (b"f\n", 1),
        None,
    ),
    (
        FOLDED,
        3,
        3,
        b"process 0 1\n",
        (b"r 2 1\n", 512),
        (b"f\n", 1),
        Some(CertError::Long(0)),
    ),
    (
        FOLDED,
        3,
        3,
        b"process 0 1\n",
        (b"r 2 1\n", 513),
        (b"f\n", 1),
        Some(CertError::Deep(516)),
    ),
    (
        TEXT,
        15,
        1,
        b"tree\nx\n",
        (b"b 0\n", 511),
        (b"s\n", 512),
        None,
    ),
    (
        TEXT,
        15,
        1,
        b"tree\nx\n",
        (b"b 0\n", 512),
        (b"", 0),
        Some(CertError::Line(529)),
    ),
    (
        TEXT,
        15,
        1,
        b"tree\nx\n",
        (b"b 0\n", 513),
        (b"", 0),
        Some(CertError::Deep(529)),
    ),
];

fn lines_of(
    alloc: Global,
    first: &[u8],
    second: (&[u8], u32),
    third: (&[u8], u32),
) -> Result<Vec<u8>, AllocError> {
    let mut lines = Vec::from_slice(alloc, first)?;
    for _ in 0..second.1 {
        lines.extend_from_slice(second.0)?;
    }
    for _ in 0..third.1 {
        lines.extend_from_slice(third.0)?;
    }
    Ok(lines)
}

#[test]
fn repeats_and_proofs_nest_512_deep(rt: HostRuntime) -> Result<(), Fail> {
    let alloc = rt.alloc();
    for (text, number, count, first, second, third, want) in &NESTED {
        let lines = lines_of(alloc, first, *second, *third)?;
        let changed = with_lines(alloc, text, *number, *count, lines.as_slice())?;
        assert!(rt; refusal(alloc, changed.as_slice()) == *want);
    }
    Ok(())
}
