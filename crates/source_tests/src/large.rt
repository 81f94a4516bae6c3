//! Tests of `last_writer::source_of` on sources whose trees are large: a body with a small limit of its own would give none.

use crate::bound::nest;
use crate::trees::{Kind, all_are_right, joined, node_count};
use std::alloc::{AllocError, Global};
use std::test::Fail;

// A source: its head, what stands for each of so many numbers with `#` for the number, and its tail.
#[derive(Clone, Copy)]
struct Pattern {
    head: &'static [u8],
    each: &'static [u8],
    count: u32,
    tail: &'static [u8],
}

// A source, a statement, a read, how many nodes its tree has at least at a large N, and an N at which each point of each read is
// looked at.
#[derive(Clone, Copy)]
struct Large {
    source: Pattern,
    statement: u32,
    read: u32,
    nodes: usize,
    small: i64,
}

// Adds what stands for a number, of which two digits are written.
fn push_each(text: &mut Vec<u8>, each: &[u8], number: u32) -> Result<(), AllocError> {
    for byte in each {
        if *byte == b'#' {
            text.push(b'0' + (number / 10 % 10) as u8)?;
            text.push(b'0' + (number % 10) as u8)?;
        } else {
            text.push(*byte)?;
        }
    }
    Ok(())
}

fn text_of(alloc: Global, source: &Pattern) -> Result<Vec<u8>, AllocError> {
    let mut text = Vec::from_slice(alloc, source.head)?;
    for number in 0..source.count {
        push_each(&mut text, source.each, number)?;
    }
    text.extend_from_slice(source.tail)?;
    Ok(text)
}

static LARGE: [Large; 5] = [
    // a filter of sixty constant taps
    Large {
        source: Pattern {
            head: b"param N; in x[N]; out y[N]; var h[60]; ",
            each: b"h[#] = #; ",
            count: 60,
            tail: b"for (n = 0; n < N; n++) { y[n] = 0; \
                for (k = 0; k < 60; k++) y[n] = y[n] + h[k] * x[n - k]; }",
        },
        statement: 62,
        read: 1,
        nodes: 100,
        small: 2,
    },
    // forty blocks of a line, the last one first
    Large {
        source: Pattern {
            head: b"param N; out y[N]; var a[N]; ",
            each: b"for (i = 195 - 5 * #; i < 200 - 5 * #; i++) a[i] = #; ",
            count: 40,
            tail: b"for (i = 0; i < N; i++) y[i] = a[i];",
        },
        statement: 40,
        read: 0,
        nodes: 75,
        small: 203,
    },
    // twenty blocks of a plane along its diagonal, the last one first
    Large {
        source: Pattern {
            head: b"param N; out y[N][N]; var a[N][N]; ",
            each: b"for (i = 57 - 3 * #; i < 60 - 3 * #; i++) \
                for (j = 57 - 3 * #; j < 60 - 3 * #; j++) a[i][j] = #; ",
            count: 20,
            tail: b"for (i = 0; i < N; i++) for (j = 0; j < N; j++) y[i][j] = a[i][j];",
        },
        statement: 20,
        read: 0,
        nodes: 100,
        small: 20,
    },
    // eleven boxes that overlap along the diagonal of a space
    Large {
        source: Pattern {
            head: b"param N; out y[N][N][N]; var a[N][N][N]; ",
            each: b"for (i = #; i < # + 11; i++) for (j = #; j < # + 11; j++) \
                for (k = #; k < # + 11; k++) a[i][j][k] = #; ",
            count: 11,
            tail: b"for (i = 0; i < N; i++) for (j = 0; j < N; j++) for (k = 0; k < N; k++) \
                y[i][j][k] = a[i][j][k];",
        },
        statement: 11,
        read: 0,
        nodes: 900,
        small: 3,
    },
    // a sweep over a line in place by six colours
    Large {
        source: Pattern {
            head: b"param N; inout a[N]; for (t = 0; t < 3; t++) { ",
            each: b"for (i = # + 1; i < N - 1; i += 6) a[i] = a[i - 1] + a[i + 1]; ",
            count: 6,
            tail: b"}",
        },
        statement: 7,
        read: 0,
        nodes: 60,
        small: 15,
    },
];

#[test]
fn large_trees_are_made_and_are_right(rt: HostRuntime) -> Result<(), Fail> {
    for case in &LARGE {
        let text = text_of(rt.alloc(), &case.source)?;
        let nest = nest(rt.alloc(), text.as_slice(), 1_000_000)?;
        let tree = joined(rt.alloc(), &nest, case.statement, case.read)?;
        let count = node_count(&tree);
        drop(tree);
        assert!(rt; count >= case.nodes);
        assert!(rt; all_are_right(rt.alloc(), text.as_slice(), case.small, Kind::Joined)?);
    }
    Ok(())
}

// Twelve writers, each beyond a diagonal and beyond a plane, none of them within another.
static BEYOND: Pattern = Pattern {
    head: b"param N; out y; var a[N][N][N]; for (i = 0; i < N; i++) for (j = 0; j < N; j++) \
        for (k = 0; k < N; k++) { ",
    each: b"if (i - j > # && k >= 12 - #) a[i][j][k] = #; ",
    count: 12,
    tail: b"y = a[i][j][k]; }",
};

#[test]
fn a_condition_that_the_others_tell_is_not_asked(rt: HostRuntime) -> Result<(), Fail> {
    let text = text_of(rt.alloc(), &BEYOND)?;
    let nest = nest(rt.alloc(), text.as_slice(), 16)?;
    let tree = joined(rt.alloc(), &nest, 12, 0)?;
    let count = node_count(&tree);
    drop(tree);
    assert!(rt; count < 60);
    Ok(())
}
