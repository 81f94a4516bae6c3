//! Tests of which reads are in the stride class, and which in the difference class.

use crate::bound::nest;
use crate::programs::{BACKWARDS, GUARDED, PRODUCT, RUNNING_SUM, STENCIL, STEPPED, STRIDED};
use last_writer::in_difference_class;
use std::alloc::Global;
use std::test::Fail;
use tree_cuts::in_stride_class;

const OF_A_SUM: &[u8] = b"param N; in x[N]; out y[N]; var a[N]; \
    for (i = 0; i < N; i++) for (j = 0; j < N; j++) a[i + j] = x[i]; \
    for (i = 0; i < N; i++) y[i] = a[i];";

const OF_A_CONSTANT: &[u8] = b"param N; out y[N]; var a[N]; \
    for (i = 0; i < N; i++) a[0*i + 4] = i; for (i = 0; i < N; i++) y[i] = a[i];";

// A row of two variables with coefficients 2 and -1.
const SLOPED: &[u8] = b"param N; out y[N]; var a[N]; \
    for (i = 0; i < N; i++) for (j = 0; j <= 2*i; j++) a[j] = i; \
    for (i = 0; i < N; i++) y[i] = a[i];";

// A row of two variables with coefficients 1 and 1.
const SUMMED: &[u8] = b"param N; out y[N]; var a[N]; \
    for (i = 0; i < N; i++) for (j = 0; j < N - i; j++) a[2*j] = i; \
    for (i = 0; i < N; i++) y[i] = a[i];";

// A row of two variables with coefficients 1 and -1, and one of three.
const TRIANGULAR: &[u8] = b"param N; out y[N]; var a[N]; \
    for (i = 0; i < N; i++) for (j = 0; j <= i; j++) a[5 - 4*j] = i; \
    for (i = 0; i < N; i++) y[i] = a[i];";

const OF_THREE: &[u8] = b"param N; out y[N]; var a[N]; \
    for (i = 0; i < N; i++) for (j = 0; j < N; j++) for (k = 0; k <= i - j; k++) a[k] = i; \
    for (i = 0; i < N; i++) y[i] = a[i];";

// Two writers, each of which is enough to leave the class.
const TWO_WRITERS: &[u8] = b"param N; out y[N]; var a[N]; \
    for (i = 0; i < N; i++) { a[2*i] = i; a[-3*i] = i; } for (i = 0; i < N; i++) y[i] = a[i];";

const LATER_OUTSIDE: &[u8] = b"param N; out y[N]; var a[N]; \
    for (i = 0; i < N; i++) for (j = 0; j < N; j++) { a[2*i] = i; a[i - j] = i; } \
    for (i = 0; i < N; i++) y[i] = a[i];";

const EARLIER_OUTSIDE: &[u8] = b"param N; out y[N]; var a[N]; \
    for (i = 0; i < N; i++) for (j = 0; j < N; j++) { a[2*i + j] = i; a[2*i] = i; } \
    for (i = 0; i < N; i++) y[i] = a[i];";

const SIX: &[u8] = b"param N; out y[N]; var a[N][N][N]; \
    for (i = 0; i < N; i++) { a[2*i][3*i][4*i] = i; a[-2*i][i][2*i] = i; a[7*i][-i][2] = i; } \
    for (i = 0; i < N; i++) y[i] = a[i][i][i];";

const SEVEN: &[u8] = b"param N; out y[N]; var a[N][N][N]; \
    for (i = 0; i < N; i++) { a[2*i][3*i][4*i] = i; a[-2*i][i][2*i] = i; a[7*i][-i][2*i] = i; } \
    for (i = 0; i < N; i++) y[i] = a[i][i][i];";

const SIX_OF_ONE: &[u8] = b"param N; out y[N]; var a[N][N][N][N][N][N]; \
    for (i = 0; i < N; i++) a[2*i][2*i][2*i][2*i][2*i][-2*i] = i; \
    for (i = 0; i < N; i++) y[i] = a[i][i][i][i][i][i];";

const SEVEN_OF_TWO: &[u8] = b"param N; out y[N]; var a[N][N][N][N][N][N]; \
    for (i = 0; i < N; i++) a[i][i][i][i][i][2*i] = i; \
    for (i = 0; i < N; i++) a[2*i][2*i][2*i][2*i][2*i][2*i] = i; \
    for (i = 0; i < N; i++) y[i] = a[i][i][i][i][i][i];";

// Of another array that the statement writes no more is asked.
const OTHER_ARRAY: &[u8] = b"param N; out y[N]; var a[N], b[N]; \
    for (i = 0; i < N; i++) for (j = 0; j < N; j++) { b[i + j] = i; a[j] = i; } \
    for (i = 0; i < N; i++) y[i] = a[i + 2*i] + b[0];";

const UNWRITTEN: &[u8] = b"param N; out y[N]; var a; for (i = 0; i < N; i++) y[i] = a;";

// Sources, a statement, a read, whether it is in the stride class, and whether in the difference class.
static CLASSES: [(&[u8], u32, u32, bool, bool); 32] = [
    (STRIDED, 1, 0, true, true),
    (STRIDED, 2, 0, true, false),
    (STRIDED, 3, 0, true, true),
    (STEPPED, 1, 0, true, true),
    (STEPPED, 2, 0, true, false),
    (RUNNING_SUM, 1, 0, true, true),
    (RUNNING_SUM, 1, 1, true, true),
    (PRODUCT, 3, 0, true, true),
    (PRODUCT, 3, 2, true, true),
    (STENCIL, 1, 5, true, true),
    (OF_A_SUM, 1, 0, true, true),
    (OF_A_SUM, 2, 0, false, false),
    (BACKWARDS, 1, 0, true, false),
    (OF_A_CONSTANT, 1, 0, true, true),
    (GUARDED, 1, 0, true, false),
    (SLOPED, 1, 0, false, false),
    (SUMMED, 1, 0, false, false),
    (TRIANGULAR, 1, 0, true, false),
    (OF_THREE, 1, 0, false, false),
    (TWO_WRITERS, 2, 0, true, false),
    (LATER_OUTSIDE, 2, 0, false, false),
    (EARLIER_OUTSIDE, 2, 0, false, false),
    (SIX, 3, 0, true, false),
    (SEVEN, 3, 0, false, false),
    (SIX_OF_ONE, 1, 0, true, false),
    (SEVEN_OF_TWO, 2, 0, false, false),
    (OTHER_ARRAY, 2, 0, true, true),
    (OTHER_ARRAY, 2, 1, false, false),
    (UNWRITTEN, 0, 0, true, true),
    // what is not there
    (STRIDED, 0, 0, false, false),
    (STRIDED, 1, 1, false, false),
    (STRIDED, u32::MAX, u32::MAX, false, false),
];

// In which of the two a read is; in none where it is not there.
fn classes_of(
    alloc: Global,
    source: &[u8],
    statement: u32,
    read: u32,
) -> Result<(bool, bool), Fail> {
    let nest = nest(alloc, source, 5)?;
    let by_strides = in_stride_class(&nest, statement, read);
    let Some(reader) = nest.statements.get(statement as usize) else {
        return Ok((by_strides, false));
    };
    if read as usize >= reader.reads.len() {
        return Ok((by_strides, false));
    }
    Ok((by_strides, in_difference_class(&nest, statement, read)))
}

#[test]
fn the_classes_are_those_of_strides_and_of_differences(rt: HostRuntime) -> Result<(), Fail> {
    for (source, statement, read, by_strides, by_differences) in &CLASSES {
        let found = classes_of(rt.alloc(), source, *statement, *read)?;
        assert!(rt; found == (*by_strides, *by_differences));
    }
    Ok(())
}
