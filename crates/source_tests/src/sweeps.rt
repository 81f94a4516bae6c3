//! Tests of `shadow_sweep`: its table beside a plain program that looks back over all earlier entries.
ghost use Rattle.std.specs.Prelude.{IfOk};
ghost use Rattle.sanlp.specs.Size.{SizeIsOk};

use affine_core::{Form, Vector};
use loop_class::{Params, bind};
use loop_lex::lex;
use loop_parse::parse;
use loop_walk::{Walk, points, size};
use plain_data::Items;
use sanlp::{Access, Nest, Point, Tag};
use shadow_sweep::sweep;
use source_tree::SourceTable;
use std::alloc::{AllocError, Global};
use std::process::Abort;
use std::test::Fail;

/// The value of a form at loop values.
fn value_of(form: &Form, at: &Vector) -> Option<i128> {
    let mut value = form.constant;
    for (coefficient, loop_value) in form.coefs.as_slice().iter().zip(at.as_slice()) {
        let product = coefficient.checked_mul(i128::from(*loop_value))?;
        value = value.checked_add(product)?;
    }
    Some(value)
}

/// Whether two accesses, each at loop values, are of one cell.
fn are_of_one_cell(first: &Access, at: &Vector, second: &Access, other: &Vector) -> bool {
    first.array == second.array
        && first
            .subscripts
            .as_slice()
            .iter()
            .zip(second.subscripts.as_slice())
            .all(|(form, other_form)| value_of(form, at) == value_of(other_form, other))
}

fn writes(nest: &Nest, point: &Point, read: &Access, at: &Vector) -> bool {
    let Some(statement) = nest.statements.get(point.statement as usize) else {
        return false;
    };
    match &statement.write {
        Some(written) => are_of_one_cell(written, &point.at, read, at),
        None => false,
    }
}

/// The process of an entry, and how many earlier entries are of that process.
fn tag_of(trace: &[Point], entry: usize) -> Option<Tag> {
    let process = trace.get(entry)?.statement;
    let mut turn = 0_u32;
    for earlier in trace.iter().take(entry) {
        if earlier.statement == process {
            turn = turn.wrapping_add(1);
        }
    }
    Some(Tag { process, turn })
}

/// The tag of the last of these entries that writes what is read.
fn last_writer(nest: &Nest, earlier: &[Point], read: &Access, at: &Vector) -> Option<Tag> {
    let mut last = None;
    for (entry, point) in earlier.iter().enumerate() {
        if writes(nest, point, read, at) {
            last = Some(entry);
        }
    }
    tag_of(earlier, last?)
}

/// Whether these are the sources of a read at each fire of its process.
fn are_its_sources(
    nest: &Nest,
    trace: &[Point],
    process: usize,
    read: &Access,
    found: &[Option<Tag>],
) -> bool {
    let mut rest = found.iter();
    for (entry, point) in trace.iter().enumerate() {
        if point.statement as usize == process {
            let source = last_writer(nest, &trace[..entry], read, &point.at);
            if rest.next().copied() != Some(source) {
                return false;
            }
        }
    }
    rest.next().is_none()
}

/// Whether this is the table of the trace.
fn is_exact(nest: &Nest, trace: &[Point], table: &[Items<Option<Tag>>]) -> bool {
    let mut rest = table.iter();
    for (process, statement) in nest.statements.as_slice().iter().enumerate() {
        for read in statement.reads.as_slice() {
            let Some(found) = rest.next() else {
                return false;
            };
            if !are_its_sources(nest, trace, process, read, found.as_slice()) {
                return false;
            }
        }
    }
    rest.next().is_none()
}

/// The executed statements, in order.
fn trace_of(alloc: Global, nest: &Nest) -> Result<Vec<Point>, AllocError>
    requires { SizeIsOk nest.now }
{
    let mut trace = Vec::new(alloc);
    let mut walk = Walk::new(alloc, nest)?;
    while let Some(point) = walk.next(nest) {
        trace.push(point)?;
    }
    Ok(trace)
}

fn table_of(alloc: Global, nest: &Nest) -> Result<SourceTable, AllocError>
    requires { SizeIsOk nest.now }
{
    let points = points(alloc, nest)?;
    let table = sweep(alloc, nest, &points);
    drop(points);
    table
}

fn has_exact_table(alloc: Global, nest: &Nest) -> Result<bool, AllocError>
    requires { SizeIsOk nest.now }
{
    let trace = trace_of(alloc, nest)?;
    let Ok(table) = table_of(alloc, nest) else {
        drop(trace);
        return Err(AllocError);
    };
    let exact = is_exact(nest, &trace, table.of.as_slice());
    drop(trace);
    drop(table);
    Ok(exact)
}

/// The nest of a source whose size is within the limit.
fn sized_nest(alloc: Global, source: &[u8], params: &Params) -> Result<Nest, Fail>
    ensures { IfOk result (λ nest. SizeIsOk nest) }
{
    if source.len() > u32::MAX as usize {
        return Err(Fail::new("the source is long"));
    }
    let tokens = lex(alloc, source)?;
    let tree = parse(alloc, source, &tokens)?;
    let bound = bind(alloc, source, &tokens, &tree, params);
    drop(tree);
    let nest = bound?;
    if size(&nest).is_err() {
        drop(nest);
        return Err(Fail::new("the size is past the limit"));
    }
    Ok(nest)
}

fn expect_exact_with(
    rt: &(impl Abort + AllocGlobal),
    source: &[u8],
    values: &[(&[u8], i64)],
    params: &mut Params,
) -> Result<(), Fail> {
    for (name, value) in values {
        params.add(name, *value)?;
    }
    let nest = sized_nest(rt.alloc(), source, params)?;
    let exact = has_exact_table(rt.alloc(), &nest);
    drop(nest);
    assert!(rt; exact?);
    Ok(())
}

/// Expects that the table of a source with these values of its parameters is exact.
fn expect_exact(
    rt: &(impl Abort + AllocGlobal),
    source: &[u8],
    values: &[(&[u8], i64)],
) -> Result<(), Fail> {
    let mut params = Params::empty(rt.alloc());
    let expected = expect_exact_with(rt, source, values, &mut params);
    drop(params);
    expected
}

static SWEPT: [(&[(&[u8], i64)], &[u8]); 20] = [
    // by a loop, and by the text
    (
        &[(b"N", 4)],
        b"param N; out y[N]; var s; for (i = 0; i < N; i++) { s = s + i; y[i] = s; }",
    ),
    (
        &[(b"N", 3)],
        b"param N; out y[N]; var t; for (i = 0; i < N; i++) { y[i] = t; t = i; t = t + 10; }",
    ),
    (
        &[],
        b"out y; var a; for (int i = max(0, 2); i <= min(5, 3); ++i) { if (i >= 3) { a = a + i; } else { a = 10; } } y = -a * min(2, 7);",
    ),
    (
        &[(b"N", 3)],
        b"param N; in x[N]; out s[N]; for (i = 0; i < N; i++) s[i] = s[i-1] + x[i];",
    ),
    // of points in another order, and of one point many times
    (
        &[],
        b"in a[2][2]; out b[2][2]; for (j = 0; j < 2; j++) for (i = 0; i < 2; i++) b[j][i] = a[i][j];",
    ),
    (
        &[],
        b"in x[3]; out b[2][3]; for (i = 0; i < 2; i++) for (j = 0; j < 3; j++) b[i][j] = x[2-j];",
    ),
    (
        &[(b"N", 4)],
        b"param N; in a[N]; out c[N]; var b[N]; for (i = 0; i < N; i++) b[i] = a[i]; for (i = 0; i < N; i++) c[i] = a[i] + b[N-1];",
    ),
    // of two writers, and of none
    (
        &[(b"N", 3)],
        b"param N; in x[N]; out y[N]; var a[N]; for (i = 0; i < N; i++) { if (i < 2) { a[i] = x[i]; } else { a[i] = 0 - x[i]; } } for (i = 0; i < N; i++) y[i] = a[i];",
    ),
    (
        &[(b"N", 3)],
        b"param N; in x[N]; out y[N]; var a[N]; for (i = 0; i < N; i++) a[2*i] = x[i]; for (i = 0; i < N; i++) y[i] = a[i];",
    ),
    (
        &[],
        b"inout v[3]; in w; for (i = 0; i <= 2; i++) v[i] = v[i] * w - v[2];",
    ),
    // at the ends of what loop values and subscripts may be
    (
        &[],
        b"out y[2]; var a[2]; for (i = 1000000000; i <= 1000000001; i++) { a[2 * (i - 1000000000) - 2] = i; y[i - 1000000000] = a[2 * (i - 1000000000) - 2]; }",
    ),
    (
        &[],
        b"out y[1]; for (i = 2147483645; i <= 2147483647; i++) for (j = 2147483647 * i; j <= 2147483647 * i; j++) y[j - 2147483647 * i] = y[j - 2147483647 * i] + j;",
    ),
    (
        &[],
        b"out y; var a[2147483647][2147483647]; a[2147483646][2147483646] = 7; a[0][4194304] = 3; y = a[2147483646][2147483646] * 10 + a[0][4194304];",
    ),
    // loops with steps
    (
        &[(b"N", 6), (b"B", 4)],
        b"param N, B; in x[N]; out y[N]; for (b = 0; b < N; b += B) for (i = b; i < min(b + B, N); i++) y[i] = y[i - 1] + x[i] * b;",
    ),
    (
        &[(b"N", 5)],
        b"param N; inout s[N]; for (i = 1; i < N; i += 2) s[i] = 2 * s[i] - s[i - 1] - s[i + 1]; for (i = 0; i < N; i += 2) s[i] = 8 * s[i] + s[i - 1] + s[i + 1];",
    ),
    // kernels
    (
        &[(b"N", 4)],
        b"param N; in A[N][N], B[N][N]; out C[N][N]; for (i = 0; i < N; i++) for (j = 0; j < N; j++) { C[i][j] = 0; for (k = 0; k < N; k++) C[i][j] = C[i][j] + A[i][k] * B[k][j]; }",
    ),
    (
        &[(b"N", 8), (b"T", 3)],
        b"param N, T; in x[N], h[T]; out y[N]; for (n = 0; n < N; n++) { y[n] = 0; for (k = 0; k < T; k++) { if (k <= n) y[n] = y[n] + h[k] * x[n - k]; } }",
    ),
    (
        &[(b"N", 5), (b"T", 2)],
        b"param N, T; inout a[N][N]; for (t = 0; t < T; t++) for (i = 1; i < N - 1; i++) for (j = 1; j < N - 1; j++) a[i][j] = a[i][j] + a[i - 1][j] + a[i + 1][j] + a[i][j - 1] + a[i][j + 1];",
    ),
    (
        &[(b"N", 5)],
        b"param N; inout d[N][N]; for (k = 0; k < N; k++) for (i = 0; i < N; i++) for (j = 0; j < N; j++) d[i][j] = min(d[i][j], d[i][k] + d[k][j]);",
    ),
    (
        &[(b"N", 4)],
        b"param N; inout a[N][N]; for (j = 0; j < N; j++) { for (k = 0; k < j; k++) a[j][j] = a[j][j] - a[j][k] * a[j][k]; for (i = j + 1; i < N; i++) { for (k = 0; k < j; k++) a[i][j] = a[i][j] - a[i][k] * a[j][k]; a[i][j] = a[i][j] * a[j][j]; } }",
    ),
];

#[test]
fn the_sweep_finds_what_looking_back_finds(rt: HostRuntime) -> Result<(), Fail> {
    for (values, source) in &SWEPT {
        expect_exact(&rt, source, values)?;
    }
    Ok(())
}
