ghost use Rattle.std.specs.Prelude.{◌≡◌, ◌<◌, ◌≤◌, ◌+◌, ◌*◌, ◌^◌, [], ◌∷◌, ◌++◌, pos, negsuc, unsigned_abs, length, All, IfOk, OnOk};
ghost use Rattle.std.specs.List.{list_any};
ghost use Rattle.std.specs.Ordering.{int_eq};
ghost use Rattle.tree_sums.specs.Parts.{IsWithin};
ghost use Rattle.tree_cuts.specs.Sources.{cell_source as cell_source_of, cell_sources, cut_of, domain_sources, falls as falls_of, is_turned as turned, next_place as next_place_of, own_sources, places_behind as places_left, row_source as row_source_of, sources_behind, subscript_sources};

use crate::class::{small_stride, stride_of};
use crate::cuts::{Cut, Source};
use affine_core::{Form, Row};
use int_polyhedra::Term;
use plain_data::Items;
use std::alloc::{AllocError, Global};

/// The size of a number.
pub fn size(number: i128) -> i128
    requires { unsigned_abs number ≤ 2 ^ 32 }
    ensures { result ≡ pos (unsigned_abs number) }
{
    if number > 0 { number } else { -number }
}

fn has_less(coefs: &[i128]) -> bool
    ensures { result ≡ list_any (λ c. int_eq c (negsuc 0)) coefs.now }
{
    let Some((coef, coefs)) = coefs.split_first() else {
        return false;
    };
    if *coef == -1 {
        return true;
    }
    has_less(coefs)
}

/// Whether a coefficient is -1.
pub fn falls(form: &Form) -> bool
    ensures { result ≡ falls_of form.now }
{
    has_less(form.coefs.as_slice())
}

// What the Cut of one row adds.
fn of_row(alloc: Global, c: i128, row: u32) -> Result<Source, AllocError>
    requires { unsigned_abs c ≤ 2 ^ 32 }
    ensures { IfOk result (λ source. source ≡ cut_of c (row ∷ [])) }
{
    let mut terms = Items::new(alloc);
    terms.push(Term { row, times: 1 })?;
    Ok(Source::Added(Cut {
        divisor: size(c),
        terms,
    }))
}

// What the Cut of two rows adds.
fn of_rows(alloc: Global, c: i128, first: u32, second: u32) -> Result<Source, AllocError>
    requires { unsigned_abs c ≤ 2 ^ 32 }
    ensures { IfOk result (λ source. source ≡ cut_of c (first ∷ second ∷ [])) }
{
    let mut terms = Items::new(alloc);
    terms.push(Term {
        row: first,
        times: 1,
    })?;
    terms.push(Term {
        row: second,
        times: 1,
    })?;
    Ok(Source::Added(Cut {
        divisor: size(c),
        terms,
    }))
}

/// Where a divided domain row comes from, at a place, or its opposite less 1.
pub fn row_source(alloc: Global, form: &Form, row: u32) -> Result<Source, AllocError>
    requires { IsWithin (2 ^ 32) form.now }
    ensures { IfOk result (λ source. source ≡ row_source_of form.now row) }
{
    match small_stride(form) {
        Some(c) => of_row(alloc, c, row),
        None => Ok(Source::Own(row)),
    }
}

/// Where a row of a subscript over the loop and the quotient comes from: the row of the statement has this number, and the
/// row of the subscript's test that is added to it the other.
pub fn cell_source(alloc: Global, write: &Form, row: u32, test: u32) -> Result<Source, AllocError>
    requires { IsWithin (2 ^ 32) write.now }
    ensures { IfOk result (λ source. source ≡ cell_source_of write.now row test) }
{
    match small_stride(write) {
        Some(c) => of_rows(alloc, c, row, test),
        None => Ok(Source::Own(row)),
    }
}

/// Whether a subscript grows where its loop falls.
pub fn is_turned(write: &Form) -> bool
    ensures { result ≡ turned write.now }
{
    match stride_of(write) {
        Some(c) => c < 0,
        None => falls(write),
    }
}

// Adds the sources of a subscript with a stride.
fn push_stride(
    sources: &mut Items<Source>,
    alloc: Global,
    c: i128,
    above: u32,
    below: u32,
    test: u32,
) -> Result<(), AllocError>
    requires stride { unsigned_abs c ≤ 2 ^ 32 }
    requires test { test < 2 ^ 31 }
    ensures { OnOk result (sources.new
        ≡ sources.old ++ cut_of c (above ∷ test ∷ []) ∷ cut_of c (below ∷ (test + 1) ∷ []) ∷ []) }
{
    let high = of_rows(alloc, c, above, test)?;
    let low = of_rows(alloc, c, below, test + 1)?;
    sources.push_both(high, low)
}

/// Adds where the rows of a subscript over the loops and quotients come from, that it is no less than the read's and that it
/// is no greater.
pub fn push_cell(
    sources: &mut Items<Source>,
    alloc: Global,
    write: &Form,
    first: u32,
    second: u32,
    test: u32,
) -> Result<(), AllocError>
    requires write { IsWithin (2 ^ 32) write.now }
    requires test { test < 2 ^ 31 }
    ensures { OnOk result
        (sources.new ≡ sources.old ++ cell_sources write.now first second test) }
{
    match small_stride(write) {
        Some(c) => {
            if c > 0 {
                return push_stride(sources, alloc, c, first, second, test);
            }
            push_stride(sources, alloc, c, second, first, test)
        }
        None => {
            if falls(write) {
                return sources.push_both(Source::Own(second), Source::Own(first));
            }
            sources.push_both(Source::Own(first), Source::Own(second))
        }
    }
}

// Adds so many rows from this number on.
fn push_own(sources: &mut Items<Source>, first: u32, count: u32) -> Result<(), AllocError>
    requires { first + count < 2 ^ 32 }
    ensures { OnOk result (sources.new ≡ sources.old ++ own_sources first count) }
{
    if count == 0 {
        return Ok(());
    }
    sources.push(Source::Own(first))?;
    push_own(sources, first + 1, count - 1)
}

// Adds the sources of the domain rows, of which the first has this number.
fn push_domain(
    sources: &mut Items<Source>,
    alloc: Global,
    rows: &[Row],
    number: u32,
) -> Result<(), AllocError>
    requires count { number + length rows.now < 2 ^ 32 }
    requires rows { All (IsWithin (2 ^ 32)) rows.now }
    ensures { OnOk result (sources.new ≡ sources.old ++ domain_sources rows.now number) }
{
    let Some((row, rows)) = rows.split_first() else {
        return Ok(());
    };
    sources.push(row_source(alloc, row, number)?)?;
    push_domain(sources, alloc, rows, number + 1)
}

// The place of the next test.
fn next_place(places: &[u32]) -> u32
    ensures { result ≡ next_place_of places.now }
{
    match places.get(0) {
        Some(place) => *place,
        None => 0,
    }
}

/// The places of the tests behind a subscript.
pub fn places_behind<'a>(write: &Form, places: &'a [u32]) -> &'a [u32]
    ensures { result.now ≡ places_left write.now places.now }
{
    if stride_of(write).is_none() {
        return places;
    }
    match places.split_first() {
        Some((_, rest)) => rest,
        None => places,
    }
}

/// The number of the quotient of the next test, behind so many loops of the reader.
pub fn next_quotient(depth: usize, places: &[u32]) -> usize
    requires places { All (λ i. i < 6) places.now }
    requires few { depth ≤ 6 }
    ensures { result ≡ depth + next_place_of places.now }
{
    depth + next_place(places) as usize
}

/// The number of the first row of the next test, behind so many rows of the reader.
pub fn next_test(root: u32, places: &[u32]) -> u32
    requires places { All (λ i. i < 6) places.now }
    requires few { root ≤ 32 }
    ensures { result ≡ root + 2 * next_place_of places.now }
{
    root + 2 * next_place(places)
}

// Adds the sources of the subscripts, whose rows stand from this number on.
fn push_subscripts(
    sources: &mut Items<Source>,
    alloc: Global,
    writes: &[Form],
    number: u32,
    root: u32,
    places: &[u32],
) -> Result<(), AllocError>
    requires count { number + 2 * length writes.now < 2 ^ 31 }
    requires root { root ≤ 32 }
    requires places { All (λ i. i < 6) places.now }
    requires writes { All (IsWithin (2 ^ 32)) writes.now }
    ensures { OnOk result
        (sources.new ≡ sources.old ++ subscript_sources writes.now number root places.now) }
{
    let Some((write, writes)) = writes.split_first() else {
        return Ok(());
    };
    push_cell(
        sources,
        alloc,
        write,
        number,
        number + 1,
        next_test(root, places),
    )?;
    let behind = places_behind(write, places);
    push_subscripts(sources, alloc, writes, number + 2, root, behind)
}

/// Where the rows of a system of a write before the read come from behind `here` rows of the context: the writer's domain rows
/// and subscripts, and `more` order rows. The tests of the write stand at these places behind `root` rows of the reader.
pub fn write_sources(
    alloc: Global,
    rows: &[Row],
    writes: &[Form],
    root: u32,
    places: &[u32],
    here: u32,
    more: u32,
) -> Result<Items<Source>, AllocError>
    requires numbers { (length rows.now ≤ 32) × (length writes.now ≤ 6) }
    requires few { (here ≤ 2 ^ 30) × ((root ≤ 32) × (more ≤ 64)) }
    requires places { All (λ i. i < 6) places.now }
    requires rows { All (IsWithin (2 ^ 32)) rows.now }
    requires writes { All (IsWithin (2 ^ 32)) writes.now }
    ensures { IfOk result
        (λ sources. sources ≡ sources_behind rows.now writes.now root places.now here more) }
{
    let mut sources = Items::new(alloc);
    push_domain(&mut sources, alloc, rows, here)?;
    let cells = here + rows.len() as u32;
    push_subscripts(&mut sources, alloc, writes, cells, root, places)?;
    push_own(&mut sources, cells + 2 * writes.len() as u32, more)?;
    Ok(sources)
}
