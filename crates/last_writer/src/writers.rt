ghost use Rattle.std.specs.Prelude.{◌≡◌, ◌<◌, ◌≤◌, ◌≤ℤ◌, ◌+◌, ◌^◌, [], ◌∷◌, ◌++◌, ℕ, pos, List, drop, length, All, None, Some, slice_get, IfOk, IfSome, IsTrue, MatchOption, OnOk};
ghost use Rattle.std.specs.List.{list_all, sum_by};
ghost use Rattle.stride_trees.specs.Writers.{IsPlaceOf, IsReadOf, IsTestAt, IsWriterOf};
ghost use Rattle.last_writer.specs.Writers.{AddsPlaces, AddsTests, AreWriters};
ghost use Rattle.source_tree.specs.Systems.{with_write, write_to as write_of, writes_from, Occurrence};
ghost use Rattle.tree_cuts.specs.Class.{stride_count, writes_strides};
ghost use Rattle.stride_trees.specs.Strides.{read_of, tests_of, write_of as strides_write, AreStrided, IsStrided};
ghost use Rattle.source_tree.specs.References.{occurrence_of};

use plain_data::Items;
use sanlp::{Nest, Statement, common_loops};
use source_tree::Reference;
use std::alloc::{AllocError, Global};
use stride_trees::{Division, NO_PLACE, Strides, Writer, divisions_of, never_divides};
use tree_order::level_count;

/// The statement's write, if it writes this array.
pub fn write_to<'a>(array: u32, number: u32, statement: &'a Statement) -> Option<Reference<'a>>
    ensures { MatchOption result (write_of array number statement.now ≡ None)
        (λ r. write_of array number statement.now ≡ Some (occurrence_of r)) }
{
    let Some(access) = &statement.write else {
        return None;
    };
    if access.array != array {
        return None;
    }
    Some(Reference {
        number,
        statement,
        access,
    })
}

// Whether both tests have one form and one divisor.
fn is_same(first: &Division, second: &Division) -> bool
    ensures form { IsTrue result → first.now.form ≡ second.now.form }
    ensures divisor { IsTrue result → first.now.divisor ≡ second.now.divisor }
{
    if first.divisor != second.divisor {
        return false;
    }
    if first.form.constant != second.form.constant {
        return false;
    }
    first.form.coefs.as_slice() == second.form.coefs.as_slice()
}

// Which of these tests has the form and the divisor of this one. The first has this number.
fn place_among(tests: &[Division], division: &Division, number: u32) -> Option<u32>
    requires { number + length tests.now < 2 ^ 32 }
    ensures { IfSome result (λ place.
        (k : ℕ) × (place ≡ number + k) × IsTestAt tests.now division.now k) }
{
    let (first, tests) = tests.split_first()?;
    if is_same(first, division) {
        return Some(number);
    }
    place_among(tests, division, number + 1)
}

fn copy_of(division: &Division) -> Division
    ensures { result ≡ division.now }
{
    Division {
        subscript: division.subscript,
        rises: division.rises,
        form: division.form.copy(),
        divisor: division.divisor,
    }
}

// Which of the tests this one is. It's added where it is none of them, unless its form alone says no.
fn place_of(tests: &mut Items<Division>, division: &Division) -> Result<u32, AllocError>
    requires few { length tests.old ≤ 12 }
    requires divisor { pos 1 ≤ℤ division.now.divisor }
    ensures place { IfOk result (IsPlaceOf tests.new division.now) }
    ensures tests { OnOk result (AddsTests (division.now ∷ []) tests.old tests.new) }
{
    if never_divides(division) {
        return Ok(NO_PLACE);
    }
    let found = place_among(tests.as_slice(), division, 0);
    match found {
        Some(place) => Ok(place),
        None => {
            let place = tests.len() as u32;
            tests.push(copy_of(division))?;
            Ok(place)
        }
    }
}

// Adds which of the tests each of these is.
fn push_places(
    places: &mut Items<u32>,
    tests: &mut Items<Division>,
    divisions: &[Division],
) -> Result<(), AllocError>
    requires few { length tests.old + length divisions.now ≤ 12 }
    requires divisors { All (λ d. pos 1 ≤ℤ d.divisor) divisions.now }
    ensures places { OnOk result (AddsPlaces tests.new divisions.now places.old places.new) }
    ensures tests { OnOk result (AddsTests divisions.now tests.old tests.new) }
{
    let Some((division, divisions)) = divisions.split_first() else {
        return Ok(());
    };
    let place = place_of(tests, division)?;
    places.push(place)?;
    push_places(places, tests, divisions)
}

fn writer_of<'a>(
    strides: Strides<'a>,
    tests: &mut Items<Division>,
) -> Result<Writer<'a>, AllocError>
    requires strided { IsStrided strides }
    requires few { length tests.old ≤ 6 }
    ensures writer { IfOk result
        (IsWriterOf strides.entry.nest.now (read_of strides.entry) tests.new) }
    ensures strides { IfOk result (λ w. w.strides ≡ strides.entry) }
    ensures tests { OnOk result (AddsTests (tests_of strides.entry) tests.old tests.new) }
{
    let writes = strides.write.access.subscripts.as_slice();
    let reads = strides.read.access.subscripts.as_slice();
    let divisions = divisions_of(strides.alloc, writes, reads)?;
    let mut places = Items::new(strides.alloc);
    push_places(&mut places, tests, divisions.as_slice())?;
    Ok(Writer {
        strides,
        divisions,
        places,
    })
}

// A write before a read, at the outermost level of order.
fn strides_of<'a>(
    alloc: Global,
    nest: &'a Nest,
    read: &Reference<'a>,
    write: &Reference<'a>,
) -> Strides<'a>
    requires { AreStrided nest.now (occurrence_of read.now) (occurrence_of write.now) 0 }
    ensures strided { IsStrided result }
    ensures nest { result.nest.now ≡ nest.now }
    ensures read { read_of result ≡ occurrence_of read.now }
    ensures write { strides_write result ≡ occurrence_of write.now }
{
    let (loops, others) = (&write.statement.loops, &read.statement.loops);
    Strides {
        alloc,
        nest,
        read: *read,
        write: *write,
        common: common_loops(loops.as_slice(), others.as_slice()),
        level: 0,
    }
}

// Adds the write of a statement, if it writes the array and stands before the read at some level.
fn push_writer<'a>(
    writers: &mut Items<Writer<'a>>,
    tests: &mut Items<Division>,
    nest: &'a Nest,
    read: &Reference<'a>,
    number: u32,
    statement: &'a Statement,
) -> Result<(), AllocError>
    requires read { IsReadOf nest.now read.now }
    requires statement { slice_get nest.now.statements number ≡ Some statement.now }
    requires strides { IfSome (write_of read.now.access.now.array number statement.now)
        (λ w. IsTrue (writes_strides w) × (length tests.old + stride_count w ≤ 6)) }
    ensures writers { (before : List Occurrence)
        → AreWriters nest.now (occurrence_of read.now) before tests.old writers.old
        → OnOk result (AreWriters nest.now (occurrence_of read.now) (before ++ with_write
        (write_of read.now.access.now.array number statement.now) []) tests.new writers.new) }
    ensures few { OnOk result (length tests.new ≤ length tests.old + sum_by stride_count
        (with_write (write_of read.now.access.now.array number statement.now) [])) }
{
    let Some(write) = write_to(read.access.array, number, statement) else {
        return Ok(());
    };
    if level_count(&write, read) == 0 {
        return Ok(());
    }
    let alloc = writers.allocator();
    let strides = strides_of(alloc, nest, read, &write);
    writers.push(writer_of(strides, tests)?)
}

/// Adds the writes of these statements to the read's array, each that stands before the read at some level of order, and
/// their tests of divisibility, each once. The first statement has this number.
pub fn push_writers<'a>(
    writers: &mut Items<Writer<'a>>,
    tests: &mut Items<Division>,
    nest: &'a Nest,
    read: &Reference<'a>,
    statements: &'a [Statement],
    number: u32,
) -> Result<(), AllocError>
    requires read { IsReadOf nest.now read.now }
    requires statements { statements.now ≡ drop number nest.now.statements }
    requires count { number + length statements.now < 2 ^ 32 }
    requires strides { IsTrue (list_all writes_strides
        (writes_from read.now.access.now.array number statements.now)) }
    requires few { length tests.old + sum_by stride_count
        (writes_from read.now.access.now.array number statements.now) ≤ 6 }
    ensures { (before : List Occurrence)
        → AreWriters nest.now (occurrence_of read.now) before tests.old writers.old
        → OnOk result (AreWriters nest.now (occurrence_of read.now) (before ++ writes_from
        read.now.access.now.array number statements.now) tests.new writers.new) }
{
    let Some((statement, statements)) = statements.split_first() else {
        return Ok(());
    };
    push_writer(writers, tests, nest, read, number, statement)?;
    push_writers(writers, tests, nest, read, statements, number + 1)
}
