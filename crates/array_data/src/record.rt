//! The judgement of one record.

ghost use Rattle.std.specs.Prelude.{◌≡◌, ◌<◌, ◌&&◌, ◌∷◌, ◌++◌, [], List, ℕ, Option, Some, IfOk, IfSome, OnOk, bytes_eq, length, min};
ghost use Rattle.csv.specs.Machine.{Read};
ghost use Rattle.sanlp.specs.Cells.{is_input};
ghost use Rattle.plain_data.specs.Answers.{IsUnlessMemory};
ghost use Rattle.array_data.specs.Data.{array_named as number_named};
ghost use Rattle.array_data.specs.Judging.{IsCountFault, most_for, taken, values_taken};
ghost use Rattle.array_data.specs.Reading.{AreOf, AreRead, IsLeft, TakesNext, record_left, text_of};

use crate::error::DataError;
use crate::field::{value_of, without_blanks};
use crate::reader::Reader;
use plain_data::Items;
use sanlp::{ArrayDecl, capped_count};
use std::alloc::{AllocError, Global};

fn is_named(array: &ArrayDecl, name: &[u8]) -> bool
    ensures { result ≡ (is_input array.now.kind && bytes_eq array.now.name name.now) }
{
    array.kind.is_input() && array.name.as_slice() == name
}

// The number of the input array of this name.
fn array_named(arrays: &[ArrayDecl], name: &[u8]) -> Option<usize>
    ensures number { result ≡ number_named arrays.now name.now }
    ensures within { IfSome result (λ number. number < length arrays.now) }
{
    for (number, array) in arrays.iter().enumerate() {
        if is_named(array, name) {
            return Some(number);
        }
    }
    None
}

/// What is kept of a record: how many values it has, and the first ones of them up to the first field that is none.
#[derive(Drop)]
struct Values {
    count: u64,
    values: Items<i64>,
    fault: Option<u64>,
}

impl Values {
    fn none(alloc: Global) -> Values
        ensures { (most : ℕ) → AreOf most [] result }
    {
        Values {
            count: 0,
            values: Items::new(alloc),
            fault: None,
        }
    }

    /// Counts one more field, and keeps its value if it is among the first so many and no field before it was none.
    fn add(&mut self, most: u64, field: &[u8]) -> Result<(), AllocError>
        ensures { OnOk result ((fields : List (List ℕ)) → AreOf most fields self.old →
            AreOf most (fields ++ field.now ∷ []) self.new) }
    {
        self.count = self.count.saturating_add(1);
        if self.count > most || self.fault.is_some() {
            return Ok(());
        }
        match value_of(without_blanks(field)) {
            Some(value) => self.values.push(value),
            None => {
                self.fault = Some(self.count);
                Ok(())
            }
        }
    }
}

/// The values of the record whose first field, which may be its only one, was read just now; or `None` where there is no record. At
/// most so many are kept, so that a record takes no memory for what its array can't take.
fn read_values(
    alloc: Global,
    most: u64,
    is_only: bool,
    reader: &mut Reader,
    field: &mut Items<u8>,
) -> Result<Option<Values>, AllocError>
    ensures { IfOk result (λ row. (read : Option Read) (fields : List (List ℕ)) →
        IsLeft read (Some is_only) (text_of reader.old) fields →
        AreRead most read row (text_of reader.new) fields) }
{
    let mut row = Values::none(alloc);
    let mut is_last = is_only;
    while !is_last {
        let Some(ends) = reader.next_field(field)? else {
            return Ok(None);
        };
        is_last = ends;
        row.add(most, field.as_slice())?;
    }
    Ok(Some(row))
}

// How many values the array of this number takes at most.
fn most_values(arrays: &[ArrayDecl], array: Option<usize>) -> u64
    requires { IfSome array (λ number. number < length arrays.now) }
    ensures { result ≡ most_for arrays.now array }
{
    match array {
        Some(array) => capped_count(arrays[array].extents.as_slice()) as u64,
        None => 0,
    }
}

// Why a record with so many values is refused. A number from 2^64 - 1 on can't be told.
fn count_fault(number: u64, got: u64, want: u64) -> DataError
    ensures { IsCountFault number got want result }
{
    if got < u64::MAX && want < u64::MAX {
        DataError::Count(number, got, want)
    } else {
        DataError::Memory
    }
}

// The values of the record of this number, or why it is refused. Its array takes at most so many values, and was given some before
// or not.
fn values_for(most: u64, number: u64, is_given: bool, row: Values) -> Result<Items<i64>, DataError>
    ensures { (cells : ℕ) (name : List ℕ) (fields : List (List ℕ)) →
        most ≡ min cells u64.MAX → AreOf most fields row →
        IsUnlessMemory DataError.Memory result (values_taken cells number is_given (name ∷ fields)) }
{
    if is_given {
        return Err(DataError::Twice(number));
    }
    let Values {
        count,
        values,
        fault,
    } = row;
    if count != most || most == u64::MAX {
        return Err(count_fault(number, count, most));
    }
    match fault {
        Some(at) => Err(DataError::NotANumber(number, at)),
        None => Ok(values),
    }
}

/// Reads the next record, which has this number, into what `field` holds, field by field. Judges it, and keeps its values at the
/// number of its array; or answers that there is none. There is a place for each array.
pub(crate) fn take_record(
    alloc: Global,
    arrays: &[ArrayDecl],
    number: u64,
    reader: &mut Reader,
    field: &mut Items<u8>,
    given: &mut Items<Option<Items<i64>>>,
) -> Result<bool, DataError>
    requires { length given.old ≡ length arrays.now }
    ensures { TakesNext result (record_left (text_of reader.old) []) (text_of reader.new)
        given.old given.new (λ row. taken arrays.now number row given.old) }
{
    let Some(is_only) = reader.next_field(field)? else {
        return Ok(false);
    };
    let array = array_named(arrays, without_blanks(field.as_slice()));
    let most = most_values(arrays, array);
    let Some(row) = read_values(alloc, most, is_only, reader, field)? else {
        return Ok(false);
    };
    let Some(array) = array else {
        return Err(DataError::UnknownArray(number));
    };
    let is_given = given.as_slice()[array].is_some();
    let values = values_for(most, number, is_given, row)?;
    given.set(array, Some(values));
    Ok(true)
}
