//! The inputs of a nest from its data.

ghost use Rattle.std.specs.Prelude.{◌≡◌, None, IfOk, length, map, replicate};
ghost use Rattle.sanlp.specs.Access.{HasInputLengths};
ghost use Rattle.sanlp.specs.Cells.{input_count};
ghost use Rattle.plain_data.specs.Answers.{IsUnlessMemory};
ghost use Rattle.array_data.specs.Data.{inputs_of, lists_or_fault, records_of};
ghost use Rattle.array_data.specs.Judging.{IsMissing, IsGivenBy, collected, given_or_missing};

use crate::error::DataError;
use crate::reader::Reader;
use crate::record::take_record;
use plain_data::Items;
use sanlp::{ArrayDecl, Inputs, Nest};
use std::alloc::{AllocError, Global};

fn no_values(alloc: Global, count: usize) -> Result<Items<Option<Items<i64>>>, AllocError>
    ensures { IfOk result (λ given. given ≡ replicate count None) }
{
    let mut given = Items::new(alloc);
    for _ in 0..count {
        given.push(None)?;
    }
    Ok(given)
}

// The values of each array that has a record, or the first fault of a record.
fn read_records(
    alloc: Global,
    arrays: &[ArrayDecl],
    bytes: &[u8],
) -> Result<Items<Option<Items<i64>>>, DataError>
    ensures { IsGivenBy arrays.now (records_of bytes.now) result }
{
    let mut given = no_values(alloc, arrays.len())?;
    let mut reader = Reader::new(bytes);
    let mut field = Items::new(alloc);
    let mut number: u64 = 1;
    while take_record(alloc, arrays, number, &mut reader, &mut field, &mut given)? {
        number += 1;
    }
    Ok(given)
}

// That this array has no record. A number past 32 bits can't be told.
fn missing(array: usize) -> DataError
    ensures { IsMissing array result }
{
    match u32::try_from(array) {
        Ok(array) => DataError::Missing(array),
        Err(_) => DataError::Memory,
    }
}

// The values of the array of this number, which none were given unless it is no input.
fn values_or_missing(
    alloc: Global,
    array: &ArrayDecl,
    number: usize,
    given: Option<Items<i64>>,
) -> Result<Items<i64>, DataError>
    ensures { IsUnlessMemory DataError.Memory result (given_or_missing array.now number given) }
{
    match given {
        Some(values) => Ok(values),
        None => {
            if array.kind.is_input() {
                Err(missing(number))
            } else {
                Ok(Items::new(alloc))
            }
        }
    }
}

// The values of all arrays, or the first input that has none.
fn collect(
    alloc: Global,
    arrays: &[ArrayDecl],
    given: Items<Option<Items<i64>>>,
) -> Result<Items<Items<i64>>, DataError>
    requires { length given ≡ length arrays.now }
    ensures { IsUnlessMemory DataError.Memory result (collected 0 arrays.now given) }
{
    let mut lists = Items::new(alloc);
    for values in given.into_vec() {
        let number = lists.len();
        lists.push(values_or_missing(alloc, &arrays[number], number, values)?)?;
    }
    Ok(lists)
}

/// The values of each array, and none for an array that is no input.
fn read_arrays(
    alloc: Global,
    arrays: &[ArrayDecl],
    bytes: &[u8],
) -> Result<Items<Items<i64>>, DataError>
    ensures exact { IsUnlessMemory DataError.Memory result
        (lists_or_fault arrays.now (records_of bytes.now)) }
    ensures lengths { IfOk result (λ lists. map length lists ≡ map input_count arrays.now) }
{
    let given = read_records(alloc, arrays, bytes)?;
    collect(alloc, arrays, given)
}

/// The inputs of a nest from its data, which is CSV without a header.
///
/// Each record is the name of an `in` or `inout` array, and then the values of its cells in row-major order. Spaces and
/// tabs round a field are dropped. A value is an optional `-` and decimal digits, within 64 signed bits. The records may
/// stand in any order, and `DataError` says which fault decides.
///
/// Records and fields are those of the crate `csv`: CR, LF and CR LF end a record, an empty line is none, a field that
/// begins with a double quote is quoted, and a byte order mark before the first record is dropped.
pub fn read_inputs(alloc: Global, nest: &Nest, bytes: &[u8]) -> Result<Inputs, DataError>
    ensures exact { IsUnlessMemory DataError.Memory result
        (inputs_of nest.now (records_of bytes.now)) }
    ensures lengths { IfOk result (HasInputLengths nest.now) }
{
    Ok(Inputs {
        arrays: read_arrays(alloc, nest.arrays.as_slice(), bytes)?,
    })
}
