use std::alloc::AllocError;
use thiserror::Error;

/// Why the data gives no inputs. Records count from 1, and so do the value fields of a record.
///
/// The first record with a fault decides, and in one record the fault that is listed first here.
#[derive(Clone, Copy, Debug, PartialEq, Eq, Error)]
pub enum DataError {
    /// The first field of this record names no `in` or `inout` array.
    #[error("record {0} names no `in` or `inout` array")]
    UnknownArray(u64),
    /// An earlier record has the name of this one.
    #[error("record {0} has the name of an earlier one")]
    Twice(u64),
    /// No record names the array of this number, the first such in declaration order. It comes after all records.
    #[error("no record names array {0}")]
    Missing(u32),
    /// This record has so many values, and its array so many cells.
    #[error("record {0} has {1} values, and its array {2} cells")]
    Count(u64, u64, u64),
    /// In this record this field is no value.
    #[error("record {0}: field {1} is no value")]
    NotANumber(u64, u64),
    /// Want of memory.
    #[error("no memory")]
    Memory,
}

impl From<AllocError> for DataError {
    ghost use Rattle.std.specs.Prelude.{◌≡◌};
    ghost use Rattle.array_data.specs.declared.error.DataError.TheVariants.{Memory};

    ghost from_gives = { λ _ error. error ≡ Memory };

    fn from(_failed: AllocError) -> DataError {
        DataError::Memory
    }
}
