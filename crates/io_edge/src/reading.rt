ghost use Rattle.std.specs.Prelude.{◌≡◌, ◌≢◌, ◌≤◌, ◌+◌, length, OnOk, IfOk, Err};
ghost use Rattle.std.specs.Io.KnownBytes.{Consumes, IsAtEnd};
ghost use Rattle.io_edge.specs.Causes.{Rose, ConsumesLength, ConsumesAtMost, ReadsWithin};

use crate::edge::Source;
use std::alloc::Global;
use thiserror::Error;

/// Why not all bytes were read.
#[derive(Clone, Copy, Debug, PartialEq, Eq, Error)]
pub enum ReadError {
    /// A read failed.
    #[error("a read failed")]
    ReadFault,
    /// One byte more than the limit came.
    #[error("the input passes the limit")]
    TooLong,
    /// There was no memory for the bytes.
    #[error("no memory")]
    Memory,
}

/// Reads all bytes to the end of input, where they are at most `limit`. It never takes more than `limit + 1` bytes.
///
/// `TooLong` comes exactly where `limit + 1` bytes came, `ReadFault` only where the source's count rose in this call.
/// Every other answer leaves the count. Every read but the last takes at least one byte.
pub fn read_all<S: Source>(
    alloc: Global,
    source: &mut S,
    limit: usize,
) -> Result<Vec<u8>, ReadError>
    ensures whole { IfOk result
        (λ bytes. Consumes (S.left source.old) (S.left source.new) bytes.items) }
    ensures end { OnOk result (IsAtEnd (S.left source.new)) }
    ensures within { IfOk result (λ bytes. length bytes.items ≤ limit) }

    // What came before each refusal.
    ensures too_long { result ≡ Err ReadError.TooLong →
        ConsumesLength (S.left source.old) (S.left source.new) (limit + 1) }
    ensures read_fault { result ≡ Err ReadError.ReadFault →
        ConsumesAtMost (S.left source.old) (S.left source.new) limit }
    ensures memory { result ≡ Err ReadError.Memory →
        ConsumesAtMost (S.left source.old) (S.left source.new) (limit + 1) }

    // Every read but the last took at least one byte.
    ensures reads { ReadsWithin (S.left source.old) (S.left source.new) (S.reads source.old)
        (S.reads source.new) }

    ensures cause { result ≡ Err ReadError.ReadFault
        → Rose (S.faults source.old) (S.faults source.new) }
    ensures quiet { result ≢ Err ReadError.ReadFault → S.faults source.new ≡ S.faults source.old }
{
    let mut bytes = Vec::new(alloc);
    let mut buffer = [0u8; 4096];
    loop {
        // One byte past the limit is asked for, to tell whether the input ends there.
        let room = (limit - bytes.len()).min(4095) + 1;
        let (front, _) = buffer.split_at_mut(room);
        match source.read(front) {
            Err(_) => return Err(ReadError::ReadFault),
            Ok(0) => return Ok(bytes),
            Ok(count) => {
                let (came, _) = buffer.split_at(count);
                if bytes.extend_from_slice(came).is_err() {
                    return Err(ReadError::Memory);
                }
            }
        }
        if bytes.len() > limit {
            return Err(ReadError::TooLong);
        }
    }
}
