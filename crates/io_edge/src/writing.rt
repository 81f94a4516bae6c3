ghost use Rattle.std.specs.Prelude.{◌≡◌, OnOk, OnErr};
ghost use Rattle.std.specs.Io.KnownBytes.{Appends};
ghost use Rattle.io_edge.specs.Causes.{Rose, AppendsFront};

use crate::edge::Sink;
use thiserror::Error;

/// A sink failed, or took nothing of what was left to write.
#[derive(Clone, Copy, Debug, PartialEq, Eq, Error)]
#[error("the sink failed, or took nothing")]
pub struct WriteFault;

/// Writes the whole piece. It takes no memory.
///
/// At `WriteFault` the sink holds what it held and a front of the piece, and its count rose in this call.
pub fn write_all<K: Sink>(sink: &mut K, piece: &[u8]) -> Result<(), WriteFault>
    ensures ok { OnOk result (Appends (K.held sink.old) (K.held sink.new) piece.now) }
    ensures quiet { OnOk result (K.faults sink.new ≡ K.faults sink.old) }
    ensures front { OnErr result (AppendsFront (K.held sink.old) (K.held sink.new) piece.now) }
    ensures cause { OnErr result (Rose (K.faults sink.old) (K.faults sink.new)) }
{
    let mut at = 0;
    while at < piece.len() {
        let (_, rest) = piece.split_at(at);
        match sink.write(rest) {
            Ok(0) => return Err(WriteFault),
            Ok(count) => at += count,
            Err(_) => return Err(WriteFault),
        }
    }
    Ok(())
}
