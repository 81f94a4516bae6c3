use thiserror::Error;

/// Why the text wasn't written.
#[derive(Clone, Copy, Debug, PartialEq, Eq, Error)]
pub enum VhdlError {
    /// The script of this process has so many events, more than 65,536. It is the first such process.
    #[error("the script of process {0} has {1} events, more than 65536")]
    ScriptTooLong(u32, u64),
    /// The sink failed, or took nothing of what was left to write.
    #[error("the sink failed, or took nothing")]
    WriteFault,
}
