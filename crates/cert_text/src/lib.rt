//! The texts of networks with their certificates.
//!
//! Between two calls, or from one step of the main loop to the next: written: a front of the text; read: the list that
//! was read so far, the levels of repeats that are left, and the number of the next line.
#![tactic(auto)]

mod compact;
mod folded;
mod folded_cert;
mod gathering;
mod kept;
mod keys;
mod law;
mod lines;
mod places;
mod reading;
mod writing;

pub use folded_cert::FoldedCert;
pub use law::{reads_what_is_written, what_is_written_stands};
pub use reading::{read_cert, read_folded};
pub use writing::{HasBlocks, ProcessBlocks, write_cert, write_cert_by_blocks};
