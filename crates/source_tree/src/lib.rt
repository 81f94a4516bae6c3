//! Certificates, and where the reads of a nest have their values from.
//!
//! Between two calls, or from one step of the main loop to the next: the table has one entry for each fire of each
//! read.
#![tactic(auto)]

mod cert;
mod law;
mod reference;
mod table;
mod tree;
mod walk;

pub use cert::{Cert, Origin};
pub use law::gives_last_writers;
pub use reference::Reference;
pub use table::SourceTable;
pub use tree::{Found, Tree};
pub use walk::eval;
