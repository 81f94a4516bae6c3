//! The program's edge: where bytes come from and where they go.
//!
//! A source or a sink counts its faults, and its count never falls. So a fault that a call answers can be traced to
//! the object that was handed in: it comes only where that object's count rose. A count stands still at 2^64 - 1.
//!
//! Between two calls, or from one step of the main loop to the next: a count of faults never falls, and stands still
//! where nothing failed.
#![tactic(auto)]

mod edge;
mod gate;
mod memory;
mod reading;
mod streams;
mod writing;

pub use edge::{Failed, Sink, Source};
pub use gate::{Gate, Open};
pub use memory::{MemSink, MemSource};
pub use reading::{ReadError, read_all};
pub use streams::{StdIn, StdOut};
pub use writing::{WriteFault, write_all};
