//! The data of arrays as text: the inputs that a program reads, and the answer that it writes.
//!
//! Between two calls, or from one step of the main loop to the next: the records so far have no fault, and each array
//! that they name has its values.
#![tactic(auto)]

mod answer;
mod error;
mod field;
mod inputs;
mod law;
mod reader;
mod record;

pub use answer::write_answer;
pub use error::DataError;
pub use inputs::read_inputs;
pub use law::records_reach_the_end;
