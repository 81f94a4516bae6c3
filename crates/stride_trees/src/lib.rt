//! Trees for writes to every second or every K-th cell: the greatest points of one writer before a read, below tests
//! whether a stride divides what the read's subscript is from it (Pugh 1991).
//!
//! Between two calls, or from one step of the main loop to the next: the tests of a write stand at places, which tell
//! the numbers of their rows and quotients in every context below them.
#![tactic(auto)]

mod always;
mod candidate;
mod common_divisors;
mod contexts;
mod convert;
mod divisions;
mod leaves;
mod never;
mod problem;
mod strides;
mod tests;
mod undivided;
mod writers;

pub use always::{always_divides, no_is_nowhere};
pub use candidate::{stride_candidate, strides_of};
pub use contexts::below_test;
pub use divisions::{Division, divisions_of};
pub use leaves::{Answered, Just, converted, refusal_of};
pub use never::{never_divides, never_write};
pub use problem::{problem_of, told};
pub use strides::Strides;
pub use tests::with_tests;
pub use writers::{NO_PLACE, Writer};
