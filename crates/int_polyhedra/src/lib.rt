//! Systems of affine rows over whole numbers, and proofs that no whole point meets them.
//!
//! Between two calls, or from one step of the main loop to the next: rows keep their numbers; those that steps add
//! stand behind them.
#![tactic(auto)]

mod parts;
mod refute;
mod rows;
mod steps;
mod system;

pub use parts::{by_cut, by_split};
pub use refute::{entails, refutes};
pub use steps::{divides, negation, quotients};
pub use system::{Proof, Reason, System, Term};
