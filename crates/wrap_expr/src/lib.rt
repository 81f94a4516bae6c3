//! Expressions over wrapping 64-bit values.
//!
//! Between two calls, or from one step of the main loop to the next: an expression names no loop and no read that isn't
//! there.
#![tactic(auto)]

mod expr;
mod value;

pub use expr::Expr;
pub use value::eval;
