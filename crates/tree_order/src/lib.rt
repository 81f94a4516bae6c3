//! Candidates for the last write before a read: the writes of one statement at one level of order, how the points of two
//! statements stand to each other, and proofs of candidates in a joined context (Feautrier 1991).
//!
//! Between two calls, or from one step of the main loop to the next: the loops that are equal so far are shown so both
//! ways.
#![tactic(auto)]

mod absence;
mod candidates;
mod carry;
mod compare;
mod order;
mod seen;
mod walk;

pub use absence::{absence_of, exclusion};
pub use candidates::{Candidate, Read, level_count};
pub use carry::{carried, carried_behind, copy_rows, own_rows, places};
pub use compare::{
    Compared, Comparison, Pair, Question, compare_points, test_of_next_loop, unopened,
};
pub use order::{Equality, Order};
pub use seen::{Absence, Outcome, Position, Seen, best_of, outcome_of};
pub use walk::{Followed, follow};
