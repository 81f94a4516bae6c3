//! What a tree gives, by numbers of 64 bits as long as none leaves them, and along innermost loops.
//!
//! Between two calls, or from one step of the main loop to the next: the tree gives at each value of a follower's
//! stretch what the stretch's leaf gives.
#![tactic(auto)]

mod follower;
mod leaf;
mod line;
mod row;
mod walk;

pub use follower::Follower;
