//! The network of a nest with least capacities.
//!
//! Between two calls nothing is kept: each network is made anew from its nest.
#![tactic(auto)]

mod networks;

pub use networks::compile_least;
