//! Contexts that nothing meets, found by the simplex of a few steps and confirmed by `int_polyhedra`.
#![tactic(auto)]

mod empty;

pub use empty::dead_leaf;
