//! Graphs of differences: the rows on a writer's point as edges between its loop variables and 0, the least sums of their paths
//! (Floyd 1962, Warshall 1962), their cycles through 0, and what the rows of a context tell of a form (Bellman 1958, Ford 1956).
//! Each edge weight is a form over symbolic constants.
//!
//! Its definitions are those that the trees of the difference and the stride class share: the problem of one writer at one level
//! of order, the systems of a leaf, and when a tree is checked for them.
//!
//! Between two calls: each edge of a graph is a row on the writer's point, and each bound is the sum of a path.
#![tactic(auto)]

mod branches;
mod closure;
mod context;
mod cycles;
mod edges;
mod facts;
mod forms;
mod graph;
mod rows;
mod terms;
mod writes;

pub use branches::test;
pub use closure::{Bound, Bounds, Closure, closure_of, form_beyond};
pub use context::Context;
pub use cycles::{Cycle, cycles_of, with_row};
pub use edges::{Edge, edges_of};
pub use facts::{Search, Sign, known, known_by, sign_of};
pub use forms::{difference, negative, opposite, raised, sum};
pub use graph::Graph;
pub use rows::{copied_rows, system_of};
pub use terms::{append, append_from, joined, once, sum_with_row};
pub use writes::{Problem, Writes};
