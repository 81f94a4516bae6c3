//! Reads whose writers have strides, and the rows of their loops from those over quotients: a subscript `c*i + e` is
//! told by the quotient of what is left of a cell by `c` (Pugh 1991), and a Cut divides a row by a stride.
//!
//! Between two calls, or from one step of the main loop to the next: a row over quotients is a row of the statement's
//! system or one that a Cut of it adds, and Cuts take no row that a Cut added.
#![tactic(auto)]

mod class;
mod cuts;
mod law;
mod sources;

pub use class::{in_stride_class, small_stride, stride_of};
pub use cuts::{Cut, Source, converted};
pub use law::{converted_sums_are_cut_sums, converted_sums_refute, differences_are_strides};
pub use sources::{
    cell_source, falls, is_turned, next_quotient, next_test, places_behind, push_cell, row_source,
    size, write_sources,
};
