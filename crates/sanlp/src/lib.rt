//! Static affine nested loop programs: their types and their meaning.
//!
//! Between two calls, or from one step of the main loop to the next: whoever has a nest has its facts (`IsWellFormed`),
//! as a ghost field.
#![tactic(auto)]

mod cells;
mod given;
mod law;
mod nest;
mod order;
mod reads;
mod wide;

pub use cells::{capped_count, natural_of};
pub use given::given_value;
pub use law::{
    enumerates_domains, follows_trace, holds_last_writers, is_last_writer, is_value,
    loops_are_bounded_above, orders_compose, sinks_give_arrays, text_is_contiguous,
};
pub use nest::{
    Access, ArrayDecl, Arrays, Inputs, Kind, Nest, Node, Point, Points, Role, Statement, Tag,
};
pub use order::{before, common_loops};
pub use reads::reads_before;
pub use wide::{LOOP_VALUE_LIMIT, add_product, moderate};
