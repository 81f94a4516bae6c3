//! The parts of a bundle, and what follows of their definitions for a bundle that is put together of a source and a
//! certificate.
#![tactic(auto)]

mod law;
mod parts;

pub use law::{
    certified_bundle_has_its_parts, line_end_changes_no_token, line_end_makes_no_separator,
    source_part_has_no_separator,
};
pub use parts::{Parts, parts_of};
