//! The VHDL text of a network, and the pieces of it that the text of a whole design has too.
//!
//! Between two calls: the writer was given a front of the text.
#![tactic(auto)]

mod channels;
mod constants;
mod error;
mod expression;
mod literals;
mod node;
mod text;
mod words;

pub use constants::{
    Column, event_word, value_at, write_column_head, write_entry, write_head, write_tail,
};
pub use error::VhdlError;
pub use expression::{Naming, write_expr};
pub use literals::literal;
pub use node::write_functions;
pub use text::{too_long, too_long_script, write_channels, write_vhdl};
pub use words::{write_all, write_with_number};
