//! The texts of networks.
//!
//! Between two calls, or from one step of the main loop to the next: the writer was given a front of the text.
#![tactic(auto)]

mod counts;
mod network_text;
mod numbers;

pub use counts::event_count;
pub use network_text::{
    class_word, kind_word, name_word, write_channel_numbers, write_end, write_net, write_network,
    write_process_numbers, write_version,
};
pub use numbers::{ChannelNumbers, ProcessNumbers};
