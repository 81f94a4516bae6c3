use net_text::{ChannelNumbers, ProcessNumbers};
use plain_data::Items;

/// What the text of a network tells.
#[derive(Drop)]
pub struct NetworkNumbers {
    pub processes: Items<ProcessNumbers>,
    pub channels: Items<ChannelNumbers>,
    /// The number of events of all scripts together.
    pub events: u64,
}
