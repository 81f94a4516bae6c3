use crate::refs::Refs;
use channel_class::ChannelClass;
use plain_data::Items;
use script_blocks::Script;

/// One event of a process.
#[derive(Clone, Copy, Debug, PartialEq, Eq)]
pub enum Event {
    /// Moves the front of a channel's queue to a slot.
    Get { channel: u32, slot: u32 },
    /// Computes the process's next value, from what its references read.
    Fire { refs: Refs },
    /// Appends the value fired last to a channel's queue.
    Put { channel: u32 },
}

/// A process: its number of slots, and its events in order.
#[derive(Drop)]
pub struct Process {
    pub slots: u32,
    pub script: Script<Event>,
}

/// A channel with one writer and one reader. It carries what the reader uses for its read of number `read`, and its
/// queue is never longer than its capacity.
#[derive(Drop)]
pub struct Channel {
    pub writer: u32,
    pub reader: u32,
    pub read: u32,
    pub capacity: u32,
    pub class: ChannelClass,
}

/// A network of processes with bounded channels (Kahn 1974). Processes and channels are numbered in order.
#[derive(Drop)]
pub struct Network {
    pub processes: Items<Process>,
    pub channels: Items<Channel>,
}
