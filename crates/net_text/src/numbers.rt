use channel_class::ChannelClass;

/// What the text of a network tells of a process.
#[derive(Clone, Copy)]
pub struct ProcessNumbers {
    /// How often it fires.
    pub fires: u64,
    /// How many slots it has.
    pub slots: u64,
}

/// What the text of a network tells of a channel.
#[derive(Clone, Copy)]
pub struct ChannelNumbers {
    /// The process that writes.
    pub writer: u32,
    /// The process that reads.
    pub reader: u32,
    /// The number of the read that it serves.
    pub read: u32,
    /// How often its writer puts to it.
    pub tokens: u64,
    /// How many tokens its queue has room for.
    pub capacity: u32,
    /// How many slots there are from the least to the greatest that the Gets of it name.
    pub hold: u64,
    pub class: ChannelClass,
}
