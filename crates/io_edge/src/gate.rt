/// What the workers of a run ask and tell. Neither call has a refusal, and no answer depends on them.
pub trait Gate {
    /// Asked by a worker before it works.
    fn pass(&self, who: u32);

    /// Told each value that a process puts, with the process and the channel, before the put.
    fn moved(&self, who: u32, channel: u32, value: i64);
}

/// The gate whose calls return at once.
#[derive(Clone, Copy, Debug)]
pub struct Open;

impl Gate for Open {
    fn pass(&self, _who: u32) {}

    fn moved(&self, _who: u32, _channel: u32, _value: i64) {}
}
