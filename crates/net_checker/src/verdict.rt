use channel_class::ChannelClass;
use sanlp::Point;
use source_check::Rule;

/// What a reference was found to name.
#[derive(Drop, PartialEq, Eq)]
pub enum Seen {
    Zero,
    /// A slot that no Get has filled yet.
    Empty,
    /// The value of a point.
    At(Point),
}

/// What a read wants: the value of its last writer, or zero where there is none.
#[derive(Drop, PartialEq, Eq)]
pub enum Wanted {
    Zero,
    At(Point),
}

/// Why a network or its certificate is refused.
#[derive(Drop, PartialEq, Eq)]
pub enum Refusal {
    /// The least process that doesn't keep to the shape, or the number of the nest's processes where the network as a
    /// whole doesn't agree with the nest.
    Shape(u32),
    /// The least process whose fires aren't those of the nest's points, and the place in its script.
    Fires(u32, u32),
    /// The first read whose tree is refused: its statement, its number among the statement's reads, and why. The rule is
    /// `Overflow` where the tree is checked and overflows at a point of the statement, the first of which has this turn.
    Source(u32, u32, Rule),
    /// The number of a schedule's entry that names no process, or one that isn't enabled.
    NotEnabled(u32),
    /// The number of a schedule's entry that is a fire, and what its first wrong reference names and wants.
    Tag(u32, Seen, Wanted),
    /// The least process that isn't at its script's end after the schedule.
    Unended(u32),
    /// The first channel whose class is another one: the class that is said, and that of the channel's uses.
    Class(u32, ChannelClass, ChannelClass),
}

/// The answer of the checker.
#[derive(Drop, PartialEq, Eq)]
pub enum Verdict {
    Accepted,
    Refused(Refusal),
}
