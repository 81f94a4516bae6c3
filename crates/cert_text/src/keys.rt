//! Numbers by which items are soon found again among others.

use net_core::{Event, Ref};

/// What has a number by which it is soon found among others. Equal items have the same number; nothing rests on it.
pub(crate) trait Keyed {
    fn key(&self) -> u32;
}

// One number for two.
fn joined(key: u32, number: u32) -> u32 {
    key.rotate_left(5)
        .wrapping_add(number)
        .wrapping_mul(0x9e37_79b1)
}

impl Keyed for Event {
    fn key(&self) -> u32 {
        match self {
            Event::Get { channel, slot } => joined(*channel, *slot),
            Event::Fire { refs } => {
                let mut key = 1;
                for read in 0..refs.len() {
                    key = match refs.at(read) {
                        Ref::Zero => joined(key, 0),
                        Ref::Slot(slot) => joined(key, slot),
                    };
                }
                key
            }
            Event::Put { channel } => joined(2, *channel),
        }
    }
}

/// An entry of a schedule.
impl Keyed for u32 {
    fn key(&self) -> u32 {
        *self
    }
}
