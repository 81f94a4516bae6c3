//! Numbers that are sought by a hash. Nothing is promised of what is found: it is compared before it is used.

use std::alloc::{AllocError, Global};

/// Where no number stands.
const NONE: u32 = u32::MAX;

/// The least number of places in a table of chains.
const LEAST: usize = 64;

/// The numbers from 0 on, each with a hash. Those whose hashes fall on one place are linked, the latest first.
#[derive(Drop)]
pub(crate) struct Chains {
    latest: Vec<u32>,
    links: Vec<Link>,
}

#[derive(Clone, Copy)]
struct Link {
    hash: u32,
    earlier: u32,
}

/// A hash of these numbers, one after the other.
pub(crate) fn mixed(hash: u32, number: u32) -> u32 {
    (hash.rotate_left(5) ^ number).wrapping_mul(0x9e37_79b1)
}

/// A place for a hash in a table of so many.
pub(crate) fn place_of(hash: u32, count: usize) -> usize {
    (u64::from(hash).wrapping_mul(count as u64) >> 32) as usize
}

// The number, if it is one.
fn some(number: u32) -> Option<u32> {
    if number == NONE { None } else { Some(number) }
}

impl Chains {
    /// No number was seen.
    pub(crate) fn new(alloc: Global) -> Chains {
        Chains {
            latest: Vec::new(alloc),
            links: Vec::new(alloc),
        }
    }

    /// The latest number that may have this hash.
    pub(crate) fn latest(&self, hash: u32) -> Option<u32> {
        match self.latest.get(place_of(hash, self.latest.len())) {
            Some(number) => some(*number),
            None => None,
        }
    }

    /// The number before this one in its chain.
    pub(crate) fn earlier(&self, number: u32) -> Option<u32> {
        match self.links.get(number as usize) {
            Some(link) => some(link.earlier),
            None => None,
        }
    }

    /// Gives the next number this hash.
    pub(crate) fn add(&mut self, alloc: Global, hash: u32) -> Result<(), AllocError> {
        let number = self.links.len();
        self.links.push(Link {
            hash,
            earlier: NONE,
        })?;
        if number >= self.latest.len() {
            self.grow(alloc)?;
        } else {
            self.link(number);
        }
        Ok(())
    }

    // Puts a number in front of its chain.
    fn link(&mut self, number: usize) {
        if number < self.links.len() {
            let place = place_of(self.links[number].hash, self.latest.len());
            if place < self.latest.len() {
                self.links[number].earlier = self.latest[place];
                self.latest[place] = u32::try_from(number).unwrap_or(NONE);
            }
        }
    }

    // Makes a table of twice as many places as there are numbers.
    fn grow(&mut self, alloc: Global) -> Result<(), AllocError> {
        let count = self.links.len().saturating_mul(2).max(LEAST);
        self.latest = vec![in alloc; NONE; count]?;
        for number in 0..self.links.len() {
            self.link(number);
        }
        Ok(())
    }
}
