//! The search for an item's kind. How well it finds kinds is not promised: two kinds may hold the same item.

ghost use Rattle.std.specs.Prelude.{◌≡◌, true, Some, length, slice_get, take, IfOk, IfSome};
ghost use Rattle.std.specs.Bool.{OnTrue};

use crate::chains::{Chains, mixed};
use std::alloc::{AllocError, Global};

/// How many kinds may be looked at in vain, besides what each item adds.
const LOOKS: usize = 1_048_576;

/// How many kinds are looked at for each item at most, where no more looks are left.
const FEWEST: usize = 32;

/// How many looks a kind adds that was found by looking.
const GAIN: usize = 64;

/// How many looks an item of a new kind adds.
const SOME: usize = 8;

/// Where the kind of an item is sought: first the kind seen after the last one the last time, and then those whose keys
/// have the same hash, the latest first.
#[derive(Drop)]
pub(crate) struct Finder {
    chains: Chains,
    next: Vec<u32>,
    last: u32,
    looks: usize,
}

impl Finder {
    /// No kind was seen.
    pub(crate) fn new(alloc: Global) -> Finder {
        Finder {
            chains: Chains::new(alloc),
            next: Vec::new(alloc),
            last: 0,
            looks: LOOKS,
        }
    }

    // The kind that was seen after the last one the last time.
    fn guess(&self) -> u32 {
        match self.next.get(self.last as usize) {
            Some(next) => *next,
            None => 0,
        }
    }

    /// Notes the kind of the next item.
    pub(crate) fn follow(&mut self, kind: u32) {
        let last = self.last as usize;
        if last < self.next.len() {
            self.next[last] = kind;
        }
        self.last = kind;
    }

    // Notes a new kind, whose items have this key.
    fn add(&mut self, alloc: Global, key: u32) -> Result<(), AllocError> {
        self.chains.add(alloc, mixed(0, key))?;
        self.next.push(0)?;
        Ok(())
    }

    // Notes how many kinds were looked at, and whether the right one was among them.
    fn pay(&mut self, looks: usize, found: bool) {
        let gain = if found { GAIN } else { SOME };
        self.looks = self.looks.saturating_sub(looks).saturating_add(gain);
    }
}

// Whether the item is of this kind.
fn is_kind<T: Copy + Eq>(kinds: &[T], kind: u32, item: &T) -> bool
    requires { (a b : T) → T.eq a b ≡ true → a ≡ b }
    ensures { OnTrue result (slice_get kinds.now kind ≡ Some item.now) }
{
    match kinds.get(kind as usize) {
        Some(known) => known == item,
        None => false,
    }
}

// The item's kind, if it is found.
fn find_kind<T: Copy + Eq>(finder: &mut Finder, kinds: &[T], key: u32, item: &T) -> Option<u32>
    requires { (a b : T) → T.eq a b ≡ true → a ≡ b }
    ensures { IfSome result (λ kind. slice_get kinds.now kind ≡ Some item.now) }
{
    let guess = finder.guess();
    if is_kind(kinds, guess, item) {
        return Some(guess);
    }
    look_for(finder, kinds, key, item)
}

// The item's kind, if it is found among those whose keys have the same hash.
fn look_for<T: Copy + Eq>(finder: &mut Finder, kinds: &[T], key: u32, item: &T) -> Option<u32>
    requires { (a b : T) → T.eq a b ≡ true → a ≡ b }
    ensures { IfSome result (λ kind. slice_get kinds.now kind ≡ Some item.now) }
{
    let mut candidate = finder.chains.latest(mixed(0, key));
    for looks in 0..finder.looks.max(FEWEST) {
        let Some(kind) = candidate else {
            finder.pay(looks, false);
            return None;
        };
        if is_kind(kinds, kind, item) {
            finder.pay(looks, true);
            return Some(kind);
        }
        candidate = finder.chains.earlier(kind);
    }
    finder.looks = SOME;
    None
}

// Makes the item a new kind.
fn add_kind<T: Copy>(
    finder: &mut Finder,
    kinds: &mut Vec<T>,
    key: u32,
    item: &T,
) -> Result<u32, AllocError>
    ensures kind { IfOk result (λ kind. slice_get kinds.new.items kind ≡ Some item.now) }
    ensures front { take (length kinds.old.items) kinds.new.items ≡ kinds.old.items }
{
    let Ok(kind) = u32::try_from(kinds.len()) else {
        return Err(AllocError);
    };
    let alloc = *kinds.allocator();
    finder.add(alloc, key)?;
    kinds.push(*item)?;
    Ok(kind)
}

/// The number of the item's kind, which is a new one where none is found.
pub(crate) fn kind_of<T: Copy + Eq>(
    finder: &mut Finder,
    kinds: &mut Vec<T>,
    key: u32,
    item: &T,
) -> Result<u32, AllocError>
    requires { (a b : T) → T.eq a b ≡ true → a ≡ b }
    ensures kind { IfOk result (λ kind. slice_get kinds.new.items kind ≡ Some item.now) }
    ensures front { take (length kinds.old.items) kinds.new.items ≡ kinds.old.items }
{
    match find_kind(finder, kinds.as_slice(), key, item) {
        Some(kind) => Ok(kind),
        None => add_kind(finder, kinds, key, item),
    }
}
