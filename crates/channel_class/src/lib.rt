//! The class of a channel: whether its tokens are used in order, and whether some token is used more than once.
//!
//! Between two calls, or from one step of the main loop to the next: no index is repeated so far, and an index is
//! marked exactly where a use before names it; in a sorted copy equal ones stand side by side.
#![tactic(auto)]

ghost use Rattle.std.specs.Prelude.{◌≡◌, ◌<◌, All, IfOk, IsPermutation, IsSorted, IsTrue};
ghost use Rattle.std.specs.Ordering.{nat_cmp};
ghost use Rattle.channel_class.specs.Classes.{class_of, never_falls, has_repeat};

use std::alloc::{AllocError, Global};

/// The order in which a channel's reader uses its tokens.
#[derive(Clone, Copy, Debug, PartialEq, Eq)]
pub enum UseOrder {
    /// No use names an earlier token than the use before it.
    InOrder,
    Reorder,
}

/// The class of a channel. Its four texts are `inorder`, `inorder+`, `reorder` and `reorder+`, where `+` means with
/// multiplicity: some token is used more than once.
#[derive(Clone, Copy, Debug, PartialEq, Eq)]
pub struct ChannelClass {
    pub order: UseOrder,
    pub multiplicity: bool,
}

/// The class of a channel with these uses: for each use, in the reader's order, the index of the token that it names.
/// Where each index is below the number of uses, it takes a byte for each use, and the time of going over them; else it
/// takes memory for one copy of them, and the time of sorting it.
pub fn class_of(alloc: Global, uses: &[u32]) -> Result<ChannelClass, AllocError>
    ensures { IfOk result (λ class. class ≡ class_of uses.now) }
{
    let order = if never_falls(uses) {
        UseOrder::InOrder
    } else {
        UseOrder::Reorder
    };
    let multiplicity = has_repeat(alloc, uses)?;
    Ok(ChannelClass {
        order,
        multiplicity,
    })
}

// Whether an index is repeated.
fn has_repeat(alloc: Global, uses: &[u32]) -> Result<bool, AllocError>
    ensures { IfOk result (λ many. many ≡ has_repeat uses.now) }
{
    if are_below(uses, uses.len()) {
        return has_marked_repeat(alloc, uses, uses.len());
    }
    let sorted = sorted(alloc, uses)?;
    Ok(has_equal_neighbours(&sorted))
}

// Whether each use is below this number.
fn are_below(uses: &[u32], limit: usize) -> bool
    ensures { IsTrue result → All (λ named. named < limit) uses.now }
{
    for named in uses {
        if *named as usize >= limit {
            return false;
        }
    }
    true
}

// Whether an index is repeated, where each is below this number. Each is marked where it is first used.
fn has_marked_repeat(alloc: Global, uses: &[u32], limit: usize) -> Result<bool, AllocError>
    requires { All (λ named. named < limit) uses.now }
    ensures { IfOk result (λ many. many ≡ has_repeat uses.now) }
{
    let mut marks = vec![in alloc; false; limit]?;
    for named in uses {
        if marks[*named as usize] {
            return Ok(true);
        }
        marks[*named as usize] = true;
    }
    Ok(false)
}

// The same numbers in ascending order.
fn sorted(alloc: Global, uses: &[u32]) -> Result<Vec<u32>, AllocError>
    ensures ascending { IfOk result (λ list. IsSorted nat_cmp list.items) }
    ensures same { IfOk result (λ list. IsPermutation uses.now list.items) }
{
    let mut list = Vec::from_slice(alloc, uses)?;
    list.sort_unstable();
    Ok(list)
}

// Whether no use is below the one before it.
fn never_falls(uses: &[u32]) -> bool
    ensures { result ≡ never_falls uses.now }
{
    for at in 1..uses.len() {
        if uses[at] < uses[at - 1] {
            return false;
        }
    }
    true
}

// Whether two neighbours are equal: in a sorted list, whether anything is repeated.
fn has_equal_neighbours(sorted: &[u32]) -> bool
    requires { IsSorted nat_cmp sorted.now }
    ensures { result ≡ has_repeat sorted.now }
{
    for at in 1..sorted.len() {
        if sorted[at] == sorted[at - 1] {
            return true;
        }
    }
    false
}
