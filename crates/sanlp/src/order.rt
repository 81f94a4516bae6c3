ghost use Rattle.std.specs.Prelude.{◌≡◌, ◌≤◌, length, IsTrue, ◌↔◌};
ghost use Rattle.sanlp.specs.Order.{common_loops as loops_in_common, HasDepth, Precedes};

use crate::nest::{Nest, Point};
use std::cmp::Ordering;

/// Whether the first point is executed before the second: the values of the loops that both statements share are
/// compared lexicographically, and then the numbers of the statements (Feautrier 1991). It takes no memory.
pub fn before(nest: &Nest, a: &Point, b: &Point) -> bool
    requires first { HasDepth nest.now a.now }
    requires second { HasDepth nest.now b.now }
    ensures { IsTrue result ↔ Precedes nest.now a.now b.now }
{
    let first = nest.statement(a.statement);
    let second = nest.statement(b.statement);
    let common = common_loops(first.loops.as_slice(), second.loops.as_slice());
    match a.at.as_slice()[..common].cmp(&b.at.as_slice()[..common]) {
        Ordering::Less => true,
        Ordering::Equal => a.statement < b.statement,
        Ordering::Greater => false,
    }
}

/// How many loops from the outermost on stand round both of two statements with these loops.
pub fn common_loops(first: &[u32], second: &[u32]) -> usize
    ensures value { result ≡ loops_in_common first.now second.now }
    ensures few { result ≤ length first.now }
    ensures second { result ≤ length second.now }
{
    match (first.split_first(), second.split_first()) {
        (Some((k, inner)), Some((l, other))) if k == l => 1 + common_loops(inner, other),
        _ => 0,
    }
}
