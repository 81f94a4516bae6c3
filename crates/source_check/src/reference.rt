ghost use Rattle.std.specs.Prelude.{◌≡◌, None, Some, MatchOption, nat_lt};
ghost use Rattle.sanlp.specs.Order.{common_loops as loops_in_common};
ghost use Rattle.source_tree.specs.Systems.{write_to};
ghost use Rattle.source_tree.specs.References.{occurrence_of};

use affine_core::Form;
use sanlp::{Nest, Statement, common_loops};
use source_tree::Reference;
use std::alloc::Global;

/// The read that a tree is checked for, and the place that is its statement's loops.
#[derive(Clone, Copy)]
pub struct Read<'a> {
    pub alloc: Global,
    pub nest: &'a Nest,
    pub reference: Reference<'a>,
    pub place: &'a [Form],
}

/// What is asked of a write before a read: nothing, or that it comes after a point of another write.
#[derive(Clone, Copy)]
pub enum After<'a> {
    Nothing,
    Point(&'a Reference<'a>, &'a [Form]),
}

/// Two places of which the first is asked to stand before the second: how many loops their statements have in common, and
/// whether the first statement's number is less.
#[derive(Clone, Copy)]
pub struct Order<'a> {
    pub common: usize,
    pub less: bool,
    pub first: &'a [Form],
    pub second: &'a [Form],
}

/// The statement's write, if it writes this array.
pub fn write_of<'a>(array: u32, number: u32, statement: &'a Statement) -> Option<Reference<'a>>
    ensures { MatchOption result (write_to array number statement.now ≡ None)
        (λ r. write_to array number statement.now ≡ Some (occurrence_of r)) }
{
    let Some(access) = &statement.write else {
        return None;
    };
    if access.array != array {
        return None;
    }
    Some(Reference {
        number,
        statement,
        access,
    })
}

/// The order of two places of two statements.
pub fn order_of<'a>(
    first: &Reference,
    at: &'a [Form],
    second: &Reference,
    other: &'a [Form],
) -> Order<'a>
    ensures common { result.common
        ≡ loops_in_common first.now.statement.now.loops second.now.statement.now.loops }
    ensures less { result.less ≡ nat_lt first.now.number second.now.number }
    ensures first { result.first.now ≡ at.now }
    ensures second { result.second.now ≡ other.now }
{
    Order {
        common: common_loops(
            first.statement.loops.as_slice(),
            second.statement.loops.as_slice(),
        ),
        less: first.number < second.number,
        first: at,
        second: other,
    }
}
