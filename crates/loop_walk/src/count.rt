ghost use Rattle.std.specs.Prelude.{◌≡◌, ◌↔◌, ◌+◌, ◌*◌, ◌+ℤ◌, ◌-ℤ◌, pos, ◌<◌, ◌≤◌, [], ◌∷◌, ◌++◌, length, map, IsTrue, IfOk};
ghost use Rattle.std.specs.List.{list_all};
ghost use Rattle.sanlp.specs.Cells.{natural};
ghost use Rattle.sanlp.specs.Loops.{interval};
ghost use Rattle.sanlp.specs.WellFormed.{all_forms_fit, forms_fit};
ghost use Rattle.sanlp.specs.Size.{size, size_limit, SizeIsOk, is_loop_value};
ghost use Rattle.loop_walk.specs.EnteredLoops.{parts_within};
ghost use Rattle.loop_walk.specs.declared.count.SizeError.TheVariants.{Limit};
ghost use Rattle.loop_walk.specs.Counting.{are_loop_values, capped, counted, counted_node, counted_parts, counted_turn, counted_turns, is_assignment, one_more};

use crate::bounds::{loop_range, rows_hold};
use crate::vector::LoopValues;
use sanlp::{Nest, Node};
use thiserror::Error;

/// The greatest size of a nest.
const SIZE_LIMIT: u64 = 8_388_608;

/// Why a nest is not walked.
#[derive(Clone, Copy, Debug, PartialEq, Eq, Error)]
pub enum SizeError {
    /// The count passes the limit. It is the limit and one.
    #[error("the count passes the limit on the size: it comes to {0}")]
    Limit(u64),
    /// The loop of this number is entered, and one of its forms has a value outside the limit of loop values.
    #[error("loop {0}: a form has a value outside the limit of loop values")]
    LoopValue(u32),
}

/// The number of executed statements and loop turns of a nest.
pub fn size(nest: &Nest) -> Result<u64, SizeError>
    ensures exact { result ≡ counted nest.now }
    ensures size { IfOk result (λ total. (total ≡ size nest.now) × SizeIsOk nest.now) }
    ensures complete { SizeIsOk nest.now → result ≡ Ok (size nest.now) }
    ensures limit { IsTrue (parts_within nest.now.body [])
        → result ≡ Err (Limit (size_limit + 1)) ↔ size_limit < size nest.now }
{
    count_parts(nest.parts(), &LoopValues::empty(), 0)
}

// Counts one more statement or turn.
fn count_one(count: u64) -> Result<u64, SizeError>
    ensures { result ≡ one_more count }
{
    if count < SIZE_LIMIT {
        Ok(count + 1)
    } else {
        Err(SizeError::Limit(SIZE_LIMIT + 1))
    }
}

// Counts the parts of a body, in turn.
#[cycle(count)]
fn count_parts(parts: &[Node], at: &LoopValues, count: u64) -> Result<u64, SizeError>
    requires { IsTrue (all_forms_fit parts.now (length at.now)) }
    ensures { result ≡ counted_parts (map counted_node parts.now) at.now count }
{
    let mut count = count;
    for part in parts {
        count = count_node(part, at, count)?;
    }
    Ok(count)
}

#[cycle(count)]
fn count_node(node: &Node, at: &LoopValues, count: u64) -> Result<u64, SizeError>
    requires { IsTrue (forms_fit node.now (length at.now)) }
    ensures { result ≡ counted_node node.now at.now count }
{
    match node {
        Node::Loop {
            id,
            lower,
            upper,
            step,
            body,
        } => {
            let range = loop_range(lower.as_slice(), upper.as_slice(), *step, at);
            let Some((first, last)) = range else {
                return Err(SizeError::LoopValue(*id));
            };
            count_turns(body.as_slice(), at, first, last, count)
        }
        Node::Guard { rows, body } => {
            if rows_hold(rows.as_slice(), at) {
                count_parts(body.as_slice(), at, count)
            } else {
                Ok(count)
            }
        }
        Node::Assign(_) => count_one(count),
    }
}

// Whether a part is an assignment.
fn is_assignment(part: &Node) -> bool
    ensures { result ≡ is_assignment part.now }
{
    match part {
        Node::Assign(_) => true,
        Node::Loop { .. } | Node::Guard { .. } => false,
    }
}

// Whether each part is an assignment.
fn are_assignments(parts: &[Node]) -> bool
    ensures { result ≡ list_all is_assignment parts.now }
{
    for part in parts {
        if !is_assignment(part) {
            return false;
        }
    }
    true
}

// How many turns a loop has.
fn turns_of(first: i64, last: i64) -> u64
    requires first_within { IsTrue (is_loop_value first) }
    requires last_within { IsTrue (is_loop_value last) }
    ensures { result ≡ natural (last +ℤ pos 1 -ℤ first) }
{
    if last < first {
        0
    } else {
        (last as i128 + 1 - first as i128) as u64
    }
}

// Counts turns that add equally much.
fn count_equal_turns(turns: u64, each: u64, count: u64) -> Result<u64, SizeError>
    ensures { result ≡ capped (count + turns * each) }
{
    let total = count.saturating_add(turns.saturating_mul(each));
    if total <= SIZE_LIMIT {
        Ok(total)
    } else {
        Err(SizeError::Limit(SIZE_LIMIT + 1))
    }
}

// Counts the turns of a loop.
#[cycle(count)]
fn count_turns(
    parts: &[Node],
    at: &LoopValues,
    first: i64,
    last: i64,
    count: u64,
) -> Result<u64, SizeError>
    requires shallow { length at.now < 6 }
    requires first_within { IsTrue (is_loop_value first) }
    requires last_within { IsTrue (is_loop_value last) }
    requires fit { IsTrue (all_forms_fit parts.now (length at.now + 1)) }
    ensures { result
        ≡ counted_turns (map counted_node parts.now) at.now (interval first last) count }
{
    if count <= SIZE_LIMIT && are_assignments(parts) {
        return count_equal_turns(turns_of(first, last), 1 + parts.len() as u64, count);
    }
    let mut count = count;
    for value in first..=last {
        count = count_turn(parts, at, value, count)?;
    }
    Ok(count)
}

// Counts one turn of a loop.
#[cycle(count)]
fn count_turn(parts: &[Node], at: &LoopValues, value: i64, count: u64) -> Result<u64, SizeError>
    requires shallow { length at.now < 6 }
    requires value_within { IsTrue (is_loop_value value) }
    requires fit { IsTrue (all_forms_fit parts.now (length at.now + 1)) }
    ensures { result ≡ counted_turn (map counted_node parts.now) at.now value count }
{
    let count = count_one(count)?;
    count_parts(parts, &at.extended(value), count)
}
