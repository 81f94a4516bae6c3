ghost use Rattle.std.specs.Prelude.{◌≡◌, IfOk, OnOk};
ghost use Rattle.source_check.specs.Making.{less_of, system_with, FormIsOver, IsMadeOver};
ghost use Rattle.source_check.specs.Tests.{after_all, after_one, made_both, made_differ, leaf_result, made_order, made_outside, rule_of, with_loop as with_loop_of};
ghost use Rattle.source_check.specs.Verdict.{refusal_of};

use crate::make::Space;
use crate::path::Path;
use crate::reference::Order;
use crate::systems::copy;
use crate::verdict::Rule;
use affine_core::{Form, Row};
use int_polyhedra::{Proof, Reason, System, refutes};
use std::alloc::AllocError;

/// A leaf of a tree: its number, how many variables there are, the path to it, and its proofs.
#[derive(Clone, Copy)]
pub struct Leaf<'a> {
    pub number: u64,
    pub vars: u32,
    pub path: &'a Path<'a>,
    pub proofs: &'a [Proof],
}

/// How many systems of a leaf were tested, at most 2^64 - 1, and the rule of the first proof that doesn't refute its
/// system.
#[derive(Drop)]
pub struct Tested {
    pub count: u64,
    pub rule: Option<Rule>,
}

/// What refuses a proof of the system.
pub fn refusal(space: &Space, system: &Option<System>, proof: &Proof) -> Option<Reason>
    requires { IsMadeOver space.now.vars system.now }
    ensures { result ≡ refusal_of system.now proof.now }
{
    match system {
        Some(system) => refutes(system, proof).err(),
        None => Some(Reason::Overflow),
    }
}

// The rule of the leaf's proof of this number, if there is one and it doesn't refute the system.
fn rule_at(space: &Space, leaf: &Leaf, system: &Option<System>, number: u64) -> Option<Rule>
    requires { IsMadeOver space.now.vars system.now }
    ensures { result ≡ rule_of leaf.now system.now number }
{
    let proof = leaf.proofs.get(number as usize)?;
    let reason = refusal(space, system, proof)?;
    Some(Rule::Proof(leaf.number, number, reason))
}

/// Tests the leaf's next proof with this system.
pub fn test(space: &Space, leaf: &Leaf, system: &Option<System>, tested: &mut Tested)
    requires { IsMadeOver space.now.vars system.now }
    ensures { tested.new ≡ after_one leaf.now tested.old system.now }
{
    if tested.rule.is_none() {
        tested.rule = rule_at(space, leaf, system, tested.count);
    }
    tested.count = tested.count.saturating_add(1);
}

/// What refuses the leaf: first that it has not as many proofs as systems.
pub fn leaf_rule(leaf: &Leaf, tested: Tested) -> Option<Rule>
    ensures { result ≡ leaf_result leaf.now tested }
{
    let Tested { count, rule } = tested;
    let got = leaf.proofs.len() as u64;
    if got == count {
        rule
    } else {
        Some(Rule::Proofs(leaf.number, got, count))
    }
}

/// The systems that say that a place is outside a domain.
pub fn test_outside(
    space: &Space,
    leaf: &Leaf,
    context: &Option<System>,
    rows: &[Row],
    place: &[Form],
    tested: &mut Tested,
) -> Result<(), AllocError>
    requires { IsMadeOver space.now.vars context.now }
    ensures { OnOk result
        (tested.new ≡ after_all leaf.now tested.old
        (made_outside space.now.vars context.now rows.now place.now)) }
{
    let Some((row, rows)) = rows.split_first() else {
        return Ok(());
    };
    let outside = space.below_zero(&space.at_place(row, place));
    let system = space.with_row(copy(space.alloc, context)?, outside)?;
    test(space, leaf, &system, tested);
    test_outside(space, leaf, context, rows, place, tested)
}

// The system that one number is less than another.
fn where_less(
    space: &Space,
    context: &Option<System>,
    least: &Option<Form>,
    most: &Option<Form>,
) -> Result<Option<System>, AllocError>
    requires context { IsMadeOver space.now.vars context.now }
    requires least { FormIsOver space.now.vars least.now }
    requires most { FormIsOver space.now.vars most.now }
    ensures value { IfOk result
        (λ system. system ≡ system_with context.now (less_of space.now.vars least.now most.now)) }
    ensures over { IfOk result (λ system. IsMadeOver space.now.vars system) }
{
    let row = space.one_less(&space.minus(most, least));
    space.with_row(copy(space.alloc, context)?, row)
}

/// The systems that say that a place writes another cell than the one that is read.
pub fn test_cell(
    space: &Space,
    leaf: &Leaf,
    context: &Option<System>,
    writes: &[Form],
    reads: &[Form],
    place: &[Form],
    tested: &mut Tested,
) -> Result<(), AllocError>
    requires { IsMadeOver space.now.vars context.now }
    ensures { OnOk result
        (tested.new ≡ after_all leaf.now tested.old
        (made_differ space.now.vars context.now writes.now reads.now place.now)) }
{
    let (Some((write, writes)), Some((read, reads))) = (writes.split_first(), reads.split_first())
    else {
        return Ok(());
    };
    let written = space.at_place(write, place);
    let wanted = space.taken(read);
    test(
        space,
        leaf,
        &where_less(space, context, &wanted, &written)?,
        tested,
    );
    test(
        space,
        leaf,
        &where_less(space, context, &written, &wanted)?,
        tested,
    );
    test_cell(space, leaf, context, writes, reads, place, tested)
}

// The system with the rows that two loops have one value.
fn with_loop(
    space: &Space,
    system: Option<System>,
    v: &Form,
    w: &Form,
) -> Result<Option<System>, AllocError>
    requires { IsMadeOver space.now.vars system }
    ensures { IfOk result
        (λ more. more ≡ with_loop_of space.now.vars system v.now w.now) }
{
    space.with_equal(system, &space.taken(v), &space.taken(w))
}

/// The systems of each level of an order.
pub fn test_levels(
    space: &Space,
    leaf: &Leaf,
    system: Option<System>,
    order: &Order,
    tested: &mut Tested,
) -> Result<(), AllocError>
    requires { IsMadeOver space.now.vars system }
    ensures { OnOk result
        (tested.new ≡ after_all leaf.now tested.old
        (made_order space.now.vars system order.now)) }
{
    if order.common == 0 {
        if order.less {
            test(space, leaf, &system, tested);
        }
        return Ok(());
    }
    let (Some((v, first)), Some((w, second))) = (
        order.first.split_first(),
        order.second.split_first(),
    ) else {
        return Ok(());
    };
    test(
        space,
        leaf,
        &where_less(space, &system, &space.taken(v), &space.taken(w))?,
        tested,
    );
    let inner = Order {
        common: order.common - 1,
        less: order.less,
        first,
        second,
    };
    test_levels(space, leaf, with_loop(space, system, v, w)?, &inner, tested)
}

/// The systems of each level of one order and each level of another.
pub fn test_both(
    space: &Space,
    leaf: &Leaf,
    system: Option<System>,
    order: &Order,
    further: &Order,
    tested: &mut Tested,
) -> Result<(), AllocError>
    requires { IsMadeOver space.now.vars system }
    ensures { OnOk result
        (tested.new ≡ after_all leaf.now tested.old
        (made_both space.now.vars system order.now.common order.now.less order.now.first.now
        order.now.second.now further.now)) }
{
    if order.common == 0 {
        if order.less {
            return test_levels(space, leaf, system, further, tested);
        }
        return Ok(());
    }
    let (Some((v, first)), Some((w, second))) = (
        order.first.split_first(),
        order.second.split_first(),
    ) else {
        return Ok(());
    };
    let level = where_less(space, &system, &space.taken(v), &space.taken(w))?;
    test_levels(space, leaf, level, further, tested)?;
    let inner = Order {
        common: order.common - 1,
        less: order.less,
        first,
        second,
    };
    test_both(
        space,
        leaf,
        with_loop(space, system, v, w)?,
        &inner,
        further,
        tested,
    )
}
