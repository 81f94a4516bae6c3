ghost use Rattle.std.specs.Prelude.{◌≡◌, ◌+◌, ◌-◌, ◌≤◌, ◌++◌, [], ◌∷◌, true, length, take, IfOk, IfSome, IsTrue, OnOk};
ghost use Rattle.script_blocks.specs.Expansion.{expansion, parts_expansion, repeated};
ghost use Rattle.script_blocks.specs.Labels.{items_or};
ghost use Rattle.script_blocks.specs.Nesting.{are_proper, is_proper, nesting, parts_nesting};

use crate::search::{Plan, Stretch};
use crate::{BlockPart, Blocks, ScriptBuilder};
use plain_data::Items;
use std::alloc::{AllocError, Global};

/// How deep the repeats that `fold` makes nest at most.
const NESTING_LIMIT: u32 = 64;

/// Folds the stretches of these items that repeat. Two items that compare equal have to be the same value. Which
/// stretches it finds is not promised; a search proposes them, and each is compared before it is folded.
pub fn fold<T: Copy + Eq>(alloc: Global, items: &[T]) -> Result<Blocks<T>, AllocError>
    requires { (a b : T) → T.eq a b ≡ true → a ≡ b }
    ensures expansion { IfOk result (λ blocks. expansion blocks ≡ items.now) }
    ensures proper { IfOk result (λ blocks. IsTrue (is_proper blocks)) }
    ensures shallow { IfOk result (λ blocks. nesting blocks ≤ 64) }
{
    let mut builder = ScriptBuilder::new(alloc);
    for item in items {
        builder.push(*item)?;
    }
    builder.blocks(alloc)
}

/// Folds the stretches of these labels that repeat, and puts for each the item of its kind. The other item stands where a
/// label is none of a kind.
pub(crate) fn fold_labels<T: Copy>(
    alloc: Global,
    kinds: &[T],
    other: T,
    labels: &[u32],
) -> Result<Blocks<T>, AllocError>
    ensures expansion { IfOk result
        (λ blocks. expansion blocks ≡ items_or kinds.now other labels.now) }
    ensures proper { IfOk result (λ blocks. IsTrue (is_proper blocks)) }
    ensures shallow { IfOk result (λ blocks. nesting blocks ≤ 64) }
{
    let plan = Plan::of(alloc, kinds.len(), labels)?;
    let mut parts = Items::new(alloc);
    let rest = build(
        &plan,
        plan.symbols(),
        kinds,
        other,
        labels,
        NESTING_LIMIT,
        &mut parts,
    )?;
    push_items(kinds, other, rest, &mut parts)?;
    Ok(Blocks { parts })
}

// Adds the item of a label.
#[tactic(auto, using(crate::proofs::Nestings::with_item))]
fn push_item<T: Copy>(
    kinds: &[T],
    other: T,
    label: u32,
    parts: &mut Items<BlockPart<T>>,
) -> Result<(), AllocError>
    ensures expansion { OnOk result
        (parts_expansion parts.new
        ≡ parts_expansion parts.old ++ items_or kinds.now other (label ∷ [])) }
    ensures shallow { OnOk result (parts_nesting parts.new ≡ parts_nesting parts.old) }
    ensures proper { OnOk result (are_proper parts.new ≡ are_proper parts.old) }
{
    let item = kinds.get(label as usize).copied().unwrap_or(other);
    parts.push(BlockPart::Item(item))
}

// Adds the items of these labels.
fn push_items<T: Copy>(
    kinds: &[T],
    other: T,
    labels: &[u32],
    parts: &mut Items<BlockPart<T>>,
) -> Result<(), AllocError>
    ensures expansion { OnOk result
        (parts_expansion parts.new
        ≡ parts_expansion parts.old ++ items_or kinds.now other labels.now) }
    ensures shallow { OnOk result (parts_nesting parts.new ≡ parts_nesting parts.old) }
    ensures proper { OnOk result (are_proper parts.new ≡ are_proper parts.old) }
{
    for label in labels {
        push_item(kinds, other, *label, parts)?;
    }
    Ok(())
}

// Adds what the symbols propose of these labels, and gives the labels that are left.
#[cycle(build)]
fn build<'a, T: Copy>(
    plan: &Plan,
    symbols: &[u32],
    kinds: &[T],
    other: T,
    labels: &'a [u32],
    depth: u32,
    parts: &mut Items<BlockPart<T>>,
) -> Result<&'a [u32], AllocError>
    requires shallow { parts_nesting parts.old ≤ depth }
    requires proper { IsTrue (are_proper parts.old) }
    ensures expansion { IfOk result (λ rest.
        parts_expansion parts.old ++ items_or kinds.now other labels.now
        ≡ parts_expansion parts.new ++ items_or kinds.now other rest.now) }
    ensures shallow { OnOk result (parts_nesting parts.new ≤ depth) }
    ensures proper { OnOk result (IsTrue (are_proper parts.new)) }
{
    let mut rest = labels;
    for symbol in symbols {
        rest = build_symbol(plan, *symbol, kinds, other, rest, depth, parts)?;
    }
    Ok(rest)
}

#[cycle(build)]
fn build_symbol<'a, T: Copy>(
    plan: &Plan,
    symbol: u32,
    kinds: &[T],
    other: T,
    labels: &'a [u32],
    depth: u32,
    parts: &mut Items<BlockPart<T>>,
) -> Result<&'a [u32], AllocError>
    requires shallow { parts_nesting parts.old ≤ depth }
    requires proper { IsTrue (are_proper parts.old) }
    ensures expansion { IfOk result (λ rest.
        parts_expansion parts.old ++ items_or kinds.now other labels.now
        ≡ parts_expansion parts.new ++ items_or kinds.now other rest.now) }
    ensures shallow { OnOk result (parts_nesting parts.new ≤ depth) }
    ensures proper { OnOk result (IsTrue (are_proper parts.new)) }
{
    let Some(stretch) = plan.stretch_of(symbol) else {
        let rest = build_item(kinds, other, labels, parts)?;
        return Ok(rest);
    };
    if depth == 0 {
        return Ok(labels);
    }
    let rest = build_repeat(plan, stretch, kinds, other, labels, depth - 1, parts)?;
    Ok(rest)
}

// Adds the item of the first label, if there is one.
fn build_item<'a, T: Copy>(
    kinds: &[T],
    other: T,
    labels: &'a [u32],
    parts: &mut Items<BlockPart<T>>,
) -> Result<&'a [u32], AllocError>
    ensures expansion { IfOk result (λ rest.
        parts_expansion parts.old ++ items_or kinds.now other labels.now
        ≡ parts_expansion parts.new ++ items_or kinds.now other rest.now) }
    ensures shallow { OnOk result (parts_nesting parts.new ≡ parts_nesting parts.old) }
    ensures proper { OnOk result (are_proper parts.new ≡ are_proper parts.old) }
{
    let Some((label, rest)) = labels.split_first() else {
        return Ok(labels);
    };
    push_item(kinds, other, *label, parts)?;
    Ok(rest)
}

// Adds a repeat, if the labels stand there as often as at least twice. Its body nests at most so deep.
#[cycle(build)]
fn build_repeat<'a, T: Copy>(
    plan: &Plan,
    stretch: Stretch,
    kinds: &[T],
    other: T,
    labels: &'a [u32],
    depth: u32,
    parts: &mut Items<BlockPart<T>>,
) -> Result<&'a [u32], AllocError>
    requires shallow { parts_nesting parts.old ≤ depth + 1 }
    requires proper { IsTrue (are_proper parts.old) }
    ensures expansion { IfOk result (λ rest.
        parts_expansion parts.old ++ items_or kinds.now other labels.now
        ≡ parts_expansion parts.new ++ items_or kinds.now other rest.now) }
    ensures shallow { OnOk result (parts_nesting parts.new ≤ depth + 1) }
    ensures proper { OnOk result (IsTrue (are_proper parts.new)) }
{
    let mut body = Items::new(parts.allocator());
    let others = build(
        plan,
        plan.body_of(stretch),
        kinds,
        other,
        labels,
        depth,
        &mut body,
    )?;
    let first = without_end(labels, others.len());
    let (times, rest) = repetitions(first, others, stretch.times());
    if times < 2 || body.is_empty() {
        return Ok(labels);
    }
    parts.push(BlockPart::Repeat(times, Blocks { parts: body }))?;
    Ok(rest)
}

// The labels but for so many at the end.
fn without_end(labels: &[u32], count: usize) -> &[u32]
    ensures { result.now ≡ take (length labels.now - count) labels.now }
{
    &labels[..labels.len().saturating_sub(count)]
}

// How often the first labels stand in all, at most so often: once, and then in front of these labels; and what follows.
fn repetitions<'a>(first: &[u32], labels: &'a [u32], most: u32) -> (u32, &'a [u32])
    ensures { first.now ++ labels.now ≡ repeated result.0 first.now ++ result.1.now }
{
    let mut times = 1;
    let mut rest = labels;
    if first.is_empty() {
        return (times, rest);
    }
    while times < most {
        let Some(next) = after_front(first, rest) else {
            return (times, rest);
        };
        rest = next;
        times += 1;
    }
    (times, rest)
}

// What follows these labels, where the first ones stand in front.
fn after_front<'a>(first: &[u32], labels: &'a [u32]) -> Option<&'a [u32]>
    ensures { IfSome result (λ rest. labels.now ≡ first.now ++ rest.now) }
{
    if labels.len() < first.len() {
        return None;
    }
    let (front, rest) = labels.split_at(first.len());
    if front == first { Some(rest) } else { None }
}
