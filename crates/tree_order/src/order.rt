ghost use Rattle.std.specs.Prelude.{◌≡◌, ◌++◌, IfOk, IfNone, IfSome, OnOk};
ghost use Rattle.std.specs.Option.{option_copied, option_map};
ghost use Rattle.tree_order.specs.Orders.{equal_both, turned_equal, Composes, DecidesThrough};

use int_polyhedra::Term;
use plain_data::Items;
use std::alloc::{AllocError, Global};
use tree_graphs::joined;

/// That a loop variable has one value at two points z and y: terms that show `z - y`, and terms that show `y - z`.
#[derive(Drop)]
pub struct Equality {
    pub above: Items<Term>,
    pub below: Items<Term>,
}

/// That a point z stands before a point y. The first loops are equal. Of the next one the terms show `y - z - 1`; without
/// terms there is no further common loop, and z comes first by the text, or both are the same point.
#[derive(Drop)]
pub struct Order {
    pub equal: Items<Equality>,
    pub strict: Option<Items<Term>>,
}

fn copy_terms(alloc: Global, terms: &Items<Term>) -> Result<Items<Term>, AllocError>
    ensures { IfOk result (λ copy. copy ≡ terms.now) }
{
    Items::from_slice(alloc, terms.as_slice())
}

/// The same equalities.
pub fn copy_equal(alloc: Global, equal: &[Equality]) -> Result<Items<Equality>, AllocError>
    ensures { IfOk result (λ copies. copies ≡ equal.now) }
{
    let mut copies = Items::new(alloc);
    for one in equal {
        copies.push(Equality {
            above: copy_terms(alloc, &one.above)?,
            below: copy_terms(alloc, &one.below)?,
        })?;
    }
    Ok(copies)
}

/// The equalities of y and z.
pub fn turned(alloc: Global, equal: &[Equality]) -> Result<Items<Equality>, AllocError>
    ensures { IfOk result (λ turned. turned ≡ turned_equal equal.now) }
{
    let mut turned = Items::new(alloc);
    for one in equal {
        turned.push(Equality {
            above: copy_terms(alloc, &one.below)?,
            below: copy_terms(alloc, &one.above)?,
        })?;
    }
    Ok(turned)
}

fn both(alloc: Global, first: &Items<Term>, second: &Items<Term>) -> Result<Items<Term>, AllocError>
    ensures { IfOk result (λ terms. terms ≡ first.now ++ second.now) }
{
    joined(alloc, first.as_slice(), second.as_slice())
}

// Adds the loops that are equal at all three points.
fn push_equal(
    equal: &mut Items<Equality>,
    alloc: Global,
    first: &[Equality],
    second: &[Equality],
) -> Result<(), AllocError>
    ensures { OnOk result (equal.new ≡ equal.old ++ equal_both first.now second.now) }
{
    let (Some((one, first)), Some((other, second))) = (first.split_first(), second.split_first())
    else {
        return Ok(());
    };
    equal.push(Equality {
        above: both(alloc, &one.above, &other.above)?,
        below: both(alloc, &one.below, &other.below)?,
    })?;
    push_equal(equal, alloc, first, second)
}

// The terms and further ones, if there are terms.
fn with_further(
    alloc: Global,
    terms: &Option<Items<Term>>,
    further: &Items<Term>,
) -> Result<Option<Items<Term>>, AllocError>
    ensures { IfOk result (λ all. all ≡ option_map (λ ts. ts ++ further.now) terms.now) }
{
    match terms {
        Some(terms) => Ok(Some(both(alloc, terms, further)?)),
        None => Ok(None),
    }
}

// What decides in the first loop that is not equal at all three points.
fn strict_through(
    alloc: Global,
    first: &Order,
    second: &Order,
) -> Result<Option<Items<Term>>, AllocError>
    ensures { IfOk result (DecidesThrough first.now second.now) }
{
    if let Some(rest) = second.equal.get(first.equal.len()) {
        return with_further(alloc, &first.strict, &rest.below);
    }
    if let Some(rest) = first.equal.get(second.equal.len()) {
        return with_further(alloc, &second.strict, &rest.below);
    }
    match &second.strict {
        Some(terms) => with_further(alloc, &first.strict, terms),
        None => Ok(None),
    }
}

/// The first point before the third, where the first stands before a second and that before the third.
pub fn composed(alloc: Global, first: &Order, second: &Order) -> Result<Order, AllocError>
    ensures { IfOk result (Composes first.now second.now) }
{
    let mut equal = Items::new(alloc);
    push_equal(
        &mut equal,
        alloc,
        first.equal.as_slice(),
        second.equal.as_slice(),
    )?;
    let strict = strict_through(alloc, first, second)?;
    Ok(Order { equal, strict })
}

/// The order, and behind it the further one, if there is one.
pub fn through(alloc: Global, order: &Order, further: Option<&Order>) -> Result<Order, AllocError>
    ensures alone { IfOk result
        (λ whole. IfNone (option_copied further.entry) (whole ≡ order.now)) }
    ensures further { IfOk result
        (λ whole. IfSome (option_copied further.entry) (λ next. Composes order.now next whole)) }
{
    if let Some(further) = further {
        return composed(alloc, order, further);
    }
    let strict = match &order.strict {
        Some(terms) => Some(copy_terms(alloc, terms)?),
        None => None,
    };
    Ok(Order {
        equal: copy_equal(alloc, order.equal.as_slice())?,
        strict,
    })
}
