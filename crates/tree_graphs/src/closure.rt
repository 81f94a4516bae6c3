ghost use Rattle.std.specs.Prelude.{◌≡◌, ◌≤◌, ◌<◌, ◌+◌, ◌^◌, ◌+ℤ◌, [], ◌∷◌, ◌++◌, ℕ, pos, List, length, drop, true, Some, All, IfOk, IfNone, IfSome, unsigned_abs};
ghost use Rattle.std.specs.Bool.{OnFalse, OnTrue};
ghost use Rattle.std.specs.Int.RustNames.{int_lt};
ghost use Rattle.std.specs.Option.{option_copied, option_map_or};
ghost use Rattle.tree_graphs.specs.declared.closure.Bounds.{Bounds as BoundsOf};
ghost use Rattle.tree_graphs.specs.declared.edges.Edge.{Edge as EdgeOf};
ghost use Rattle.tree_graphs.specs.Closed.{bound_at, value_at, value_of, AreAll, AreBounds, AreClosed, AreEach, IsBettered, IsBound, IsClosure, IsFirst, IsNegativeCycle, IsThrough};
ghost use Rattle.tree_graphs.specs.Edges.{IsEdge, IsGraph};
ghost use Rattle.tree_graphs.specs.Paths.{term_of};
ghost use Rattle.tree_sums.specs.Closure.{AtMost, NotNegative};
ghost use Rattle.tree_sums.specs.Parts.{IsWithin};

use crate::edges::Edge;
use crate::terms::{joined, once};
use affine_core::Form;
use int_polyhedra::Term;
use plain_data::Items;
use std::alloc::{AllocError, Global};

/// A bound of a difference of two loop variables, `j_to <= j_from + value`, with the rows whose sum it is.
#[derive(Drop)]
pub struct Bound {
    pub value: i128,
    pub terms: Items<Term>,
}

/// Per two loop variables the least known bound of their difference.
#[derive(Drop)]
pub struct Bounds {
    pub of: Items<Items<Option<Bound>>>,
}

/// Bounds of differences that no path betters, or rows whose sum is a negative number.
#[derive(Drop)]
pub enum Closure {
    Closed(Bounds),
    Negative(Items<Term>),
}

impl Bounds {
    /// The bound of two loop variables.
    pub fn at(&self, from: usize, to: usize) -> Option<&Bound>
        ensures { option_copied result ≡ bound_at self.now from to }
    {
        let row = self.of.get(from)?;
        match row.get(to) {
            Some(Some(bound)) => Some(bound),
            _ => None,
        }
    }
}

/// The form and the number of a bound.
pub fn form_beyond(form: &Form, bound: &Bound) -> Form
    requires form { IsWithin (2 ^ 60) form.now }
    requires bound { unsigned_abs bound.now.value ≤ 2 ^ 60 }
    ensures { result ≡ record form.now { constant = form.now.constant +ℤ bound.now.value } }
{
    Form {
        constant: form.constant + bound.value,
        coefs: form.coefs.copy(),
    }
}

fn copy(alloc: Global, bound: Option<&Bound>) -> Result<Option<Bound>, AllocError>
    ensures { IfOk result (λ copy. copy ≡ option_copied bound.entry) }
{
    let Some(bound) = bound else {
        return Ok(None);
    };
    Ok(Some(Bound {
        value: bound.value,
        terms: Items::from_slice(alloc, bound.terms.as_slice())?,
    }))
}

// Whether the weight of an edge is less than the bound, if there is one.
fn is_less(edge: &Edge, bound: Option<&Bound>) -> bool
    ensures { result ≡ option_map_or (λ b. int_lt edge.now.weight.constant b.value)
        (option_copied bound.entry) true }
{
    match bound {
        Some(bound) => edge.weight.constant < bound.value,
        None => true,
    }
}

// Whether an edge is between the two variables and less than the bound.
#[tactic(auto, using(crate::proofs::PathSums::below_bound, crate::proofs::PathSums::above_bound))]
fn betters(edge: &Edge, from: usize, to: usize, bound: &Option<Bound>) -> bool
    ensures yes { OnTrue result ((edge.now.from ≡ from) × ((edge.now.to ≡ to)
        × AtMost (Some edge.now.weight.constant) (value_of bound.now))) }
    ensures no { OnFalse result (edge.now.from ≡ from → edge.now.to ≡ to
        → AtMost (value_of bound.now) (Some edge.now.weight.constant)) }
{
    edge.from == from && edge.to == to && is_less(edge, bound.as_ref())
}

// The bound that an edge between two loop variables is.
fn edge_bound(edge: &Edge, number: u32) -> Result<Bound, AllocError>
    ensures { IfOk result (λ bound. bound
        ≡ record { value = edge.now.weight.constant; terms = term_of number ∷ [] }) }
{
    let terms = once(edge.weight.coefs.allocator(), number)?;
    Ok(Bound {
        value: edge.weight.constant,
        terms,
    })
}

// The better of a bound and those of edges between the same variables, of which the first has this number.
fn bettered(
    edges: &[Edge],
    number: u32,
    from: usize,
    to: usize,
    bound: Option<Bound>,
) -> Result<Option<Bound>, AllocError>
    requires { number + length edges.now < 2 ^ 32 }
    ensures { IfOk result
        (λ better. (whole : List EdgeOf) (vars depth : ℕ) → All (IsEdge vars depth) whole
        → drop number whole ≡ edges.now → from < depth → to < depth
        → IsBettered whole edges.now from to bound better) }
{
    let Some((edge, edges)) = edges.split_first() else {
        return Ok(bound);
    };
    if betters(edge, from, to, &bound) {
        let better = edge_bound(edge, number)?;
        return bettered(edges, number + 1, from, to, Some(better));
    }
    bettered(edges, number + 1, from, to, bound)
}

// From a variable to itself nothing is between.
fn start_bound(alloc: Global, from: usize, to: usize) -> Option<Bound>
    ensures sound { (edges : List EdgeOf) → IfSome result (IsBound edges 1 from to) }
    ensures itself { from ≡ to → AtMost (value_of result) (Some (pos 0)) }
{
    if from != to {
        return None;
    }
    Some(Bound {
        value: 0,
        terms: Items::new(alloc),
    })
}

// The least bound by one edge, or by none from a variable to itself.
fn first_bound(
    alloc: Global,
    edges: &[Edge],
    from: usize,
    to: usize,
) -> Result<Option<Bound>, AllocError>
    requires few { length edges.now ≤ 56 }
    requires edges { (vars : ℕ) × (depth : ℕ) × All (IsEdge vars depth) edges.now × (from < depth)
        × (to < depth) }
    ensures { IfOk result (IsFirst edges.now from to) }
{
    bettered(edges, 0, from, to, start_bound(alloc, from, to))
}

fn first_row(
    alloc: Global,
    edges: &[Edge],
    depth: usize,
    from: usize,
) -> Result<Items<Option<Bound>>, AllocError>
    requires edges { (vars : ℕ) × IsGraph vars depth edges.now }
    requires from { from < depth }
    ensures { IfOk result (AreEach depth (IsFirst edges.now from)) }
{
    let mut row = Items::new(alloc);
    for to in 0..depth {
        row.push(first_bound(alloc, edges, from, to)?)?;
    }
    Ok(row)
}

fn first_bounds(alloc: Global, edges: &[Edge], depth: usize) -> Result<Bounds, AllocError>
    requires { (vars : ℕ) × IsGraph vars depth edges.now }
    ensures { IfOk result (AreAll depth (IsFirst edges.now)) }
{
    let mut of = Items::new(alloc);
    for from in 0..depth {
        of.push(first_row(alloc, edges, depth, from)?)?;
    }
    Ok(Bounds { of })
}

// Two bounds that follow each other.
fn joined_bound(alloc: Global, first: &Bound, second: &Bound) -> Result<Bound, AllocError>
    requires first { unsigned_abs first.now.value ≤ 2 ^ 60 }
    requires second { unsigned_abs second.now.value ≤ 2 ^ 60 }
    ensures { IfOk result (λ bound. bound ≡ record {
      value = first.now.value +ℤ second.now.value;
      terms = first.now.terms ++ second.now.terms;
    }) }
{
    let terms = joined(alloc, first.terms.as_slice(), second.terms.as_slice())?;
    Ok(Bound {
        value: first.value + second.value,
        terms,
    })
}

// Whether two bounds that follow each other are less than another one, if there is one.
fn is_shorter(first: &Bound, second: &Bound, direct: Option<&Bound>) -> bool
    requires first { unsigned_abs first.now.value ≤ 2 ^ 60 }
    requires second { unsigned_abs second.now.value ≤ 2 ^ 60 }
    ensures { result ≡ option_map_or (λ b. int_lt (first.now.value +ℤ second.now.value) b.value)
        (option_copied direct.entry) true }
{
    match direct {
        Some(bound) => first.value + second.value < bound.value,
        None => true,
    }
}

// The lesser of a bound and that of two others that follow each other.
fn lesser_bound(
    alloc: Global,
    direct: Option<&Bound>,
    first: &Bound,
    second: &Bound,
) -> Result<Option<Bound>, AllocError>
    requires first { unsigned_abs first.now.value ≤ 2 ^ 60 }
    requires second { unsigned_abs second.now.value ≤ 2 ^ 60 }
    ensures { IfOk result (λ bound. (edges : List EdgeOf) (most : ℕ) (bounds : BoundsOf)
        (middle from to : ℕ) → AreBounds edges most bounds
        → option_copied direct.entry ≡ bound_at bounds from to
        → bound_at bounds from middle ≡ Some first.now → bound_at bounds middle to ≡ Some second.now
        → IsThrough edges most bounds middle from to bound) }
{
    if is_shorter(first, second, direct) {
        let path = joined_bound(alloc, first, second)?;
        return Ok(Some(path));
    }
    copy(alloc, direct)
}

// The lesser of a bound and that of a path through one more variable.
fn bound_through(
    alloc: Global,
    bounds: &Bounds,
    middle: usize,
    from: usize,
    to: usize,
) -> Result<Option<Bound>, AllocError>
    requires { (edges : List EdgeOf) × (most : ℕ) × AreBounds edges most bounds.now × (most ≤ 32) }
    ensures { IfOk result (λ bound. (edges : List EdgeOf) (most : ℕ)
        → AreBounds edges most bounds.now
        → IsThrough edges most bounds.now middle from to bound) }
{
    let direct = bounds.at(from, to);
    match bounds.at(from, middle) {
        Some(first) => match bounds.at(middle, to) {
            Some(second) => lesser_bound(alloc, direct, first, second),
            None => copy(alloc, direct),
        },
        None => copy(alloc, direct),
    }
}

fn row_through(
    alloc: Global,
    bounds: &Bounds,
    depth: usize,
    middle: usize,
    from: usize,
) -> Result<Items<Option<Bound>>, AllocError>
    requires { (edges : List EdgeOf) × (most : ℕ) × AreBounds edges most bounds.now × (most ≤ 32) }
    ensures { IfOk result (λ row. (edges : List EdgeOf) (most : ℕ) → AreBounds edges most bounds.now
        → AreEach depth (IsThrough edges most bounds.now middle from) row) }
{
    let mut row = Items::new(alloc);
    for to in 0..depth {
        row.push(bound_through(alloc, bounds, middle, from, to)?)?;
    }
    Ok(row)
}

// The bounds, where paths may also go through one more variable.
fn through(
    alloc: Global,
    bounds: &Bounds,
    depth: usize,
    middle: usize,
) -> Result<Bounds, AllocError>
    requires { (edges : List EdgeOf) × (most : ℕ) × AreBounds edges most bounds.now × (most ≤ 32) }
    ensures { IfOk result (λ next. (edges : List EdgeOf) (most : ℕ)
        → AreBounds edges most bounds.now
        → AreAll depth (IsThrough edges most bounds.now middle) next) }
{
    let mut of = Items::new(alloc);
    for from in 0..depth {
        of.push(row_through(alloc, bounds, depth, middle, from)?)?;
    }
    Ok(Bounds { of })
}

// The rows of a path from a variable back to itself whose sum is negative.
fn negative_cycle(
    alloc: Global,
    bounds: &Bounds,
    variable: usize,
) -> Result<Option<Items<Term>>, AllocError>
    ensures none { IfOk result
        (λ terms. IfNone terms (NotNegative (value_at bounds.now variable variable))) }
    ensures some { IfOk result (λ terms. IfSome terms
        (λ ts. (edges : List EdgeOf) → AreBounds edges 64 bounds.now → IsNegativeCycle edges ts)) }
{
    match bounds.at(variable, variable) {
        Some(bound) => {
            if bound.value < 0 {
                Ok(Some(Items::from_slice(alloc, bound.terms.as_slice())?))
            } else {
                Ok(None)
            }
        }
        None => Ok(None),
    }
}

// The closure, where paths may go through the variables before this one.
fn close(alloc: Global, bounds: Bounds, depth: usize, middle: usize) -> Result<Closure, AllocError>
    requires closed { (edges : List EdgeOf) × AreClosed edges depth (2 ^ middle) middle bounds }
    requires few { depth ≤ 6 }
    requires middle { middle ≤ depth }
    ensures { IfOk result (λ closure. (edges : List EdgeOf)
        → AreClosed edges depth (2 ^ middle) middle bounds → IsClosure edges depth closure) }
{
    if middle >= depth {
        return Ok(Closure::Closed(bounds));
    }
    match negative_cycle(alloc, &bounds, middle)? {
        Some(terms) => Ok(Closure::Negative(terms)),
        None => {
            let next = through(alloc, &bounds, depth, middle)?;
            close(alloc, next, depth, middle + 1)
        }
    }
}

/// The least sums of edges between loop variables, by Floyd and Warshall. The first so many nodes are loop variables.
pub fn closure_of(alloc: Global, edges: &[Edge], depth: usize) -> Result<Closure, AllocError>
    requires edges { (vars : ℕ) × IsGraph vars depth edges.now }
    requires few { depth ≤ 6 }
    ensures { IfOk result (IsClosure edges.now depth) }
{
    close(alloc, first_bounds(alloc, edges, depth)?, depth, 0)
}
