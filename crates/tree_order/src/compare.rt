ghost use Rattle.std.specs.Prelude.{◌≡◌, ◌<◌, ◌≤◌, ◌+◌, ◌*◌, ◌^◌, ◌+ℤ◌, ◌++◌, ◌∷◌, [], ℕ, negsuc, List, length, None, IfOk};
ghost use Rattle.affine_core.specs.declared.form.Form.{Form as FormOf};
ghost use Rattle.int_polyhedra.specs.declared.system.System.{System as SystemOf};
ghost use Rattle.tree_order.specs.Comparisons.{count_had, facts_had, AreForms, ArePoints, HasNextLoop, IsComparedSoFar, IsComparison, IsGap, IsHad, IsQuestion, TellsMore};
ghost use Rattle.tree_order.specs.Orders.{turned_equal, AreEqual};
ghost use Rattle.tree_sums.specs.Parts.{IsWithin};
ghost use Rattle.source_tree.specs.Systems.{Occurrence};

use crate::order::{Equality, Order, copy_equal, turned};
use affine_core::{Form, KeptForm};
use int_polyhedra::Term;
use plain_data::Items;
use std::alloc::{AllocError, Global};
use tree_graphs::{Context, difference, known, once, raised};

/// Two points of two statements, the best so far and a new one, and how many loops stand round both statements.
#[derive(Clone, Copy)]
pub struct Pair<'a> {
    pub alloc: Global,
    pub best_writer: u32,
    pub best: &'a [KeptForm],
    pub new_writer: u32,
    pub new: &'a [KeptForm],
    pub common: usize,
}

/// How far two points are compared: the first loops, which are equal, and of the next one terms that show `best - new`, and
/// terms that show `new - best`, where a Test gave them. An equality's first point is the new one.
#[derive(Drop)]
pub struct Compared {
    pub equal: Items<Equality>,
    pub upper: Option<Items<Term>>,
    pub lower: Option<Items<Term>>,
}

/// How two points stand.
#[derive(Drop)]
pub enum Comparison {
    /// The new one stands before the best.
    Earlier(Order),
    /// The best stands before the new one.
    Later(Order),
    /// The next loop is open.
    Open(Compared),
}

/// A Test of the next loop, and how the points stand on both sides of it.
#[derive(Drop)]
pub struct Question {
    pub form: Form,
    pub above: Comparison,
    pub below: Comparison,
}

/// Nothing is compared.
pub fn unopened(alloc: Global) -> Compared
    ensures equal { result.equal ≡ [] }
    ensures upper { result.upper ≡ None }
    ensures lower { result.lower ≡ None }
{
    Compared {
        equal: Items::new(alloc),
        upper: None,
        lower: None,
    }
}

// The first point less the second in one loop.
fn gap(first: &[KeptForm], second: &[KeptForm], at: usize) -> Form
    requires first { at < length first.now }
    requires second { at < length second.now }
    requires forms { (vars : ℕ) × AreForms vars first.now × AreForms vars second.now }
    ensures { (vars : ℕ) → AreForms vars first.now → AreForms vars second.now
        → IsGap vars first.now second.now at result }
{
    let less = first[at].get();
    let more = second[at].get();
    difference(&less, &more)
}

// The form less 1.
fn less_one(form: &Form) -> Form
    requires { IsWithin (2 ^ 60) form.now }
    ensures { result ≡ record form.now { constant = form.now.constant +ℤ negsuc 0 } }
{
    raised(form, -1)
}

// In the next loop both are known to be equal.
fn one_more(
    compared: Items<Equality>,
    above: Items<Term>,
    below: Items<Term>,
) -> Result<Compared, AllocError>
    ensures equal { IfOk result (λ c. c.equal
        ≡ compared ++ record { above = above; below = below } ∷ []) }
    ensures upper { IfOk result (λ c. c.upper ≡ None) }
    ensures lower { IfOk result (λ c. c.lower ≡ None) }
{
    let mut equal = compared;
    equal.push(Equality { above, below })?;
    Ok(Compared {
        equal,
        upper: None,
        lower: None,
    })
}

fn earlier(equal: Items<Equality>, strict: Option<Items<Term>>) -> Comparison
    ensures { result ≡ Comparison.Earlier (record { equal = equal; strict = strict }) }
{
    Comparison::Earlier(Order { equal, strict })
}

fn later(
    alloc: Global,
    equal: &[Equality],
    strict: Option<Items<Term>>,
) -> Result<Comparison, AllocError>
    ensures { IfOk result (λ comparison. comparison
        ≡ Comparison.Later (record { equal = turned_equal equal.now; strict = strict })) }
{
    Ok(Comparison::Later(Order {
        equal: turned(alloc, equal)?,
        strict,
    }))
}

// All common loops are equal: the later statement wins, and of one statement both are the same point.
fn by_text(pair: &Pair, equal: Items<Equality>) -> Result<Comparison, AllocError>
    ensures order { IfOk result (λ comparison. (context : SystemOf) (w u : Occurrence)
        → ArePoints context.vars w u pair.now
        → AreEqual context 65536 pair.now.new.now pair.now.best.now equal
        → length equal ≡ pair.now.common → IsComparison context w u pair.now comparison) }
    ensures next { IfOk result (λ comparison. (had : ℕ) → HasNextLoop pair.now had comparison) }
{
    if pair.new_writer <= pair.best_writer {
        return Ok(earlier(equal, None));
    }
    later(pair.alloc, equal.as_slice(), None)
}

// The terms, or what the context tells.
fn had_or_known(
    context: &Context,
    had: Option<Items<Term>>,
    form: &Form,
) -> Result<Option<Items<Term>>, AllocError>
    requires { length form.now.coefs ≡ context.now.system.now.vars }
    ensures had { IfOk result (λ found. (a b : List FormOf) (l : ℕ)
        → IsGap context.now.system.now.vars a b l form.now → IsHad context.now.system.now l a b had
        → IsHad context.now.system.now l a b found) }
    ensures kept { IfOk result (λ found. count_had had ≤ count_had found) }
{
    match had {
        Some(terms) => Ok(Some(terms)),
        None => known(context, form),
    }
}

/// Compares two points loop by loop, as far as the context tells.
pub fn compare_points(
    context: &Context,
    pair: &Pair,
    compared: Compared,
) -> Result<Comparison, AllocError>
    requires points { (w : Occurrence) × (u : Occurrence)
        × ArePoints context.now.system.now.vars w u pair.now }
    requires so_far { IsComparedSoFar context.now.system.now pair.now compared }
    ensures order { IfOk result (λ comparison. (w u : Occurrence)
        → ArePoints context.now.system.now.vars w u pair.now
        → IsComparison context.now.system.now w u pair.now comparison) }
    ensures next { IfOk result (HasNextLoop pair.now (facts_had compared)) }
{
    let Compared {
        equal,
        upper,
        lower,
    } = compared;
    let at = equal.len();
    if at >= pair.common {
        return by_text(pair, equal);
    }
    let more = gap(pair.best, pair.new, at);
    let is_less = known(context, &less_one(&more))?;
    if let Some(terms) = is_less {
        return Ok(earlier(equal, Some(terms)));
    }
    let less = gap(pair.new, pair.best, at);
    let is_more = known(context, &less_one(&less))?;
    if let Some(terms) = is_more {
        return later(pair.alloc, equal.as_slice(), Some(terms));
    }
    let upper = had_or_known(context, upper, &more)?;
    let lower = had_or_known(context, lower, &less)?;
    let Some(upper) = upper else {
        return Ok(Comparison::Open(Compared {
            equal,
            upper: None,
            lower,
        }));
    };
    let Some(lower) = lower else {
        return Ok(Comparison::Open(Compared {
            equal,
            upper: Some(upper),
            lower: None,
        }));
    };
    compare_points(context, pair, one_more(equal, lower, upper)?)
}

/// The Test that the next loop of two points wants, whose row has this number.
pub fn test_of_next_loop(pair: &Pair, compared: Compared, row: u32) -> Result<Question, AllocError>
    requires points { (w : Occurrence) × (u : Occurrence) × (vars : ℕ)
        × ArePoints vars w u pair.now }
    requires next { length compared.equal < pair.now.common }
    requires half { facts_had compared ≤ 2 * length compared.equal + 1 }
    ensures question { IfOk result (λ asked. (context : SystemOf) (w u : Occurrence)
        → row ≡ length context.rows
        → ArePoints context.vars w u pair.now → IsComparedSoFar context pair.now compared
        → IsQuestion context w u pair.now asked) }
    ensures more { IfOk result (λ asked. TellsMore (facts_had compared) asked.above
        × TellsMore (facts_had compared) asked.below) }
{
    let alloc = pair.alloc;
    let Compared {
        equal,
        upper,
        lower,
    } = compared;
    let at = equal.len();
    let own = once(alloc, row)?;
    let also = once(alloc, row)?;
    let copy = copy_equal(alloc, equal.as_slice())?;
    match upper {
        Some(upper) => Ok(Question {
            form: less_one(&gap(pair.best, pair.new, at)),
            above: earlier(copy, Some(own)),
            below: Comparison::Open(Compared {
                equal,
                upper: Some(upper),
                lower: Some(also),
            }),
        }),
        None => match lower {
            Some(lower) => Ok(Question {
                form: less_one(&gap(pair.new, pair.best, at)),
                above: later(alloc, copy.as_slice(), Some(own))?,
                below: Comparison::Open(Compared {
                    equal,
                    upper: Some(also),
                    lower: Some(lower),
                }),
            }),
            None => Ok(Question {
                form: gap(pair.best, pair.new, at),
                above: Comparison::Open(Compared {
                    equal,
                    upper: Some(own),
                    lower: None,
                }),
                below: later(alloc, copy.as_slice(), Some(also))?,
            }),
        },
    }
}
