ghost use Rattle.std.specs.Prelude.{◌≡◌, ◌≤◌, ◌<◌, ◌+◌, ◌^◌, ◌-ℤ◌, ◌++◌, [], ◌∷◌, ℕ, List, Some, None, length, map, slice_get, All, IfOk, IfSome, MatchOption};
ghost use Rattle.std.specs.Bool.{OnTrue};
ghost use Rattle.std.specs.Option.{option_map};
ghost use Rattle.int_polyhedra.specs.declared.system.System.{System as SystemOf};
ghost use Rattle.int_polyhedra.specs.declared.system.Term.{Term as TermOf};
ghost use Rattle.tree_graphs.specs.declared.edges.Edge.{Edge as EdgeOf};
ghost use Rattle.lex_max.specs.Answer.{IsAnswer, IsContextOf};
ghost use Rattle.tree_graphs.specs.Cycles.{IsCycle};
ghost use Rattle.tree_graphs.specs.Asked.{depth_of_write};
ghost use Rattle.affine_core.specs.declared.form.Form.{Form as FormOf};
ghost use Rattle.int_polyhedra.specs.Steps.{negation_of};
ghost use Rattle.lex_max.specs.ChoiceSteps.{with_cycles, AreSmallForms, IsChoiceStep, IsFollowed, IsSmallForm};
ghost use Rattle.lex_max.specs.Choices.{chosen_place, choices_left, upper_of, uppers_from, uppers_of, with_terms, AllNone, AreCertsSoFar, AreChosen, IsChoosing, IsNextChoice};
ghost use Rattle.tree_graphs.specs.Edges.{edge_parts, IsEdge};
ghost use Rattle.lex_max.specs.EdgeStates.{IsEdgeState};
ghost use Rattle.tree_graphs.specs.Facts.{form_parts, with_form, IsFact};
ghost use Rattle.tree_graphs.specs.Paths.{IsPath};
ghost use Rattle.tree_sums.specs.Parts.{weight, IsWithin, Part};

use crate::leaf::writer_leaf;
use crate::zeros::{refuted_by, refuted_leaf, zero_below};
use affine_core::Form;
use int_polyhedra::{System, Term};
use plain_data::Items;
use source_tree::Tree;
use std::alloc::{AllocError, Global};
use tree_graphs::{
    Context, Cycle, Edge, Graph, append, difference, form_beyond, joined, known, negative, once,
    opposite, sum, test, with_row,
};

/// The least of the forms that bound a loop variable above: the number of the edge from 0 that its path begins with, the
/// form, and per edge from 0 with a path the terms that show that its form is no less.
#[derive(Drop)]
pub struct Choice {
    pub edge: usize,
    pub form: Form,
    pub less: Items<Option<Items<Term>>>,
}

/// The choice among one form more, or, where the context doesn't tell it, how far that form is above the chosen one, the choice
/// where this is at least 0, and the one where it is below 0.
#[derive(Drop)]
pub enum ChoiceStep {
    Known(Choice),
    Either(Form, Choice, Choice),
}

/// What a context tells of an edge at the chosen point: terms that show it, the leaf of a context that refutes it, or a
/// cycle whose form is yet to be tested.
#[derive(Drop)]
pub enum EdgeState {
    Shown(Items<Term>),
    Refuted(Tree),
    Open(Cycle),
}

// The form of the path that begins with this edge from 0 and leads to a variable.
fn upper_form(graph: &Graph, edge: &Edge, variable: usize) -> Option<Form>
    requires { IsEdge graph.now.writes.vars (depth_of_write graph.now.writes) edge.now }
    ensures { result
        ≡ upper_of (depth_of_write graph.now.writes) graph.now.bounds.now variable edge.now }
{
    if edge.from != graph.writes.depth() {
        return None;
    }
    if edge.to >= graph.writes.depth() {
        return None;
    }
    match graph.bounds.at(edge.to, variable) {
        Some(bound) => Some(form_beyond(&edge.weight, bound)),
        None => None,
    }
}

// Per edge the form of its path to a variable, if it has one.
fn upper_forms(graph: &Graph, variable: usize) -> Result<Items<Option<Form>>, AllocError>
    ensures { IfOk result (λ forms. forms
        ≡ uppers_of (depth_of_write graph.now.writes) graph.now.bounds.now graph.now.edges.now
        variable) }
{
    let edges = graph.edges;
    let mut forms = Items::new(graph.writes.alloc);
    for edge in edges {
        forms.push(upper_form(graph, edge, variable))?;
    }
    Ok(forms)
}

// Per loop variable the forms that bound it above.
fn all_upper_forms(graph: &Graph) -> Result<Items<Items<Option<Form>>>, AllocError>
    ensures { IfOk result (λ all. all
        ≡ uppers_from (depth_of_write graph.now.writes) graph.now.bounds.now graph.now.edges.now 0
        (depth_of_write graph.now.writes)) }
{
    let mut all = Items::new(graph.writes.alloc);
    for variable in 0..graph.writes.depth() {
        all.push(upper_forms(graph, variable)?)?;
    }
    Ok(all)
}

// Whether the context tells that a form is no greater than another, from which it differs. Nothing is promised of a yes.
fn is_no_greater(context: &Context, form: &Form, other: &Form) -> Result<bool, AllocError>
    requires form { IsSmallForm context.now.system.now.vars form.now }
    requires other { IsSmallForm context.now.system.now.vars other.now }
{
    if form.constant == other.constant && form.coefs == other.coefs {
        return Ok(false);
    }
    let above = difference(other, form);
    is_known(context, &above)
}

// A form that is there, with its number, where the first has this number; which one isn't promised. It is one than which none of
// the others is known to be less, so that the choice begins with it. Rows of the order before the read come last, so it is a
// reader's variable where it can be.
fn least_form(
    context: &Context,
    forms: &[Option<Form>],
    number: usize,
) -> Result<Option<(usize, Form)>, AllocError>
    requires forms { AreSmallForms context.now.system.now.vars forms.now }
    requires few { number + length forms.now < 2 ^ 32 }
    ensures { IfOk result (λ found. MatchOption found (AllNone forms.now) (λ least. (k : ℕ)
        × (least.0 ≡ number + k) × (slice_get forms.now k ≡ Some (Some least.1)))) }
{
    let Some((first, rest)) = forms.split_first() else {
        return Ok(None);
    };
    let later = least_form(context, rest, number + 1)?;
    let Some(form) = first else {
        return Ok(later);
    };
    let Some(last) = later else {
        return Ok(Some((number, form.copy())));
    };
    if is_no_greater(context, form, &last.1)? {
        return Ok(Some((number, form.copy())));
    }
    Ok(Some(last))
}

// The first choice for a variable that these forms bound: it has no terms yet.
fn start(alloc: Global, context: &Context, forms: &[Option<Form>]) -> Result<Choice, AllocError>
    requires forms { AreSmallForms context.now.system.now.vars forms.now }
    requires few { length forms.now ≤ 56 }
    requires some { AllNone forms.now → ⊥ }
    ensures edge { IfOk result
        (λ choice. slice_get forms.now choice.edge ≡ Some (Some choice.form)) }
    ensures empty { IfOk result (λ choice. choice.less ≡ []) }
{
    match least_form(context, forms, 0)? {
        Some((edge, form)) => Ok(Choice {
            edge,
            form,
            less: Items::new(alloc),
        }),
        None => unreachable!(),
    }
}

fn copy_terms(alloc: Global, terms: &Option<Items<Term>>) -> Result<Option<Items<Term>>, AllocError>
    ensures { IfOk result (λ copy. copy ≡ terms.now) }
{
    match terms {
        Some(terms) => Ok(Some(Items::from_slice(alloc, terms.as_slice())?)),
        None => Ok(None),
    }
}

fn copy_less(
    alloc: Global,
    less: &[Option<Items<Term>>],
) -> Result<Items<Option<Items<Term>>>, AllocError>
    ensures { IfOk result (λ copies. copies ≡ less.now) }
{
    let mut copies = Items::new(alloc);
    for terms in less {
        copies.push(copy_terms(alloc, terms)?)?;
    }
    Ok(copies)
}

fn copy_choice(alloc: Global, choice: &Choice) -> Result<Choice, AllocError>
    ensures { IfOk result (λ copy. copy ≡ choice.now) }
{
    let less = copy_less(alloc, choice.less.as_slice())?;
    let form = choice.form.copy();
    Ok(Choice {
        edge: choice.edge,
        form,
        less,
    })
}

fn copy_choices(alloc: Global, choices: &[Choice]) -> Result<Items<Choice>, AllocError>
    ensures { IfOk result (λ copies. copies ≡ choices.now) }
{
    let mut copies = Items::new(alloc);
    for choice in choices {
        copies.push(copy_choice(alloc, choice)?)?;
    }
    Ok(copies)
}

// The choice stays, and these terms show that the next form, if it is there, is no less.
fn kept(alloc: Global, choice: &Choice, terms: Option<Items<Term>>) -> Result<Choice, AllocError>
    ensures { IfOk result
        (λ next. next ≡ record choice.now { less = choice.now.less ++ terms ∷ [] }) }
{
    let mut less = copy_less(alloc, choice.less.as_slice())?;
    less.push(terms)?;
    let form = choice.form.copy();
    Ok(Choice {
        edge: choice.edge,
        form,
        less,
    })
}

// The choice that stays.
fn kept_choice(
    alloc: Global,
    choice: &Choice,
    terms: Items<Term>,
) -> Result<Option<Choice>, AllocError>
    ensures { IfOk result (λ next. next
        ≡ Some (record choice.now { less = choice.now.less ++ Some terms ∷ [] })) }
{
    let next = kept(alloc, choice, Some(terms))?;
    Ok(Some(next))
}

// Terms with more terms behind them, if there are any.
fn with_more(
    alloc: Global,
    old: &Option<Items<Term>>,
    terms: &[Term],
) -> Result<Option<Items<Term>>, AllocError>
    ensures { IfOk result (λ more. more ≡ with_terms terms.now old.now) }
{
    match old {
        Some(old) => Ok(Some(joined(alloc, old.as_slice(), terms)?)),
        None => Ok(None),
    }
}

// The next form is chosen: these terms show that the form that was chosen is no less.
fn switched(
    alloc: Global,
    choice: &Choice,
    terms: &[Term],
    form: &Form,
) -> Result<Choice, AllocError>
    ensures { IfOk result (λ next. next ≡ record {
      edge = length choice.now.less;
      form = form.now;
      less = map (with_terms terms.now) choice.now.less ++ Some [] ∷ [];
    }) }
{
    let mut less = Items::new(alloc);
    for old in choice.less.as_slice() {
        less.push(with_more(alloc, old, terms)?)?;
    }
    less.push(Some(Items::new(alloc)))?;
    Ok(Choice {
        edge: choice.less.len(),
        form: form.copy(),
        less,
    })
}

// The choice among one form more, which is no less or no greater than the chosen one by so much, where the context tells it.
fn next_choice(
    alloc: Global,
    context: &Context,
    choice: &Choice,
    form: &Form,
    above: &Form,
) -> Result<Option<Choice>, AllocError>
    requires over { length above.now.coefs ≡ context.now.system.now.vars }
    requires small { IsWithin (2 ^ 60) above.now }
    requires parts { (part : Part) → form_parts above.now part
        ≡ form_parts form.now part -ℤ form_parts choice.now.form part }
    ensures { IfOk result (λ next. IfSome next
        (IsNextChoice context.now.system.now context.now.system.now (Some form.now) choice.now)) }
{
    let found = known(context, above)?;
    if let Some(terms) = found {
        return kept_choice(alloc, choice, terms);
    }
    let less = negative(above);
    let shown = known(context, &less)?;
    let Some(terms) = shown else {
        return Ok(None);
    };
    let next = switched(alloc, choice, terms.as_slice(), form)?;
    Ok(Some(next))
}

// The choice where the row behind the context says that the form is no less than the chosen one by so much.
fn same_choice(
    alloc: Global,
    context: &Context,
    choice: &Choice,
    form: &Form,
    above: &Form,
) -> Result<Choice, AllocError>
    requires { (part : Part) → form_parts above.now part
        ≡ form_parts form.now part -ℤ form_parts choice.now.form part }
    ensures { IfOk result (λ next. (least : SystemOf)
        → least ≡ with_form context.now.system.now above.now
        → IsNextChoice context.now.system.now least (Some form.now) choice.now next) }
{
    let own = once(alloc, context.system.rows.len() as u32)?;
    kept(alloc, choice, Some(own))
}

// The choice where the row behind the context says that the form is less than the chosen one.
fn other_choice(
    alloc: Global,
    context: &Context,
    choice: &Choice,
    form: &Form,
    above: &Form,
) -> Result<Choice, AllocError>
    requires small { IsWithin (2 ^ 60) above.now }
    requires parts { (part : Part) → form_parts above.now part
        ≡ form_parts form.now part -ℤ form_parts choice.now.form part }
    ensures { IfOk result (λ next. (below : SystemOf) (row : FormOf)
        → negation_of above.now ≡ Some row
        → below ≡ with_form context.now.system.now row
        → IsNextChoice context.now.system.now below (Some form.now) choice.now next) }
{
    let own = once(alloc, context.system.rows.len() as u32)?;
    switched(alloc, choice, own.as_slice(), form)
}

// The choices and one more.
fn with_choice(
    alloc: Global,
    choices: &[Choice],
    choice: &Choice,
) -> Result<Items<Choice>, AllocError>
    ensures { IfOk result (λ all. all ≡ choices.now ++ choice.now ∷ []) }
{
    let mut all = copy_choices(alloc, choices)?;
    let last = copy_choice(alloc, choice)?;
    all.push(last)?;
    Ok(all)
}

// What follows a choice, with one form more.
fn choice_step(
    alloc: Global,
    context: &Context,
    form: &Option<Form>,
    choice: &Choice,
) -> Result<ChoiceStep, AllocError>
    requires chosen { IsSmallForm context.now.system.now.vars choice.now.form }
    requires form { IfSome form.now (IsSmallForm context.now.system.now.vars) }
    ensures { IfOk result (IsChoiceStep context.now.system.now form.now choice.now) }
{
    let Some(form) = form else {
        let next = kept(alloc, choice, None)?;
        return Ok(ChoiceStep::Known(next));
    };
    let above = difference(form, &choice.form);
    let looked = next_choice(alloc, context, choice, form, &above)?;
    if let Some(next) = looked {
        return Ok(ChoiceStep::Known(next));
    }
    let same = same_choice(alloc, context, choice, form, &above)?;
    let other = other_choice(alloc, context, choice, form, &above)?;
    Ok(ChoiceStep::Either(above, same, other))
}

/// What is chosen so far: for each of the first variables the least form.
#[cycle(choose)]
fn choose(
    graph: &Graph,
    context: &System,
    forms: &[Option<Form>],
    more: &[Items<Option<Form>>],
    choice: &Choice,
    choices: &[Choice],
) -> Result<Tree, AllocError>
    requires context { IsContextOf graph.now.writes (choices_left forms.now more.now) context.now }
    requires choosing { IsChoosing
        (depth_of_write graph.now.writes) graph.now.bounds.now graph.now.edges.now
        context.now forms.now more.now choice.now choices.now }
    ensures { IfOk result (IsAnswer graph.now.writes context.now
        (choices_left forms.now more.now)) }
{
    let Some((form, forms)) = forms.split_first() else {
        return choose_next(graph, context, more, choice, choices);
    };
    let here = Context { system: context };
    let step = choice_step(graph.writes.alloc, &here, form, choice)?;
    let tree = follow(graph, context, forms, more, &step, choices);
    drop(step);
    tree
}

// All forms of a variable were looked at: goes on with the next variable.
#[cycle(choose)]
fn choose_next(
    graph: &Graph,
    context: &System,
    more: &[Items<Option<Form>>],
    choice: &Choice,
    choices: &[Choice],
) -> Result<Tree, AllocError>
    requires context { IsContextOf graph.now.writes (choices_left [] more.now) context.now }
    requires choosing { IsChoosing
        (depth_of_write graph.now.writes) graph.now.bounds.now graph.now.edges.now
        context.now [] more.now choice.now choices.now }
    ensures { IfOk result (IsAnswer graph.now.writes context.now (choices_left [] more.now)) }
{
    let all = with_choice(graph.writes.alloc, choices, choice)?;
    let chosen = all.as_slice();
    let Some((next, more)) = more.split_first() else {
        return confirm_all(graph, context, chosen);
    };
    let next = next.as_slice();
    let here = Context { system: context };
    let first = start(graph.writes.alloc, &here, next)?;
    choose(graph, context, next, more, &first, chosen)
}

// Goes on with what follows a choice.
#[cycle(choose)]
fn follow(
    graph: &Graph,
    context: &System,
    forms: &[Option<Form>],
    more: &[Items<Option<Form>>],
    step: &ChoiceStep,
    choices: &[Choice],
) -> Result<Tree, AllocError>
    requires context { IsContextOf graph.now.writes
        (choices_left forms.now more.now + 1) context.now }
    requires step { IsFollowed
        (depth_of_write graph.now.writes) graph.now.bounds.now graph.now.edges.now
        context.now forms.now more.now step.now choices.now }
    ensures { IfOk result (IsAnswer graph.now.writes context.now
        (choices_left forms.now more.now + 1)) }
{
    match step {
        ChoiceStep::Known(next) => choose(graph, context, forms, more, next, choices),
        ChoiceStep::Either(above, same, other) => {
            let row = opposite(above);
            let no = choose_with(graph, context, row, forms, more, other, choices)?;
            let row = above.copy();
            match choose_with(graph, context, row, forms, more, same, choices) {
                Ok(yes) => test(graph.writes.alloc, above.copy(), yes, no),
                Err(error) => {
                    drop(no);
                    Err(error)
                }
            }
        }
    }
}

// Goes on in the context with this row behind.
#[cycle(choose)]
fn choose_with(
    graph: &Graph,
    context: &System,
    row: Form,
    forms: &[Option<Form>],
    more: &[Items<Option<Form>>],
    choice: &Choice,
    choices: &[Choice],
) -> Result<Tree, AllocError>
    requires context { IsContextOf graph.now.writes (choices_left forms.now more.now)
        (with_form context.now row) }
    requires choosing { IsChoosing
        (depth_of_write graph.now.writes) graph.now.bounds.now graph.now.edges.now
        (with_form context.now row) forms.now more.now choice.now choices.now }
    ensures { IfOk result
        (IsAnswer graph.now.writes (with_form context.now row) (choices_left forms.now more.now)) }
{
    let longer = with_row(context, row)?;
    choose(graph, &longer, forms, more, choice, choices)
}

// The terms of the form of this number, which is there.
fn terms_at(alloc: Global, choice: &Choice, number: usize) -> Result<Items<Term>, AllocError>
    requires { (terms : List TermOf) × (slice_get choice.now.less number ≡ Some (Some terms)) }
    ensures { IfOk result (λ terms. slice_get choice.now.less number ≡ Some (Some terms)) }
{
    match choice.less.get(number) {
        Some(Some(terms)) => Items::from_slice(alloc, terms.as_slice()),
        _ => unreachable!(),
    }
}

// The terms that show an edge to a variable at the chosen point: those of the form that its path to the variable has.
fn upper_terms(
    graph: &Graph,
    edge: &Edge,
    number: usize,
    choices: &[Choice],
) -> Result<Items<Term>, AllocError>
    requires chosen { (context : SystemOf) × AreChosen graph.now.writes graph.now.edges.now
        graph.now.bounds.now context choices.now }
    requires edge { slice_get graph.now.edges.now number ≡ Some edge.now }
    requires to { edge.now.to < depth_of_write graph.now.writes }
    ensures { IfOk result (λ terms. (context : SystemOf)
        → AreChosen graph.now.writes graph.now.edges.now graph.now.bounds.now context choices.now
        → IsFact context (2 ^ 23) (edge_parts (chosen_place choices.now) edge.now) terms) }
{
    let last = &choices[edge.to];
    if edge.from == graph.writes.depth() {
        return terms_at(graph.writes.alloc, last, number);
    }
    let first = &choices[edge.from];
    terms_at(graph.writes.alloc, last, first.edge)
}

// The variable that the edge of this number leads to.
fn end_of(edges: &[Edge], number: usize) -> usize
    requires { number < length edges.now }
    ensures { option_map (λ g. g.to) (slice_get edges.now number) ≡ Some result }
{
    match edges.get(number) {
        Some(edge) => edge.to,
        None => unreachable!(),
    }
}

/// The rows of the path to the form that is chosen for a variable. They show that it is no less than the variable.
pub fn path_to(graph: &Graph, choice: &Choice, variable: usize) -> Result<Items<Term>, AllocError>
    requires { slice_get
        (uppers_of (depth_of_write graph.now.writes) graph.now.bounds.now graph.now.edges.now
        variable)
        choice.now.edge ≡ Some (Some choice.now.form) }
    ensures path { IfOk result (λ terms. IsPath graph.now.edges.now terms
        (form_parts choice.now.form) (depth_of_write graph.now.writes) variable) }
    ensures light { IfOk result (λ terms. weight terms ≤ 65) }
{
    let to = end_of(graph.edges, choice.edge);
    let mut terms = once(graph.writes.alloc, choice.edge as u32)?;
    match graph.bounds.at(to, variable) {
        Some(bound) => {
            append(&mut terms, bound.terms.as_slice())?;
            Ok(terms)
        }
        None => unreachable!(),
    }
}

// The cycle that an edge to 0 makes with the path to what is chosen for its variable: its form is the edge's value at the
// chosen point.
fn cycle_back(
    graph: &Graph,
    edge: &Edge,
    number: usize,
    choices: &[Choice],
) -> Result<Cycle, AllocError>
    requires chosen { (context : SystemOf)
        × AreChosen graph.now.writes graph.now.edges.now graph.now.bounds.now context choices.now }
    requires edge { slice_get graph.now.edges.now number ≡ Some edge.now }
    requires back { edge.now.to ≡ depth_of_write graph.now.writes }
    ensures cycle { IfOk result (IsCycle graph.now.writes.vars graph.now.edges.now) }
    ensures form { IfOk result (λ cycle. (part : Part)
        → form_parts cycle.form part ≡ edge_parts (chosen_place choices.now) edge.now part) }
{
    if edge.from == graph.writes.depth() {
        let terms = once(graph.writes.alloc, number as u32)?;
        let form = edge.weight.copy();
        return Ok(Cycle { form, terms });
    }
    let choice = &choices[edge.from];
    let mut rows = path_to(graph, choice, edge.from)?;
    rows.push(Term {
        row: number as u32,
        times: 1,
    })?;
    let value = sum(&choice.form, &edge.weight);
    Ok(Cycle {
        form: value,
        terms: rows,
    })
}

// What the context tells of a cycle, if it shows or refutes it.
fn cycle_state(
    graph: &Graph,
    context: &System,
    cycle: &Cycle,
) -> Result<Option<EdgeState>, AllocError>
    requires context { IsContextOf graph.now.writes 0 context.now }
    requires cycle { IsCycle graph.now.writes.vars graph.now.edges.now cycle.now }
    ensures { IfOk result (λ told. IfSome told (λ state. (place : List FormOf) (edge : EdgeOf)
        → ((part : Part) → form_parts cycle.now.form part ≡ edge_parts place edge part)
        → IsEdgeState graph.now.writes graph.now.edges.now context.now place edge state)) }
{
    let here = Context { system: context };
    match known(&here, &cycle.form)? {
        Some(terms) => Ok(Some(EdgeState::Shown(terms))),
        None => match refuted_by(graph, context, cycle)? {
            Some(leaf) => Ok(Some(EdgeState::Refuted(leaf))),
            None => Ok(None),
        },
    }
}

// Finds what the context tells of an edge at the chosen point.
fn edge_state(
    graph: &Graph,
    context: &System,
    edge: &Edge,
    number: usize,
    choices: &[Choice],
) -> Result<EdgeState, AllocError>
    requires context { IsContextOf graph.now.writes 0 context.now }
    requires chosen { AreChosen graph.now.writes graph.now.edges.now graph.now.bounds.now
        context.now choices.now }
    requires edge { slice_get graph.now.edges.now number ≡ Some edge.now }
    ensures { IfOk result (IsEdgeState graph.now.writes graph.now.edges.now context.now
        (chosen_place choices.now) edge.now) }
{
    if edge.to < graph.writes.depth() {
        let shown = upper_terms(graph, edge, number, choices)?;
        return Ok(EdgeState::Shown(shown));
    }
    let cycle = cycle_back(graph, edge, number, choices)?;
    match cycle_state(graph, context, &cycle) {
        Ok(Some(state)) => {
            drop(cycle);
            Ok(state)
        }
        Ok(None) => Ok(EdgeState::Open(cycle)),
        Err(error) => {
            drop(cycle);
            Err(error)
        }
    }
}

// The Test of a cycle's form, where this is the tree of the context in which it is at least 0.
fn cycle_test(graph: &Graph, context: &System, cycle: &Cycle, yes: Tree) -> Result<Tree, AllocError>
    requires context { IsContextOf graph.now.writes 1 context.now }
    requires cycle { IsCycle graph.now.writes.vars graph.now.edges.now cycle.now }
    ensures { IfOk result (λ tree. (above : SystemOf) (tests : ℕ)
        → above ≡ record context.now { rows = context.now.rows ++ cycle.now.form ∷ [] }
        → IsAnswer graph.now.writes above tests yes → IsAnswer graph.now.writes context.now
        (tests + 1) tree) }
{
    match zero_below(graph, context, cycle) {
        Ok(no) => test(graph.writes.alloc, cycle.form.copy(), yes, no),
        Err(error) => {
            drop(yes);
            Err(error)
        }
    }
}

// Finds for each of the edges that are left the terms that show it at the chosen point.
#[cycle(confirm)]
fn confirm(
    graph: &Graph,
    context: &System,
    edges: &[Edge],
    choices: &[Choice],
    certs: &mut Items<Items<Term>>,
) -> Result<Tree, AllocError>
    requires context { IsContextOf graph.now.writes (length edges.now) context.now }
    requires chosen { AreChosen graph.now.writes graph.now.edges.now graph.now.bounds.now
        context.now choices.now }
    requires certs { AreCertsSoFar context.now (chosen_place choices.now) graph.now.edges.now
        edges.now certs.old }
    ensures { IfOk result (IsAnswer graph.now.writes context.now (length edges.now)) }
{
    let Some((edge, edges)) = edges.split_first() else {
        return writer_leaf(graph, context, choices, certs.as_slice());
    };
    let state = edge_state(graph, context, edge, certs.len(), choices)?;
    match state {
        EdgeState::Shown(terms) => {
            certs.push(terms)?;
            confirm(graph, context, edges, choices, certs)
        }
        EdgeState::Refuted(leaf) => Ok(leaf),
        EdgeState::Open(cycle) => {
            let tree = confirm_above(graph, context, edges, choices, certs, &cycle);
            drop(cycle);
            tree
        }
    }
}

// Tests the form of a cycle, which shows an edge where it is at least 0.
#[cycle(confirm)]
fn confirm_above(
    graph: &Graph,
    context: &System,
    edges: &[Edge],
    choices: &[Choice],
    certs: &mut Items<Items<Term>>,
    cycle: &Cycle,
) -> Result<Tree, AllocError>
    requires context { IsContextOf graph.now.writes (length edges.now + 1) context.now }
    requires chosen { AreChosen graph.now.writes graph.now.edges.now graph.now.bounds.now
        context.now choices.now }
    requires cycle { IsCycle graph.now.writes.vars graph.now.edges.now cycle.now }
    requires certs { (edge : EdgeOf) × AreCertsSoFar context.now (chosen_place choices.now)
        graph.now.edges.now (edge ∷ edges.now) certs.old
        × ((part : Part) → form_parts cycle.now.form part
        ≡ edge_parts (chosen_place choices.now) edge part) }
    ensures { IfOk result (IsAnswer graph.now.writes context.now (length edges.now + 1)) }
{
    let own = once(graph.writes.alloc, context.rows.len() as u32)?;
    certs.push(own)?;
    let above = with_row(context, cycle.form.copy())?;
    let yes = confirm(graph, &above, edges, choices, certs)?;
    cycle_test(graph, context, cycle, yes)
}

// Finds for each edge the terms that show it at the chosen point.
fn confirm_all(graph: &Graph, context: &System, choices: &[Choice]) -> Result<Tree, AllocError>
    requires context { IsContextOf graph.now.writes (length graph.now.edges.now) context.now }
    requires chosen { AreChosen graph.now.writes graph.now.edges.now graph.now.bounds.now
        context.now choices.now }
    ensures { IfOk result (IsAnswer graph.now.writes context.now (length graph.now.edges.now)) }
{
    let mut certs = Items::new(graph.writes.alloc);
    confirm(graph, context, graph.edges, choices, &mut certs)
}

// Chooses a form for each variable, from the outermost loop on.
fn choose_all(graph: &Graph, context: &System) -> Result<Tree, AllocError>
    requires { IsContextOf graph.now.writes 392 context.now }
    ensures { IfOk result (IsAnswer graph.now.writes context.now 392) }
{
    let all = all_upper_forms(graph)?;
    let Some((forms, more)) = all.as_slice().split_first() else {
        return confirm_all(graph, context, &[]);
    };
    let forms = forms.as_slice();
    let here = Context { system: context };
    let first = start(graph.writes.alloc, &here, forms)?;
    choose(graph, context, forms, more, &first, &[])
}

// Whether the context tells that a form is at least 0.
fn is_known(context: &Context, form: &Form) -> Result<bool, AllocError>
    requires { length form.now.coefs ≡ context.now.system.now.vars }
    ensures { IfOk result (λ told. OnTrue told
        ((terms : List TermOf) × IsFact context.now.system.now 65536 (form_parts form.now) terms)) }
{
    let found = known(context, form)?;
    Ok(found.is_some())
}

// Whether a form is known to be at least 0 where the context's rows and the forms of these cycles are.
fn is_told(
    graph: &Graph,
    context: &System,
    cycles: &[Cycle],
    form: &Form,
) -> Result<bool, AllocError>
    requires context { IsContextOf graph.now.writes (length cycles.now) context.now }
    requires cycles { All (IsCycle graph.now.writes.vars graph.now.edges.now) cycles.now }
    requires over { length form.now.coefs ≡ graph.now.writes.vars }
    ensures { IfOk result (λ told. OnTrue told ((terms : List TermOf)
        × IsFact (with_cycles context.now cycles.now) 65536 (form_parts form.now) terms)) }
{
    let Some((cycle, cycles)) = cycles.split_first() else {
        let here = Context { system: context };
        return is_known(&here, form);
    };
    let more = with_row(context, cycle.form.copy())?;
    is_told(graph, &more, cycles, form)
}

/// The tree of a context, where these cycles through 0 are yet to be tested: first it is tested that each is at least 0, and
/// then the least form is chosen for each variable.
#[cycle(conditions)]
pub fn conditions(graph: &Graph, context: &System, cycles: &[Cycle]) -> Result<Tree, AllocError>
    requires context { IsContextOf graph.now.writes (length cycles.now + 392) context.now }
    requires cycles { All (IsCycle graph.now.writes.vars graph.now.edges.now) cycles.now }
    ensures { IfOk result (IsAnswer graph.now.writes context.now (length cycles.now + 392)) }
{
    let Some((cycle, rest)) = cycles.split_first() else {
        return choose_all(graph, context);
    };
    let here = Context { system: context };
    if is_known(&here, &cycle.form)? {
        return conditions(graph, context, rest);
    }
    match refuted_leaf(graph, context, cycles)? {
        Some(leaf) => Ok(leaf),
        None => condition(graph, context, cycle, rest),
    }
}

// Tests the form of a cycle, unless those of the others tell it.
#[cycle(conditions)]
fn condition(
    graph: &Graph,
    context: &System,
    cycle: &Cycle,
    rest: &[Cycle],
) -> Result<Tree, AllocError>
    requires context { IsContextOf graph.now.writes (length rest.now + 393) context.now }
    requires cycle { IsCycle graph.now.writes.vars graph.now.edges.now cycle.now }
    requires rest { All (IsCycle graph.now.writes.vars graph.now.edges.now) rest.now }
    ensures { IfOk result (IsAnswer graph.now.writes context.now (length rest.now + 393)) }
{
    if is_told(graph, context, rest, &cycle.form)? {
        return conditions(graph, context, rest);
    }
    let above = with_row(context, cycle.form.copy())?;
    let yes = conditions(graph, &above, rest)?;
    cycle_test(graph, context, cycle, yes)
}
