ghost use Rattle.std.specs.Prelude.{◌≡◌, ◌≤◌, ◌<◌, ◌+◌, ◌*◌, ◌≤ℤ◌, ◌^◌, ◌++◌, [], ◌∷◌, ℕ, pos, false, length, slice_get, All, Some, None, IfOk, IsTrue, MatchOption, OnOk, if◌then◌else◌};
ghost use Rattle.affine_core.specs.Affine.{widened_form};
ghost use Rattle.tree_graphs.specs.Contexts.{IsMadeAs};
ghost use Rattle.tree_order.specs.Reads.{pairs_with};
ghost use Rattle.tree_order.specs.declared.candidates.Read.{Read as ReadOf};
ghost use Rattle.stride_trees.specs.Answers.{answered_context};
ghost use Rattle.stride_trees.specs.Leaves.{context_of, fact_context, told_pairs, vars_of, HasFacts};
ghost use Rattle.stride_trees.specs.Writers.{IsWriterOf};
ghost use Rattle.last_writer.specs.Writers.{AreWriters, HasAllWriters, IsAskedRead};
ghost use Rattle.source_tree.specs.Checked.{IsChecked, IsCheckedIn};
ghost use Rattle.source_tree.specs.Exact.{IsExact};
ghost use Rattle.source_tree.specs.Systems.{array_writes, every, read_at, root_context, Context, Occurrence};
ghost use Rattle.sanlp.specs.declared.nest.Nest.{Nest as NestOf};
ghost use Rattle.source_tree.specs.declared.tree.Tree.TheViews.{Divides as DividesOf};
ghost use Rattle.tree_cuts.specs.Class.{IsInStrideClass};
ghost use Rattle.stride_trees.specs.Answers.{HasSmallRows, IsSmallTest};
ghost use Rattle.stride_trees.specs.Contexts.{IsNoIn};
ghost use Rattle.stride_trees.specs.Divisions.{always_divides};
ghost use Rattle.source_tree.specs.References.{occurrence_of};

use crate::writers::push_writers;
use affine_core::{KeptForm, KeptNumber};
use int_polyhedra::System;
use plain_data::{Boxed, Items};
use sanlp::{Nest, Statement};
use source_tree::{Reference, Tree};
use std::alloc::{AllocError, Global};
use stride_trees::{
    Answered, Division, Writer, always_divides, below_test, converted, no_is_nowhere, problem_of,
    refusal_of,
};
use tree_facts::{Tests, facts_of, with_facts};
use tree_graphs::{Problem, system_of};
use tree_join::join;
use tree_order::Read;

// How many variables there are below all tests.
fn vars_in(w: &Answered) -> usize
    requires { HasAllWriters w.now }
    ensures { result ≡ vars_of w.now }
{
    w.read.statement.loops.len() + w.tests.len()
}

// Adds the problems of those of these writers whose tests all say yes.
fn push_problems<'a>(
    problems: &mut Items<Problem<'a>>,
    w: &Answered<'a>,
    writers: &'a [Writer<'a>],
) -> Result<(), AllocError>
    requires answered { HasAllWriters w.now }
    requires writers { All (IsWriterOf w.now.nest.now (occurrence_of w.now.read) w.now.tests.now)
        writers.now }
    ensures { OnOk result ((r : ReadOf) → r.reference ≡ w.now.read
        → pairs_with r problems.new ≡ pairs_with r problems.old
        ++ told_pairs (vars_of w.now) w.now.answers.now writers.now) }
{
    let Some((writer, writers)) = writers.split_first() else {
        return Ok(());
    };
    match refusal_of(writer, w.answers) {
        Some(_) => push_problems(problems, w, writers),
        None => {
            let problem = problem_of(&writer.strides, vars_in(w), writer.places.as_slice())?;
            problems.push(problem)?;
            push_problems(problems, w, writers)
        }
    }
}

// The read with these problems, in this context.
fn read_with<'a>(w: &Answered<'a>, context: &'a System, problems: &'a [Problem<'a>]) -> Read<'a>
    ensures reference { result.reference ≡ w.now.read }
    ensures context { result.context.now ≡ context.now }
    ensures problems { result.problems.now ≡ problems.now }
{
    Read {
        alloc: w.alloc,
        reference: w.read,
        context,
        problems,
    }
}

// The tree in a context with the facts of that where all tests have an answer.
fn joined_in<'a>(w: &Answered<'a>, there: &'a System) -> Result<Tree, AllocError>
    requires answered { HasAllWriters w.now }
    requires all { length w.now.answers.now ≡ length w.now.tests.now }
    requires facts { HasFacts w.now }
    requires made { IsMadeAs there.now (fact_context w.now []) }
    requires rows { HasSmallRows there.now }
    requires few { length there.now.rows ≤ 64 }
    ensures { IfOk result (IsCheckedIn w.now.nest.now (occurrence_of w.now.read) every
        (context_of w.now)) }
{
    let mut problems = Items::new(w.alloc);
    push_problems(&mut problems, w, w.writers)?;
    let read = read_with(&*w, &*there, problems.as_slice());
    let tree = join(&read)?;
    converted(w, there.rows.len() as u32, tree)
}

// Where the rows of the tests stand in the context where all have an answer.
fn tests_in<'a>(w: &Answered<'a>) -> Tests<'a>
    requires { length w.now.read.statement.now.rows < 2 ^ 32 }
{
    Tests {
        depth: w.read.statement.loops.len(),
        root: w.read.statement.rows.len() as u32,
        answers: w.answers,
    }
}

// The tree where all tests of divisibility have an answer.
fn joined<'a>(w: &Answered<'a>, context: &'a System) -> Result<Tree, AllocError>
    requires answered { HasAllWriters w.now }
    requires all { length w.now.answers.now ≡ length w.now.tests.now }
    requires made { IsMadeAs context.now (context_of w.now) }
    requires rows { HasSmallRows context.now }
    requires few { length context.now.rows ≤ 64 }
    ensures { IfOk result (IsCheckedIn w.now.nest.now (occurrence_of w.now.read) every
        (context_of w.now)) }
{
    let tests = tests_in(w);
    let found = facts_of(w.alloc, context, &tests)?;
    let more = Answered {
        cuts: found.cuts.as_slice(),
        facts: found.rows.as_slice(),
        ..*w
    };
    let there = with_facts(w.alloc, context, more.facts)?;
    joined_in(&more, &there)
}

// The test over the variables of a context, with the trees of its yes and its no.
fn divides(
    alloc: Global,
    context: &System,
    test: &Division,
    yes: Tree,
    no: Tree,
) -> Result<Tree, AllocError>
    requires wider { length test.now.form.coefs ≤ context.now.vars }
    requires few { context.now.vars ≤ 18 }
    ensures { IfOk result (λ tree. tree
        ≡ DividesOf (widened_form context.now.vars test.now.form) test.now.divisor yes no) }
{
    let form = test.form.widened(context.vars as usize);
    let form = KeptForm::of(alloc, &form)?;
    let divisor = KeptNumber::of(alloc, test.divisor)?;
    let yes = Boxed::new(alloc, yes)?;
    let no = Boxed::new(alloc, no)?;
    Ok(Tree::Divides(form, divisor, yes, no))
}

// The answers and one more.
fn with_answer(alloc: Global, answers: &[bool], answer: bool) -> Result<Items<bool>, AllocError>
    ensures { IfOk result (λ more. more ≡ answers.now ++ answer ∷ []) }
{
    let mut more = Items::from_slice(alloc, answers)?;
    more.push(answer)?;
    Ok(more)
}

// The first test without an answer.
fn next_test<'a>(w: &Answered<'a>) -> Option<&'a Division>
    ensures { MatchOption result (length w.now.tests.now ≤ length w.now.answers.now)
        (λ test. slice_get w.now.tests.now (length w.now.answers.now) ≡ Some test.now) }
{
    w.tests.get(w.answers.len())
}

// The tree below the answers, whose context this is.
#[cycle(answered)]
fn answered<'a>(w: &Answered<'a>, context: &'a System) -> Result<Tree, AllocError>
    requires answered { HasAllWriters w.now }
    requires made { IsMadeAs context.now (context_of w.now) }
    requires rows { HasSmallRows context.now }
    requires count { length context.now.rows
        ≡ length w.now.read.statement.now.rows + 2 * length w.now.answers.now }
    ensures { IfOk result (IsCheckedIn w.now.nest.now (occurrence_of w.now.read) every
        (context_of w.now)) }
{
    let Some(test) = next_test(w) else {
        return joined(w, context);
    };
    let yes = answered_next(w, context, test, true)?;
    match answered_next(w, context, test, false) {
        Ok(no) => {
            let alloc = w.alloc;
            divides(alloc, context, test, yes, no)
        }
        Err(error) => {
            drop(yes);
            Err(error)
        }
    }
}

// Whether no point comes to this answer to a test: the form alone says the other.
fn is_nowhere(test: &Division, answer: bool) -> bool
    requires { pos 1 ≤ℤ test.now.divisor }
    ensures { result ≡ (if answer then false else always_divides test.now) }
{
    if answer {
        return false;
    }
    always_divides(test)
}

// The Dead leaf at the no of a test that says yes by its form alone. So many rows stand before the two of the test.
fn nowhere(alloc: Global, test: &Division, before: u32) -> Result<Tree, AllocError>
    requires test { (depth : ℕ) × IsSmallTest depth test.now }
    requires always { IsTrue (always_divides test.now) }
    requires before { before ≤ 64 }
    ensures { IfOk result (λ tree. (n : NestOf) (r : Occurrence) (c : Context) (quotient : ℕ)
        → IsNoIn test.now before quotient (before + 2) c → IsCheckedIn n r every c tree) }
{
    let proof = no_is_nowhere(alloc, test, before, before + 2)?;
    Ok(Tree::Dead(proof))
}

// The tree below the answers and this one, which is that to the next test. Where no point comes to it, no writer is joined
// there.
#[cycle(answered)]
fn answered_next<'a>(
    w: &Answered<'a>,
    context: &'a System,
    test: &Division,
    answer: bool,
) -> Result<Tree, AllocError>
    requires answered { HasAllWriters w.now }
    requires made { IsMadeAs context.now (context_of w.now) }
    requires rows { HasSmallRows context.now }
    requires count { length context.now.rows
        ≡ length w.now.read.statement.now.rows + 2 * length w.now.answers.now }
    requires test { slice_get w.now.tests.now (length w.now.answers.now) ≡ Some test.now }
    ensures { IfOk result (IsCheckedIn w.now.nest.now (occurrence_of w.now.read) every
        (answered_context (root_context (occurrence_of w.now.read)) w.now.tests.now
        (w.now.answers.now ++ answer ∷ []))) }
{
    let next = below_test(w.alloc, context, test, answer)?;
    if is_nowhere(test, answer) {
        let before = context.rows.len() as u32;
        return nowhere(w.alloc, test, before);
    }
    let answers = with_answer(w.alloc, w.answers, answer)?;
    let more = Answered {
        answers: answers.as_slice(),
        ..*w
    };
    answered(&more, &next)
}

fn reference_of<'a>(nest: &'a Nest, statement: u32, read: u32) -> Reference<'a>
    requires { IsInStrideClass nest.now statement read }
    ensures number { result.number ≡ statement }
    ensures read { read_at nest.now statement read ≡ Some (occurrence_of result) }
{
    let reader = nest.statement(statement);
    Reference {
        number: statement,
        statement: reader,
        access: &reader.reads.as_slice()[read as usize],
    }
}

// The reader's domain rows.
fn root(alloc: Global, reader: &Statement) -> Result<System, AllocError>
    requires { length reader.now.loops < 2 ^ 32 }
    ensures { IfOk result (λ context. context
        ≡ record { vars = length reader.now.loops; rows = reader.now.rows }) }
{
    let vars = reader.loops.len() as u32;
    system_of(alloc, vars, reader.rows.as_slice())
}

// All writers of a read, none of whose tests has an answer.
fn unanswered<'a>(
    alloc: Global,
    nest: &'a Nest,
    read: &Reference<'a>,
    writers: &'a [Writer<'a>],
    tests: &'a [Division],
) -> Answered<'a>
    requires asked { IsAskedRead nest.now read.now }
    requires writers { AreWriters nest.now (occurrence_of read.now)
        (array_writes nest.now (occurrence_of read.now)) tests.now writers.now }
    ensures answered { HasAllWriters result }
    ensures nest { result.nest.now ≡ nest.now }
    ensures read { result.read ≡ read.now }
    ensures answers { result.answers.now ≡ [] }
{
    Answered {
        alloc,
        nest,
        read: *read,
        writers,
        tests,
        answers: &[],
        cuts: &[],
        facts: &[],
        only: None,
    }
}

// The tree of a read.
fn tree_of<'a>(alloc: Global, nest: &'a Nest, read: &Reference<'a>) -> Result<Tree, AllocError>
    requires { IsAskedRead nest.now read.now }
    ensures { IfOk result (IsCheckedIn nest.now (occurrence_of read.now) every
        (root_context (occurrence_of read.now))) }
{
    let mut writers = Items::new(alloc);
    let mut tests = Items::new(alloc);
    let statements = nest.statements.as_slice();
    push_writers(&mut writers, &mut tests, nest, read, statements, 0)?;
    let w = unanswered(alloc, &*nest, &*read, writers.as_slice(), tests.as_slice());
    let context = root(alloc, read.statement)?;
    answered(&w, &context)
}

/// Which write a read has its value from at each point of the reader, as one tree, which is
/// checked: so at each point it gives the last write of the cell that is read, or zero where there
/// is none, whatever the size of the nest (Feautrier 1991). The read is in the stride class.
/// Nothing is refused but want of memory: there is no limit on a tree.
pub fn source_of(alloc: Global, nest: &Nest, statement: u32, read: u32) -> Result<Tree, AllocError>
    requires { IsInStrideClass nest.now statement read }
    ensures checked { IfOk result (IsChecked nest.now statement read) }
    ensures exact { IfOk result (IsExact nest.now statement read) }
{
    let reference = reference_of(nest, statement, read);
    tree_of(alloc, nest, &reference)
}
