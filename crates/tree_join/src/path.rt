ghost use Rattle.std.specs.Prelude.{◌≡◌, ◌≤◌, ◌<◌, ◌+◌, ◌*◌, ◌^◌, ◌++◌, ◌==◌, [], ◌∷◌, ℕ, List, not, slice_get, sum_by, Some, None, IfOk, IfSome, MatchOption, OnOk, length};
ghost use Rattle.std.specs.List.{filter};
ghost use Rattle.affine_core.specs.declared.form.Form.{Form as FormOf};
ghost use Rattle.tree_order.specs.declared.candidates.Candidate.{Candidate as CandidateOf};
ghost use Rattle.tree_order.specs.declared.candidates.Read.{Read as ReadOf};
ghost use Rattle.tree_order.specs.declared.seen.Position.{Position as PositionOf};
ghost use Rattle.tree_join.specs.declared.leaf.Excluded.{Excluded as ExcludedOf};
ghost use Rattle.int_polyhedra.specs.declared.system.System.{System as SystemOf};
ghost use Rattle.int_polyhedra.specs.declared.system.Term.{Term as TermOf};
ghost use Rattle.tree_order.specs.Candidates.{IsCandidate};
ghost use Rattle.tree_order.specs.Reads.{pair_of as pair_at};
ghost use Rattle.tree_order.specs.Comparisons.{facts_had};
ghost use Rattle.tree_order.specs.Contexts.{IsPathContext};
ghost use Rattle.tree_graphs.specs.Heights.{height_of};
ghost use Rattle.tree_order.specs.Reads.{IsJoinedTree};
ghost use Rattle.tree_join.specs.Joining.{ArePair, IsBest, IsChoice, IsChoiceSoFar, IsEnd, IsLeft, IsPath, IsPathOf};
ghost use Rattle.tree_join.specs.Leaves.{IsExcluded};
ghost use Rattle.tree_join.specs.Walking.{turns_of_frame, turns_of_step, turns_left, AreFrames, AreSides, GoesOn, IsClosing, IsMade, IsStateOf, IsUnderWay};
ghost use Rattle.tree_order.specs.Refutations.{RefutesWrites};
ghost use Rattle.tree_order.specs.Positions.{IsPointAt};
ghost use Rattle.tree_order.specs.Seen.{best_in};
ghost use Rattle.tree_graphs.specs.Asked.{write_of};
ghost use Rattle.tree_graphs.specs.Facts.{with_form, IsContext};
ghost use Rattle.tree_graphs.specs.Paths.{term_of};
ghost use Rattle.tree_sums.specs.Parts.{weight};
ghost use Rattle.tree_graphs.specs.Joint.{IsTreeFor, ReadAndWrite};
ghost use Rattle.tree_trim.specs.Sides.{AreJoinedSides};
ghost use Rattle.tree_trim.specs.Trees.{branch_or_test};

use crate::leaf::{Excluded, point_of, writer_leaf, zero_leaf};
use affine_core::{Form, whole_forms};
use int_polyhedra::{Proof, System, Term};
use plain_data::Items;
use sanlp::common_loops;
use source_tree::Tree;
use std::alloc::{AllocError, Global};
use tree_empty::dead_leaf;
use tree_graphs::{Context, Search, once, opposite};
use tree_order::{
    Absence, Candidate, Compared, Comparison, Followed, Pair, Position, Question, Read, Seen,
    absence_of, best_of, compare_points, copy_rows, exclusion, follow, level_count, own_rows,
    test_of_next_loop, unopened,
};
use tree_trim::{branch_without, tree_names_row, trim_test};

/// A read and its candidates.
#[derive(Clone, Copy)]
pub struct Task<'a> {
    pub read: &'a Read<'a>,
    pub candidates: &'a [Candidate<'a>],
}

/// What a path of the joined tree tells: its context, the best point so far, which candidates were seen, and the numbers of
/// those that are left.
#[derive(Clone, Copy)]
pub struct State<'s, 'a> {
    pub read: &'a Read<'a>,
    pub candidates: &'a [Candidate<'a>],
    pub context: &'s System,
    pub best: Option<&'s Position<'a>>,
    pub seen: &'s [Seen<'a>],
    pub left: &'s [u32],
}

// How the joining goes on.
#[derive(Drop)]
enum Next<'a> {
    // One of the candidates that are left is chosen.
    Choose,
    // The tree of a candidate is followed from here on.
    Follow(Position<'a>),
    // Its point is compared with the best.
    Compare(Position<'a>, Pair<'a>, Comparison),
}

// What one step comes to.
#[derive(Drop)]
enum Step<'a> {
    On(Next<'a>),
    // The tree of the path is made.
    Made(Tree),
}

// What is left to do at a Test of the path.
#[derive(Drop)]
enum Frame<'a> {
    // The first side is under way. The second goes on so, where so many were seen and these are left.
    First(usize, Items<u32>, Next<'a>),
    // The second side is under way. The first of the Test of this form has this tree.
    Second(Form, Tree),
}

/// The path that the joining is on, and what is left to do at each Test of it. The last row of the context, what was seen
/// last and the last frame belong to the Test further down.
#[derive(Drop)]
pub struct Walk<'a> {
    pub context: System,
    pub seen: Items<Seen<'a>>,
    pub left: Items<u32>,
    frames: Items<Frame<'a>>,
}

// What is done with the candidates that are left.
#[derive(Drop)]
enum Choice {
    // All of them are excluded.
    End(Items<Excluded>),
    // This one has no point here, by these terms.
    Absent(u32, Items<Term>),
    // The tree of this one is followed.
    Take(u32),
}

// The numbers but this one.
fn others(alloc: Global, left: &[u32], number: u32) -> Result<Items<u32>, AllocError>
    ensures { IfOk result (λ rest. rest ≡ filter (λ other. not (other == number)) left.now) }
{
    let mut rest = Items::new(alloc);
    push_others(&mut rest, left, number)?;
    Ok(rest)
}

fn push_others(rest: &mut Items<u32>, left: &[u32], number: u32) -> Result<(), AllocError>
    ensures { OnOk result
        (rest.new ≡ rest.old ++ filter (λ other. not (other == number)) left.now) }
{
    let Some((other, left)) = left.split_first() else {
        return Ok(());
    };
    if *other == number {
        return push_others(rest, left, number);
    }
    rest.push(*other)?;
    push_others(rest, left, number)
}

// Per level of order the terms that no write of the candidate stands after the best, where each
// level is refuted by a cycle.
fn exclusions(
    alloc: Global,
    context: &System,
    search: &mut Search,
    best: &Position,
    candidate: &Candidate,
) -> Result<Option<Items<Items<Term>>>, AllocError>
    requires asked { (r : ReadOf) × IsBest r context.now best.now × IsCandidate r candidate.now
        × IsPathContext r.context.now.vars 0 context.now }
    ensures { IfOk result (λ found. IfSome found (λ sums. (r : ReadOf) (place : List FormOf)
        (e : ExcludedOf) → IsBest r context.now best.now → IsCandidate r candidate.now
        → IsPointAt best.now place → e.level ≡ candidate.now.writes.level → e.sums ≡ sums
        → IsExcluded context.now (write_of best.now.candidate.now.writes) place
        (pair_at candidate.now.writes) e)) }
{
    let first = best.candidate.writes.write;
    let second = candidate.writes.write;
    let loops = first.statement.loops.as_slice();
    let common = common_loops(loops, second.statement.loops.as_slice());
    let point = point_of(best);
    let forms = whole_forms(alloc, point)?;
    let place = forms.as_slice();
    let mut sums = Items::new(alloc);
    for level in 0..level_count(&first, &second) {
        let found = exclusion(context, search, candidate, place, level, level < common)?;
        match found {
            Some(terms) => sums.push(terms)?,
            None => return Ok(None),
        }
    }
    Ok(Some(sums))
}

// The first of the candidates left that is not excluded. Those that are excluded here are asked
// again further down.
fn choose(
    state: &State,
    search: &mut Search,
    left: &[u32],
    mut out: Items<Excluded>,
) -> Result<Choice, AllocError>
    requires path { IsPath state.now 0 None }
    requires rest { IsChoiceSoFar state.now left.now out }
    ensures { IfOk result (IsChoice state.now) }
{
    let Some((number, left)) = left.split_first() else {
        return Ok(Choice::End(out));
    };
    let candidate = &state.candidates[*number as usize];
    let Some(best) = state.best else {
        let absent = absence_of(state.context, search, candidate)?;
        if let Some(terms) = absent {
            return Ok(Choice::Absent(*number, terms));
        }
        return Ok(Choice::Take(*number));
    };
    let found = exclusions(state.read.alloc, state.context, search, best, candidate)?;
    match found {
        Some(sums) => {
            out.push(Excluded {
                writer: candidate.writes.write.number,
                level: candidate.writes.level,
                sums,
            })?;
            choose(state, search, left, out)
        }
        None => Ok(Choice::Take(*number)),
    }
}

// A leaf where no candidate is left to be taken.
fn leaf(state: &State, excluded: &[Excluded]) -> Result<Tree, AllocError>
    requires path { IsPath state.now 0 None }
    requires end { IsEnd state.now excluded.now }
    ensures joined { IfOk result
        (IsJoinedTree state.now.read.now state.now.context.now) }
    ensures low { IfOk result (λ tree. height_of tree ≡ 0) }
{
    match state.best {
        Some(best) => writer_leaf(state, best, excluded),
        None => zero_leaf(state),
    }
}

// The path, as it is read.
fn state_of<'s, 'a>(task: &Task<'a>, walk: &'s Walk<'a>) -> State<'s, 'a>
    ensures { IsStateOf task.now walk.now result }
{
    State {
        read: task.read,
        candidates: task.candidates,
        context: &walk.context,
        best: best_of(walk.seen.as_slice()),
        seen: walk.seen.as_slice(),
        left: walk.left.as_slice(),
    }
}

// Tests

// Puts the row of one side of a Test behind the context. Answers the Dead leaf of a side that nothing meets.
fn enter(context: &mut System, row: Form) -> Result<Option<Tree>, AllocError>
    requires { IsContext (with_form context.old row) }
    ensures context { OnOk result (context.new ≡ with_form context.old row) }
    ensures dead { IfOk result (λ leaf. IfSome leaf
        (λ tree. (pairs : List ReadAndWrite) → IsTreeFor pairs context.new tree)) }
    ensures low { IfOk result (λ leaf. IfSome leaf (λ tree. height_of tree ≡ 0)) }
{
    context.rows.push(row)?;
    let here = Context { system: &*context };
    dead_leaf(&here)
}

// Takes the last row off the context.
fn last_row(context: &mut System) -> Form
    requires { (before : SystemOf) × (row : FormOf) × (context.old ≡ with_form before row) }
    ensures { (before : SystemOf) (row : FormOf) → context.old ≡ with_form before row
        → (context.new ≡ before) × (result ≡ row) }
{
    match context.rows.pop() {
        Some(row) => row,
        None => unreachable!(),
    }
}

// A Test of this form: how the joining goes on on its first side, and later on its second.
fn ask<'a>(
    task: &Task<'a>,
    walk: &mut Walk<'a>,
    form: Form,
    first: Next<'a>,
    second: Next<'a>,
) -> Result<Step<'a>, AllocError>
    requires frames { AreFrames task.now.read.now task.now.candidates.now walk.old.context
        walk.old.seen walk.old.frames }
    requires sides { AreSides task.now walk.old form first second }
    ensures { IfOk result (λ step. (most : ℕ)
        → turns_of_step (length walk.old.left) (Step.On first.entry)
        + (turns_of_step (length walk.old.left) (Step.On second.entry) + 2) < most
        → GoesOn task.now (most + sum_by turns_of_frame walk.old.frames) walk.new step) }
{
    let left = Items::from_slice(task.read.alloc, walk.left.as_slice())?;
    let count = walk.seen.len();
    walk.frames.push(Frame::First(count, left, second))?;
    let dead = enter(&mut walk.context, form)?;
    match dead {
        Some(tree) => Ok(Step::Made(tree)),
        None => Ok(Step::On(first)),
    }
}

// The Test of a form from the trees of its sides, or one of them in its place where its proofs don't name the Test's row.
fn joint_test(
    alloc: Global,
    context: &System,
    form: Form,
    yes: Tree,
    no: Tree,
) -> Result<Tree, AllocError>
    requires few { length context.now.rows < 2 ^ 32 }
    ensures tree { IfOk result
        (λ tree. tree ≡ branch_or_test (length context.now.rows) form yes no) }
    ensures joined { IfOk result (λ tree. (pairs : List ReadAndWrite) (there : SystemOf)
        → AreJoinedSides pairs there (length context.now.rows) form yes no
        → IsTreeFor pairs there tree) }
{
    let row = context.rows.len() as u32;
    trim_test(alloc, &form, yes, no, row)
}

// The second side of a Test, whose first side has this tree: what was seen on the first side is let go of.
fn turn<'a>(
    task: &Task<'a>,
    walk: &mut Walk<'a>,
    count: usize,
    left: Items<u32>,
    next: Next<'a>,
    yes: Tree,
) -> Result<Step<'a>, AllocError>
    requires { IsClosing task.now walk.old (Frame.First count left next) yes }
    ensures { IfOk result (GoesOn task.now
        (turns_of_frame (Frame.First count left next.entry) + sum_by turns_of_frame walk.old.frames)
        walk.new) }
{
    let form = last_row(&mut walk.context);
    let row = opposite(&form);
    walk.seen.truncate(count);
    walk.left = left;
    walk.frames.push(Frame::Second(form, yes))?;
    let dead = enter(&mut walk.context, row)?;
    match dead {
        Some(tree) => Ok(Step::Made(tree)),
        None => Ok(Step::On(next)),
    }
}

// The first side of the last Test has this tree. Where its proofs name the Test's row, the second side is walked. Else the
// tree holds without that row and stands in the Test's place, and nothing is walked for it.
fn first_made<'a>(
    task: &Task<'a>,
    walk: &mut Walk<'a>,
    count: usize,
    left: Items<u32>,
    next: Next<'a>,
    yes: Tree,
) -> Result<Step<'a>, AllocError>
    requires { IsClosing task.now walk.old (Frame.First count left next) yes }
    ensures { IfOk result (GoesOn task.now
        (turns_of_frame (Frame.First count left next.entry) + sum_by turns_of_frame walk.old.frames)
        walk.new) }
{
    let row = walk.context.rows.len() as u32 - 1;
    if tree_names_row(&yes, row) {
        return turn(task, walk, count, left, next, yes);
    }
    last_row(&mut walk.context);
    let tree = branch_without(task.read.alloc, yes, row)?;
    Ok(Step::Made(tree))
}

// A side of the last Test, which this frame was of, has this tree.
fn close<'a>(
    task: &Task<'a>,
    walk: &mut Walk<'a>,
    frame: Frame<'a>,
    tree: Tree,
) -> Result<Step<'a>, AllocError>
    requires { IsClosing task.now walk.old frame tree }
    ensures { IfOk result (GoesOn task.now
        (turns_of_frame frame.entry + sum_by turns_of_frame walk.old.frames) walk.new) }
{
    match frame {
        Frame::First(count, left, next) => first_made(task, walk, count, left, next, tree),
        Frame::Second(form, yes) => {
            last_row(&mut walk.context);
            let made = joint_test(task.read.alloc, &walk.context, form, yes, tree)?;
            Ok(Step::Made(made))
        }
    }
}

// Candidates

// This candidate has no point, as the terms show.
fn pass_by<'a>(
    task: &Task<'a>,
    walk: &mut Walk<'a>,
    number: u32,
    terms: Items<Term>,
) -> Result<Step<'a>, AllocError>
    requires way { IsUnderWay task.now walk.old (Step.On Next.Choose) }
    requires left { IsLeft number walk.old.left }
    requires absent { (c : CandidateOf) × (slice_get task.now.candidates.now number ≡ Some c)
        × RefutesWrites (pair_at c.writes) walk.old.context c.writes.level (Proof.Sum terms)
        × (weight terms ≤ 2 ^ 48) }
    ensures { IfOk result (GoesOn task.now (turns_left walk.old (Step.On Next.Choose)) walk.new) }
{
    let alloc = task.read.alloc;
    let rows = own_rows(alloc, 0, walk.context.rows.len())?;
    walk.left = others(alloc, walk.left.as_slice(), number)?;
    walk.seen.push(Seen::Without(Absence {
        candidate: &task.candidates[number as usize],
        rows,
        terms,
    }))?;
    Ok(Step::On(Next::Choose))
}

// The tree of this candidate is followed.
fn take<'a>(task: &Task<'a>, walk: &mut Walk<'a>, number: u32) -> Result<Step<'a>, AllocError>
    requires way { IsUnderWay task.now walk.old (Step.On Next.Choose) }
    requires left { IsLeft number walk.old.left }
    requires candidate { (c : CandidateOf)
        × (slice_get task.now.candidates.now number ≡ Some c) }
    ensures { IfOk result (GoesOn task.now (turns_left walk.old (Step.On Next.Choose)) walk.new) }
{
    let alloc = task.read.alloc;
    let candidate = &task.candidates[number as usize];
    let rows = own_rows(alloc, 0, task.read.context.rows.len())?;
    walk.left = others(alloc, walk.left.as_slice(), number)?;
    Ok(Step::On(Next::Follow(Position {
        candidate,
        node: &candidate.tree,
        rows,
    })))
}

// What is done with the candidates that are left.
fn choose_on<'a>(task: &Task<'a>, walk: &mut Walk<'a>) -> Result<Step<'a>, AllocError>
    requires { IsUnderWay task.now walk.old (Step.On Next.Choose) }
    ensures { IfOk result (GoesOn task.now (turns_left walk.old (Step.On Next.Choose)) walk.new) }
{
    let state = state_of(task, &*walk);
    let mut search = Search::new(task.read.alloc);
    let choice = choose(&state, &mut search, state.left, Items::new(task.read.alloc))?;
    match choice {
        Choice::End(excluded) => {
            let tree = leaf(&state, excluded.as_slice())?;
            Ok(Step::Made(tree))
        }
        Choice::Absent(number, terms) => pass_by(task, walk, number, terms),
        Choice::Take(number) => take(task, walk, number),
    }
}

// The best point and that of this position.
fn pair_of<'a>(alloc: Global, seen: &[Seen<'a>], new: &Position<'a>) -> Option<Pair<'a>>
    requires { (r : ReadOf) × (context : SystemOf) × IfSome (best_in seen.now) (IsBest r context)
        × IsBest r context new.now }
    ensures { MatchOption result (best_in seen.now ≡ None) (λ pair. (best : PositionOf)
        × (best_in seen.now ≡ Some best) × ((r : ReadOf) (context : SystemOf)
        → IsBest r context best → IsBest r context new.now
        → ArePair context best new.now pair)) }
{
    let best = best_of(seen)?;
    let first = best.candidate.writes.write;
    let second = new.candidate.writes.write;
    let loops = first.statement.loops.as_slice();
    Some(Pair {
        alloc,
        best_writer: first.number,
        best: point_of(best),
        new_writer: second.number,
        new: point_of(new),
        common: common_loops(loops, second.statement.loops.as_slice()),
    })
}

// One side of a candidate's Test, whose row has this number here.
fn side_of<'a>(
    alloc: Global,
    candidate: &'a Candidate<'a>,
    node: &'a Tree,
    rows: &[Items<Term>],
    here: u32,
) -> Result<Position<'a>, AllocError>
    ensures candidate { IfOk result (λ at. at.candidate.now ≡ candidate.now) }
    ensures node { IfOk result (λ at. at.node.now ≡ node.now) }
    ensures rows { IfOk result (λ at. at.rows ≡ rows.now ++ (term_of here ∷ []) ∷ []) }
{
    let mut rows = copy_rows(alloc, rows)?;
    rows.push(once(alloc, here)?)?;
    Ok(Position {
        candidate,
        node,
        rows,
    })
}

// A Zero leaf of a candidate's tree, which has one proof, with these terms in the places of its rows.
fn absence_at<'a>(
    alloc: Global,
    candidate: &'a Candidate<'a>,
    proofs: &[Proof],
    rows: Items<Items<Term>>,
) -> Result<Absence<'a>, AllocError>
    requires { (terms : List TermOf) × (proofs.now ≡ Proof.Sum terms ∷ []) }
    ensures candidate { IfOk result (λ at. at.candidate.now ≡ candidate.now) }
    ensures rows { IfOk result (λ at. at.rows ≡ rows) }
    ensures terms { IfOk result (λ at. (terms : List TermOf)
        → proofs.now ≡ Proof.Sum terms ∷ [] → at.terms ≡ terms) }
{
    match &proofs[0] {
        Proof::Sum(terms) => Ok(Absence {
            candidate,
            rows,
            terms: Items::from_slice(alloc, terms.as_slice())?,
        }),
        _ => unreachable!(),
    }
}

// A candidate's tree comes to a point: it is the first one, or is compared with the best.
fn arrive<'a>(
    task: &Task<'a>,
    walk: &mut Walk<'a>,
    at: Position<'a>,
) -> Result<Step<'a>, AllocError>
    requires way { IsUnderWay task.now walk.old (Step.On (Next.Follow at)) }
    requires point { (place : List FormOf) × IsPointAt at place }
    ensures { IfOk result (GoesOn task.now (turns_left walk.old (Step.On (Next.Follow at.entry)))
        walk.new) }
{
    let alloc = task.read.alloc;
    match pair_of(alloc, walk.seen.as_slice(), &at) {
        Some(pair) => Ok(Step::On(Next::Compare(at, pair, Comparison::Open(unopened(alloc))))),
        None => {
            walk.seen.push(Seen::First(at))?;
            Ok(Step::On(Next::Choose))
        }
    }
}

// A candidate's tree is followed as far as the context tells.
fn follow_on<'a>(
    task: &Task<'a>,
    walk: &mut Walk<'a>,
    at: Position<'a>,
) -> Result<Step<'a>, AllocError>
    requires { IsUnderWay task.now walk.old (Step.On (Next.Follow at)) }
    ensures { IfOk result (GoesOn task.now (turns_left walk.old (Step.On (Next.Follow at.entry)))
        walk.new) }
{
    let alloc = task.read.alloc;
    let Position {
        candidate,
        node,
        rows,
    } = at;
    let here = Context {
        system: &walk.context,
    };
    let Followed { node, rows } = follow(node, &here, rows)?;
    match node {
        Tree::Test(form, yes, no) => {
            let form = form.get();
            let here = walk.context.rows.len() as u32;
            let above = side_of(alloc, candidate, yes.get(), rows.as_slice(), here)?;
            let below = side_of(alloc, candidate, no.get(), rows.as_slice(), here)?;
            ask(task, walk, form, Next::Follow(above), Next::Follow(below))
        }
        Tree::Zero(proofs) => {
            let absence = absence_at(alloc, candidate, proofs.as_slice(), rows)?;
            walk.seen.push(Seen::Without(absence))?;
            Ok(Step::On(Next::Choose))
        }
        Tree::Writer(..) => arrive(
            task,
            walk,
            Position {
                candidate,
                node,
                rows,
            },
        ),
        _ => unreachable!(),
    }
}

fn copy_position<'a>(alloc: Global, at: &Position<'a>) -> Result<Position<'a>, AllocError>
    ensures { IfOk result (λ copy. copy ≡ at.now) }
{
    Ok(Position {
        candidate: at.candidate,
        node: at.node,
        rows: copy_rows(alloc, at.rows.as_slice())?,
    })
}

// A Test of the next loop of two points.
fn ask_next<'a>(
    task: &Task<'a>,
    walk: &mut Walk<'a>,
    at: Position<'a>,
    pair: Pair<'a>,
    so_far: Compared,
) -> Result<Step<'a>, AllocError>
    requires way { IsUnderWay task.now walk.old
        (Step.On (Next.Compare at pair (Comparison.Open so_far))) }
    requires next { length so_far.equal < pair.common }
    requires half { facts_had so_far ≤ 2 * length so_far.equal + 1 }
    ensures { IfOk result (GoesOn task.now (turns_left walk.old
        (Step.On (Next.Compare at.entry pair.entry (Comparison.Open so_far)))) walk.new) }
{
    let alloc = task.read.alloc;
    let also = copy_position(alloc, &at)?;
    let here = walk.context.rows.len() as u32;
    let Question { form, above, below } = test_of_next_loop(&pair, so_far, here)?;
    let first = Next::Compare(at, pair, above);
    let second = Next::Compare(also, pair, below);
    ask(task, walk, form, first, second)
}

// The point of a candidate is compared with the best as far as the context tells.
fn compare_on<'a>(
    task: &Task<'a>,
    walk: &mut Walk<'a>,
    at: Position<'a>,
    pair: Pair<'a>,
    comparison: Comparison,
) -> Result<Step<'a>, AllocError>
    requires { IsUnderWay task.now walk.old (Step.On (Next.Compare at pair comparison)) }
    ensures { IfOk result (GoesOn task.now
        (turns_left walk.old (Step.On (Next.Compare at.entry pair.entry comparison))) walk.new) }
{
    match comparison {
        Comparison::Earlier(order) => {
            walk.seen.push(Seen::Before(at, order))?;
            Ok(Step::On(Next::Choose))
        }
        Comparison::Later(order) => {
            walk.seen.push(Seen::After(at, order))?;
            Ok(Step::On(Next::Choose))
        }
        Comparison::Open(so_far) => {
            let here = Context {
                system: &walk.context,
            };
            let compared = compare_points(&here, &pair, so_far)?;
            match compared {
                Comparison::Open(so_far) => ask_next(task, walk, at, pair, so_far),
                told => Ok(Step::On(Next::Compare(at, pair, told))),
            }
        }
    }
}

// The walk

fn go_on<'a>(task: &Task<'a>, walk: &mut Walk<'a>, next: Next<'a>) -> Result<Step<'a>, AllocError>
    requires { IsUnderWay task.now walk.old (Step.On next) }
    ensures { IfOk result (GoesOn task.now (turns_left walk.old (Step.On next.entry)) walk.new) }
{
    match next {
        Next::Choose => choose_on(task, walk),
        Next::Follow(at) => follow_on(task, walk, at),
        Next::Compare(at, pair, comparison) => compare_on(task, walk, at, pair, comparison),
    }
}

// The tree of the walk, turn by turn. What is left to do stands in the frames, so that a path takes none of the machine's
// stack.
fn walked<'a>(task: &Task<'a>, walk: &mut Walk<'a>) -> Result<Tree, AllocError>
    requires { IsUnderWay task.now walk.old (Step.On Next.Choose) }
    ensures { IfOk result (IsMade task.now.read.now task.now.read.now.context.now) }
{
    let mut step = Step::On(Next::Choose);
    'turns: loop {
        step = match step {
            Step::On(next) => go_on(task, walk, next)?,
            Step::Made(tree) => match walk.frames.pop() {
                Some(frame) => close(task, walk, frame, tree)?,
                None => return Ok(tree),
            },
        };
    }
}

/// The joined tree of a read's context, where these candidates are left, which are all.
pub fn tree_of(task: &Task, context: System, left: Items<u32>) -> Result<Tree, AllocError>
    requires context { context ≡ task.now.read.now.context.now }
    requires path { IsPathOf task.now.read.now task.now.candidates.now context None [] left
        (70000 * length left) None }
    ensures { IfOk result (IsMade task.now.read.now task.now.read.now.context.now) }
{
    let alloc = task.read.alloc;
    let mut walk = Walk {
        context,
        seen: Items::new(alloc),
        left,
        frames: Items::new(alloc),
    };
    walked(task, &mut walk)
}
