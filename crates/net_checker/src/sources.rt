ghost use Rattle.std.specs.Prelude.{◌≡◌, ◌+◌, ◌+ℤ◌, ◌-ℤ◌, ◌<◌, ◌≤◌, ◌*◌, ◌++◌, pos, ℕ, ℤ, List, [], ◌∷◌, Option, None, Some, length, map, slice_get, slice_index_or, true, IsTrue, IfOk, IfSome};
ghost use Rattle.std.specs.List.{list_all, range_with_len};
ghost use Rattle.std.specs.Option.{option_and_then, option_copied};
ghost use Rattle.sanlp.specs.Access.{read_count};
ghost use Rattle.sanlp.specs.Points.{points_of};
ghost use Rattle.sanlp.specs.Size.{SizeIsOk};
ghost use Rattle.sanlp.specs.Tags.{tag_at};
ghost use Rattle.sanlp.specs.Trace.{trace};
ghost use Rattle.source_tree.specs.Checked.{IsChecked};
ghost use Rattle.source_tree.specs.Exact.{IsPointOf};
ghost use Rattle.source_tree.specs.Sources.{read_number, read_sources, sources_of};
ghost use Rattle.source_tree.specs.Systems.{read_at};
ghost use Rattle.net_checker.specs.Shapes.{read_total};
ghost use Rattle.net_checker.specs.Sources.{first_overflow, origin_refusal, reads_refusal, source_refusal, tree_refusal};
ghost use Rattle.net_checker.specs.Tables.{differences, is_tree, AreInOrder, AreProgressions, AreTold, GivesTag, GoesOn, IsAhead, IsProgression, IsRow};
ghost use Rattle.source_tree.specs.declared.tree.Tree.{Tree};
ghost use Rattle.tree_eval.specs.Stretches.{values_at, IsStretchOf};

use crate::known_rows::{KnownRows, Row};
use crate::nest_network::NestNetwork;
use crate::parts::{reads_of, turns_of};
use crate::verdict::Refusal;
use affine_core::Vector;
use plain_data::Items;
use sanlp::{Nest, Points, Tag, reads_before};
use shadow_sweep::sweep_counted;
use source_check::{Rule, TreeVerdict, check_tree};
use source_tree::{Cert, Found, Origin, SourceTable, Tree};
use std::alloc::{AllocError, Global};
use tree_eval::Follower;

// The iteration vectors of a statement.
fn vectors_of(points: &Points, statement: u32) -> &[Vector]
    requires { statement < length points.now.of }
    ensures { result.now ≡ slice_index_or points.now.of statement [] }
{
    points.of.as_slice()[statement as usize].as_slice()
}

// Whether this vector stands at a place.
fn is_at(vectors: &[Vector], place: usize, at: &Vector) -> bool
    ensures { IsTrue result → slice_get vectors.now place ≡ Some at.now }
{
    match vectors.get(place) {
        Some(there) => there.as_slice() == at.as_slice(),
        None => false,
    }
}

// The turn of a point among those of its statement, which is looked for at these two places first.
fn turn_of(vectors: &[Vector], at: &Vector, guess: usize, second: usize) -> Option<usize>
    ensures { (f : ℕ) → AreInOrder vectors.now → slice_get vectors.now f ≡ Some at.now
        → result ≡ Some f }
{
    if is_at(vectors, guess, at) {
        return Some(guess);
    }
    if is_at(vectors, second, at) {
        return Some(second);
    }
    vectors.binary_search(at).ok()
}

// Where a statement's turns that were found go: the last one, the step by which they mostly go on, the last other step,
// and whether that came last. In rows they go on by one step inside a row and by another to the next. Nothing rests on it.
#[derive(Clone, Copy)]
struct Pace {
    statement: u32,
    last: usize,
    step: usize,
    jump: usize,
    jumped: bool,
}

impl Pace {
    // Before the first turn of a statement that is found.
    fn before(statement: u32) -> Pace {
        Pace {
            statement,
            last: 0,
            step: 0,
            jump: 1,
            jumped: false,
        }
    }

    // The turn that comes if the turns go on by the usual step.
    fn guess(&self) -> usize {
        self.last.wrapping_add(self.step)
    }

    // The turn that comes if they go on by the other one.
    fn second_guess(&self) -> usize {
        self.last.wrapping_add(self.jump)
    }

    // So many turns more were found, each by the usual step.
    fn pass(&mut self, turns: usize) {
        self.last = self.last.wrapping_add(turns.wrapping_mul(self.step));
    }

    // Another step that comes twice, one after the other, is the usual one from then on.
    fn note(&mut self, turn: usize) {
        let step = turn.wrapping_sub(self.last);
        self.last = turn;
        if step == self.step {
            self.jumped = false;
        } else if self.jumped && step == self.jump {
            self.jump = self.step;
            self.step = step;
            self.jumped = false;
        } else {
            self.jump = step;
            self.jumped = true;
        }
    }
}

// The pace of the statement whose turn was found last, and of the one that was found before it.
#[derive(Drop)]
struct Paces {
    pace: Pace,
    other: Pace,
}

impl Paces {
    // Goes on with this statement.
    fn choose(&mut self, statement: u32) {
        if self.pace.statement == statement {
            return;
        }
        let other = self.other;
        self.other = self.pace;
        self.pace = if other.statement == statement {
            other
        } else {
            Pace::before(statement)
        };
    }
}

// The tag of the entry whose point was found, or none where zero was.
fn tag_of(candidate: &NestNetwork, found: &Found, paces: &mut Paces) -> Option<Tag>
    requires { (writer : Option ℕ) × IsPointOf (trace candidate.now.nest.now) writer found.now }
    ensures { (writer : Option ℕ) → IsPointOf (trace candidate.now.nest.now) writer found.now
        → result ≡ option_and_then (tag_at (trace candidate.now.nest.now)) writer }
{
    match found {
        Found::At(point) => {
            let vectors = vectors_of(candidate.points, point.statement);
            paces.choose(point.statement);
            let (guess, second) = (paces.pace.guess(), paces.pace.second_guess());
            let turn = turn_of(vectors, &point.at, guess, second)?;
            paces.pace.note(turn);
            Some(Tag {
                process: point.statement,
                turn: turn as u32,
            })
        }
        Found::Zero | Found::Dead => None,
    }
}

// The iteration vector of a statement's turn, if there is one.
#[tactic(auto, using(crate::proofs::Lists::default_items))]
fn vector_of_turn(points: &Points, statement: u32, turn: usize) -> Option<&Vector>
    ensures { option_copied result
        ≡ slice_get (slice_index_or points.now.of statement []) turn }
{
    match points.of.get(statement as usize) {
        Some(vectors) => vectors.get(turn),
        None => None,
    }
}

// The tag of the point at the turn that comes if the turns go on by the usual step, where it is known that a tree gives it.
fn guessed_tag(points: &Points, follower: &Follower, at: &Vector, pace: &Pace) -> Option<Tag>
    requires { (tree : Tree) × IsStretchOf tree follower.now }
    ensures { IfSome result
        (λ tag. (tree : Tree) → IsStretchOf tree follower.now
        → GivesTag points.now.of tree at.now tag) }
{
    let turn = u32::try_from(pace.guess()).ok()?;
    let there = vector_of_turn(points, pace.statement, turn as usize)?;
    if follower.tells(at, pace.statement, there.as_slice()) {
        Some(Tag {
            process: pace.statement,
            turn,
        })
    } else {
        None
    }
}

// Tags of one statement that are known of the turns that come next: so many are left, which go on by a step from turn to turn.
#[derive(Clone, Copy)]
struct ToldTags {
    statement: u32,
    next: u32,
    step: u32,
    left: u32,
}

impl ToldTags {
    // None is known.
    fn none() -> ToldTags
        ensures { (points : List (List (List ℤ))) (tree : Tree) (vectors : List (List ℤ))
            (turn : ℕ) → AreTold points tree vectors turn result }
    {
        ToldTags {
            statement: 0,
            next: 0,
            step: 0,
            left: 0,
        }
    }

    // How many there are.
    fn count(&self) -> u32 {
        self.left
    }

    // Takes the tag of the next turn, if it is known.
    fn take(&mut self) -> Option<Tag>
        ensures tag { IfSome result
            (λ tag. (points : List (List (List ℤ))) (tree : Tree) (vectors : List (List ℤ))
            (turn : ℕ) (at : List ℤ) → AreTold points tree vectors turn self.old
            → slice_get vectors turn ≡ Some at → GivesTag points tree at tag) }
        ensures left { (points : List (List (List ℤ))) (tree : Tree) (vectors : List (List ℤ))
            (turn : ℕ) → AreTold points tree vectors turn self.old
            → AreTold points tree vectors (turn + 1) self.new }
    {
        if self.left == 0 {
            return None;
        }
        let tag = Tag {
            process: self.statement,
            turn: self.next,
        };
        match self.next.checked_add(self.step) {
            Some(next) => {
                self.next = next;
                self.left -= 1;
            }
            None => self.left = 0,
        }
        Some(tag)
    }
}

// Whether a vector differs from another in its last value alone, and that is greater by so much.
fn is_ahead(vector: &Vector, other: &Vector, by: u32) -> bool
    ensures { IsTrue result → IsAhead by vector.now other.now }
{
    let Some((value, front)) = vector.as_slice().split_last() else {
        return false;
    };
    let Some((greater, same)) = other.as_slice().split_last() else {
        return false;
    };
    let Some(sum) = value.checked_add(i64::from(by)) else {
        return false;
    };
    if sum != *greater {
        return false;
    }
    front == same
}

// Whether the vector so many turns later is so much ahead.
fn goes_on(vectors: &[Vector], turn: usize, by: u32) -> bool
    ensures { IsTrue result → GoesOn vectors.now turn by }
{
    let Some(place) = turn.checked_add(by as usize) else {
        return false;
    };
    let Some(vector) = vectors.get(turn) else {
        return false;
    };
    let Some(later) = vectors.get(place) else {
        return false;
    };
    is_ahead(vector, later, by)
}

// How many vectors behind this one go on along the innermost loop, which may be as many as this. They are sought in steps that
// double as long as they serve, and then halve. Nothing rests on it.
fn row_length(vectors: &[Vector], turn: usize, guess: u32) -> u32 {
    if goes_on(vectors, turn, guess) && !goes_on(vectors, turn, guess.saturating_add(1)) {
        return guess;
    }
    let mut length: u32 = 0;
    let mut step: u32 = 1;
    for _ in 0..31 {
        if !goes_on(vectors, turn, length.saturating_add(step)) {
            break;
        }
        length = length.saturating_add(step);
        step = step.saturating_mul(2);
    }
    for _ in 0..31 {
        step /= 2;
        if step == 0 {
            break;
        }
        if goes_on(vectors, turn, length.saturating_add(step)) {
            length = length.saturating_add(step);
        }
    }
    length
}

// Whether two numbers are as far apart as two others.
fn is_as_far(from: i64, second: i64, at: i64, after: i64) -> bool
    ensures { IsTrue result → after ≡ at +ℤ (second -ℤ from) }
{
    let Some(step) = second.checked_sub(from) else {
        return false;
    };
    let Some(sum) = at.checked_add(step) else {
        return false;
    };
    sum == after
}

// Whether two vectors are as far apart as two others, number by number.
fn is_step(from: &[i64], second: &[i64], at: &[i64], after: &[i64]) -> bool
    ensures { IsTrue result
        → after.now ≡ values_at (pos 1) at.now (differences from.now second.now) }
{
    if second.len() != from.len() || at.len() != from.len() || after.len() != from.len() {
        return false;
    }
    for k in 0..from.len() {
        if !is_as_far(from[k], second[k], at[k], after[k]) {
            return false;
        }
    }
    true
}

// Whether the vectors at this place and at so many behind it, each by a step from the last, are an arithmetic progression.
fn is_stepped_row(vectors: &[Vector], first: usize, step: usize, length: u32) -> bool
    ensures { IsTrue result → IsProgression vectors.now first step length }
{
    let Some(second_place) = first.checked_add(step) else {
        return false;
    };
    let Some(first_vector) = vectors.get(first) else {
        return false;
    };
    let Some(second_vector) = vectors.get(second_place) else {
        return false;
    };
    let from = first_vector.as_slice();
    let second = second_vector.as_slice();
    if second.len() != from.len() {
        return false;
    }
    let mut place = first;
    for _ in 0..length {
        let Some(next) = place.checked_add(step) else {
            return false;
        };
        let Some(here) = vectors.get(place) else {
            return false;
        };
        let Some(there) = vectors.get(next) else {
            return false;
        };
        let at = here.as_slice();
        let after = there.as_slice();
        if !is_step(from, second, at, after) {
            return false;
        }
        place = next;
    }
    true
}

// Whether a row is an arithmetic progression. Where the step is 1, the last vector alone tells it: vectors stand in order, so
// where it is as far ahead as it stands behind the first, so is each between them. Else each is looked at, once as long as the
// row is known.
fn is_even_row(candidate: &NestNetwork, known: &mut KnownRows, row: Row) -> bool
    requires { AreProgressions candidate.now.points.now.of known.old }
    ensures row { IsTrue result → IsRow candidate.now.points.now.of row }
    ensures known { AreProgressions candidate.now.points.now.of known.new }
{
    let Some(vectors) = candidate.points.of.get(row.statement as usize) else {
        return false;
    };
    let vectors = vectors.as_slice();
    let (first, step) = (row.first as usize, row.step as usize);
    if step == 1 {
        return goes_on(vectors, first, row.turns);
    }
    if known.has(row) {
        return true;
    }
    if !is_stepped_row(vectors, first, step, row.turns) {
        return false;
    }
    known.add(row);
    true
}

// The tags of a row of so many turns, from this turn on, if a tree is known to give them. The reader's row goes on by 1 from
// turn to turn, and the writer's by the usual step, with the same differences. So the tree is asked at both ends alone.
fn row_tags(
    candidate: &NestNetwork,
    known: &mut KnownRows,
    follower: &Follower,
    statement: u32,
    turn: usize,
    length: u32,
    pace: &Pace,
) -> Option<ToldTags>
    requires rows { AreProgressions candidate.now.points.now.of known.old }
    requires stretch { (tree : Tree) × IsStretchOf tree follower.now }
    ensures rows { AreProgressions candidate.now.points.now.of known.new }
    ensures told { IfSome result
        (λ told. (tree : Tree) → IsStretchOf tree follower.now
        → AreTold candidate.now.points.now.of tree
        (slice_index_or candidate.now.points.now.of statement []) turn told) }
{
    let next = u32::try_from(pace.guess()).ok()?;
    let step = u32::try_from(pace.step).ok()?;
    let last = next.checked_add(length.checked_mul(step)?)?;
    let left = length.checked_add(1)?;
    let last_turn = turn.checked_add(length as usize)?;
    let first_at = vector_of_turn(candidate.points, statement, turn)?;
    let last_at = vector_of_turn(candidate.points, statement, last_turn)?;
    let first_there = vector_of_turn(candidate.points, pace.statement, next as usize)?;
    let last_there = vector_of_turn(candidate.points, pace.statement, last as usize)?;
    if length == 0 {
        return None;
    }
    if !is_ahead(first_at, last_at, length) {
        return None;
    }
    if !follower.tells(first_at, pace.statement, first_there.as_slice()) {
        return None;
    }
    if !follower.tells(last_at, pace.statement, last_there.as_slice()) {
        return None;
    }
    let row = Row {
        statement: pace.statement,
        first: next,
        step,
        turns: length,
    };
    if !is_even_row(candidate, known, row) {
        return None;
    }
    Some(ToldTags {
        statement: pace.statement,
        next,
        step,
        left,
    })
}

// The tags of the row that this turn is in, from this turn on, as far as they are known, where they are sought. The row may
// be as long as is said.
fn later_tags(
    candidate: &NestNetwork,
    known: &mut KnownRows,
    follower: &Follower,
    statement: u32,
    turn: usize,
    pace: &Pace,
    sought: Option<u32>,
) -> ToldTags
    requires statement { statement < length candidate.now.points.now.of }
    requires rows { AreProgressions candidate.now.points.now.of known.old }
    requires stretch { (tree : Tree) × IsStretchOf tree follower.now }
    ensures rows { AreProgressions candidate.now.points.now.of known.new }
    ensures told { (tree : Tree) → IsStretchOf tree follower.now
        → AreTold candidate.now.points.now.of tree
        (slice_index_or candidate.now.points.now.of statement []) turn result }
{
    let Some(guess) = sought else {
        return ToldTags::none();
    };
    let length = row_length(vectors_of(candidate.points, statement), turn, guess);
    match row_tags(candidate, known, follower, statement, turn, length, pace) {
        Some(told) => told,
        None => ToldTags::none(),
    }
}

// Adds the sources of a read by its checked tree, as long as the tree doesn't overflow. Where it does, tells the first
// such point.
fn add_sources(
    candidate: &NestNetwork,
    statement: u32,
    tree: &Tree,
    sources: &mut Items<Option<Tag>>,
) -> Result<Option<Rule>, AllocError>
    requires statement { statement < length candidate.now.nest.now.statements }
    requires checked { (k : ℕ) × IsChecked candidate.now.nest.now statement k tree.now }
    requires empty { sources.old ≡ [] }
    ensures overflow { IfOk result
        (λ rule. rule
        ≡ first_overflow tree.now (slice_index_or
        (points_of candidate.now.nest.now) statement [])) }
    ensures sources { IfOk result
        (λ rule. rule ≡ None → (k : ℕ) → IsChecked candidate.now.nest.now statement k tree.now
        → sources.new ≡ read_sources candidate.now.nest.now
        (trace candidate.now.nest.now) statement k) }
{
    let vectors = vectors_of(candidate.points, statement);
    let mut follower = Follower::new();
    let mut paces = Paces {
        pace: Pace::before(0),
        other: Pace::before(0),
    };
    let mut rows = KnownRows::none();
    let mut told = ToldTags::none();
    let mut length: u32 = 0;
    let mut sought: Option<u32> = None;
    for (turn, at) in vectors.iter().enumerate() {
        if let Some(tag) = told.take() {
            sources.push(Some(tag))?;
            continue;
        }
        if let Some(tag) = guessed_tag(candidate.points, &follower, at, &paces.pace) {
            paces.pace.note(tag.turn as usize);
            sources.push(Some(tag))?;
            told = later_tags(
                candidate,
                &mut rows,
                &follower,
                statement,
                turn + 1,
                &paces.pace,
                sought,
            );
            paces.pace.pass(told.count() as usize);
            length = told.count().saturating_sub(1);
            sought = None;
            continue;
        }
        sought = Some(length);
        match follower.eval(tree, at) {
            Ok(found) => sources.push(tag_of(candidate, &found, &mut paces))?,
            Err(_) => return Ok(Some(Rule::Overflow(turn as u32))),
        }
    }
    Ok(None)
}

// Why a tree is refused for this read, if it is. Where it isn't, the sources of the read are added.
fn tree_refusal(
    alloc: Global,
    candidate: &NestNetwork,
    statement: u32,
    read: u32,
    tree: &Tree,
    sources: &mut Items<Option<Tag>>,
) -> Result<Option<Rule>, AllocError>
    requires statement { statement < length candidate.now.nest.now.statements }
    requires read { read < read_count candidate.now.nest.now statement }
    requires empty { sources.old ≡ [] }
    ensures refusal { IfOk result
        (λ rule. rule
        ≡ option_and_then (tree_refusal candidate.now.nest.now statement tree.now)
        (read_at candidate.now.nest.now statement read)) }
    ensures sources { IfOk result
        (λ rule. rule ≡ None
        → sources.new ≡ read_sources candidate.now.nest.now
        (trace candidate.now.nest.now) statement read) }
{
    match check_tree(alloc, candidate.nest, statement, read, tree)? {
        TreeVerdict::Refused(rule) => Ok(Some(rule)),
        TreeVerdict::Accepted => add_sources(candidate, statement, tree, sources),
    }
}

// Why an origin is refused for this read, if it is. Where it isn't, the read's row is added, which is empty at Sweep.
fn origin_refusal(
    alloc: Global,
    candidate: &NestNetwork,
    statement: u32,
    read: u32,
    origin: &Origin,
    rows: &mut Items<Items<Option<Tag>>>,
) -> Result<Option<Refusal>, AllocError>
    requires statement { statement < length candidate.now.nest.now.statements }
    requires read { read < read_count candidate.now.nest.now statement }
    ensures refusal { IfOk result
        (λ refusal. refusal ≡ origin_refusal candidate.now.nest.now statement read
        (Some origin.now)) }
    ensures row { IfOk result
        (λ refusal. refusal ≡ None → is_tree origin.now ≡ true
        → rows.new
        ≡ rows.old ++ read_sources candidate.now.nest.now
        (trace candidate.now.nest.now) statement read ∷ []) }
{
    match origin {
        Origin::Sweep => {
            rows.push(Items::new(alloc))?;
            Ok(None)
        }
        Origin::Tree(tree) => {
            let mut row = Items::from_vec(Vec::with_capacity(
                alloc,
                turns_of(candidate.points, statement),
            )?);
            let refusal = tree_refusal(alloc, candidate, statement, read, tree.get(), &mut row)?;
            if let Some(rule) = refusal {
                return Ok(Some(Refusal::Source(statement, read, rule)));
            }
            rows.push(row)?;
            Ok(None)
        }
    }
}

// The first read of a statement whose origin is refused. Where there is none, their rows are added. The first of its reads
// has this number.
fn reads_refusal(
    alloc: Global,
    candidate: &NestNetwork,
    cert: &Cert,
    statement: u32,
    first: usize,
    rows: &mut Items<Items<Option<Tag>>>,
) -> Result<Option<Refusal>, AllocError>
    requires statement { statement < length candidate.now.nest.now.statements }
    requires first { first ≡ read_number candidate.now.nest.now statement 0 }
    requires small { first ≤ 8 * statement }
    requires sources { length cert.now.sources ≡ read_total candidate.now.nest.now }
    ensures refusal { IfOk result
        (λ refusal. refusal ≡ reads_refusal candidate.now.nest.now cert.now statement) }
    ensures rows { IfOk result
        (λ refusal. refusal ≡ None → IsTrue (list_all is_tree cert.now.sources)
        → rows.new ≡ rows.old
        ++ map (read_sources candidate.now.nest.now (trace candidate.now.nest.now) statement)
        (range_with_len 0 (read_count candidate.now.nest.now statement))) }
{
    for read in 0..reads_of(candidate.nest, statement) {
        let origin = &cert.sources.as_slice()[first + read];
        let number = read as u32;
        if let Some(refusal) = origin_refusal(alloc, candidate, statement, number, origin, rows)? {
            return Ok(Some(refusal));
        }
    }
    Ok(None)
}

/// The first read whose origin is refused, if there is one. Where there is none, the rows of all reads are added: by a tree
/// the last writers of the read, and none where the origin is Sweep.
pub(crate) fn source_refusal(
    alloc: Global,
    candidate: &NestNetwork,
    cert: &Cert,
    rows: &mut Items<Items<Option<Tag>>>,
) -> Result<Option<Refusal>, AllocError>
    requires sources { length cert.now.sources ≡ read_total candidate.now.nest.now }
    requires empty { rows.old ≡ [] }
    ensures refusal { IfOk result
        (λ refusal. refusal ≡ source_refusal candidate.now.nest.now cert.now) }
    ensures rows { IfOk result
        (λ refusal. refusal ≡ None → IsTrue (list_all is_tree cert.now.sources)
        → rows.new ≡ sources_of candidate.now.nest.now) }
{
    for statement in 0..candidate.nest.statements.len() {
        let first = reads_before(candidate.nest, statement);
        let number = statement as u32;
        if let Some(refusal) = reads_refusal(alloc, candidate, cert, number, first, rows)? {
            return Ok(Some(refusal));
        }
    }
    Ok(None)
}

// Whether no origin is Sweep.
fn are_trees(sources: &[Origin]) -> bool
    ensures { result ≡ list_all is_tree sources.now }
{
    sources
        .iter()
        .all(|origin| matches!(origin, Origin::Tree(_)))
}

/// The last writers of each read: those that are known, or what the rows have where each origin is a tree. Otherwise the nest is
/// swept.
pub(crate) fn table(
    alloc: Global,
    nest: &Nest,
    cert: &Cert,
    sources: Option<SourceTable>,
    rows: Items<Items<Option<Tag>>>,
) -> Result<SourceTable, AllocError>
    requires size { SizeIsOk nest.now }
    requires sources { IfSome sources (λ table. table.of ≡ sources_of nest.now) }
    requires rows { IsTrue (list_all is_tree cert.now.sources) → rows ≡ sources_of nest.now }
    ensures { IfOk result (λ table. table.of ≡ sources_of nest.now) }
{
    if let Some(table) = sources {
        return Ok(table);
    }
    if are_trees(cert.sources.as_slice()) {
        return Ok(SourceTable { of: rows });
    }
    drop(rows);
    let swept = sweep_counted(alloc, nest)?;
    Ok(swept.sources)
}
