ghost use Rattle.std.specs.Prelude.{◌≡◌, ◌+◌, ◌<◌, ◌≤◌, [], ◌∷◌, ◌++◌, drop, length, false, true, MatchOption, IsTrue, OnOk, vec_len};
ghost use Rattle.script_blocks.specs.Expansion.{parts_expansion, repeated};
ghost use Rattle.script_blocks.specs.Nesting.{part_nesting, parts_nesting};
ghost use Rattle.script_blocks.specs.Places.{left, left_of_part, left_of_parts, left_of_repeat, left_of_turns};

use crate::batch::{BATCH, Batch};
use crate::{BlockPart, Blocks};
use std::alloc::{AllocError, Global};

/// Where a cursor is in a list of parts.
#[derive(Clone, Copy)]
pub(crate) struct Frame {
    /// The part that the cursor is at.
    part: usize,
    /// Whether the cursor has entered that part.
    inside: bool,
    /// How many repetitions come after the one that the cursor is in, where it has entered a repeat.
    later: u32,
}

/// Before the first of a list of parts.
pub(crate) const START: Frame = Frame {
    part: 0,
    inside: false,
    later: 0,
};

/// Puts the first frame before these parts.
pub(crate) fn restart<T>(parts: &[BlockPart<T>], frames: &mut [Frame])
    requires { 0 < length frames.old }
    ensures { left frames.new parts.now ≡ parts_expansion parts.now }
{
    let _ = parts;
    frames[0] = START;
}

// The next item of these parts.
#[cycle(next)]
fn next_in<T: Copy>(parts: &[BlockPart<T>], frames: &mut [Frame]) -> Option<T>
    requires { parts_nesting parts.now < length frames.old }
    ensures { MatchOption result
        ((left frames.old parts.now ≡ []) × (left frames.new parts.now ≡ []))
        (λ item. left frames.old parts.now ≡ item ∷ left frames.new parts.now) }
{
    let Some((frame, deeper)) = frames.split_first_mut() else {
        unreachable!()
    };
    next_from_part(parts, frame, deeper)
}

// The next item of the part that the cursor is at, or of a later one.
#[cycle(next)]
fn next_from_part<T: Copy>(
    parts: &[BlockPart<T>],
    frame: &mut Frame,
    deeper: &mut [Frame],
) -> Option<T>
    requires { parts_nesting parts.now ≤ length deeper.old }
    ensures { MatchOption result
        ((left_of_parts frame.old (left deeper.old) (drop frame.old.part parts.now) ≡ [])
        × (left_of_parts frame.new (left deeper.new) (drop frame.new.part parts.now) ≡ []))
        (λ item. left_of_parts frame.old (left deeper.old) (drop frame.old.part parts.now)
        ≡ item ∷ left_of_parts frame.new (left deeper.new) (drop frame.new.part parts.now)) }
{
    while frame.part < parts.len() {
        let item = next_of_part(&parts[frame.part], frame, deeper);
        if item.is_some() {
            return item;
        }
        frame.part += 1;
        frame.inside = false;
    }
    None
}

// The next item of a part.
#[cycle(next)]
#[tactic(auto, using(crate::proofs::Walks::left_of_repeat_is))]
fn next_of_part<T: Copy>(part: &BlockPart<T>, frame: &mut Frame, deeper: &mut [Frame]) -> Option<T>
    requires { part_nesting part.now ≤ length deeper.old }
    ensures part { frame.new.part ≡ frame.old.part }
    ensures next { MatchOption result
        (left_of_part frame.old (left deeper.old) part.now ≡ [])
        (λ item. left_of_part frame.old (left deeper.old) part.now
        ≡ item ∷ left_of_part frame.new (left deeper.new) part.now) }
{
    match part {
        BlockPart::Item(item) => {
            if frame.inside {
                return None;
            }
            frame.inside = true;
            Some(*item)
        }
        BlockPart::Repeat(count, body) => {
            next_of_repeat(*count, body.parts.as_slice(), frame, deeper)
        }
    }
}

// Begins a repetition, with so many later ones.
fn begin_turn<T>(later: u32, body: &[BlockPart<T>], frame: &mut Frame, deeper: &mut [Frame])
    requires { 0 < length deeper.old }
    ensures frame { frame.new ≡ record frame.old { inside = true; later = later } }
    ensures body { left deeper.new body.now ≡ parts_expansion body.now }
    ensures turns { left_of_turns frame.new (left deeper.new) body.now
        ≡ repeated (later + 1) (parts_expansion body.now) }
{
    frame.inside = true;
    frame.later = later;
    restart(body, deeper);
}

// The next item of a repeat.
#[cycle(next)]
#[tactic(auto, using(crate::proofs::Walks::turns))]
fn next_of_repeat<T: Copy>(
    count: u32,
    body: &[BlockPart<T>],
    frame: &mut Frame,
    deeper: &mut [Frame],
) -> Option<T>
    requires { parts_nesting body.now < length deeper.old }
    ensures part { frame.new.part ≡ frame.old.part }
    ensures next { MatchOption result
        (left_of_repeat frame.old (left deeper.old) count body.now ≡ [])
        (λ item. left_of_repeat frame.old (left deeper.old) count body.now
        ≡ item ∷ left_of_repeat frame.new (left deeper.new) count body.now) }
{
    if frame.inside {
        let item = next_in(body, deeper);
        if item.is_some() || frame.later == 0 {
            return item;
        }
        let later = frame.later - 1;
        begin_turn(later, body, frame, deeper);
    } else {
        if count == 0 {
            return None;
        }
        begin_turn(count - 1, body, frame, deeper);
    }
    next_of_new_turn(body, frame, deeper)
}

// The next item of a repetition that has just begun. Where it has none, the later ones have none either.
#[cycle(next)]
#[tactic(auto, using(crate::proofs::Walks::turns))]
fn next_of_new_turn<T: Copy>(
    body: &[BlockPart<T>],
    frame: &Frame,
    deeper: &mut [Frame],
) -> Option<T>
    requires room { parts_nesting body.now < length deeper.old }
    requires begun { left deeper.old body.now ≡ parts_expansion body.now }
    ensures { MatchOption result
        (left_of_turns frame.now (left deeper.old) body.now ≡ [])
        (λ item. left_of_turns frame.now (left deeper.old) body.now
        ≡ item ∷ left_of_turns frame.now (left deeper.new) body.now) }
{
    let _ = frame;
    next_in(body, deeper)
}

/// Adds the next items of these parts to a batch, until it is full or there is no more. Whether it is full.
#[cycle(fill)]
pub(crate) fn fill_in<T: Copy>(
    parts: &[BlockPart<T>],
    frames: &mut [Frame],
    batch: &mut Batch<T>,
) -> bool
    requires room { parts_nesting parts.now < length frames.old }
    ensures items { batch.old ++ left frames.old parts.now
        ≡ batch.new ++ left frames.new parts.now }
    ensures full { IsTrue result → length batch.new ≡ 16 }
    ensures done { result ≡ false → left frames.new parts.now ≡ [] }
{
    let Some((frame, deeper)) = frames.split_first_mut() else {
        unreachable!()
    };
    fill_from_part(parts, frame, deeper, batch)
}

// The same from the part on that the cursor is at.
#[cycle(fill)]
fn fill_from_part<T: Copy>(
    parts: &[BlockPart<T>],
    frame: &mut Frame,
    deeper: &mut [Frame],
    batch: &mut Batch<T>,
) -> bool
    requires room { parts_nesting parts.now ≤ length deeper.old }
    ensures items { batch.old
        ++ left_of_parts frame.old (left deeper.old) (drop frame.old.part parts.now)
        ≡ batch.new ++ left_of_parts frame.new (left deeper.new) (drop frame.new.part parts.now) }
    ensures full { IsTrue result → length batch.new ≡ 16 }
    ensures done { result ≡ false
        → left_of_parts frame.new (left deeper.new) (drop frame.new.part parts.now) ≡ [] }
{
    while frame.part < parts.len() {
        if fill_of_part(&parts[frame.part], frame, deeper, batch) {
            return true;
        }
        frame.part += 1;
        frame.inside = false;
    }
    false
}

// The same of one part.
#[cycle(fill)]
#[tactic(auto, using(crate::proofs::Walks::left_of_repeat_is))]
fn fill_of_part<T: Copy>(
    part: &BlockPart<T>,
    frame: &mut Frame,
    deeper: &mut [Frame],
    batch: &mut Batch<T>,
) -> bool
    requires room { part_nesting part.now ≤ length deeper.old }
    ensures part { frame.new.part ≡ frame.old.part }
    ensures items { batch.old ++ left_of_part frame.old (left deeper.old) part.now
        ≡ batch.new ++ left_of_part frame.new (left deeper.new) part.now }
    ensures full { IsTrue result → length batch.new ≡ 16 }
    ensures done { result ≡ false → left_of_part frame.new (left deeper.new) part.now ≡ [] }
{
    match part {
        BlockPart::Item(item) => {
            if frame.inside {
                return false;
            }
            if batch.len() == BATCH {
                return true;
            }
            batch.push(*item);
            frame.inside = true;
            false
        }
        BlockPart::Repeat(count, body) => {
            fill_of_repeat(*count, body.parts.as_slice(), frame, deeper, batch)
        }
    }
}

// Adds the next items of a repeat, until the batch is full or there is no more.
#[cycle(fill)]
#[tactic(auto, using(crate::proofs::Fills::fills))]
fn fill_of_repeat<T: Copy>(
    count: u32,
    body: &[BlockPart<T>],
    frame: &mut Frame,
    deeper: &mut [Frame],
    batch: &mut Batch<T>,
) -> bool
    requires room { parts_nesting body.now < length deeper.old }
    ensures part { frame.new.part ≡ frame.old.part }
    ensures items { batch.old ++ left_of_repeat frame.old (left deeper.old) count body.now
        ≡ batch.new ++ left_of_repeat frame.new (left deeper.new) count body.now }
    ensures full { IsTrue result → length batch.new ≡ 16 }
    ensures done { result ≡ false
        → left_of_repeat frame.new (left deeper.new) count body.now ≡ [] }
{
    if frame.inside {
        if fill_in(body, deeper, batch) {
            return true;
        }
        if frame.later == 0 {
            return false;
        }
        let later = frame.later - 1;
        begin_turn(later, body, frame, deeper);
    } else {
        if count == 0 {
            return false;
        }
        begin_turn(count - 1, body, frame, deeper);
    }
    fill_of_new_turns(body, frame, deeper, batch)
}

// Adds the next items of a repetition that has just begun, and of the later ones. Where one has none, the later ones
// have none either.
#[cycle(fill)]
fn fill_of_new_turns<T: Copy>(
    body: &[BlockPart<T>],
    frame: &mut Frame,
    deeper: &mut [Frame],
    batch: &mut Batch<T>,
) -> bool
    requires room { parts_nesting body.now < length deeper.old }
    requires inside { frame.old.inside ≡ true }
    requires begun { left deeper.old body.now ≡ parts_expansion body.now }
    ensures part { frame.new.part ≡ frame.old.part }
    ensures inside { frame.new.inside ≡ true }
    ensures items { batch.old ++ left_of_turns frame.old (left deeper.old) body.now
        ≡ batch.new ++ left_of_turns frame.new (left deeper.new) body.now }
    ensures full { IsTrue result → length batch.new ≡ 16 }
    ensures done { result ≡ false → left_of_turns frame.new (left deeper.new) body.now ≡ [] }
{
    'turns: loop {
        let before = batch.len();
        if fill_in(body, deeper, batch) {
            return true;
        }
        if frame.later == 0 || batch.len() == before {
            return false;
        }
        let later = frame.later - 1;
        begin_turn(later, body, frame, deeper);
    }
}

// Makes enough frames for these parts. So many lists of parts stand round them.
#[cycle(room)]
#[tactic(auto, using(crate::proofs::Nestings::nesting_more))]
fn make_room<T>(
    parts: &[BlockPart<T>],
    depth: usize,
    frames: &mut Vec<Frame>,
) -> Result<(), AllocError>
    requires { depth ≤ vec_len frames.old }
    ensures grows { OnOk result (vec_len frames.old ≤ vec_len frames.new) }
    ensures room { OnOk result (depth + parts_nesting parts.now < vec_len frames.new) }
{
    if frames.len() == depth {
        frames.push(START)?;
    }
    for part in parts {
        make_room_for_part(part, depth + 1, frames)?;
    }
    Ok(())
}

#[cycle(room)]
fn make_room_for_part<T>(
    part: &BlockPart<T>,
    depth: usize,
    frames: &mut Vec<Frame>,
) -> Result<(), AllocError>
    requires { depth ≤ vec_len frames.old }
    ensures grows { OnOk result (vec_len frames.old ≤ vec_len frames.new) }
    ensures room { OnOk result (depth + part_nesting part.now ≤ vec_len frames.new) }
{
    match part {
        BlockPart::Item(_) => Ok(()),
        BlockPart::Repeat(_, body) => make_room(body.parts.as_slice(), depth, frames),
    }
}

/// A cursor over the expansion of blocks. It keeps no item and never moves but by `next`.
#[derive(Drop)]
pub struct Cursor {
    frames: Vec<Frame>,
}

impl Cursor {
    ghost use Rattle.std.specs.Prelude.{◌≡◌, [], ◌∷◌, IfOk, MatchOption};
    ghost use Rattle.script_blocks.specs.Expansion.{expansion};
    ghost use Rattle.script_blocks.specs.Cursors.{HasFramesFor, rest};

    /// A cursor that stands before the first item of the expansion, or want of memory.
    #[tactic(auto, unfolding(crate::specs::Cursors::rest))]
    pub fn new<T>(alloc: Global, blocks: &Blocks<T>) -> Result<Cursor, AllocError>
        ensures cursor { IfOk result (λ cursor. HasFramesFor blocks.now cursor) }
        ensures rest { IfOk result (λ cursor. rest blocks.now cursor ≡ expansion blocks.now) }
    {
        let mut frames = Vec::new(alloc);
        make_room(blocks.parts.as_slice(), 0, &mut frames)?;
        restart(blocks.parts.as_slice(), frames.as_mut_slice());
        Ok(Cursor { frames })
    }

    /// The next item, or `None` exactly where there is no more. The blocks are those that the cursor was made from. It
    /// takes no memory.
    #[tactic(auto, unfolding(crate::specs::Cursors::rest))]
    pub fn next<T: Copy>(&mut self, blocks: &Blocks<T>) -> Option<T>
        requires { HasFramesFor blocks.now self.old }
        ensures cursor { HasFramesFor blocks.now self.new }
        ensures next { MatchOption result
            ((rest blocks.now self.old ≡ []) × (rest blocks.now self.new ≡ []))
            (λ item. rest blocks.now self.old ≡ item ∷ rest blocks.now self.new) }
    {
        next_in(blocks.parts.as_slice(), self.frames.as_mut_slice())
    }
}
