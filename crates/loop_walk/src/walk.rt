ghost use Rattle.std.specs.Bool.{OnTrue, OnFalse};
ghost use Rattle.std.specs.List.{list_all};
ghost use Rattle.std.specs.Prelude.{◌≡◌, ◌+◌, ◌-◌, ◌<◌, ◌≤◌, ◌+ℤ◌, ◌<ℤ◌, ◌≤ℤ◌, pos, ℤ, List, [], ◌∷◌, ◌++◌, drop, length, map, true, IfSome, IsTrue, MatchOption, OnOk, OnSome, vec_len};
ghost use Rattle.sanlp.specs.Loops.{interval};
ghost use Rattle.sanlp.specs.WellFormed.{all_forms_fit, form_fits, forms_fit};
ghost use Rattle.sanlp.specs.declared.nest.Node.TheVariants.{Assign};
ghost use Rattle.sanlp.specs.declared.nest.Node.TheViews.{Loop, Guard};
ghost use Rattle.sanlp.specs.Trace.{all_points, trace_node, turn_points};
ghost use Rattle.loop_walk.specs.EnteredLoops.{parts_within};
ghost use Rattle.loop_walk.specs.Walking.{left, left_of_node, left_of_parts, left_of_turns, node_room, node_valid, parts_room, parts_valid, turns_valid, valid};

use crate::bounds::{loop_range, rows_hold};
use crate::parts::only_assignment;
use crate::run::{Run, point_of};
use crate::vector::LoopValues;
use affine_core::Form;
use sanlp::{Nest, Node, Point};
use std::alloc::{AllocError, Global};

/// Where a walk is in a body.
#[derive(Clone, Copy)]
pub(crate) struct Frame {
    /// The part that the walk is at.
    part: usize,
    /// Whether the walk has entered that part.
    inside: bool,
    /// The value of the loop, where the part is a loop that was entered.
    value: i64,
    /// The loop's last value.
    last: i64,
}

// Before the first part of a body.
const START: Frame = Frame {
    part: 0,
    inside: false,
    value: 0,
    last: 0,
};

// Puts the first frame at the beginning of a body.
fn restart(parts: &[Node], at: &LoopValues, frames: &mut [Frame])
    requires room { 0 < length frames.old }
    requires within { IsTrue (parts_within parts.now at.now) }
    ensures left { left frames.new parts.now at.now ≡ all_points (map trace_node parts.now) at.now }
    ensures valid { IsTrue (valid frames.new parts.now at.now) }
{
    frames[0] = START;
}

// Enters a loop, unless the walk is in it. It answers whether there is a turn.
fn enter_loop(
    id: u32,
    lower: &[Form],
    upper: &[Form],
    step: i64,
    body: &[Node],
    at: &LoopValues,
    frame: &mut Frame,
    deeper: &mut [Frame],
) -> bool
    requires shallow { length at.now < 6 }
    requires room { 0 < length deeper.old }
    requires lower_fit { IsTrue (list_all (form_fits (length at.now)) lower.now) }
    requires upper_fit { IsTrue (list_all (form_fits (length at.now)) upper.now) }
    requires step { pos 1 ≤ℤ step }
    requires valid { IsTrue
        (node_valid frame.old (valid deeper.old)
        (Loop id lower.now upper.now step body.now) at.now) }
    ensures part { frame.new.part ≡ frame.old.part }
    ensures entered { OnTrue result (frame.new.inside ≡ true) }
    ensures turns { OnTrue result
        (left_of_node frame.old (left deeper.old) (Loop id lower.now upper.now step body.now) at.now
        ≡ left_of_turns frame.new (left deeper.new) body.now at.now) }
    ensures valid { OnTrue result
        (IsTrue (turns_valid frame.new (valid deeper.new) body.now at.now)) }
    ensures empty { OnFalse result
        (left_of_node frame.old (left deeper.old) (Loop id lower.now upper.now step body.now) at.now
        ≡ []) }
{
    if frame.inside {
        return true;
    }
    let Some((first, last)) = loop_range(lower, upper, step, at) else {
        unreachable!()
    };
    if first > last {
        return false;
    }
    frame.inside = true;
    frame.value = first;
    frame.last = last;
    restart(body, &at.extended(first), deeper);
    true
}

// Enters a guard, unless the walk is in it. It answers whether its rows hold.
fn enter_guard(
    rows: &[Form],
    body: &[Node],
    at: &LoopValues,
    frame: &mut Frame,
    deeper: &mut [Frame],
) -> bool
    requires room { 0 < length deeper.old }
    requires fit { IsTrue (list_all (form_fits (length at.now)) rows.now) }
    requires valid { IsTrue
        (node_valid frame.old (valid deeper.old) (Guard rows.now body.now) at.now) }
    ensures part { frame.new.part ≡ frame.old.part }
    ensures entered { OnTrue result (frame.new.inside ≡ true) }
    ensures body { OnTrue result
        (left_of_node frame.old (left deeper.old) (Guard rows.now body.now) at.now
        ≡ left deeper.new body.now at.now) }
    ensures valid { OnTrue result (IsTrue (valid deeper.new body.now at.now)) }
    ensures empty { OnFalse result
        (left_of_node frame.old (left deeper.old) (Guard rows.now body.now) at.now ≡ []) }
{
    if frame.inside {
        return true;
    }
    if !rows_hold(rows, at) {
        return false;
    }
    frame.inside = true;
    restart(body, at, deeper);
    true
}

// Begins the next turn of a loop.
fn begin_next_turn(body: &[Node], at: &LoopValues, frame: &mut Frame, deeper: &mut [Frame])
    requires shallow { length at.now < 6 }
    requires room { 0 < length deeper.old }
    requires later { frame.old.value <ℤ frame.old.last }
    requires valid { IsTrue (turns_valid frame.old (valid deeper.old) body.now at.now) }
    ensures frame { frame.new ≡ record frame.old { value = frame.old.value +ℤ pos 1 } }
    ensures left { left_of_turns frame.new (left deeper.new) body.now at.now
        ≡ turn_points (all_points (map trace_node body.now))
        (interval (frame.old.value +ℤ pos 1) frame.old.last) at.now }
    ensures valid { IsTrue (turns_valid frame.new (valid deeper.new) body.now at.now) }
{
    let value = frame.value + 1;
    restart(body, &at.extended(value), deeper);
    frame.value = value;
}

// The number of the statement in a body that has one part, which is an assignment, if the walk has entered it.
fn entered_assignment(body: &[Node], deeper: &[Frame]) -> Option<u32>
    requires { 0 < length deeper.now }
    ensures body { IfSome result (λ s. body.now ≡ Assign s ∷ []) }
    ensures left { OnSome result ((at : List ℤ) → left deeper.now body.now at ≡ []) }
    ensures valid { OnSome result ((at : List ℤ) → IsTrue (valid deeper.now body.now at)) }
{
    let frame = deeper[0];
    if frame.inside && frame.part == 0 {
        only_assignment(body)
    } else {
        None
    }
}

// Moves the later turns of a loop over an assignment that was entered into the run, if that is over.
fn take_later_turns(
    body: &[Node],
    at: &LoopValues,
    frame: &mut Frame,
    deeper: &[Frame],
    run: &mut Run,
)
    requires shallow { length at.now < 6 }
    requires room { 0 < length deeper.now }
    requires valid { IsTrue (turns_valid frame.old (valid deeper.now) body.now at.now) }
    ensures part { frame.new.part ≡ frame.old.part }
    ensures inside { frame.new.inside ≡ frame.old.inside }
    ensures left { run.new ++ left_of_turns frame.new (left deeper.now) body.now at.now
        ≡ run.old ++ left_of_turns frame.old (left deeper.now) body.now at.now }
    ensures valid { IsTrue (turns_valid frame.new (valid deeper.now) body.now at.now) }
{
    if !run.is_over() || frame.value >= frame.last {
        return;
    }
    if let Some(statement) = entered_assignment(body, deeper) {
        take_turns(statement, body, at, frame, deeper, run);
    }
}

// Moves the later turns of a loop over this assignment into the run.
fn take_turns(
    statement: u32,
    body: &[Node],
    at: &LoopValues,
    frame: &mut Frame,
    deeper: &[Frame],
    run: &mut Run,
)
    requires shallow { length at.now < 6 }
    requires body { body.now ≡ Assign statement ∷ [] }
    requires none_left { (at : List ℤ) → left deeper.now body.now at ≡ [] }
    requires all_valid { (at : List ℤ) → IsTrue (valid deeper.now body.now at) }
    requires valid { IsTrue (turns_valid frame.old (valid deeper.now) body.now at.now) }
    ensures part { frame.new.part ≡ frame.old.part }
    ensures inside { frame.new.inside ≡ frame.old.inside }
    ensures left { run.new ++ left_of_turns frame.new (left deeper.now) body.now at.now
        ≡ left_of_turns frame.old (left deeper.now) body.now at.now }
    ensures valid { IsTrue (turns_valid frame.new (valid deeper.now) body.now at.now) }
{
    *run = Run::after(statement, at, frame.value, frame.last);
    frame.value = frame.last;
}

// The next point of these parts.
#[cycle(next)]
fn next_in(
    alloc: Global,
    parts: &[Node],
    at: &LoopValues,
    frames: &mut [Frame],
    run: &mut Run,
) -> Option<Point>
    requires over { run.old ≡ [] }
    requires fit { IsTrue (all_forms_fit parts.now (length at.now)) }
    requires room { IsTrue (parts_room parts.now (length frames.old)) }
    requires valid { IsTrue (valid frames.old parts.now at.now) }
    ensures next { MatchOption result
        ((left frames.old parts.now at.now ≡ []) × (left frames.new parts.now at.now ≡ [])
        × (run.new ≡ []))
        (λ point. left frames.old parts.now at.now
        ≡ point ∷ (run.new ++ left frames.new parts.now at.now)) }
    ensures valid { IsTrue (valid frames.new parts.now at.now) }
{
    let Some((frame, deeper)) = frames.split_first_mut() else {
        unreachable!()
    };
    next_part(alloc, parts, at, frame, deeper, run)
}

// The next point of the part that the walk is at, or of a later one.
#[cycle(next)]
fn next_part(
    alloc: Global,
    parts: &[Node],
    at: &LoopValues,
    frame: &mut Frame,
    deeper: &mut [Frame],
    run: &mut Run,
) -> Option<Point>
    requires over { run.old ≡ [] }
    requires fit { IsTrue (all_forms_fit parts.now (length at.now)) }
    requires room { IsTrue (list_all (λ part. part (length deeper.old)) (map node_room parts.now)) }
    requires valid { IsTrue
        (parts_valid frame.old (valid deeper.old) (drop frame.old.part parts.now) at.now) }
    ensures next { MatchOption result
        ((left_of_parts frame.old (left deeper.old) (drop frame.old.part parts.now) at.now ≡ [])
        × (left_of_parts frame.new (left deeper.new) (drop frame.new.part parts.now) at.now ≡ [])
        × (run.new ≡ []))
        (λ point. left_of_parts frame.old (left deeper.old) (drop frame.old.part parts.now) at.now
        ≡ point ∷ (run.new
        ++ left_of_parts frame.new (left deeper.new) (drop frame.new.part parts.now) at.now)) }
    ensures valid { IsTrue
        (parts_valid frame.new (valid deeper.new) (drop frame.new.part parts.now) at.now) }
{
    while frame.part < parts.len() {
        let point = next_of_node(alloc, &parts[frame.part], at, frame, deeper, run);
        if point.is_some() {
            return point;
        }
        frame.part += 1;
        frame.inside = false;
    }
    None
}

// The next point of a part.
#[cycle(next)]
fn next_of_node(
    alloc: Global,
    node: &Node,
    at: &LoopValues,
    frame: &mut Frame,
    deeper: &mut [Frame],
    run: &mut Run,
) -> Option<Point>
    requires over { run.old ≡ [] }
    requires fits { IsTrue (forms_fit node.now (length at.now)) }
    requires room { IsTrue (node_room node.now (length deeper.old)) }
    requires valid { IsTrue (node_valid frame.old (valid deeper.old) node.now at.now) }
    ensures part { frame.new.part ≡ frame.old.part }
    ensures next { MatchOption result
        ((left_of_node frame.old (left deeper.old) node.now at.now ≡ []) × (run.new ≡ []))
        (λ point. left_of_node frame.old (left deeper.old) node.now at.now
        ≡ point ∷ (run.new ++ left_of_node frame.new (left deeper.new) node.now at.now)) }
    ensures valid { OnSome result
        (IsTrue (node_valid frame.new (valid deeper.new) node.now at.now)) }
{
    match node {
        Node::Loop {
            id,
            lower,
            upper,
            step,
            body,
        } => {
            let body = body.as_slice();
            if enter_loop(
                *id,
                lower.as_slice(),
                upper.as_slice(),
                *step,
                body,
                at,
                frame,
                deeper,
            ) {
                next_of_turns(alloc, body, at, frame, deeper, run)
            } else {
                None
            }
        }
        Node::Guard { rows, body } => {
            let body = body.as_slice();
            if enter_guard(rows.as_slice(), body, at, frame, deeper) {
                next_in(alloc, body, at, deeper, run)
            } else {
                None
            }
        }
        Node::Assign(statement) => {
            if frame.inside {
                return None;
            }
            frame.inside = true;
            Some(point_of(alloc, *statement, at))
        }
    }
}

// The next point of the turn that the walk is in, or of a later one.
#[cycle(next)]
fn next_of_turns(
    alloc: Global,
    body: &[Node],
    at: &LoopValues,
    frame: &mut Frame,
    deeper: &mut [Frame],
    run: &mut Run,
) -> Option<Point>
    requires over { run.old ≡ [] }
    requires shallow { length at.now < 6 }
    requires fit { IsTrue (all_forms_fit body.now (length at.now + 1)) }
    requires room { IsTrue (parts_room body.now (length deeper.old)) }
    requires valid { IsTrue (turns_valid frame.old (valid deeper.old) body.now at.now) }
    ensures part { frame.new.part ≡ frame.old.part }
    ensures inside { frame.new.inside ≡ frame.old.inside }
    ensures next { MatchOption result
        ((left_of_turns frame.old (left deeper.old) body.now at.now ≡ []) × (run.new ≡ []))
        (λ point. left_of_turns frame.old (left deeper.old) body.now at.now
        ≡ point ∷ (run.new ++ left_of_turns frame.new (left deeper.new) body.now at.now)) }
    ensures valid { OnSome result
        (IsTrue (turns_valid frame.new (valid deeper.new) body.now at.now)) }
{
    'turns: loop {
        let point = next_in(alloc, body, &at.extended(frame.value), deeper, run);
        if point.is_some() {
            take_later_turns(body, at, frame, deeper, run);
            return point;
        }
        if frame.value >= frame.last {
            return None;
        }
        begin_next_turn(body, at, frame, deeper);
    }
}

// Makes enough frames for these parts. So many bodies stand round them.
#[cycle(room)]
fn make_room(parts: &[Node], depth: usize, frames: &mut Vec<Frame>) -> Result<(), AllocError>
    requires { depth ≤ vec_len frames.old }
    ensures grows { OnOk result (vec_len frames.old ≤ vec_len frames.new) }
    ensures room { OnOk result (IsTrue (parts_room parts.now (vec_len frames.new - depth))) }
{
    if frames.len() == depth {
        frames.push(START)?;
    }
    for part in parts {
        make_room_for_node(part, depth + 1, frames)?;
    }
    Ok(())
}

#[cycle(room)]
fn make_room_for_node(node: &Node, depth: usize, frames: &mut Vec<Frame>) -> Result<(), AllocError>
    requires { depth ≤ vec_len frames.old }
    ensures grows { OnOk result (vec_len frames.old ≤ vec_len frames.new) }
    ensures room { OnOk result (IsTrue (node_room node.now (vec_len frames.new - depth))) }
{
    match node {
        Node::Loop { body, .. } | Node::Guard { body, .. } => {
            make_room(body.as_slice(), depth, frames)
        }
        Node::Assign(_) => Ok(()),
    }
}

/// A walk over the points of a nest, in the order of its trace. It counts along the loops and keeps no point. The turns of
/// a loop over one assignment it counts by themselves; for any other point it goes down from the outermost body.
#[derive(Drop)]
pub struct Walk {
    alloc: Global,
    frames: Vec<Frame>,
    run: Run,
}

impl Walk {
    ghost use Rattle.std.specs.Prelude.{◌≡◌, [], ◌∷◌, IfOk, MatchOption};
    ghost use Rattle.sanlp.specs.Trace.{trace};
    ghost use Rattle.sanlp.specs.Size.{SizeIsOk};
    ghost use Rattle.loop_walk.specs.Walks.{IsWalkOf, rest};

    /// A walk that stands before the first point of the nest.
    pub fn new(alloc: Global, nest: &Nest) -> Result<Walk, AllocError>
        requires { SizeIsOk nest.now }
        ensures walk { IfOk result (λ walk. IsWalkOf nest.now walk) }
        ensures rest { IfOk result (λ walk. rest nest.now walk ≡ trace nest.now) }
    {
        let mut frames = Vec::new(alloc);
        make_room(nest.parts(), 0, &mut frames)?;
        restart(nest.parts(), &LoopValues::empty(), frames.as_mut_slice());
        Ok(Walk {
            alloc,
            frames,
            run: Run::over(),
        })
    }

    /// The next point, or `None` exactly where there is no more. The nest is the one that the walk was made from. It
    /// takes no memory.
    pub fn next(&mut self, nest: &Nest) -> Option<Point>
        requires { IsWalkOf nest.now self.old }
        ensures walk { IsWalkOf nest.now self.new }
        ensures next { MatchOption result
            ((rest nest.now self.old ≡ []) × (rest nest.now self.new ≡ []))
            (λ point. rest nest.now self.old ≡ point ∷ rest nest.now self.new) }
    {
        let point = self.run.next(self.alloc);
        if point.is_some() {
            return point;
        }
        next_in(
            self.alloc,
            nest.parts(),
            &LoopValues::empty(),
            self.frames.as_mut_slice(),
            &mut self.run,
        )
    }
}
