//! The rule of a link, and what each of its steps tells.

use crossbeam_channel::protocol::{Lesson, Outcome, Protocol, Split};
use std::collections::LinkedList;
use std::marker::{Brand, PhantomData};

/// What the pass of one end knows. No value of it is ever made.
pub struct View {
    pub puts: bool,
    pub split: bool,
    pub stream: LinkedList<i64>,
    pub moved: LinkedList<i64>,
    pub capacity: u64,
}

/// The rule of a link (`Linked`): what was got, and then what waits, is what was put, which begins the stream.
pub struct InStep;

impl Protocol<i64, View> for InStep {
    ghost use Rattle.ruled_links.specs.Rule.{opening, Linked};

    ghost holds = { Linked };

    ghost first = { opening };
}

/// The stream of one link, and how many values may wait in it.
pub trait Stream {
    ghost use Rattle.std.specs.Prelude.{ℕ, ℤ, List};

    ghost values: { List ℤ };

    ghost capacity: { ℕ };
}

impl Stream for Brand {
    ghost use Rattle.std.specs.Prelude.{[]};

    ghost values = { [] };

    ghost capacity = { 1 };
}

/// Splits off the get end's pass, and names the stream in both views.
pub struct Named<S: Stream>(PhantomData<S>);

impl<S: Stream> Split<View> for Named<S> {
    ghost use Rattle.std.specs.Prelude.{[]};
    ghost use Rattle.ruled_links.specs.Rule.{put_view, get_view};

    ghost left = { λ v. put_view S.values S.capacity [] };

    ghost right = { λ v. get_view S.values S.capacity [] };
}

/// A send: the value was put.
pub struct Sent;

impl Outcome<i64, View> for Sent {
    ghost use Rattle.std.specs.Prelude.{◌≡◌, [], ◌∷◌, ◌++◌};
    ghost use Rattle.ruled_links.specs.Rule.{put_view};

    ghost then = { λ v x w. w ≡ put_view v.stream v.capacity (v.moved ++ x ∷ []) };
}

// A refused send tells nothing.
impl Lesson<i64, View> for Sent {
    ghost fact = { λ v items. Unit {0} };
}

/// A receive: the value that was got is the next one of the stream.
pub struct Received;

impl Outcome<i64, View> for Received {
    ghost use Rattle.std.specs.Prelude.{◌≡◌, [], ◌∷◌, ◌++◌, length, Some, slice_get};
    ghost use Rattle.ruled_links.specs.Rule.{get_view};

    ghost then = { λ v x w. (w ≡ get_view v.stream v.capacity (v.moved ++ x ∷ []))
        × (slice_get v.stream (length v.moved) ≡ Some x) };
}

// A refused receive tells nothing.
impl Lesson<i64, View> for Received {
    ghost fact = { λ v items. Unit {0} };
}
