ghost use Rattle.std.specs.Prelude.{◌≡◌, ◌<◌, ◌≤◌, ℕ, ℤ, List, [], length, map, All, Option, slice_get, IsTrue};
ghost use Rattle.sanlp.specs.declared.nest.Tag.{Tag};
ghost use Rattle.sanlp.specs.Points.{points_of};
ghost use Rattle.net_core.specs.declared.refs.Ref.{Ref};
ghost use Rattle.net_core.specs.Shape.{IsWithin};
ghost use Rattle.net_core.specs.Rules.{Limits, KeepsTo, read_slot};

use crate::refs::{Ref, Refs};
use affine_core::Short;
use sanlp::{Inputs, Nest, Points, Tag, given_value};
use std::alloc::Global;
use wrap_expr::eval;

/// What a fire gives.
pub trait Firing<T: Copy> {
    /// The value of a fire, by its process, its turn, its references and the process's slots.
    ghost meaning: { Self → ℕ → ℕ → List Ref → List (Option T) → T };

    /// How many fires a process has, and how many references each, where the rule limits them.
    ghost limits: { Self → ℕ → Option Limits };

    /// The value of the fire of this turn, which is its number among the process's fires.
    fn fire(&self, process: u32, turn: u32, refs: &Refs, slots: &[Option<T>]) -> T
        requires limits { KeepsTo (limits self.now process) turn (length refs.now) }
        requires slots { All (IsWithin (length slots.now)) refs.now }
        ensures { result ≡ meaning self.now process turn refs.now slots.now };
}

/// The rule by which each fire gives its tag. It limits nothing.
pub struct Tags {}

impl Firing<Tag> for Tags {
    ghost use Rattle.std.specs.Prelude.{None};
    ghost use Rattle.net_core.specs.Rules.{tags};

    ghost meaning = { λ _. tags };

    ghost limits = { λ _ process. None };

    fn fire(&self, process: u32, turn: u32, _refs: &Refs, _slots: &[Option<Tag>]) -> Tag {
        Tag { process, turn }
    }
}

/// The rule by which each fire gives the value of its statement's expression at the process's next point, over the values
/// that its references read. It limits the fires to the nest's points, and the references to the statement's reads.
#[derive(Drop)]
pub struct Values<'a> {
    pub nest: &'a Nest,
    pub points: &'a Points,
    pub inputs: &'a Inputs,
    pub ghost points_of_nest: { points.now.of ≡ points_of nest.now },
}

// What a reference reads: 0 for `Zero` and for a slot that was never filled.
fn read(reference: Ref, slots: &[Option<i64>]) -> i64
    ensures { result ≡ read_slot slots.now reference }
{
    match reference {
        Ref::Zero => 0,
        Ref::Slot(slot) => match slots.get(slot as usize) {
            Some(Some(token)) => *token,
            _ => 0,
        },
    }
}

// What the references read, in order.
fn read_all(alloc: Global, refs: &Refs, slots: &[Option<i64>]) -> Short<i64, 8>
    requires { length refs.now ≤ 8 }
    ensures { result ≡ map (read_slot slots.now) refs.now }
{
    let mut values = Short::empty(alloc);
    for number in 0..refs.len() {
        values.push(read(refs.at(number), slots));
    }
    values
}

impl<'a> Firing<i64> for Values<'a> {
    ghost use Rattle.net_core.specs.Rules.{values, value_limits};

    ghost meaning = { λ rule. values rule.nest.now rule.inputs.now };

    ghost limits = { λ rule. value_limits rule.nest.now };

    fn fire(&self, process: u32, turn: u32, refs: &Refs, slots: &[Option<i64>]) -> i64 {
        let statement = self.nest.statement(process);
        let at = self.points.of.as_slice()[process as usize].as_slice()[turn as usize].as_slice();
        let reads = read_all(self.points.of.allocator(), refs, slots);
        let given = given_value(self.nest, self.inputs, statement.role, at);
        eval(&statement.expr, at, reads.as_slice(), given)
    }
}
