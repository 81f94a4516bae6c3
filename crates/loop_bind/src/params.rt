use crate::names::Names;
use std::alloc::{AllocError, Global};
use std::marker::Model;

/// Values for parameters, which contracts see as the list of names with their values, in the order
/// in which they came.
#[derive(Drop)]
pub struct Params {
    values: Names<i64>,
    alloc: Global,
}

impl Model for Params {
    ghost use Rattle.std.specs.Prelude.{ℕ, ℤ, List};

    ghost Value = { List (List ℕ × ℤ) };

    ghost view = { λ p. p.values };
}

impl Params {
    ghost use Rattle.std.specs.Prelude.{◌≡◌, [], IfOk, OnErr};
    ghost use Rattle.loop_bind.specs.Names.{value_named, Adds};

    /// No values.
    pub fn empty(alloc: Global) -> Params
        ensures { result ≡ [] }
    {
        Params {
            values: Names::new(alloc),
            alloc,
        }
    }

    /// Gives a name its value. It answers false and changes nothing exactly where the name has one.
    /// At want of memory nothing has changed.
    pub fn add(&mut self, name: &[u8], value: i64) -> Result<bool, AllocError>
        ensures ok { IfOk result (λ added. Adds self.old self.new name.now value added) }
        ensures err { OnErr result (self.new ≡ self.old) }
    {
        self.values.add(self.alloc, name, value)
    }

    /// The value of a name, if it has one.
    pub(crate) fn get(&self, name: &[u8]) -> Option<i64>
        ensures { result ≡ value_named self.now name.now }
    {
        self.values.find(name)
    }
}
