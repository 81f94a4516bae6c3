ghost use Rattle.std.specs.Prelude.{◌≡◌, ◌+◌, ◌<◌, ◌≤◌, [], ◌∷◌, ◌++◌, length, take, IsTrue};
ghost use Rattle.sanlp.specs.Size.{is_loop_value};
ghost use Rattle.loop_walk.specs.Counting.{are_loop_values};

use affine_core::KeptValues;
use std::marker::Model;

/// The values of the loops round a part of a body, outermost first, each within the limit of loop values.
#[derive(Drop)]
pub struct LoopValues {
    values: KeptValues,
}

impl Model for LoopValues {
    ghost use Rattle.std.specs.Prelude.{List, ℤ, IsTrue};
    ghost use Rattle.loop_walk.specs.Counting.{are_loop_values};

    ghost Value = { List ℤ };

    ghost view = { λ at. at.values };

    ghost invariant = { λ at. IsTrue (are_loop_values at.values) };
}

impl LoopValues {
    /// No loop.
    pub fn empty() -> LoopValues
        ensures { result ≡ [] }
    {
        LoopValues {
            values: KeptValues::empty(),
        }
    }

    /// The same loops again.
    pub(crate) fn copy(&self) -> LoopValues
        ensures { result ≡ self.now }
    {
        LoopValues {
            values: self.values.copy(),
        }
    }

    /// One loop more, inside the others.
    pub fn extended(&self, value: i64) -> LoopValues
        requires deep { length self.now < 6 }
        requires within { IsTrue (is_loop_value value) }
        ensures { result ≡ self.now ++ value ∷ [] }
    {
        LoopValues {
            values: self.values.with(value),
        }
    }

    /// Gives the innermost loop another value. The loops round it are these.
    pub fn set_last(&mut self, outer: &LoopValues, value: i64)
        requires deeper { length self.old ≡ length outer.now + 1 }
        requires outer { take (length outer.now) self.old ≡ outer.now }
        requires within { IsTrue (is_loop_value value) }
        ensures { self.new ≡ outer.now ++ value ∷ [] }
    {
        self.values.set_last(&outer.values, value);
    }

    /// The values, in order.
    pub fn as_slice(&self) -> &[i64]
        ensures value { result.now ≡ self.now }
        ensures shallow { length self.now ≤ 6 }
        ensures within { IsTrue (are_loop_values self.now) }
    {
        self.values.as_slice()
    }
}
