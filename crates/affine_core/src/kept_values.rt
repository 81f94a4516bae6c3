ghost use Rattle.std.specs.Prelude.{◌≡◌, ◌+◌, ◌<◌, ◌≤◌, [], ◌∷◌, ◌++◌, length, take};

use std::marker::Model;

/// A copy of the values of at most 6 loops, outermost first, in place.
#[derive(Drop)]
pub struct KeptValues {
    values: [i64; 6],
    depth: usize,
}

impl Model for KeptValues {
    ghost use Rattle.std.specs.Prelude.{List, ℤ, ◌≤◌, take};

    ghost Value = { List ℤ };

    ghost view = { λ kept. take kept.depth kept.values };

    ghost invariant = { λ kept. kept.depth ≤ 6 };
}

impl KeptValues {
    /// No loop.
    pub fn empty() -> KeptValues
        ensures { result ≡ [] }
    {
        KeptValues {
            values: [0; 6],
            depth: 0,
        }
    }

    /// These values.
    pub fn of(values: &[i64]) -> KeptValues
        requires { length values.now ≤ 6 }
        ensures { result ≡ values.now }
    {
        let mut kept = [0; 6];
        kept[..values.len()].copy_from_slice(values);
        KeptValues {
            values: kept,
            depth: values.len(),
        }
    }

    /// The same values again.
    pub fn copy(&self) -> KeptValues
        ensures { result ≡ self.now }
    {
        KeptValues {
            values: self.values,
            depth: self.depth,
        }
    }

    /// The same values, and behind them that of one loop more.
    pub fn with(&self, value: i64) -> KeptValues
        requires { length self.now < 6 }
        ensures { result ≡ self.now ++ value ∷ [] }
    {
        let mut longer = KeptValues {
            values: self.values,
            depth: self.depth,
        };
        longer.values[self.depth] = value;
        longer.depth = self.depth + 1;
        longer
    }

    /// These values, and behind them that of one loop more.
    pub fn extended(outer: &[i64], value: i64) -> KeptValues
        requires { length outer.now < 6 }
        ensures { result ≡ outer.now ++ value ∷ [] }
    {
        let mut longer = KeptValues::of(outer);
        longer.values[longer.depth] = value;
        longer.depth += 1;
        longer
    }

    /// Gives the innermost loop another value. The loops round it are these.
    pub fn set_last(&mut self, outer: &KeptValues, value: i64)
        requires deeper { length self.old ≡ length outer.now + 1 }
        requires outer { take (length outer.now) self.old ≡ outer.now }
        ensures { self.new ≡ outer.now ++ value ∷ [] }
    {
        self.values[outer.depth] = value;
    }

    /// The values, in order.
    pub fn as_slice(&self) -> &[i64]
        ensures value { result.now ≡ self.now }
        ensures shallow { length self.now ≤ 6 }
    {
        &self.values[..self.depth]
    }
}
