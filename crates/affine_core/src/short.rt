ghost use Rattle.std.specs.Prelude.{◌≡◌, ◌+◌, ◌<◌, ◌≤◌, [], ◌∷◌, ◌++◌, length, take};

use smallvec::SmallVec;
use std::alloc::Global;
use std::default::MadeWith;
use std::marker::Model;

/// A list of at most `N` items, kept in place.
#[derive(Drop, PartialEq, Eq, PartialOrd, Ord)]
pub struct Short<T, const N: usize> {
    values: SmallVec<T, N>,
}

impl<T, const N: usize> Model for Short<T, N> {
    ghost use Rattle.std.specs.Prelude.{List, length, ◌≤◌, ◌≡◌};
    ghost use Rattle.std.specs.Coded.{coded_list};

    ghost Value = { List T };

    ghost coded = { coded_list T.code };

    ghost view = { λ v. v.values.items };

    ghost invariant = { λ v. (v.values.capacity ≡ N) × (length v.values.items ≤ N) };

    ghost inverse = { λ xs. record { values = record { items = xs; capacity = N } } };
}

impl<T: MadeWith<Global> + Copy, const N: usize> Short<T, N> {
    /// The empty list.
    pub fn empty(alloc: Global) -> Short<T, N>
        ensures { result ≡ [] }
    {
        Short {
            values: SmallVec::new(alloc),
        }
    }

    /// The number of items.
    pub fn len(&self) -> usize
        ensures value { result ≡ length self.now }
        ensures short { length self.now ≤ N }
    {
        self.values.len()
    }

    /// Adds an item at the end. It takes no memory.
    pub fn push(&mut self, value: T)
        requires { length self.old < N }
        ensures { self.new ≡ self.old ++ value ∷ [] }
    {
        self.values.push_reserved(value);
    }

    /// The items, in order.
    pub fn as_slice(&self) -> &[T]
        ensures value { result.now ≡ self.now }
        ensures short { length self.now ≤ N }
    {
        self.values.as_slice()
    }

    /// The allocator that the list was made with.
    pub fn allocator(&self) -> Global {
        *self.values.allocator()
    }

    /// The same list again. It takes no memory.
    pub fn copy(&self) -> Short<T, N>
        ensures { result ≡ self.now }
    {
        let values = SmallVec::from_slice(*self.values.allocator(), self.values.as_slice());
        match values {
            Ok(values) => Short { values },
            Err(_) => unreachable!(),
        }
    }
}

/// The values of loops, outermost first: an iteration vector.
pub type Vector = Short<i64, 6>;

/// The subscripts of a cell. They may be any whole numbers that forms over loop values reach.
pub type Subscripts = Short<i128, 6>;

/// The coefficients of an affine form, in variable order.
pub type Coefs = Short<i128, 18>;
