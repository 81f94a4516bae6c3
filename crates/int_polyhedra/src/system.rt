use affine_core::{KeptForm, KeptNumber, Row};
use plain_data::{Boxed, Items};

/// Rows over so many variables, at most 18. A whole point meets the system where it meets every row.
#[derive(Drop)]
pub struct System {
    pub vars: u32,
    pub rows: Items<Row>,
}

/// A row's number and its multiplier.
#[derive(Clone, Copy, Debug, PartialEq, Eq)]
pub struct Term {
    pub row: u32,
    pub times: i128,
}

/// A proof that no whole point meets a system. The system's rows are numbered from 0, and a row that a step adds takes
/// the next number. Divisors and forms stand in few bytes, and the terms of a Cut in a box, so that a step takes 40 bytes.
#[derive(Drop)]
pub enum Proof {
    /// The sum of the rows with these multipliers has no variable and a negative constant, as in Farkas' lemma.
    Sum(Items<Term>),
    /// The divisor divides each coefficient of the sum of the rows with these multipliers. The row of the quotients,
    /// with the constant rounded down, is added, and the rest is a proof of the larger system: Gomory's cut.
    Cut(KeptNumber, Boxed<Items<Term>>, Boxed<Proof>),
    /// A proof of the system with the row `form >= 0` added, and one of it with the row `-form - 1 >= 0` added.
    Split(KeptForm, Boxed<Proof>, Boxed<Proof>),
}

/// Why a step of a proof breaks its rule.
#[derive(Drop, PartialEq, Eq)]
pub enum Reason {
    /// No row has this number, or a form has this number of coefficients, which is not that of the variables.
    BadIndex(u32),
    /// A multiplier below 0, or a divisor below 1.
    Negative(i128),
    /// The sum of a Sum has a variable, or a constant that is not negative.
    NotContradictory(Row),
    /// The divisor of a Cut does not divide this coefficient of its sum.
    NotDivisible(i128),
    /// A product or a sum leaves 128 bits.
    Overflow,
}
