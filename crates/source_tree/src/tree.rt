use affine_core::{KeptForm, KeptNumber};
use int_polyhedra::Proof;
use plain_data::{Boxed, Items};
use sanlp::Point;

/// Which point wrote what a read reads, by affine tests of the reader's loop values (Feautrier's quasts), with a proof for
/// each system of each leaf. Forms and divisors stand in few bytes, so that a node takes 56.
#[derive(Drop)]
pub enum Tree {
    /// The first tree where the form is at least 0, and else the second.
    Test(KeptForm, Boxed<Tree>, Boxed<Tree>),
    /// The first tree where the divisor divides the form's value, and else the second. Below it, the form's value divided
    /// by the divisor and rounded down is one variable more.
    Divides(KeptForm, KeptNumber, Boxed<Tree>, Boxed<Tree>),
    /// The point of this statement at the values of these forms.
    Writer(u32, Items<KeptForm>, Items<Proof>),
    /// No point.
    Zero(Items<Proof>),
    /// A leaf that no point of the reader comes to.
    Dead(Proof),
}

/// What a tree gives at one point of the reader.
#[derive(Drop)]
pub enum Found {
    Zero,
    At(Point),
    Dead,
}
