ghost use Rattle.std.specs.Prelude.{◌≡◌};
ghost use Rattle.loop_bind.specs.Judging.{seen_from};

use crate::affine::Affine;
use crate::names::Names;

/// What a name in scope stands for.
#[derive(Clone, Copy, Debug, PartialEq, Eq)]
pub enum What {
    /// A parameter with its value.
    Parameter(i64),
    /// An array: its number and its number of extents.
    Array(u32, usize),
    /// The variable of a loop of step 1, counted from the outermost.
    Loop(u32),
    /// The variable of a loop of a step above 1: its form over the loops' turns.
    Progression(Affine),
}

/// Where an affine form stands: in an extent only parameters are seen.
#[derive(Clone, Copy, Debug, PartialEq, Eq)]
pub enum Place {
    Extent,
    Body,
}

/// The names in scope.
pub type Scope = Names<What>;

/// What is seen of a name from such a place.
pub fn seen(place: Place, what: Option<What>) -> Option<What>
    ensures { result ≡ seen_from place what }
{
    match (place, what) {
        (Place::Body, what) => what,
        (Place::Extent, Some(What::Parameter(value))) => Some(What::Parameter(value)),
        (Place::Extent, _) => None,
    }
}
