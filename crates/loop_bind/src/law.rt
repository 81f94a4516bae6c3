//! What follows of what `Params::add` promises.

ghost use Rattle.std.specs.Prelude.{◌≡◌, ℕ, ℤ, List, Bool};
ghost use Rattle.loop_bind.specs.Names.{Adds};

/// What giving a name its value answers as `Ok`, and what it leaves then, is determined by the names before. So a body that
/// gives another `Ok`, or with it takes a second value for a name, loses one or adds it elsewhere, doesn't keep to the contract
/// of `Params::add`. No clause says when want of memory is told; that nothing has changed then is a clause of its own.
pub fn adding_is_determined()
    ensures { (old new other : List (List ℕ × ℤ)) (name : List ℕ) (value : ℤ) (added also : Bool)
        → Adds old new name value added → Adds old other name value also
        → (added ≡ also) × (new ≡ other) }
{}
