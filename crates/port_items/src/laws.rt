ghost use Rattle.std.specs.Prelude.{◌≡◌, true};
ghost use Rattle.port_items.specs.declared.items.GetItem.{GetItem};
ghost use Rattle.port_items.specs.declared.items.PutItem.{PutItem};

use crate::items::{GetItem, PutItem};

// It does nothing: its contract is a law over the definitions.

/// Two items that compare equal are the same.
pub(crate) fn equal_items()
    ensures get { (a b : GetItem) → ⟦<GetItem as PartialEq>⟧.eq a b ≡ true → a ≡ b }
    ensures put { (a b : PutItem) → ⟦<PutItem as PartialEq>⟧.eq a b ≡ true → a ≡ b }
{}
