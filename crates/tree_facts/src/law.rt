ghost use Rattle.tree_facts.specs.Facts.{HoldsWithoutFacts};

/// What is proved of a system with facts of its context is proved without them, by the Cuts that add them. It does nothing:
/// its contract is a law over the definitions.
pub fn proofs_hold_without_facts()
    ensures { HoldsWithoutFacts }
{}
