ghost use Rattle.deps_text.specs.FireLines.{CanBeTold};

use sanlp::Nest;

/// All dependences of a nest can be told, where something was swept or every read has a tree. It does nothing: its contract
/// is a law over the definitions.
pub fn dependences_can_be_told(nest: &Nest)
    ensures { CanBeTold nest.now }
{}
