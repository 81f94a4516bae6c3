ghost use Rattle.source_tree.specs.Sources.{GivesLastWriters};

use sanlp::Nest;

/// The exact table has at each read and fire the tag of the last writer. It does nothing: its contract is a law over the
/// definitions.
pub fn gives_last_writers(nest: &Nest)
    ensures { GivesLastWriters nest.now }
{}
