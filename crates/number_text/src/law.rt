ghost use Rattle.net_core.specs.declared.network.Network.{Network};
ghost use Rattle.number_text.specs.Numbers.{TellsNumbers};

use sanlp::Nest;

/// The text of a network tells its numbers, and is known by them. It does nothing: its contract is a law over the
/// definitions.
#[tactic(auto, using(crate::proofs::NumberLines::tells_numbers))]
pub fn text_tells_numbers(nest: &Nest)
    ensures { (network : Network) → TellsNumbers nest.now network }
{}
