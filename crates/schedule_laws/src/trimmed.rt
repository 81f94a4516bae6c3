ghost use Rattle.std.specs.Prelude.{◌≡◌, ℕ, List, Ok};
ghost use Rattle.bundle.specs.Parts.{source_part};
ghost use Rattle.command_answers.specs.Source.{GivesWithinSize};
ghost use Rattle.command_line.specs.declared.words.Order.{Order};
ghost use Rattle.call_endings.specs.Outcomes.{Outcome};
ghost use Rattle.trim_text.specs.TrimText.{trim_text};
ghost use Rattle.witness_plan.specs.Schedules.{planned_network};
ghost use Rattle.schedule_laws.specs.LeastCapacities.{AreLeast, WritesCapacities};

use loop_parse::one_tree;
use network_laws::trimmed_network_is_sound;
use sanlp::Nest;

/// What `trim` writes are least capacities. Where `trim` is done, it has written the text of capacities and of lists of positions,
/// one of each for each channel of the network of its source. With these capacities the network is sound for the source's nest. No
/// capacities that are in no channel above them, and below them in some channel, let any run end all; and with one place less in
/// a single channel the network sticks at that channel's positions. So it is under either policy. Whether the sum of the capacities
/// is the least isn't said. It does nothing: its contract is a law over the definitions.
pub fn what_trim_writes_is_least(nest: &Nest)
    ensures { (trim : Order) (bundle : List ℕ) (written : Outcome)
        → GivesWithinSize (source_part bundle) trim.params (Ok nest.now)
        → WritesCapacities trim bundle written
        → (capacities : List ℕ) × (rests : List (List ℕ))
        × (written.output ≡ trim_text capacities rests)
        × AreLeast nest.now (planned_network nest.now trim.policy) capacities rests }
{
    trimmed_network_is_sound(nest);
    one_tree();
}
