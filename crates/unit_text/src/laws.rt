ghost use Rattle.std.specs.Prelude.{◌≡◌, ◌≤◌, ℕ, ℤ, List, FitsSigned, length, map};
ghost use Rattle.std.specs.List.{All};
ghost use Rattle.std.specs.Int.{w64};
ghost use Rattle.script_blocks.specs.Expansion.{repeated};
ghost use Rattle.node_automata.specs.declared.node.NodeAuto.{NodeAuto};
ghost use Rattle.repeat_sequencer.specs.Steps.{at_end, at_start, step, step_and_restart, Gives};
ghost use Rattle.unit_text.specs.declared.unit.LoopCounter.{LoopCounter};
ghost use Rattle.unit_text.specs.declared.unit.Unit.{Unit};
ghost use Rattle.script_blocks.specs.Nesting.{greatest};
ghost use Rattle.unit_text.specs.Limits.{gain_instructions, most_instructions};
ghost use Rattle.unit_text.specs.Counting.{counted, counted_to};
ghost use Rattle.unit_text.specs.Units.{first_of, gains_round, loop_values, IsCounterOf, IsUnitOf};

// Each of these does nothing: its contract is a law over the definitions.

/// The sequencer of a process's hardware gives from its start the process's script, an event at each step, and then stands at its
/// end; and where it begins anew at its end, it gives the script any number of times.
pub fn controls_give_scripts()
    ensures once { (auto : NodeAuto) (unit : Unit) → IsUnitOf auto unit
        → Gives unit.control (step unit.control) (at_start unit.control) auto.events
        (at_end unit.control) }
    ensures again { (auto : NodeAuto) (unit : Unit) (count : ℕ) → IsUnitOf auto unit
        → Gives unit.control (step_and_restart unit.control) (at_start unit.control)
        (repeated count auto.events) (at_start unit.control) }
{}

/// The counter of a loop is told what to gain, point by point and round by round (`told`). Where the values of a loop fit in 64 bits,
/// one that begins at the first and gains so has each in turn (`values`), and behind the last the first again (`round`). So a counter
/// that gains what its own sequencer gives has the values of its loop, any number of times, where these fit in 64 bits (`rounds`).
pub fn counters_give_loop_values()
    ensures told { (points : List (List ℤ)) (counter : LoopCounter) (count : ℕ)
        → IsCounterOf points counter
        → Gives counter.gains (step_and_restart counter.gains) (at_start counter.gains)
        (repeated count (gains_round (loop_values counter.number points)))
        (at_start counter.gains) }
    ensures values { (values : List ℤ) → All (FitsSigned w64) values
        → counted (first_of values) (gains_round values) ≡ values }
    ensures round { (values : List ℤ) → All (FitsSigned w64) values
        → counted_to (first_of values) (gains_round values) ≡ first_of values }
    ensures rounds { (points : List (List ℤ)) (counter : LoopCounter) (count : ℕ)
        → IsCounterOf points counter
        → All (FitsSigned w64) (loop_values counter.number points)
        → (gains : List ℤ)
        × Gives counter.gains (step_and_restart counter.gains) (at_start counter.gains) gains
        (at_start counter.gains)
        × (counted counter.first gains ≡ repeated count (loop_values counter.number points)) }
{}

/// The sequencer of a process's script has no more instructions than the script has events, and those of its loops have no more
/// than the process has points. A process has no more points than events where it fires once at each: then no sequencer of it has
/// more instructions than its script has events, however the script and the gains were folded.
pub fn sequencers_are_no_longer_than_what_they_give()
    ensures control { (auto : NodeAuto) (unit : Unit) → IsUnitOf auto unit
        → length unit.control.instructions ≤ length auto.events }
    ensures loops { (auto : NodeAuto) (unit : Unit) → IsUnitOf auto unit
        → greatest (map gain_instructions unit.loops) ≤ length auto.values }
    ensures all { (auto : NodeAuto) (unit : Unit) → IsUnitOf auto unit
        → length auto.values ≤ length auto.events
        → most_instructions unit ≤ length auto.events }
{}
