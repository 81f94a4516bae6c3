//! Tests of `repeat_sequencer`: the sequencer of a list that ends with what repeats.

use repeat_sequencer::{RepeatEnd, Sequencer};
use script_blocks::Script;
use std::test::Fail;

#[test]
fn a_repeat_ends_behind_its_last_instruction(rt: HostRuntime) -> Result<(), Fail> {
    let script = Script::folded(rt.alloc(), &[7u32, 1, 2, 1, 2, 1, 2])?;
    let sequencer = Sequencer::of_blocks(rt.alloc(), script.blocks())?;
    assert!(rt; sequencer.levels == 1);
    assert!(rt; sequencer.instructions.len() == 3);
    let end = RepeatEnd {
        level: 0,
        first: 1,
        count: 3,
    };
    for (number, instruction) in sequencer.instructions.as_slice().iter().enumerate() {
        let last = instruction.ends.as_slice().first().copied();
        assert!(rt; last == if number == 2 { Some(end) } else { None });
    }
    Ok(())
}
