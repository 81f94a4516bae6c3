use crate::bound::{INCREMENT, make};
use std::test::Fail;
use witness_plan::Policy;

/// Each of its points has a Get, a Fire and a Put.
#[test]
fn a_script_of_equal_points_is_kept_in_few_nodes(rt: HostRuntime) -> Result<(), Fail> {
    let made = make(rt.alloc(), INCREMENT, 100_000, Policy::Seq)?;
    let is_short = match made.network.processes.get(1) {
        Some(process) => process.script.len() == 300_000 && process.script.blocks().nodes() <= 64,
        None => false,
    };
    drop(made);
    assert!(rt; is_short);
    Ok(())
}
