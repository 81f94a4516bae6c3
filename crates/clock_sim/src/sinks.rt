ghost use Rattle.std.specs.Prelude.{◌≡◌, length, IfOk};
ghost use Rattle.sanlp.specs.WellFormed.{output_numbers};
ghost use Rattle.net_core.specs.Held.{held_of, run_of};
ghost use Rattle.net_core.specs.Sound.{sink_lists};

use net_core::{State, kept};
use plain_data::Items;
use sanlp::{ArrayDecl, Arrays, Nest};
use std::alloc::{AllocError, Global};

// How many of these arrays are printed.
fn output_count(arrays: &[ArrayDecl]) -> usize
    ensures { result ≡ length (output_numbers arrays.now) }
{
    let mut count = 0;
    for array in arrays {
        if array.kind.is_output() {
            count += 1;
        }
    }
    count
}

/// The lists that the sinks have kept, one for each declared array, which is empty where it is no output.
pub(crate) fn sink_lists(
    alloc: Global,
    nest: &Nest,
    state: &State<i64>,
) -> Result<Arrays, AllocError>
    requires { (held_of state.now).processes ≡ length nest.now.statements }
    ensures { IfOk result (λ arrays. arrays.arrays ≡ sink_lists nest.now (run_of state.now)) }
{
    let mut sink = nest.statements.len() - output_count(nest.arrays.as_slice());
    let mut lists = Items::new(alloc);
    for array in nest.arrays.as_slice() {
        if array.kind.is_output() {
            lists.push(Items::from_slice(alloc, kept(state, sink as u32))?)?;
            sink += 1;
        } else {
            lists.push(Items::new(alloc))?;
        }
    }
    Ok(Arrays { arrays: lists })
}
