ghost use Rattle.std.specs.Prelude.{◌<◌, ◌^◌, length};
ghost use Rattle.command_answers.specs.Judging.{Judges};
ghost use Rattle.command_answers.specs.Replying.{as_reply};
ghost use Rattle.compaan_top.specs.DepsOutcomes.{HasSwept, TellsSources};

use bundle::parts_of;
use command_answers::{Answer, DependencesAnswer, Stop, nest_of, size_of};
use deps_text::{Swept, dependences_can_be_told, sweep_nest};
use loop_class::Params;
use nest_dependences::{all_have_trees, dependences};
use sanlp::Nest;
use std::alloc::Global;

// What is swept of a nest: nothing where every read has a tree. Its size is asked for only where it is swept.
fn swept_of(alloc: Global, nest: &Nest) -> Result<Option<Swept>, Stop>
    ensures { Judges (HasSwept nest.now) result }
{
    if all_have_trees(nest) {
        return Ok(None);
    }
    size_of(nest)?;
    Ok(Some(sweep_nest(alloc, nest)?))
}

/// Where each read of a bundle's source has its values from.
pub fn tell_dependences(alloc: Global, params: &Params, bundle: &[u8]) -> Result<Answer, Stop>
    requires { length bundle.now < 2 ^ 32 }
    ensures { Judges (λ answer. TellsSources params.now bundle.now (as_reply answer)) result }
{
    let parts = parts_of(bundle);
    let nest = nest_of(alloc, parts.source, params)?;
    let swept = swept_of(alloc, &nest)?;
    let dependences = dependences(alloc, &nest)?;
    dependences_can_be_told(&nest);
    Ok(Answer::Dependences(DependencesAnswer {
        nest,
        dependences,
        swept,
    }))
}
