//! Nests of sources.

ghost use Rattle.std.specs.Prelude.{IfOk};
ghost use Rattle.sanlp.specs.Size.{SizeIsOk};

use loop_class::{Params, bind};
use loop_lex::lex;
use loop_parse::parse;
use loop_walk::size;
use sanlp::Nest;
use std::alloc::Global;
use std::test::Fail;

// The nest of a source with these values of its parameters.
fn nest_by(alloc: Global, source: &[u8], params: &Params) -> Result<Nest, Fail> {
    if source.len() > u32::MAX as usize {
        return Err(Fail::new("the source is long"));
    }
    let tokens = lex(alloc, source)?;
    let tree = parse(alloc, source, &tokens)?;
    let nest = bind(alloc, source, &tokens, &tree, params);
    drop(tree);
    Ok(nest?)
}

/// The nest of a source without parameters. Its size is within the limit.
pub(crate) fn nest(alloc: Global, source: &[u8]) -> Result<Nest, Fail>
    ensures { IfOk result (λ nest. SizeIsOk nest) }
{
    let params = Params::empty(alloc);
    let nest = nest_by(alloc, source, &params);
    drop(params);
    let nest = nest?;
    if size(&nest).is_ok() {
        return Ok(nest);
    }
    drop(nest);
    Err(Fail::new("the size is past the limit"))
}

/// Sums that run on from turn to turn.
pub(crate) const SUMS: &[u8] = b"out y[4]; var v; for (i = 0; i < 4; i++) { v = v + i; y[i] = v; }";

/// Values that come one turn late.
pub(crate) const DELAYED: &[u8] =
    b"out y[3]; var v; for (i = 0; i < 3; i++) { y[i] = v; v = i; v = v + 10; }";
