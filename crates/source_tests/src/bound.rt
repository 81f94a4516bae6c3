//! Nests of sources.

use loop_class::{BindError, Params, bind};
use loop_lex::lex;
use loop_parse::parse;
use sanlp::Nest;
use std::alloc::Global;
use std::test::Fail;

/// The nest of a source where N has this value, or the reason why it has none.
pub(crate) fn binding(
    alloc: Global,
    source: &[u8],
    n: i64,
) -> Result<Result<Nest, BindError>, Fail> {
    if source.len() > u32::MAX as usize {
        return Err(Fail::new("the source is long"));
    }
    let mut params = Params::empty(alloc);
    params.add(b"N", n)?;
    let tokens = lex(alloc, source)?;
    let tree = parse(alloc, source, &tokens)?;
    Ok(bind(alloc, source, &tokens, &tree, &params))
}

/// The nest of a source where N has this value.
pub(crate) fn nest(alloc: Global, source: &[u8], n: i64) -> Result<Nest, Fail> {
    Ok(binding(alloc, source, n)??)
}
