use sanlp::Nest;
use source_tree::Reference;
use std::alloc::Global;

/// The writes of one statement to the cell of a read that stand before the read at one level of order, where the write's
/// subscripts may be strides. `common` is how many loops stand round both statements.
#[derive(Clone, Copy)]
pub struct Strides<'a> {
    pub alloc: Global,
    pub nest: &'a Nest,
    pub read: Reference<'a>,
    pub write: Reference<'a>,
    pub common: usize,
    pub level: usize,
}
