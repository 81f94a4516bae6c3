use crate::affine::Affine;
use crate::error::BindError;
use crate::scope::Scope;
use plain_data::Items;
use sanlp::Statement;

/// What stands round a part: the names in scope, the loops and the rows, outermost first, and how
/// many sinks follow the assignments.
#[derive(Drop)]
pub struct Context {
    pub scope: Scope,
    pub loops: Items<u32>,
    pub rows: Items<Affine>,
    pub sinks: u32,
}

/// What has been bound: the number of the first assignment, the assignments so far, the number of
/// the next loop, and the least reason that was found.
#[derive(Drop)]
pub struct Progress {
    pub first: u32,
    pub statements: Items<Statement>,
    pub next_loop: u32,
    pub least: Option<BindError>,
}
