ghost use Rattle.tree_graphs.specs.Facts.{IsContext};

use int_polyhedra::System;

/// A context of which forms are asked: rows over its variables, of which it has at most 18, and fewer rows than 2^32.
#[derive(Clone, Copy)]
pub struct Context<'a> {
    pub system: &'a System,
    pub ghost fits: { IsContext system.now },
}
