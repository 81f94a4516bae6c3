ghost use Rattle.std.specs.Prelude.{◌≡◌, length};
ghost use Rattle.sanlp.specs.Order.{common_loops};
ghost use Rattle.tree_graphs.specs.OneProof.{problem_props};
ghost use Rattle.tree_graphs.specs.Problems.{read_with, write_with, IsProblem};

use affine_core::{Form, Row};
use plain_data::Items;
use source_tree::Reference;
use std::alloc::Global;

/// A write of a read's array, told by differences over the variables of a context: `rows` are the writer's domain rows and
/// `write_forms` its subscripts, over its loops, and `read_forms` those of the read, over the variables.
#[derive(Drop)]
pub struct Problem<'a> {
    pub write: Reference<'a>,
    pub rows: Items<Row>,
    pub write_forms: Items<Form>,
    pub read_forms: Items<Form>,
}

/// The writes of one statement to the cell of a read that stand before the read at one level of order, told by small
/// differences over `vars` variables of a context, at most 12, of which the reader's loops are the first. `rows` are the writer's domain rows; `write_forms` are
/// its subscripts over its loops, and `read_forms` those of the read over the variables. `common` is how many loops stand
/// round both statements.
#[derive(Clone, Copy)]
pub struct Writes<'a> {
    pub alloc: Global,
    pub vars: usize,
    pub read: Reference<'a>,
    pub write: Reference<'a>,
    pub rows: &'a [Row],
    pub write_forms: &'a [Form],
    pub read_forms: &'a [Form],
    pub common: usize,
    pub level: usize,
    pub ghost problem: { IsProblem vars (read_with read read_forms.now)
        (write_with write rows.now write_forms.now) level } by { Prim.hlevel problem_props },
    pub ghost loops: { common
        ≡ common_loops write.statement.now.loops read.statement.now.loops },
}

impl Writes<'_> {
    /// How many loops stand round the writer. This is also the node that stands for 0.
    pub fn depth(&self) -> usize
        ensures { result ≡ length self.now.write.statement.now.loops }
    {
        self.write.statement.loops.len()
    }
}
