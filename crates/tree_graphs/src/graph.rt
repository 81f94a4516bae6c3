ghost use Rattle.tree_graphs.specs.OneGraph.{graph_props};
ghost use Rattle.tree_graphs.specs.Rounds.{AreClosedOf, IsGraphOf};

use crate::closure::Bounds;
use crate::edges::Edge;
use crate::writes::Writes;

/// The edges of the rows on a writer's point, and the least sums of those between its loop variables.
#[derive(Clone, Copy)]
pub struct Graph<'a, 'w> {
    pub writes: Writes<'w>,
    pub edges: &'a [Edge],
    pub bounds: &'a Bounds,
    pub ghost graph: { IsGraphOf writes edges.now } by { Prim.hlevel graph_props },
    pub ghost closed: { AreClosedOf writes edges.now bounds.now } by { Prim.hlevel graph_props },
}
