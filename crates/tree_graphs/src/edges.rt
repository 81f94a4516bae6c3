ghost use Rattle.std.specs.Prelude.{◌≡◌, ◌≤◌, ◌+◌, ◌*◌, ◌++◌, length, map, take, IsTrue, IfOk, OnOk};
ghost use Rattle.std.specs.List.{list_all};
ghost use Rattle.affine_core.specs.Affine.{constant_form};
ghost use Rattle.tree_graphs.specs.Asked.{depth_of_write, read_of, write_of};
ghost use Rattle.tree_graphs.specs.Problems.{AreCells, IsCell};
ghost use Rattle.tree_graphs.specs.Class.{is_difference};
ghost use Rattle.tree_graphs.specs.Edges.{domain_edge_of, node_of, AddsEdges, AddsOrder, AreEdgesOf, IsGraph, IsKept};
ghost use Rattle.sanlp.specs.WellFormed.{form_fits};
ghost use Rattle.source_tree.specs.Places.{at_place, cell_rows, domain_rows};
ghost use Rattle.source_tree.specs.Rows.{equal_rows, Take};

use crate::forms::{difference, negative, raised};
use crate::writes::Writes;
use affine_core::{Form, Row};
use plain_data::Items;
use std::alloc::{AllocError, Global};

/// A row on a writer's point j, read as `weight + j_from - j_to >= 0`: an edge of a graph of difference constraints. Its
/// nodes are the loop variables, and one more node, which stands for 0. The weight is over the variables of a context;
/// between two loop variables of the writer it is a number.
#[derive(Drop)]
pub struct Edge {
    pub from: usize,
    pub to: usize,
    pub weight: Form,
}

// The first variable with this coefficient, or how many variables there are.
fn variable_with(coefs: &[i128], wanted: i128) -> usize
    ensures value { result ≡ node_of wanted coefs.now }
    ensures few { result ≤ length coefs.now }
{
    match coefs.split_first() {
        Some((coef, rest)) if *coef != wanted => 1 + variable_with(rest, wanted),
        _ => 0,
    }
}

// The edge of a domain row.
fn domain_edge(alloc: Global, vars: usize, row: &Row) -> Edge
    requires { vars ≤ 12 }
    ensures { result ≡ domain_edge_of vars row.now }
{
    let coefs = row.coefs.as_slice();
    Edge {
        from: variable_with(coefs, 1),
        to: variable_with(coefs, -1),
        weight: Form::constant(alloc, vars, row.constant),
    }
}

// Adds the edges of domain rows.
fn push_domain(edges: &mut Items<Edge>, w: &Writes, rows: &[Row]) -> Result<(), AllocError>
    requires rows { IsTrue (list_all is_difference rows.now) }
    requires fit { IsTrue (list_all (form_fits (depth_of_write w.now)) rows.now) }
    ensures rows { OnOk result
        (AddsEdges w.now (λ place. domain_rows rows.now place) edges.old edges.new) }
    ensures count { OnOk result (length edges.new ≡ length edges.old + length rows.now) }
    ensures exact { OnOk result
        (edges.new ≡ edges.old ++ map (domain_edge_of w.now.vars) rows.now) }
{
    let Some((row, rows)) = rows.split_first() else {
        return Ok(());
    };
    edges.push(domain_edge(w.alloc, w.vars, row))?;
    push_domain(edges, w, rows)
}

// The form of the constant of a form, over so many variables.
fn constant_of(alloc: Global, vars: usize, form: &Form) -> Form
    requires { vars ≤ 12 }
    ensures { result ≡ constant_form vars form.now.constant }
{
    Form::constant(alloc, vars, form.constant)
}

// Adds the two edges of a subscript, `write - read` and `read - write`.
fn push_cell(
    edges: &mut Items<Edge>,
    w: &Writes,
    write: &Form,
    read: &Form,
) -> Result<(), AllocError>
    requires { IsCell w.now.vars (depth_of_write w.now) write.now read.now }
    ensures rows { OnOk result
        (AddsEdges w.now (λ place. equal_rows (at_place write.now place) (Take read.now)) edges.old
        edges.new) }
    ensures count { OnOk result (length edges.new ≡ length edges.old + 2) }
    ensures kept { OnOk result (IsKept edges.old edges.new) }
{
    let node = variable_with(write.coefs.as_slice(), 1);
    let constant = constant_of(w.alloc, w.vars, write);
    edges.push(Edge {
        from: node,
        to: w.depth(),
        weight: difference(&constant, read),
    })?;
    edges.push(Edge {
        from: w.depth(),
        to: node,
        weight: difference(read, &constant),
    })
}

// Adds the two edges of each subscript.
fn push_cells(
    edges: &mut Items<Edge>,
    w: &Writes,
    writes: &[Form],
    reads: &[Form],
) -> Result<(), AllocError>
    requires { AreCells w.now.vars (depth_of_write w.now) writes.now reads.now }
    ensures rows { OnOk result
        (AddsEdges w.now (λ place. cell_rows writes.now reads.now place) edges.old edges.new) }
    ensures count { OnOk result (length edges.new ≤ length edges.old + 2 * length writes.now) }
    ensures kept { OnOk result (IsKept edges.old edges.new) }
{
    let (Some((write, writes)), Some((read, reads))) = (writes.split_first(), reads.split_first())
    else {
        return Ok(());
    };
    push_cell(edges, w, write, read)?;
    push_cells(edges, w, writes, reads)
}

// Adds the edges of the order rows from this loop on: `j - x` and `x - j` above the level, and `x - j - 1` at it.
fn push_order(edges: &mut Items<Edge>, w: &Writes, from: usize) -> Result<(), AllocError>
    requires { from ≤ w.now.level }
    ensures rows { OnOk result (AddsOrder w.now from edges.old edges.new) }
    ensures count { OnOk result (length edges.new + 2 * from ≤ length edges.old + 12) }
    ensures kept { OnOk result (IsKept edges.old edges.new) }
{
    if from >= w.common {
        return Ok(());
    }
    let value = Form::variable(w.alloc, w.vars, from);
    if from == w.level {
        return edges.push(Edge {
            from: w.depth(),
            to: from,
            weight: raised(&value, -1),
        });
    }
    edges.push(Edge {
        from,
        to: w.depth(),
        weight: negative(&value),
    })?;
    edges.push(Edge {
        from: w.depth(),
        to: from,
        weight: value,
    })?;
    push_order(edges, w, from + 1)
}

/// The edges of the rows on a writer's point, in the order of these rows: its domain, the read's cell, and the order before
/// the read.
pub fn edges_of(w: &Writes) -> Result<Items<Edge>, AllocError>
    ensures rows { IfOk result (AreEdgesOf (read_of w.now) (write_of w.now) w.now.level) }
    ensures graph { IfOk result (IsGraph w.now.vars (depth_of_write w.now)) }
    ensures domain { IfOk result (λ edges. take (length w.now.rows.now) edges
        ≡ map (domain_edge_of w.now.vars) w.now.rows.now) }
{
    let mut edges = Items::new(w.alloc);
    push_domain(&mut edges, w, w.rows)?;
    push_cells(&mut edges, w, w.write_forms, w.read_forms)?;
    push_order(&mut edges, w, 0)?;
    Ok(edges)
}
