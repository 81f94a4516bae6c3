ghost use Rattle.std.specs.Prelude.{◌≡◌, IfOk, length};
ghost use Rattle.sanlp.specs.WellFormed.{input_extents, output_extents};
ghost use Rattle.loop_bind.specs.Declarations.{Values, declared};
ghost use Rattle.loop_bind.specs.Following.{IsReadingOf, Stands};
ghost use Rattle.loop_bind.specs.Terminals.{loop_count};

use crate::context::{Context, Progress};
use crate::declare::{Table, declare_all};
use crate::error::BindError;
use crate::params::Params;
use crate::parts::bind_parts;
use crate::terminals::{sink_count, source_count, source_loops};
use loop_grammar::Tree;
use plain_data::Items;
use sanlp::{ArrayDecl, Node, Statement};
use std::alloc::{AllocError, Global};

/// What a tree gives besides its sources and sinks, and the least reason that stands in it.
#[derive(Drop)]
pub struct Reading {
    pub arrays: Items<ArrayDecl>,
    pub statements: Items<Statement>,
    pub nodes: Items<Node>,
    pub next_loop: u32,
    pub least: Option<BindError>,
}

// How many sources and sinks arrays have, and how many loops stand round the sources.
#[derive(Clone, Copy)]
struct Counts {
    sources: u32,
    sinks: u32,
    loops: u32,
}

fn count_ends(arrays: &[ArrayDecl]) -> Result<Counts, AllocError>
    ensures { IfOk result (λ counts. counts ≡ record {
      sources = length (input_extents arrays.now);
      sinks = length (output_extents arrays.now);
      loops = loop_count (input_extents arrays.now);
    }) }
{
    Ok(Counts {
        sources: source_count(arrays)?,
        sinks: sink_count(arrays)?,
        loops: source_loops(arrays)?,
    })
}

// Reads the parts of a tree whose declarations stand in this table.
#[inline(never)]
fn read_parts(
    alloc: Global,
    tree: &Tree,
    table: Table,
    counts: Counts,
) -> Result<Reading, AllocError>
    ensures { IfOk result (λ reading. (params : Values)
        → Stands table (declared params tree.now.declarations)
        → counts.sources ≡ length (input_extents table.arrays)
        → counts.sinks ≡ length (output_extents table.arrays)
        → counts.loops ≡ loop_count (input_extents table.arrays)
        → IsReadingOf reading tree.now params) }
{
    let Table {
        scope,
        arrays,
        least,
        ..
    } = table;
    let mut context = Context {
        scope,
        loops: Items::new(alloc),
        rows: Items::new(alloc),
        sinks: counts.sinks,
    };
    let mut progress = Progress {
        first: counts.sources,
        statements: Items::new(alloc),
        next_loop: counts.loops,
        least,
    };
    let mut nodes = Items::new(alloc);
    let bound = bind_parts(
        alloc,
        tree.parts.as_slice(),
        &mut context,
        &mut progress,
        &mut nodes,
    );
    drop(context);
    match bound {
        Ok(()) => {
            let Progress {
                statements,
                next_loop,
                least,
                ..
            } = progress;
            Ok(Reading {
                arrays,
                statements,
                nodes,
                next_loop,
                least,
            })
        }
        Err(error) => {
            drop(arrays);
            drop(progress);
            drop(nodes);
            Err(error)
        }
    }
}

/// Reads a tree with values for its parameters: its declarations, and what its parts make.
pub fn read(alloc: Global, tree: &Tree, params: &Params) -> Result<Reading, AllocError>
    ensures { IfOk result (λ reading. IsReadingOf reading tree.now params.now) }
{
    let table = declare_all(alloc, params, tree.declarations.as_slice())?;
    match count_ends(table.arrays.as_slice()) {
        Ok(counts) => read_parts(alloc, tree, table, counts),
        Err(error) => {
            drop(table);
            Err(error)
        }
    }
}
