ghost use Rattle.std.specs.Prelude.{◌≡◌, ◌++◌, ◌+◌, length, OnOk, IfOk, IsTrue};
ghost use Rattle.std.specs.List.{list_all};
ghost use Rattle.sanlp.specs.WellFormed.{input_extents, output_extents, array_loops};
ghost use Rattle.loop_bind.specs.Ranges.{has_small_extents};
ghost use Rattle.loop_bind.specs.Terminals.{sources_from, sinks_from};
ghost use Rattle.loop_class.specs.Binding.{Binds};

use loop_bind::{BindError, Params, Reading, push_sinks, push_sources, read};
use loop_grammar::Tree;
use loop_lex::Token;
use plain_data::Items;
use sanlp::{ArrayDecl, Nest, Node, Statement};
use std::alloc::{AllocError, Global};

// Moves items to the end of a list.
fn append<T: Drop>(list: &mut Items<T>, more: Items<T>) -> Result<(), AllocError>
    ensures { OnOk result (list.new ≡ list.old ++ more) }
{
    for item in more.into_vec() {
        list.push(item)?;
    }
    Ok(())
}

/// The statements and the body of a nest.
#[derive(Drop)]
pub struct Whole {
    pub statements: Items<Statement>,
    pub body: Items<Node>,
}

// Puts the sources before the assignments and the sinks after them.
fn assemble(
    alloc: Global,
    arrays: &[ArrayDecl],
    assignments: Items<Statement>,
    nodes: Items<Node>,
    next_loop: u32,
) -> Result<Whole, AllocError>
    requires { IsTrue (list_all has_small_extents arrays.now) }
    ensures statements { IfOk result (λ w. w.statements ≡ sources_from 0 0 arrays.now
        ++ (assignments ++ sinks_from 0 next_loop arrays.now)) }
    ensures body { IfOk result (λ w. w.body ≡ array_loops 0 0 (input_extents arrays.now)
        ++ (nodes ++ array_loops next_loop (length (input_extents arrays.now) + length assignments)
        (output_extents arrays.now))) }
{
    let mut statements = Items::new(alloc);
    let mut body = Items::new(alloc);
    push_sources(alloc, arrays, &mut statements, &mut body)?;
    append(&mut statements, assignments)?;
    append(&mut body, nodes)?;
    let first_sink = u32::try_from(statements.len()).or(Err(AllocError))?;
    push_sinks(
        alloc,
        arrays,
        next_loop,
        first_sink,
        &mut statements,
        &mut body,
    )?;
    Ok(Whole { statements, body })
}

/// The nest of a tree, with values for its parameters. Values for other names are passed over.
///
/// A reason that isn't `Memory` comes exactly where it stands in the tree at the least place, and
/// at one place is the first of those that stand there. `Memory` is want of memory; a tree whose
/// loops or statements pass 32 bits can't be held either.
pub fn bind(
    alloc: Global,
    _bytes: &[u8],
    _tokens: &[Token],
    tree: &Tree,
    params: &Params,
) -> Result<Nest, BindError>
    ensures { Binds tree.now params.now result }
{
    let Reading {
        arrays,
        statements,
        nodes,
        next_loop,
        least,
    } = read(alloc, tree, params)?;
    if let Some(reason) = least {
        return Err(reason);
    }
    let whole = assemble(alloc, arrays.as_slice(), statements, nodes, next_loop)?;
    Ok(Nest {
        arrays,
        statements: whole.statements,
        body: whole.body,
    })
}
