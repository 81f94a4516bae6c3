ghost use Rattle.std.specs.Prelude.{◌≡◌, ◌<◌, ◌↔◌, ◌++◌, All, ℕ, IsTrue, IfOk, OnOk, length, map};
ghost use Rattle.deps_text.specs.Dependences.{AllHaveTrees, AreDependences, HasOrigin, HasTree, IsOriginOf, read_of, reads_at};
ghost use Rattle.sanlp.specs.Access.{read_count};

use deps_text::Dependence;
use last_writer::source_of;
use plain_data::{Boxed, Items};
use sanlp::Nest;
use source_tree::Origin;
use std::alloc::{AllocError, Global};
use tree_cuts::in_stride_class;

// Whether the read has a tree.
fn has_tree(nest: &Nest, statement: u32, read: u32) -> bool
    ensures { IsTrue result ↔ HasTree nest.now statement read }
{
    in_stride_class(nest, statement, read)
}

// Whether each read of a statement has a tree.
fn reads_have_trees(nest: &Nest, statement: u32) -> bool
    requires { statement < length nest.now.statements }
    ensures { IsTrue result
        ↔ ((k : ℕ) → k < read_count nest.now statement → HasTree nest.now statement k) }
{
    for read in 0..nest.statement(statement).reads.len() {
        if !has_tree(nest, statement, read as u32) {
            return false;
        }
    }
    true
}

/// Whether every read of the nest has a tree: each is in the stride class. It takes no memory.
pub fn all_have_trees(nest: &Nest) -> bool
    ensures { IsTrue result ↔ AllHaveTrees nest.now }
{
    for statement in 0..nest.statements.len() {
        if !reads_have_trees(nest, statement as u32) {
            return false;
        }
    }
    true
}

// Where the read has its values from.
fn origin_of(alloc: Global, nest: &Nest, statement: u32, read: u32) -> Result<Origin, AllocError>
    requires statement { statement < length nest.now.statements }
    requires read { read < read_count nest.now statement }
    ensures { IfOk result (IsOriginOf nest.now statement read) }
{
    if has_tree(nest, statement, read) {
        Ok(Origin::Tree(Boxed::new(alloc, source_of(alloc, nest, statement, read)?)?))
    } else {
        Ok(Origin::Sweep)
    }
}

// Adds the dependence of each read of a statement.
fn push_reads(
    alloc: Global,
    nest: &Nest,
    statement: u32,
    list: &mut Items<Dependence>,
) -> Result<(), AllocError>
    requires { statement < length nest.now.statements }
    ensures reads { OnOk result
        (map read_of list.new ≡ map read_of list.old ++ reads_at nest.now statement) }
    ensures origins { All (HasOrigin nest.now) list.old
        → OnOk result (All (HasOrigin nest.now) list.new) }
{
    for number in 0..nest.statement(statement).reads.len() {
        let read = number as u32;
        let origin = origin_of(alloc, nest, statement, read)?;
        list.push(Dependence {
            statement,
            read,
            origin,
        })?;
    }
    Ok(())
}

/// Where each read of the nest has its values from, in the order of statements and reads: a read of the stride class
/// has an exact tree, which is checked, whatever the size of the nest, and another read has its last writers. Nothing is
/// refused but want of memory: there is no limit on a tree.
pub fn dependences(alloc: Global, nest: &Nest) -> Result<Items<Dependence>, AllocError>
    ensures { IfOk result (AreDependences nest.now) }
{
    let mut list = Items::new(alloc);
    for statement in 0..nest.statements.len() {
        push_reads(alloc, nest, statement as u32, &mut list)?;
    }
    Ok(list)
}
