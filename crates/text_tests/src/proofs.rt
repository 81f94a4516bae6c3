//! Tests of `int_polyhedra`, by proofs that a text tells.
ghost use Rattle.std.specs.Prelude.{◌≡◌, length, IfOk};
ghost use Rattle.int_polyhedra.specs.Systems.{AreOver};

use affine_core::{Coefs, Form};
use cert_lines::Lines;
use int_polyhedra::{System, entails, refutes};
use plain_data::Items;
use source_tree::Tree;
use std::alloc::{AllocError, Global};
use std::test::Fail;
use tree_text::read_tree;

// A form over one variable.
fn form(alloc: Global, constant: i128, coef: i128) -> Form
    ensures { length result.coefs ≡ 1 }
{
    let mut coefs = Coefs::empty(alloc);
    coefs.push(coef);
    Form { constant, coefs }
}

// The system with this one row.
#[tactic(auto, using(int_polyhedra::proofs::Variables::over_more))]
fn system(alloc: Global, row: Form) -> Result<System, AllocError>
    requires { length row.coefs ≡ 1 }
    ensures { IfOk result (λ s. (s.vars ≡ 1) × AreOver 1 s.rows) }
{
    let mut rows = Items::new(alloc);
    rows.push(row)?;
    Ok(System { vars: 1, rows })
}

// Whether the proof of a Dead leaf refutes the system.
fn is_refuted(tree: &Tree, system: &System) -> bool
    requires vars { system.now.vars ≡ 1 }
    requires over { AreOver 1 system.now.rows }
{
    match tree {
        Tree::Dead(proof) => refutes(system, proof).is_ok(),
        _ => false,
    }
}

// Whether it shows that each point of the system meets the row.
fn is_entailed(tree: &Tree, system: &System, row: &Form) -> bool
    requires vars { system.now.vars ≡ 1 }
    requires over { AreOver 1 system.now.rows }
    requires row { length row.now.coefs ≡ 1 }
{
    match tree {
        Tree::Dead(proof) => entails(system, row, proof).is_ok(),
        _ => false,
    }
}

// The tree that is a Dead leaf with the proof of these lines.
fn dead(alloc: Global, proof: &[u8]) -> Result<Tree, Fail> {
    let mut text = Vec::from_slice(alloc, b"x\n")?;
    text.extend_from_slice(proof)?;
    let mut lines = Lines::new(text.as_slice());
    Ok(read_tree(alloc, &mut lines)?.into_inner())
}

// From 2 v - 1 >= 0 follows v - 1 >= 0: the negation -v >= 0 is row 1, and the Cut adds v - 1 >= 0 as row 2. Without it the sum
// is v - 1 >= 0 and no contradiction.
#[test]
fn a_cut_entails_what_its_sum_does_not(rt: HostRuntime) -> Result<(), Fail> {
    let alloc = rt.alloc();
    let given = system(alloc, form(alloc, -1, 2))?;
    let row = form(alloc, -1, 1);
    let cut = dead(alloc, b"c 2 0 1\ns 1 1 2 1\n")?;
    let by_cut = is_entailed(&cut, &given, &row);
    drop(cut);
    assert!(rt; by_cut);
    let sum = dead(alloc, b"s 0 1 1 1\n")?;
    let by_sum = is_entailed(&sum, &given, &row);
    drop(sum);
    assert!(rt; !by_sum);
    Ok(())
}

// So many Splits, each in the first proof of the one before, and a Sum in each other proof, which is row 0.
fn splits(alloc: Global, count: u32) -> Result<Vec<u8>, AllocError> {
    let mut lines = Vec::new(alloc);
    for _ in 0..count {
        lines.extend_from_slice(b"b 0 1\n")?;
    }
    for _ in 0..=count {
        lines.extend_from_slice(b"s 0 1\n")?;
    }
    Ok(lines)
}

// As deep as the text of a certificate may be, on the stack of the main thread.
#[test]
fn bears_512_levels(rt: HostRuntime) -> Result<(), Fail> {
    let alloc = rt.alloc();
    let never = system(alloc, form(alloc, -1, 0))?;
    let text = splits(alloc, 511)?;
    let tree = dead(alloc, text.as_slice())?;
    let refuted = is_refuted(&tree, &never);
    drop(tree);
    assert!(rt; refuted);
    Ok(())
}
