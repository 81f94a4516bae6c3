//! Tests of `tree_trim`, by trees that a text tells. Nothing is asked of their proofs but which rows they name.

use affine_core::Form;
use cert_lines::Lines;
use io_edge::MemSink;
use source_tree::Tree;
use std::alloc::Global;
use std::test::Fail;
use text_out::Writer;
use tree_text::{read_tree, write_tree};
use tree_trim::trim_test;

// A Test of the first variable: the number of its row, its branches, and the tree that is made of it.
#[derive(Clone, Copy)]
struct Case {
    row: u32,
    yes: &'static [u8],
    no: &'static [u8],
    tree: &'static [u8],
}

static CASES: [Case; 12] = [
    // Neither branch names row 2, and row 3 becomes row 2.
    Case {
        row: 2,
        yes: b"z 1\ns 0 1 3 2\n",
        no: b"z 1\ns 1 1\n",
        tree: b"z 1\ns 0 1 2 2\n",
    },
    // The first names it.
    Case {
        row: 2,
        yes: b"z 1\ns 2 1\n",
        no: b"w 7 1 2\nm 5 4\ns 4 1 1 3\ns 0 1\n",
        tree: b"w 7 1 2\nm 5 4\ns 3 1 1 3\ns 0 1\n",
    },
    // The second names it.
    Case {
        row: 2,
        yes: b"w 7 1 2\nm 5 4\ns 4 1 1 3\ns 0 1\n",
        no: b"z 1\ns 2 1\n",
        tree: b"w 7 1 2\nm 5 4\ns 3 1 1 3\ns 0 1\n",
    },
    // Both name it, with a multiplier of 0 too.
    Case {
        row: 2,
        yes: b"z 2\ns 5 1\ns 0 1 2 1\n",
        no: b"x\ns 2 0 3 1\n",
        tree: b"t 0 1\nz 2\ns 5 1\ns 0 1 2 1\nx\ns 2 0 3 1\n",
    },
    // A Dead leaf is a branch like any other.
    Case {
        row: 2,
        yes: b"z 1\ns 2 1\n",
        no: b"x\ns 0 1 1 1\n",
        tree: b"x\ns 0 1 1 1\n",
    },
    // A leaf without a proof names no row.
    Case {
        row: 0,
        yes: b"z 0\n",
        no: b"x\ns 0 1\n",
        tree: b"z 0\n",
    },
    // The row of a Test in the branch is row 3, and becomes row 2.
    Case {
        row: 2,
        yes: b"t 1 1\nx\ns 3 1 0 1\nz 1\ns 3 2 5 1\n",
        no: b"x\ns 2 1\n",
        tree: b"t 1 1\nx\ns 2 1 0 1\nz 1\ns 2 2 4 1\n",
    },
    // One leaf of the first names it.
    Case {
        row: 2,
        yes: b"t 1 1\nx\ns 3 1 0 1\nz 2\ns 3 1\ns 2 1\n",
        no: b"t 2 1\nx\ns 3 1 0 1\nt 3 1\nx\ns 4 1\nx\ns 3 1\n",
        tree: b"t 2 1\nx\ns 2 1 0 1\nt 3 1\nx\ns 3 1\nx\ns 2 1\n",
    },
    // A Divides in the branch.
    Case {
        row: 1,
        yes: b"d 2 0 1\nw 0 0 1\ns 2 1 3 2\nz 1\ns 3 1\n",
        no: b"z 0\n",
        tree: b"d 2 0 1\nw 0 0 1\ns 1 1 2 2\nz 1\ns 2 1\n",
    },
    // The rows that a Cut and a Split add stand behind.
    Case {
        row: 2,
        yes: b"x\nc 2 0 1 3 1\nb 0 1\ns 4 1 5 1\nc 3 5 1\ns 6 1\n",
        no: b"z 0\n",
        tree: b"x\nc 2 0 1 2 1\nb 0 1\ns 3 1 4 1\nc 3 4 1\ns 5 1\n",
    },
    // A proof names it behind a Cut, or on one side of a Split.
    Case {
        row: 2,
        yes: b"x\nc 1 0 1\ns 2 1\n",
        no: b"x\nb 0 1\ns 0 1\ns 2 1\n",
        tree: b"t 0 1\nx\nc 1 0 1\ns 2 1\nx\nb 0 1\ns 0 1\ns 2 1\n",
    },
    // The greatest number of a row.
    Case {
        row: 4_294_967_294,
        yes: b"x\ns 4294967294 1\n",
        no: b"x\ns 4294967295 1 4294967293 1\n",
        tree: b"x\ns 4294967294 1 4294967293 1\n",
    },
];

fn tree_of(alloc: Global, text: &[u8]) -> Result<Tree, Fail> {
    let mut lines = Lines::new(text);
    Ok(read_tree(alloc, &mut lines)?.into_inner())
}

// Whether a tree is written as this text.
fn is_written(alloc: Global, tree: &Tree, text: &[u8]) -> Result<bool, Fail> {
    let mut sink = MemSink::new(alloc, 1_000, 100, &[])?;
    let mut out = Writer::new(&mut sink);
    write_tree(tree, &mut out);
    out.finish()?;
    drop(out);
    Ok(sink.held() == text)
}

fn trimmed(alloc: Global, case: &Case) -> Result<Tree, Fail> {
    let form = Form::variable(alloc, 1, 0);
    let yes = tree_of(alloc, case.yes)?;
    match tree_of(alloc, case.no) {
        Ok(no) => Ok(trim_test(alloc, &form, yes, no, case.row)?),
        Err(error) => {
            drop(yes);
            Err(error)
        }
    }
}

#[test]
fn a_branch_that_does_not_name_the_row_stands_for_the_test(rt: HostRuntime) -> Result<(), Fail> {
    for case in &CASES {
        let tree = trimmed(rt.alloc(), case)?;
        let right = is_written(rt.alloc(), &tree, case.tree);
        drop(tree);
        assert!(rt; right?);
    }
    Ok(())
}
