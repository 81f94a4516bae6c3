ghost use Rattle.std.specs.Prelude.{IfOk};
ghost use Rattle.loop_print.specs.ReadBack.{HasSource, ReadsBackAs};

use crate::printer::text_of;
use loop_grammar::Tree;
use loop_lex::{spaced_tokens_are_read_back, tokens_are_in_order};
use std::alloc::{AllocError, Global};

/// A text whose tokens have this tree, token numbers aside. The tree is that of some source.
pub fn print(alloc: Global, tree: &Tree) -> Result<Vec<u8>, AllocError>
    requires { HasSource tree.now }
    ensures { IfOk result (λ text. ReadsBackAs text.items tree.now) }
{
    let text = text_of(alloc, tree)?;
    tokens_are_in_order();
    spaced_tokens_are_read_back();
    Ok(text)
}
