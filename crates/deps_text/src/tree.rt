ghost use Rattle.text_out.specs.Wrote.{Wrote};
ghost use Rattle.deps_text.specs.TreeLines.{lines_of_tree, writer_line, zero_line};

use source_tree::Tree;
use text_out::{TextWriter, Word, write_line};
use tree_text::{write_divides, write_place, write_test};

// Writes the line of a Writer leaf.
fn write_writer<W: TextWriter>(statement: u32, forms: usize, out: &mut W)
    ensures { Wrote W.given out.old out.new (writer_line statement forms) }
{
    let words = [
        Word::Text(b"w"),
        Word::Number(u64::from(statement)),
        Word::Number(forms as u64),
    ];
    write_line(&words, out);
}

/// Writes a tree without its proofs. It takes no memory. Its stack grows with the depth of the tree.
pub(crate) fn write_tree<W: TextWriter>(tree: &Tree, out: &mut W)
    ensures { Wrote W.given out.old out.new (lines_of_tree tree.now) }
{
    match tree {
        Tree::Test(form, above, below) => {
            write_test(form, out);
            write_tree(above.get(), out);
            write_tree(below.get(), out);
        }
        Tree::Divides(form, divisor, above, below) => {
            let divisor = divisor.get();
            write_divides(form, divisor, out);
            write_tree(above.get(), out);
            write_tree(below.get(), out);
        }
        Tree::Writer(statement, place, _) => {
            write_writer(*statement, place.len(), out);
            write_place(place.as_slice(), out);
        }
        Tree::Zero(_) => write_line(&[Word::Text(b"z")], out),
        Tree::Dead(_) => write_line(&[Word::Text(b"x")], out),
    }
}
