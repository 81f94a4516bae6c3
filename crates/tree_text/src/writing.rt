ghost use Rattle.std.specs.Prelude.{◌≡◌, ◌++◌, codes};
ghost use Rattle.std.specs.Fmt.{signed_decimal};
ghost use Rattle.std.specs.List.{flat_map};
ghost use Rattle.text_out.specs.Wrote.{Wrote};
ghost use Rattle.tree_text.specs.TreeText.{cut_text, divides_text, form_words, map_text, proof_text, split_text, sum_text, term_words, test_text, tree_text, writer_text, zero_text};

use affine_core::KeptForm;
use int_polyhedra::{Proof, Term};
use source_tree::Tree;
use text_out::{TextWriter, Word, write_line, write_number};

/// Writes a number with a space before it.
fn write_integer<W: TextWriter>(number: i128, out: &mut W)
    ensures { Wrote W.given out.old out.new (codes " " ++ signed_decimal number) }
{
    out.put(b" ");
    write_number(number, out);
}

/// Writes numbers with a space before each.
fn write_integers<W: TextWriter>(numbers: &[i128], out: &mut W)
    ensures { Wrote W.given out.old out.new
        (flat_map (λ number. codes " " ++ signed_decimal number) numbers.now) }
{
    for number in numbers {
        write_integer(*number, out);
    }
}

/// Writes a form with a space before each of its numbers.
#[tactic(auto, using(crate::proofs::LineSpaces::form_steps))]
fn write_form<W: TextWriter>(form: &KeptForm, out: &mut W)
    ensures { Wrote W.given out.old out.new
        (flat_map (λ word. codes " " ++ word) (form_words form.now)) }
{
    let form = form.get();
    write_integer(form.constant, out);
    write_integers(form.coefs.as_slice(), out);
}

/// Writes a term with a space before each of its two numbers.
fn write_term<W: TextWriter>(term: Term, out: &mut W)
    ensures { Wrote W.given out.old out.new
        (flat_map (λ word. codes " " ++ word) (term_words term)) }
{
    out.put(b" ");
    write_number(term.row, out);
    write_integer(term.times, out);
}

/// Writes terms with a space before each number.
fn write_terms<W: TextWriter>(terms: &[Term], out: &mut W)
    ensures { Wrote W.given out.old out.new
        (flat_map (λ term. flat_map (λ word. codes " " ++ word) (term_words term)) terms.now) }
{
    for term in terms {
        write_term(*term, out);
    }
}

/// Writes the line of a Sum.
#[tactic(auto, using(crate::proofs::LineSpaces::line_steps))]
fn write_sum<W: TextWriter>(terms: &[Term], out: &mut W)
    ensures { Wrote W.given out.old out.new (sum_text terms.now) }
{
    out.put(b"s");
    write_terms(terms, out);
    out.put(b"\n");
}

/// Writes the line of a Cut.
#[tactic(auto, using(crate::proofs::LineSpaces::line_steps))]
fn write_cut<W: TextWriter>(divisor: i128, terms: &[Term], out: &mut W)
    ensures { Wrote W.given out.old out.new (cut_text divisor terms.now) }
{
    out.put(b"c");
    write_integer(divisor, out);
    write_terms(terms, out);
    out.put(b"\n");
}

/// Writes the line of a Split.
fn write_split<W: TextWriter>(form: &KeptForm, out: &mut W)
    ensures { Wrote W.given out.old out.new (split_text form.now) }
{
    out.put(b"b");
    write_form(form, out);
    out.put(b"\n");
}

/// Writes a proof. Its stack grows with the depth of the proof.
fn write_proof<W: TextWriter>(proof: &Proof, out: &mut W)
    ensures { Wrote W.given out.old out.new (proof_text proof.now) }
{
    match proof {
        Proof::Sum(terms) => write_sum(terms.as_slice(), out),
        Proof::Cut(divisor, terms, rest) => {
            let divisor = divisor.get();
            let terms = terms.get();
            write_cut(divisor, terms.as_slice(), out);
            write_proof(rest.get(), out);
        }
        Proof::Split(form, above, below) => {
            write_split(form, out);
            write_proof(above.get(), out);
            write_proof(below.get(), out);
        }
    }
}

fn write_proofs<W: TextWriter>(proofs: &[Proof], out: &mut W)
    ensures { Wrote W.given out.old out.new (flat_map proof_text proofs.now) }
{
    for proof in proofs {
        write_proof(proof, out);
    }
}

/// Writes the line of a Test. It takes no memory.
pub fn write_test<W: TextWriter>(form: &KeptForm, out: &mut W)
    ensures { Wrote W.given out.old out.new (test_text form.now) }
{
    out.put(b"t");
    write_form(form, out);
    out.put(b"\n");
}

/// Writes the line of a Divides. It takes no memory.
#[tactic(auto, using(crate::proofs::LineSpaces::divides_steps))]
pub fn write_divides<W: TextWriter>(form: &KeptForm, divisor: i128, out: &mut W)
    ensures { Wrote W.given out.old out.new (divides_text form.now divisor) }
{
    out.put(b"d");
    write_integer(divisor, out);
    write_form(form, out);
    out.put(b"\n");
}

/// Writes the line of a Writer leaf.
fn write_writer<W: TextWriter>(statement: u32, forms: usize, proofs: usize, out: &mut W)
    ensures { Wrote W.given out.old out.new (writer_text statement forms proofs) }
{
    let words = [
        Word::Text(b"w"),
        Word::Number(u64::from(statement)),
        Word::Number(forms as u64),
        Word::Number(proofs as u64),
    ];
    write_line(&words, out);
}

/// Writes a form of a map.
fn write_map<W: TextWriter>(form: &KeptForm, out: &mut W)
    ensures { Wrote W.given out.old out.new (map_text form.now) }
{
    out.put(b"m");
    write_form(form, out);
    out.put(b"\n");
}

/// Writes the map of a Writer leaf, a line for each form. It takes no memory.
pub fn write_place<W: TextWriter>(place: &[KeptForm], out: &mut W)
    ensures { Wrote W.given out.old out.new (flat_map map_text place.now) }
{
    for form in place {
        write_map(form, out);
    }
}

/// Writes the line of a Zero leaf.
fn write_zero<W: TextWriter>(proofs: usize, out: &mut W)
    ensures { Wrote W.given out.old out.new (zero_text proofs) }
{
    write_line(&[Word::Text(b"z"), Word::Number(proofs as u64)], out);
}

/// Writes a tree with its proofs. It takes no memory. Its stack grows with the depth of the tree and of its proofs; 512
/// levels of each are fine in 8 MB.
pub fn write_tree<W: TextWriter>(tree: &Tree, out: &mut W)
    ensures { Wrote W.given out.old out.new (tree_text tree.now) }
{
    match tree {
        Tree::Test(form, above, below) => {
            write_test(form, out);
            write_tree(above.get(), out);
            write_tree(below.get(), out);
        }
        Tree::Divides(form, divisor, above, below) => {
            let divisor = divisor.get();
            write_divides(form, divisor, out);
            write_tree(above.get(), out);
            write_tree(below.get(), out);
        }
        Tree::Writer(statement, place, proofs) => {
            write_writer(*statement, place.len(), proofs.len(), out);
            write_place(place.as_slice(), out);
            write_proofs(proofs.as_slice(), out);
        }
        Tree::Zero(proofs) => {
            write_zero(proofs.len(), out);
            write_proofs(proofs.as_slice(), out);
        }
        Tree::Dead(proof) => {
            write_line(&[Word::Text(b"x")], out);
            write_proof(proof, out);
        }
    }
}
