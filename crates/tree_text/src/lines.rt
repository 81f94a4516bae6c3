//! What a line of a tree or of a proof says.

ghost use Rattle.std.specs.Prelude.{◌≡◌, ◌<◌, ◌++◌, ◌∷◌, [], IfOk, length};
ghost use Rattle.cert_lines.specs.Words.{both as judged_together, made, words_of};
ghost use Rattle.tree_text.specs.Lines.{coefficients as coefficients_of, cut_words as behind_c, dead_words as behind_x, divides_words as behind_d, form as form_of, map_line, proof_line, term as term_of, terms as terms_of, tree_line, writer_words as behind_w, zero_words as behind_z};
ghost use Rattle.tree_text.specs.declared.lines.ProofLine.TheVariants.{Split as SplitLine, Sum as SumLine};
ghost use Rattle.tree_text.specs.declared.lines.TreeLine.TheVariants.{Test as TestLine};

use affine_core::{Coefs, Form, KeptForm};
use cert_lines::{Fault, Words, both, integer, number};
use int_polyhedra::Term;
use plain_data::Items;
use std::alloc::{AllocError, Global};

/// What a line of a proof says, without the proofs that follow it. A form stands in few bytes, so that a level of a proof
/// takes less stack.
#[derive(Drop)]
pub(crate) enum ProofLine {
    Sum(Items<Term>),
    Cut(i128, Items<Term>),
    Split(KeptForm),
}

/// What a line of a tree says, without what follows it.
#[derive(Drop)]
pub(crate) enum TreeLine {
    Test(KeptForm),
    Divides(KeptForm, i128),
    /// A statement, and how many forms and proofs follow.
    Writer(u32, u32, u32),
    /// How many proofs follow.
    Zero(u32),
    Dead,
}

/// Adds a coefficient at the end.
fn with_coefficient(coefs: Result<Coefs, Fault>, coef: Result<i128, Fault>) -> Result<Coefs, Fault>
    requires { IfOk coefs (λ coefs. length coefs < 18) }
    ensures { result ≡ made (λ pair. pair.0 ++ pair.1 ∷ []) (judged_together coefs coef) }
{
    let (mut coefs, coef) = both(coefs, coef)?;
    coefs.push(coef);
    Ok(coefs)
}

/// The coefficients of a form.
fn coefficients(alloc: Global, mut words: Words) -> Result<Coefs, Fault>
    ensures { result ≡ coefficients_of words.entry }
{
    let mut coefs = Ok(Coefs::empty(alloc));
    let mut count: usize = 0;
    while let Some(word) = words.next() {
        if count == 18 {
            return Err(Fault::Words);
        }
        count += 1;
        coefs = with_coefficient(coefs, integer(word));
    }
    coefs
}

/// A form: its constant, and then its coefficients.
fn form(alloc: Global, mut words: Words) -> Result<Form, Fault>
    ensures { result ≡ form_of words.entry }
{
    let Some(constant) = words.next() else {
        return Err(Fault::Words);
    };
    let (constant, coefs) = both(integer(constant), coefficients(alloc, words))?;
    Ok(Form { constant, coefs })
}

fn term(row: &[u8], times: &[u8]) -> Result<Term, Fault>
    ensures { result ≡ term_of row.now times.now }
{
    let (row, times) = both(number(row), integer(times))?;
    Ok(Term { row, times })
}

/// The list of one term, which takes no more memory than it needs: most proofs have sums of a few rows.
fn alone(alloc: Global, term: Term) -> Result<Items<Term>, AllocError>
    ensures { IfOk result (λ terms. terms ≡ term ∷ []) }
{
    let mut terms = Vec::with_capacity(alloc, 1)?;
    terms.push(term)?;
    Ok(Items::from_vec(terms))
}

/// The terms and one more, or want of memory. Room comes with the first term, and is for that one alone.
fn longer(mut terms: Items<Term>, term: Term) -> Result<Items<Term>, AllocError>
    ensures { IfOk result (λ more. more ≡ terms ++ term ∷ []) }
{
    if terms.is_empty() {
        return alone(terms.allocator(), term);
    }
    terms.push(term)?;
    Ok(terms)
}

/// Adds a term at the end, or answers want of memory.
fn with_term(
    terms: Result<Items<Term>, Fault>,
    term: Result<Term, Fault>,
) -> Result<Result<Items<Term>, Fault>, AllocError>
    ensures { IfOk result
        (λ more. more ≡ made (λ pair. pair.0 ++ pair.1 ∷ []) (judged_together terms term)) }
{
    match both(terms, term) {
        Ok((terms, term)) => Ok(Ok(longer(terms, term)?)),
        Err(fault) => Ok(Err(fault)),
    }
}

/// Terms, each of two words, or want of memory.
fn terms(alloc: Global, mut words: Words) -> Result<Result<Items<Term>, Fault>, AllocError>
    ensures { IfOk result (λ terms. terms ≡ terms_of words.entry) }
{
    let mut terms = Ok(Items::new(alloc));
    while let Some(row) = words.next() {
        let Some(times) = words.next() else {
            return Ok(Err(Fault::Words));
        };
        terms = with_term(terms, term(row, times))?;
    }
    Ok(terms)
}

fn sum(terms: Result<Items<Term>, Fault>) -> Result<ProofLine, Fault>
    ensures { result ≡ made SumLine terms }
{
    Ok(ProofLine::Sum(terms?))
}

/// A form in few bytes, or want of memory.
fn kept(alloc: Global, form: Result<Form, Fault>) -> Result<Result<KeptForm, Fault>, AllocError>
    ensures { IfOk result (λ kept. kept ≡ form) }
{
    match form {
        Ok(form) => Ok(Ok(KeptForm::of(alloc, &form)?)),
        Err(fault) => Ok(Err(fault)),
    }
}

fn split(form: Result<KeptForm, Fault>) -> Result<ProofLine, Fault>
    ensures { result ≡ made SplitLine form }
{
    Ok(ProofLine::Split(form?))
}

fn cut(divisor: Result<i128, Fault>, terms: Result<Items<Term>, Fault>) -> Result<ProofLine, Fault>
    ensures { result ≡ made (λ c. ProofLine.Cut c.0 c.1) (judged_together divisor terms) }
{
    let (divisor, terms) = both(divisor, terms)?;
    Ok(ProofLine::Cut(divisor, terms))
}

/// What stands behind `c`, or want of memory.
fn cut_words(alloc: Global, mut words: Words) -> Result<Result<ProofLine, Fault>, AllocError>
    ensures { IfOk result (λ line. line ≡ behind_c words.entry) }
{
    let Some(divisor) = words.next() else {
        return Ok(Err(Fault::Words));
    };
    let terms = terms(alloc, words)?;
    Ok(cut(integer(divisor), terms))
}

/// What a line of a proof says, or want of memory.
pub(crate) fn proof_line_of(
    alloc: Global,
    line: &[u8],
) -> Result<Result<ProofLine, Fault>, AllocError>
    ensures { IfOk result (λ said. said ≡ proof_line (words_of line.now)) }
{
    let mut words = Words::new(line);
    let Some(word) = words.next() else {
        return Ok(Err(Fault::Words));
    };
    if word == b"s".as_slice() {
        let terms = terms(alloc, words)?;
        Ok(sum(terms))
    } else if word == b"c".as_slice() {
        let line = cut_words(alloc, words)?;
        Ok(line)
    } else if word == b"b".as_slice() {
        let form = kept(alloc, form(alloc, words))?;
        Ok(split(form))
    } else {
        Ok(Err(Fault::Words))
    }
}

fn test(form: Result<KeptForm, Fault>) -> Result<TreeLine, Fault>
    ensures { result ≡ made TestLine form }
{
    Ok(TreeLine::Test(form?))
}

fn divides(divisor: Result<i128, Fault>, form: Result<KeptForm, Fault>) -> Result<TreeLine, Fault>
    ensures { result ≡ made (λ d. TreeLine.Divides d.1 d.0) (judged_together divisor form) }
{
    let (divisor, form) = both(divisor, form)?;
    Ok(TreeLine::Divides(form, divisor))
}

/// What stands behind `d`, or want of memory.
fn divides_words(alloc: Global, mut words: Words) -> Result<Result<TreeLine, Fault>, AllocError>
    ensures { IfOk result (λ line. line ≡ behind_d words.entry) }
{
    let Some(divisor) = words.next() else {
        return Ok(Err(Fault::Words));
    };
    let form = kept(alloc, form(alloc, words))?;
    Ok(divides(integer(divisor), form))
}

/// What stands behind `w`.
fn writer_words(mut words: Words) -> Result<TreeLine, Fault>
    ensures { result ≡ behind_w words.entry }
{
    let (Some(statement), Some(forms), Some(proofs), None) = (
        words.next(),
        words.next(),
        words.next(),
        words.next(),
    ) else {
        return Err(Fault::Words);
    };
    let counts = both(number(forms), number(proofs));
    let (statement, (forms, proofs)) = both(number(statement), counts)?;
    Ok(TreeLine::Writer(statement, forms, proofs))
}

/// What stands behind `z`.
fn zero_words(mut words: Words) -> Result<TreeLine, Fault>
    ensures { result ≡ behind_z words.entry }
{
    let (Some(proofs), None) = (words.next(), words.next()) else {
        return Err(Fault::Words);
    };
    let proofs = number(proofs)?;
    Ok(TreeLine::Zero(proofs))
}

/// What stands behind `x`: nothing.
fn dead_words(mut words: Words) -> Result<TreeLine, Fault>
    ensures { result ≡ behind_x words.entry }
{
    match words.next() {
        Some(_) => Err(Fault::Words),
        None => Ok(TreeLine::Dead),
    }
}

/// What a line of a tree says, or want of memory.
pub(crate) fn tree_line_of(
    alloc: Global,
    line: &[u8],
) -> Result<Result<TreeLine, Fault>, AllocError>
    ensures { IfOk result (λ said. said ≡ tree_line (words_of line.now)) }
{
    let mut words = Words::new(line);
    let Some(word) = words.next() else {
        return Ok(Err(Fault::Words));
    };
    if word == b"t".as_slice() {
        let form = kept(alloc, form(alloc, words))?;
        Ok(test(form))
    } else if word == b"d".as_slice() {
        let line = divides_words(alloc, words)?;
        Ok(line)
    } else if word == b"w".as_slice() {
        Ok(writer_words(words))
    } else if word == b"z".as_slice() {
        Ok(zero_words(words))
    } else if word == b"x".as_slice() {
        Ok(dead_words(words))
    } else {
        Ok(Err(Fault::Words))
    }
}

/// What a line of a map says, or want of memory.
pub(crate) fn map_line_of(alloc: Global, line: &[u8]) -> Result<Result<KeptForm, Fault>, AllocError>
    ensures { IfOk result (λ said. said ≡ map_line (words_of line.now)) }
{
    let mut words = Words::new(line);
    let Some(word) = words.next() else {
        return Ok(Err(Fault::Words));
    };
    if word == b"m".as_slice() {
        let form = kept(alloc, form(alloc, words))?;
        Ok(form)
    } else {
        Ok(Err(Fault::Words))
    }
}
