ghost use Rattle.std.specs.Prelude.{◌≡◌, IfOk};
ghost use Rattle.int_polyhedra.specs.declared.system.Proof.TheVariants.{Sum as AnySum};
ghost use Rattle.int_polyhedra.specs.declared.system.Proof.TheViews.{Cut as AnyCut, Split as AnySplit};
ghost use Rattle.source_tree.specs.declared.tree.Tree.TheViews.{Divides as AnyDivides, Test as AnyTest};
ghost use Rattle.cert_lines.specs.Reading.{Reads, line as one_line, many};
ghost use Rattle.tree_text.specs.Lines.{map_line, proof_line, tree_line};
ghost use Rattle.tree_text.specs.Reading.{dead_behind, proof as proof_part, proof_behind, tree as tree_part, tree_behind, tree_within, writer_behind, zero_behind};

use crate::lines::{ProofLine, TreeLine, map_line_of, proof_line_of, tree_line_of};
use affine_core::{KeptForm, KeptNumber};
use cert_lines::{CertError, Lines, NESTING_LIMIT};
use int_polyhedra::{Proof, Term};
use plain_data::{Boxed, Items};
use source_tree::Tree;
use std::alloc::{AllocError, Global};

#[inline(never)]
fn read_proof_line(alloc: Global, lines: &mut Lines) -> Result<ProofLine, CertError>
    ensures { Reads result lines.new (one_line proof_line lines.old) }
{
    let Some(line) = lines.next() else {
        return Err(CertError::Truncated);
    };
    let said = proof_line_of(alloc, line)?;
    lines.told(said)
}

// The parts of a level are put together by calls that are not inlined, so that a level takes less stack.

#[inline(never)]
fn sum(alloc: Global, terms: Items<Term>) -> Result<Boxed<Proof>, AllocError>
    ensures { IfOk result (λ proof. proof ≡ AnySum terms) }
{
    Boxed::new(alloc, Proof::Sum(terms))
}

#[inline(never)]
fn cut(
    alloc: Global,
    divisor: i128,
    terms: Items<Term>,
    rest: Boxed<Proof>,
) -> Result<Boxed<Proof>, AllocError>
    ensures { IfOk result (λ proof. proof ≡ AnyCut divisor terms rest) }
{
    let divisor = KeptNumber::of(alloc, divisor)?;
    let terms = Boxed::new(alloc, terms)?;
    Boxed::new(alloc, Proof::Cut(divisor, terms, rest))
}

#[inline(never)]
fn split(
    alloc: Global,
    form: KeptForm,
    above: Boxed<Proof>,
    below: Boxed<Proof>,
) -> Result<Boxed<Proof>, AllocError>
    ensures { IfOk result (λ proof. proof ≡ AnySplit form above below) }
{
    Boxed::new(alloc, Proof::Split(form, above, below))
}

#[inline(never)]
fn test(
    alloc: Global,
    form: KeptForm,
    above: Boxed<Tree>,
    below: Boxed<Tree>,
) -> Result<Boxed<Tree>, AllocError>
    ensures { IfOk result (λ tree. tree ≡ AnyTest form above below) }
{
    Boxed::new(alloc, Tree::Test(form, above, below))
}

#[inline(never)]
fn divides(
    alloc: Global,
    form: KeptForm,
    divisor: i128,
    above: Boxed<Tree>,
    below: Boxed<Tree>,
) -> Result<Boxed<Tree>, AllocError>
    ensures { IfOk result (λ tree. tree ≡ AnyDivides form divisor above below) }
{
    let divisor = KeptNumber::of(alloc, divisor)?;
    Boxed::new(alloc, Tree::Divides(form, divisor, above, below))
}

/// Reads what follows a line of a proof, where the proofs in it nest at most so many levels deep.
#[cycle(read_proof)]
fn read_step(
    levels: u32,
    line: ProofLine,
    alloc: Global,
    lines: &mut Lines,
) -> Result<Boxed<Proof>, CertError>
    ensures { Reads result lines.new (proof_behind (proof_part levels) line lines.old) }
{
    match line {
        ProofLine::Sum(terms) => Ok(sum(alloc, terms)?),
        ProofLine::Cut(divisor, terms) => match read_proof(levels, alloc, lines) {
            Ok(rest) => Ok(cut(alloc, divisor, terms, rest)?),
            Err(error) => {
                drop(terms);
                Err(error)
            }
        },
        ProofLine::Split(form) => match read_proof(levels, alloc, lines) {
            Ok(above) => match read_proof(levels, alloc, lines) {
                Ok(below) => Ok(split(alloc, form, above, below)?),
                Err(error) => {
                    drop(form);
                    drop(above);
                    Err(error)
                }
            },
            Err(error) => {
                drop(form);
                Err(error)
            }
        },
    }
}

/// Reads a proof that nests at most so many levels deep. A level takes two frames of the stack.
#[cycle(read_proof)]
fn read_proof(levels: u32, alloc: Global, lines: &mut Lines) -> Result<Boxed<Proof>, CertError>
    ensures { Reads result lines.new (proof_part levels lines.old) }
{
    let line = read_proof_line(alloc, lines)?;
    if levels == 0 {
        drop(line);
        return Err(CertError::Deep(lines.taken()));
    }
    read_step(levels - 1, line, alloc, lines)
}

/// Reads so many proofs.
fn read_proofs(count: u32, alloc: Global, lines: &mut Lines) -> Result<Items<Proof>, CertError>
    ensures { Reads result lines.new (many (proof_part 512) count lines.old) }
{
    let mut proofs = Items::new(alloc);
    for _ in 0..count {
        let proof = read_proof(NESTING_LIMIT, alloc, lines)?;
        proofs.push(proof.into_inner())?;
    }
    Ok(proofs)
}

fn read_form(alloc: Global, lines: &mut Lines) -> Result<KeptForm, CertError>
    ensures { Reads result lines.new (one_line map_line lines.old) }
{
    let Some(line) = lines.next() else {
        return Err(CertError::Truncated);
    };
    let said = map_line_of(alloc, line)?;
    lines.told(said)
}

/// Reads the map of a leaf, which has so many forms.
fn read_place(count: u32, alloc: Global, lines: &mut Lines) -> Result<Items<KeptForm>, CertError>
    ensures { Reads result lines.new (many (one_line map_line) count lines.old) }
{
    let mut place = Items::new(alloc);
    for _ in 0..count {
        place.push(read_form(alloc, lines)?)?;
    }
    Ok(place)
}

#[inline(never)]
fn read_tree_line(alloc: Global, lines: &mut Lines) -> Result<TreeLine, CertError>
    ensures { Reads result lines.new (one_line tree_line lines.old) }
{
    let Some(line) = lines.next() else {
        return Err(CertError::Truncated);
    };
    let said = tree_line_of(alloc, line)?;
    lines.told(said)
}

/// Reads what follows the line of a Writer leaf.
#[inline(never)]
fn read_writer(
    statement: u32,
    forms: u32,
    proofs: u32,
    alloc: Global,
    lines: &mut Lines,
) -> Result<Boxed<Tree>, CertError>
    ensures { Reads result lines.new (writer_behind statement forms proofs lines.old) }
{
    let place = read_place(forms, alloc, lines)?;
    match read_proofs(proofs, alloc, lines) {
        Ok(proofs) => Ok(Boxed::new(alloc, Tree::Writer(statement, place, proofs))?),
        Err(error) => {
            drop(place);
            Err(error)
        }
    }
}

/// Reads what follows the line of a Zero leaf.
#[inline(never)]
fn read_zero(proofs: u32, alloc: Global, lines: &mut Lines) -> Result<Boxed<Tree>, CertError>
    ensures { Reads result lines.new (zero_behind proofs lines.old) }
{
    let proofs = read_proofs(proofs, alloc, lines)?;
    Ok(Boxed::new(alloc, Tree::Zero(proofs))?)
}

/// Reads what follows the line of a Dead leaf.
#[inline(never)]
fn read_dead(alloc: Global, lines: &mut Lines) -> Result<Boxed<Tree>, CertError>
    ensures { Reads result lines.new (dead_behind lines.old) }
{
    let proof = read_proof(NESTING_LIMIT, alloc, lines)?;
    Ok(Boxed::new(alloc, Tree::Dead(proof.into_inner()))?)
}

/// Reads what follows a line of a tree, where the trees of a test nest at most so many levels deep.
#[cycle(read_levels)]
fn read_node(
    levels: u32,
    line: TreeLine,
    alloc: Global,
    lines: &mut Lines,
) -> Result<Boxed<Tree>, CertError>
    ensures { Reads result lines.new (tree_behind (tree_within levels) line lines.old) }
{
    match line {
        TreeLine::Test(form) => match read_levels(levels, alloc, lines) {
            Ok(above) => match read_levels(levels, alloc, lines) {
                Ok(below) => Ok(test(alloc, form, above, below)?),
                Err(error) => {
                    drop(form);
                    drop(above);
                    Err(error)
                }
            },
            Err(error) => {
                drop(form);
                Err(error)
            }
        },
        TreeLine::Divides(form, divisor) => match read_levels(levels, alloc, lines) {
            Ok(above) => match read_levels(levels, alloc, lines) {
                Ok(below) => Ok(divides(alloc, form, divisor, above, below)?),
                Err(error) => {
                    drop(form);
                    drop(above);
                    Err(error)
                }
            },
            Err(error) => {
                drop(form);
                Err(error)
            }
        },
        TreeLine::Writer(statement, forms, proofs) => {
            read_writer(statement, forms, proofs, alloc, lines)
        }
        TreeLine::Zero(proofs) => read_zero(proofs, alloc, lines),
        TreeLine::Dead => read_dead(alloc, lines),
    }
}

/// Reads a tree that nests at most so many levels deep. A level takes two frames of the stack.
#[cycle(read_levels)]
fn read_levels(levels: u32, alloc: Global, lines: &mut Lines) -> Result<Boxed<Tree>, CertError>
    ensures { Reads result lines.new (tree_within levels lines.old) }
{
    let line = read_tree_line(alloc, lines)?;
    if levels == 0 {
        drop(line);
        return Err(CertError::Deep(lines.taken()));
    }
    read_node(levels - 1, line, alloc, lines)
}

/// Reads a tree with its proofs, into a box. A line that begins a tree or a proof nested more than 512 deep is refused as
/// `Deep`, where a tree that stands alone is nested 1 deep and a proof's depth is counted from its own root.
///
/// The lists grow with the lines that come, so a count that a line announces takes no memory by itself. Its stack grows
/// with the nesting, which the limit keeps within 8 MB.
pub fn read_tree(alloc: Global, lines: &mut Lines) -> Result<Boxed<Tree>, CertError>
    ensures { Reads result lines.new (tree_part lines.old) }
{
    read_levels(NESTING_LIMIT, alloc, lines)
}
