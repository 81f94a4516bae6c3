ghost use Rattle.std.specs.Prelude.{◌≡◌, ◌≤◌, ◌<◌, ◌+◌, ◌∷◌, [], ◌↔◌, length, nat_le, IsTrue, Some, IfOk, OnOk};
ghost use Rattle.std.specs.List.{list_all};
ghost use Rattle.sanlp.specs.Access.{read_count};
ghost use Rattle.source_check.specs.Paths.{context_at, context_of, further_rows, map_systems, writes_before, IsRead};
ghost use Rattle.source_check.specs.Tests.{after_made};
ghost use Rattle.source_check.specs.Verdict.{check_from, leaf_end as end_of_leaf, leaf_refusal, verdict, writer_refusal};
ghost use Rattle.source_tree.specs.Checked.{IsChecked};
ghost use Rattle.source_tree.specs.Exact.{IsExact};
ghost use Rattle.source_tree.specs.Systems.{dead_systems, every, named_write, read_at, reader_place, write_systems, writer_systems, zero_systems, Context, Occurrence};
ghost use Rattle.source_tree.specs.Walk.{are_over};
ghost use Rattle.source_tree.specs.References.{occurrence_of};

use crate::make::Space;
use crate::path::Path;
use crate::reference::{After, Read, order_of, write_of};
use crate::systems::{context, copy, place, with_same, write_at};
use crate::tested::{
    Leaf, Tested, leaf_rule, refusal, test, test_both, test_cell, test_levels, test_outside,
};
use crate::verdict::{Rule, TreeVerdict};
use affine_core::{Form, KeptForm, whole_forms};
use int_polyhedra::Proof;
use sanlp::{Nest, Statement};
use source_tree::{Reference, Tree};
use std::alloc::{AllocError, Global};

/// Whether the tree is checked for this read of this statement. It is where each of its leaves keeps to the rules and each
/// of their proofs refutes its system: then the tree gives the last writer of what is read at every point of the reader,
/// or zero where there is none, whatever the size of the nest. Else the first leaf that breaks a rule decides, and then the
/// least rule.
///
/// Its stack grows with the depth of the tree and that of a proof; the text of a certificate has at most 512 of each.
pub fn check_tree(
    alloc: Global,
    nest: &Nest,
    statement: u32,
    read: u32,
    tree: &Tree,
) -> Result<TreeVerdict, AllocError>
    requires statement { statement < length nest.now.statements }
    requires read { read < read_count nest.now statement }
    ensures exact { IfOk result
        (λ v. (r : Occurrence) → read_at nest.now statement read ≡ Some r
        → v ≡ verdict nest.now r tree.now) }
    ensures checked { IfOk result
        (λ v. (v ≡ TreeVerdict.Accepted) ↔ IsChecked nest.now statement read tree.now) }
    ensures sound { IfOk result
        (λ v. v ≡ TreeVerdict.Accepted → IsExact nest.now statement read tree.now) }
{
    let reader = nest.statement(statement);
    let vars = reader.loops.len();
    let place = place(alloc, 0, vars)?;
    let read = Read {
        alloc,
        nest,
        reference: Reference {
            number: statement,
            statement: reader,
            access: &reader.reads.as_slice()[read as usize],
        },
        place: place.as_slice(),
    };
    match check_part(tree, &read, &Path::Root, vars as u32, 0)? {
        Ok(_) => Ok(TreeVerdict::Accepted),
        Err(rule) => Ok(TreeVerdict::Refused(rule)),
    }
}

// The part of a tree at the end of a path, with so many variables, whose first leaf has this number: the number of the
// next leaf, or the rule that refuses one.
fn check_part(
    tree: &Tree,
    read: &Read,
    path: &Path,
    vars: u32,
    leaf: u64,
) -> Result<Result<u64, Rule>, AllocError>
    requires read { IsRead read.now }
    requires few { vars ≤ length read.now.reference.statement.now.loops + 6 }
    ensures { IfOk result
        (λ end. (c : Context) → c ≡ context_of read.now.reference vars path.now
        → end ≡ check_from read.now.nest.now (occurrence_of read.now.reference) tree.now leaf c) }
{
    match tree {
        Tree::Test(form, yes, no) => {
            if form.variables() != vars as usize {
                return Ok(Err(Rule::BadForm(leaf)));
            }
            let above = Path::Test(&*path, form, true);
            match check_part(yes.get(), read, &above, vars, leaf)? {
                Ok(next) => {
                    let below = Path::Test(&*path, form, false);
                    check_part(no.get(), read, &below, vars, next)
                }
                Err(rule) => Ok(Err(rule)),
            }
        }
        Tree::Divides(form, divisor, yes, no) => {
            let divisor = divisor.get();
            let most = read.reference.statement.loops.len() + 6;
            if form.variables() != vars as usize || divisor < 2 || vars as usize >= most {
                return Ok(Err(Rule::BadForm(leaf)));
            }
            let above = Path::Divides(&*path, form, divisor, vars, true);
            match check_part(yes.get(), read, &above, vars + 1, leaf)? {
                Ok(next) => {
                    let below = Path::Divides(&*path, form, divisor, vars, false);
                    check_part(no.get(), read, &below, vars + 1, next)
                }
                Err(rule) => Ok(Err(rule)),
            }
        }
        Tree::Writer(statement, map, proofs) => {
            let at = Leaf {
                number: leaf,
                vars,
                path: &*path,
                proofs: proofs.as_slice(),
            };
            let rule = check_writer(read, &at, *statement, map.as_slice())?;
            Ok(leaf_end(leaf, rule))
        }
        Tree::Zero(proofs) => {
            let at = Leaf {
                number: leaf,
                vars,
                path: &*path,
                proofs: proofs.as_slice(),
            };
            let rule = check_zero(read, &at)?;
            Ok(leaf_end(leaf, rule))
        }
        Tree::Dead(proof) => {
            let rule = check_dead(read, path, vars, leaf, proof)?;
            Ok(leaf_end(leaf, rule))
        }
    }
}

fn leaf_end(leaf: u64, rule: Option<Rule>) -> Result<u64, Rule>
    ensures { result ≡ end_of_leaf leaf rule }
{
    match rule {
        Some(rule) => Err(rule),
        None => Ok(leaf.saturating_add(1)),
    }
}

// A Dead leaf.
#[inline(never)]
fn check_dead(
    read: &Read,
    path: &Path,
    vars: u32,
    leaf: u64,
    proof: &Proof,
) -> Result<Option<Rule>, AllocError>
    requires { vars ≤ 12 }
    ensures { IfOk result
        (λ rule. (c : Context) → c ≡ context_of read.now.reference vars path.now
        → rule ≡ leaf_refusal leaf (dead_systems c) (proof.now ∷ [])) }
{
    let space = Space {
        alloc: read.alloc,
        vars,
    };
    let rows = read.reference.statement.rows.as_slice();
    let system = context(path, &space, rows)?;
    match refusal(&space, &system, proof) {
        Some(reason) => Ok(Some(Rule::Proof(leaf, 0, reason))),
        None => Ok(None),
    }
}

// A Zero leaf.
#[inline(never)]
fn check_zero(read: &Read, leaf: &Leaf) -> Result<Option<Rule>, AllocError>
    requires read { IsRead read.now }
    requires few { leaf.now.vars ≤ 12 }
    ensures { IfOk result
        (λ rule. (c : Context) → c ≡ context_at read.now leaf.now
        → rule ≡ leaf_refusal leaf.now.number
        (zero_systems read.now.nest.now (occurrence_of read.now.reference) every c)
        leaf.now.proofs.now) }
{
    let mut tested = Tested {
        count: 0,
        rule: None,
    };
    let statements = read.nest.statements.as_slice();
    test_writes(statements, 0, read, leaf, &After::Nothing, &mut tested)?;
    Ok(leaf_rule(leaf, tested))
}

// The systems of the writes of these statements before the read.
fn test_writes(
    statements: &[Statement],
    number: u32,
    read: &Read,
    leaf: &Leaf,
    after: &After,
    tested: &mut Tested,
) -> Result<(), AllocError>
    requires read { IsRead read.now }
    requires few { leaf.now.vars ≤ 12 }
    requires numbers { number + length statements.now ≤ 64 }
    requires short { IsTrue (list_all (λ s. nat_le (length s.loops) 6) statements.now) }
    ensures { OnOk result
        ((c : Context) → c ≡ context_at read.now leaf.now
        → tested.new ≡ after_made leaf.now tested.old
        (writes_before (occurrence_of read.now.reference) c after.now number statements.now)) }
{
    let Some((statement, statements)) = statements.split_first() else {
        return Ok(());
    };
    let array = read.reference.access.array;
    let Some(writer) = write_of(array, number, statement) else {
        return test_writes(statements, number + 1, read, leaf, after, tested);
    };
    test_write(read, leaf, &writer, after, tested)?;
    test_writes(statements, number + 1, read, leaf, after, tested)
}

// The systems of a write before the read.
fn test_write(
    read: &Read,
    leaf: &Leaf,
    writer: &Reference,
    after: &After,
    tested: &mut Tested,
) -> Result<(), AllocError>
    requires read { IsRead read.now }
    requires few { leaf.now.vars ≤ 12 }
    requires short { length writer.now.statement.now.loops ≤ 6 }
    ensures { OnOk result
        ((c : Context) → c ≡ context_at read.now leaf.now
        → tested.new ≡ after_made leaf.now tested.old
        (write_systems (occurrence_of read.now.reference) every c (further_rows c after.now)
        (occurrence_of writer.now))) }
{
    let depth = writer.statement.loops.len();
    let space = Space {
        alloc: read.alloc,
        vars: leaf.vars + depth as u32,
    };
    let point = place(read.alloc, leaf.vars, depth)?;
    let point = point.as_slice();
    let system = write_at(&space, &read.reference, leaf.path, writer, point)?;
    let before = order_of(writer, point, &read.reference, read.place);
    match after {
        After::Nothing => test_levels(&space, leaf, system, &before, tested),
        After::Point(named, map) => {
            let further = order_of(named, map, writer, point);
            test_both(&space, leaf, system, &before, &further, tested)
        }
    }
}

// Whether each form of a map has as many variables as there are.
fn map_is_over(vars: u32, map: &[KeptForm]) -> bool
    ensures { result ≡ are_over vars map.now }
{
    map.iter().all(|form| form.variables() == vars as usize)
}

// A Writer leaf.
#[inline(never)]
fn check_writer(
    read: &Read,
    leaf: &Leaf,
    number: u32,
    map: &[KeptForm],
) -> Result<Option<Rule>, AllocError>
    requires read { IsRead read.now }
    requires few { leaf.now.vars ≤ 12 }
    ensures { IfOk result
        (λ rule. (c : Context) → c ≡ context_at read.now leaf.now
        → rule ≡ writer_refusal read.now.nest.now (occurrence_of read.now.reference)
        leaf.now.number c number map.now leaf.now.proofs.now) }
{
    if !map_is_over(leaf.vars, map) {
        return Ok(Some(Rule::BadForm(leaf.number)));
    }
    let Some(statement) = read.nest.statements.get(number as usize) else {
        return Ok(Some(Rule::NoWriter(leaf.number)));
    };
    if map.len() != statement.loops.len() {
        return Ok(Some(Rule::BadForm(leaf.number)));
    }
    let array = read.reference.access.array;
    let Some(writer) = write_of(array, number, statement) else {
        return Ok(Some(Rule::NoWriter(leaf.number)));
    };
    let forms = whole_forms(read.alloc, map)?;
    check_map(read, leaf, &writer, forms.as_slice())
}

// A Writer leaf whose statement writes the array.
fn check_map(
    read: &Read,
    leaf: &Leaf,
    writer: &Reference,
    map: &[Form],
) -> Result<Option<Rule>, AllocError>
    requires read { IsRead read.now }
    requires few { leaf.now.vars ≤ 12 }
    requires writer { named_write read.now.nest.now (occurrence_of read.now.reference)
        writer.now.number ≡ Some (occurrence_of writer.now) }
    ensures { IfOk result
        (λ rule. (c : Context) → c ≡ context_at read.now leaf.now
        → rule ≡ leaf_refusal leaf.now.number
        (writer_systems read.now.nest.now (occurrence_of read.now.reference) every c
        (occurrence_of writer.now) map.now) leaf.now.proofs.now) }
{
    let mut tested = Tested {
        count: 0,
        rule: None,
    };
    test_map(read, leaf, writer, map, &mut tested)?;
    let after = After::Point(&*writer, map);
    let others = read.nest.statements.as_slice();
    test_writes(others, 0, read, leaf, &after, &mut tested)?;
    Ok(leaf_rule(leaf, tested))
}

// The systems that say that the point of a Writer leaf is outside the domain of its statement, writes another cell, or
// isn't before the read.
fn test_map(
    read: &Read,
    leaf: &Leaf,
    writer: &Reference,
    map: &[Form],
    tested: &mut Tested,
) -> Result<(), AllocError>
    requires read { IsRead read.now }
    requires few { leaf.now.vars ≤ 12 }
    ensures { OnOk result
        ((c : Context) → c ≡ context_at read.now leaf.now
        → tested.new ≡ after_made leaf.now tested.old
        (map_systems (occurrence_of read.now.reference) c (occurrence_of writer.now) map.now)) }
{
    let space = Space {
        alloc: read.alloc,
        vars: leaf.vars,
    };
    let reader = &read.reference;
    let system = context(leaf.path, &space, reader.statement.rows.as_slice())?;
    let rows = writer.statement.rows.as_slice();
    test_outside(&space, leaf, &system, rows, map, tested)?;
    let writes = writer.access.subscripts.as_slice();
    let reads = reader.access.subscripts.as_slice();
    test_cell(&space, leaf, &system, writes, reads, map, tested)?;
    let after = order_of(reader, read.place, writer, map);
    test_levels(&space, leaf, copy(read.alloc, &system)?, &after, tested)?;
    if writer.number != reader.number {
        return Ok(());
    }
    test(
        &space,
        leaf,
        &with_same(&space, system, read.place, map)?,
        tested,
    );
    Ok(())
}
