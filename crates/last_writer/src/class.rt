ghost use Rattle.std.specs.Prelude.{◌≡◌, ◌<◌, ◌↔◌, ◌||◌, ℕ, pos, negsuc, nat_le, length, IsTrue};
ghost use Rattle.std.specs.List.{count_by, list_all};
ghost use Rattle.std.specs.Ordering.{int_eq};
ghost use Rattle.tree_graphs.specs.Class.{IsInDifferenceClass, is_difference as is_row_of_class, is_shift as is_subscript_of_class, writes_differences as writes_by_differences};
ghost use Rattle.sanlp.specs.Access.{read_count};
ghost use Rattle.source_tree.specs.Systems.{writes_from};

use affine_core::Form;
use sanlp::{Access, Nest, Statement};

fn count_of(coefs: &[i128], wanted: i128) -> usize
    ensures { result ≡ count_by (λ c. int_eq c wanted) coefs.now }
{
    coefs.iter().filter(|coef| **coef == wanted).count()
}

// Whether no more than one coefficient is this number.
fn is_rare(coefs: &[i128], wanted: i128) -> bool
    ensures { result ≡ nat_le (count_by (λ c. int_eq c wanted) coefs.now) 1 }
{
    count_of(coefs, wanted) <= 1
}

// Whether each coefficient is 0 or 1.
fn are_bits(coefs: &[i128]) -> bool
    ensures { result ≡ list_all (λ c. int_eq c (pos 0) || int_eq c (pos 1)) coefs.now }
{
    let Some((coef, coefs)) = coefs.split_first() else {
        return true;
    };
    if *coef == 0 || *coef == 1 {
        return are_bits(coefs);
    }
    false
}

// Whether each coefficient is 0, 1 or -1.
fn are_trits(coefs: &[i128]) -> bool
    ensures { result ≡ list_all
        (λ c. int_eq c (pos 0) || (int_eq c (pos 1) || int_eq c (negsuc 0))) coefs.now }
{
    let Some((coef, coefs)) = coefs.split_first() else {
        return true;
    };
    if *coef == 0 || *coef == 1 || *coef == -1 {
        return are_trits(coefs);
    }
    false
}

// A constant, or one variable with coefficient 1 plus a constant.
fn is_shift(form: &Form) -> bool
    ensures { result ≡ is_subscript_of_class form.now }
{
    let coefs = form.coefs.as_slice();
    if !are_bits(coefs) {
        return false;
    }
    is_rare(coefs, 1)
}

// No variable, one with coefficient 1 or -1, or two with coefficients 1 and -1.
fn is_difference(form: &Form) -> bool
    ensures { result ≡ is_row_of_class form.now }
{
    let coefs = form.coefs.as_slice();
    if !are_trits(coefs) {
        return false;
    }
    if !is_rare(coefs, 1) {
        return false;
    }
    is_rare(coefs, -1)
}

fn are_shifts(forms: &[Form]) -> bool
    ensures { result ≡ list_all is_subscript_of_class forms.now }
{
    let Some((form, forms)) = forms.split_first() else {
        return true;
    };
    if is_shift(form) {
        return are_shifts(forms);
    }
    false
}

fn are_differences(rows: &[Form]) -> bool
    ensures { result ≡ list_all is_row_of_class rows.now }
{
    let Some((row, rows)) = rows.split_first() else {
        return true;
    };
    if is_difference(row) {
        return are_differences(rows);
    }
    false
}

// Whether a write's subscripts are shifts, and its statement's domain rows differences.
fn writes_differences(statement: &Statement, access: &Access) -> bool
    ensures { (u : ℕ) → result ≡ writes_by_differences (record {
      number = u;
      statement = statement.now;
      access = access.now;
    }) }
{
    if !are_shifts(access.subscripts.as_slice()) {
        return false;
    }
    are_differences(statement.rows.as_slice())
}

// Whether each of these statements that writes the array does so by differences.
fn all_write_differences(array: u32, statements: &[Statement]) -> bool
    ensures { (u : ℕ) → result
        ≡ list_all writes_by_differences (writes_from array u statements.now) }
{
    let Some((statement, statements)) = statements.split_first() else {
        return true;
    };
    let Some(access) = &statement.write else {
        return all_write_differences(array, statements);
    };
    if access.array != array {
        return all_write_differences(array, statements);
    }
    if !writes_differences(statement, access) {
        return false;
    }
    all_write_differences(array, statements)
}

/// Whether the read is in the difference class: for every statement that writes its array, each
/// write subscript is a constant, or one loop variable with coefficient 1 plus a constant, and each
/// domain row has no variable, one variable with coefficient 1 or -1, or two variables with
/// coefficients 1 and -1. It takes no memory.
pub fn in_difference_class(nest: &Nest, statement: u32, read: u32) -> bool
    requires statement { statement < length nest.now.statements }
    requires read { read < read_count nest.now statement }
    ensures { IsTrue result ↔ IsInDifferenceClass nest.now statement read }
{
    let reader = nest.statement(statement);
    let array = reader.reads.as_slice()[read as usize].array;
    all_write_differences(array, nest.statements.as_slice())
}
