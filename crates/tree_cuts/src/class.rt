ghost use Rattle.std.specs.Prelude.{◌≡◌, ◌≤◌, ◌<◌, ◌^◌, ◌↔◌, ◌==◌, ◌&&◌, ◌||◌, not, ℕ, pos, nat_le, nat_lt, unsigned_abs, length, IfSome, IsTrue};
ghost use Rattle.std.specs.List.{count_by, find, list_all, sum_by};
ghost use Rattle.std.specs.Ordering.{int_eq};
ghost use Rattle.tree_graphs.specs.Class.{count_of as number_count};
ghost use Rattle.tree_sums.specs.Parts.{IsWithin};
ghost use Rattle.tree_cuts.specs.Class.{is_pair as is_pair_of_class, is_single as is_single_of_class, is_stride as is_stride_of_class, stride_count as strides_of, stride_of as stride_of_form, variable_count as variables_of, writes_strides as writes_by_strides, IsInStrideClass};
ghost use Rattle.source_tree.specs.Systems.{writes_from};

use affine_core::Form;
use sanlp::{Access, Nest, Statement};

fn variable_count(form: &Form) -> usize
    ensures { result ≡ variables_of form.now }
{
    form.coefs
        .as_slice()
        .iter()
        .filter(|coef| **coef != 0)
        .count()
}

fn count_of(form: &Form, wanted: i128) -> usize
    ensures { result ≡ number_count wanted form.now }
{
    form.coefs
        .as_slice()
        .iter()
        .filter(|coef| **coef == wanted)
        .count()
}

// A constant, or one variable with a coefficient other than 0, plus a constant.
fn is_single(form: &Form) -> bool
    ensures { result ≡ is_single_of_class form.now }
{
    variable_count(form) <= 1
}

// Two variables, with coefficients 1 and -1.
fn is_pair(form: &Form) -> bool
    ensures { result ≡ is_pair_of_class form.now }
{
    variable_count(form) == 2 && count_of(form, 1) == 1 && count_of(form, -1) == 1
}

fn first_stride(coefs: &[i128]) -> Option<i128>
    ensures { result ≡ find (λ c. nat_lt 1 (unsigned_abs c)) coefs.now }
{
    let Some((coef, coefs)) = coefs.split_first() else {
        return None;
    };
    if coef.unsigned_abs() > 1 {
        return Some(*coef);
    }
    first_stride(coefs)
}

/// The first coefficient outside -1 to 1, if there is one.
pub fn stride_of(form: &Form) -> Option<i128>
    ensures { result ≡ stride_of_form form.now }
{
    first_stride(form.coefs.as_slice())
}

/// The first coefficient outside -1 to 1, if there is one, of a form with small numbers.
pub fn small_stride(form: &Form) -> Option<i128>
    requires { IsWithin (2 ^ 32) form.now }
    ensures value { result ≡ stride_of_form form.now }
    ensures small { IfSome result (λ c. unsigned_abs c ≤ 2 ^ 32) }
{
    stride_of(form)
}

fn are_single(forms: &[Form]) -> bool
    ensures { result ≡ list_all is_single_of_class forms.now }
{
    let Some((form, forms)) = forms.split_first() else {
        return true;
    };
    if is_single(form) {
        return are_single(forms);
    }
    false
}

fn are_rows(rows: &[Form]) -> bool
    ensures { result ≡ list_all (λ row. is_single_of_class row || is_pair_of_class row) rows.now }
{
    let Some((row, rows)) = rows.split_first() else {
        return true;
    };
    if is_single(row) || is_pair(row) {
        return are_rows(rows);
    }
    false
}

// How many of these subscripts have a coefficient outside -1 to 1.
fn stride_count(subscripts: &[Form]) -> usize
    ensures { result ≡ count_by is_stride_of_class subscripts.now }
{
    let Some((form, forms)) = subscripts.split_first() else {
        return 0;
    };
    if stride_of(form).is_some() {
        return 1 + stride_count(forms);
    }
    stride_count(forms)
}

// Whether a write's subscripts and its statement's domain rows have the forms of the class.
fn writes_strides(statement: &Statement, access: &Access) -> bool
    ensures { (u : ℕ) → result ≡ writes_by_strides (record {
      number = u;
      statement = statement.now;
      access = access.now;
    }) }
{
    are_single(access.subscripts.as_slice()) && are_rows(statement.rows.as_slice())
}

// Whether each of these statements that writes the array has the forms of the class, and no more than so many of these
// subscripts have a coefficient outside -1 to 1.
fn all_write_strides(array: u32, statements: &[Statement], left: usize) -> bool
    ensures { (u : ℕ) → result
        ≡ (list_all writes_by_strides (writes_from array u statements.now)
        && nat_le (sum_by strides_of (writes_from array u statements.now)) left) }
{
    let Some((statement, statements)) = statements.split_first() else {
        return true;
    };
    let Some(access) = &statement.write else {
        return all_write_strides(array, statements, left);
    };
    if access.array != array {
        return all_write_strides(array, statements, left);
    }
    if !writes_strides(statement, access) {
        return false;
    }
    let strides = stride_count(access.subscripts.as_slice());
    if strides > left {
        return false;
    }
    all_write_strides(array, statements, left - strides)
}

/// Whether the read is there and is in the stride class: for every statement that writes its array, each write subscript is
/// a constant, or one loop variable with a coefficient other than 0 plus a constant, and each domain row has no variable,
/// one variable with any coefficient, or two variables with coefficients 1 and -1. Over all these statements together, at
/// most 6 write subscripts have a coefficient outside -1 to 1. It takes no memory.
pub fn in_stride_class(nest: &Nest, statement: u32, read: u32) -> bool
    ensures { IsTrue result ↔ IsInStrideClass nest.now statement read }
{
    let Some(reader) = nest.statements.get(statement as usize) else {
        return false;
    };
    let Some(access) = reader.reads.get(read as usize) else {
        return false;
    };
    all_write_strides(access.array, nest.statements.as_slice(), 6)
}
