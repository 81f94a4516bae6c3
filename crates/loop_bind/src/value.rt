ghost use Rattle.std.specs.Prelude.{◌≡◌, ◌≤◌, ◌++◌, IfOk, OnOk, length, map};
ghost use Rattle.loop_bind.specs.Following.{Reads};
ghost use Rattle.loop_bind.specs.Forms.{form_over};
ghost use Rattle.loop_bind.specs.Judging.{findings_of};
ghost use Rattle.loop_bind.specs.Names.{value_named};
ghost use Rattle.loop_bind.specs.Reasons.{least_from};
ghost use Rattle.loop_bind.specs.Values.{valued, subscripts_over, access_findings, name_value, with_multiple, form_expr, binary_expr, list_value, extreme_expr};

use crate::affine::Affine;
use crate::error::{BindError, note};
use crate::judge::{forms, judge_all, over_all};
use crate::scope::{Place, Scope, What};
use affine_core::Form;
use loop_grammar::{BinarySign, Name, Operand};
use plain_data::{Boxed, Items};
use sanlp::Access;
use std::alloc::{AllocError, Global};
use wrap_expr::Expr;

/// The lesser or the greater of values.
#[derive(Clone, Copy, Debug, PartialEq, Eq)]
pub enum Extreme {
    Least,
    Greatest,
}

/// The subscripts of an access inside so many loops. Each reason that stands in them is noted.
pub(crate) fn subscripts(
    alloc: Global,
    scope: &Scope,
    depth: usize,
    operands: &[Operand],
    least: &mut Option<BindError>,
) -> Result<Items<Form>, AllocError>
    requires { depth ≤ 6 }
    ensures forms { IfOk result (λ forms. forms ≡ subscripts_over depth scope.now operands.now) }
    ensures least { OnOk result (least.new ≡ least_from least.old
        (findings_of Place.Body scope.now operands.now)) }
{
    let forms = forms(alloc, scope, Place::Body, operands, least)?;
    over_all(alloc, forms.as_slice(), depth)
}

/// Notes what is wrong with an access by its name and its number of subscripts.
pub(crate) fn note_access(
    token: u32,
    what: Option<What>,
    count: usize,
    least: &mut Option<BindError>,
)
    ensures { least.new ≡ least_from least.old (access_findings token what count) }
{
    match what {
        Some(What::Array(_, extents)) => {
            if count != extents {
                note(least, BindError::WrongCount(token));
            }
        }
        _ => note(least, BindError::UnknownName(token)),
    }
}

// The access of this array, which is the next read.
#[inline(never)]
fn read(
    alloc: Global,
    scope: &Scope,
    depth: usize,
    token: u32,
    array: u32,
    extents: usize,
    operands: &[Operand],
    reads: &mut Items<Access>,
    least: &mut Option<BindError>,
) -> Result<Expr, AllocError>
    requires { depth ≤ 6 }
    ensures { IfOk result (λ e. Reads e reads.old reads.new least.old least.new
        (name_value depth scope.now token (Some (What.Array array extents)) operands.now
        (length reads.old))) }
{
    note_access(
        token,
        Some(What::Array(array, extents)),
        operands.len(),
        least,
    );
    let slot = reads.len();
    if slot == 8 {
        note(least, BindError::TooManyReads(token));
    }
    let subscripts = subscripts(alloc, scope, depth, operands, least)?;
    reads.push(Access { array, subscripts })?;
    let slot = u32::try_from(slot).or(Err(AllocError))?;
    Ok(Expr::Read(slot))
}

// The sum of what stands before and a multiple of a variable, unless the coefficient is 0.
fn plus_multiple(alloc: Global, before: Expr, variable: u32, coef: i64) -> Result<Expr, AllocError>
    ensures { IfOk result (λ e. e ≡ with_multiple before variable coef) }
{
    if coef == 0 {
        return Ok(before);
    }
    match binary(
        alloc,
        BinarySign::Mul,
        Expr::Const(coef),
        Expr::Var(variable),
    ) {
        Ok(multiple) => binary(alloc, BinarySign::Add, before, multiple),
        Err(error) => {
            drop(before);
            Err(error)
        }
    }
}

// The expression of a form over so many loops.
#[inline(never)]
fn form_expr(alloc: Global, form: &Affine, depth: usize) -> Result<Expr, AllocError>
    requires { depth ≤ 6 }
    ensures { IfOk result (λ e. e ≡ form_expr (form_over depth form.now)) }
{
    let mut expr = Expr::Const(form.constant);
    let mut variable = 0;
    for coef in &form.coefs[..depth] {
        expr = plus_multiple(alloc, expr, variable, *coef)?;
        variable += 1;
    }
    Ok(expr)
}

// A name in a right side.
#[inline(never)]
fn name_expr(
    alloc: Global,
    scope: &Scope,
    depth: usize,
    name: &Name,
    operands: &[Operand],
    reads: &mut Items<Access>,
    least: &mut Option<BindError>,
) -> Result<Expr, AllocError>
    requires { depth ≤ 6 }
    ensures { IfOk result (λ e. Reads e reads.old reads.new least.old least.new
        (name_value depth scope.now name.now.token (value_named scope.now name.now.text)
        operands.now (length reads.old))) }
{
    match scope.find(name.text.as_slice()) {
        Some(What::Array(array, extents)) => read(
            alloc, scope, depth, name.token, array, extents, operands, reads, least,
        ),
        Some(What::Loop(number)) if operands.is_empty() => Ok(Expr::Var(number)),
        Some(What::Progression(form)) if operands.is_empty() => form_expr(alloc, &form, depth),
        Some(What::Parameter(value)) if operands.is_empty() => Ok(Expr::Const(value)),
        _ => {
            note(least, BindError::UnknownName(name.token));
            judge_all(scope, Place::Body, operands, least);
            Ok(Expr::Const(0))
        }
    }
}

// Two expressions, each held by a pointer.
fn both(alloc: Global, left: Expr, right: Expr) -> Result<(Boxed<Expr>, Boxed<Expr>), AllocError>
    ensures { IfOk result (λ both. both ≡ (left, right)) }
{
    match Boxed::new(alloc, left) {
        Ok(left) => match Boxed::new(alloc, right) {
            Ok(right) => Ok((left, right)),
            Err(error) => {
                drop(left);
                Err(error)
            }
        },
        Err(error) => {
            drop(right);
            Err(error)
        }
    }
}

#[inline(never)]
fn binary(alloc: Global, sign: BinarySign, left: Expr, right: Expr) -> Result<Expr, AllocError>
    ensures { IfOk result (λ e. e ≡ binary_expr sign left right) }
{
    let (left, right) = both(alloc, left, right)?;
    Ok(match sign {
        BinarySign::Add => Expr::Add(left, right),
        BinarySign::Sub => Expr::Sub(left, right),
        BinarySign::Mul => Expr::Mul(left, right),
    })
}

#[inline(never)]
fn extreme_of(alloc: Global, which: Extreme, left: Expr, right: Expr) -> Result<Expr, AllocError>
    ensures { IfOk result (λ e. e ≡ extreme_expr which left right) }
{
    let (left, right) = both(alloc, left, right)?;
    Ok(match which {
        Extreme::Least => Expr::Min(left, right),
        Extreme::Greatest => Expr::Max(left, right),
    })
}

/// The expression of an operand of a right side. Its reads come to the end of `reads`, and each
/// reason that stands in it is noted.
#[cycle(value)]
pub(crate) fn value(
    alloc: Global,
    scope: &Scope,
    depth: usize,
    operand: &Operand,
    reads: &mut Items<Access>,
    least: &mut Option<BindError>,
) -> Result<Expr, AllocError>
    requires { depth ≤ 6 }
    ensures { IfOk result (λ e. Reads e reads.old reads.new least.old least.new
        (valued depth scope.now operand.now (length reads.old))) }
{
    match operand {
        Operand::Number { value, .. } => Ok(Expr::Const(*value)),
        Operand::Access { name, subscripts } => {
            name_expr(
                alloc,
                scope,
                depth,
                name,
                subscripts.as_slice(),
                reads,
                least,
            )
        }
        Operand::Binary {
            sign,
            left,
            right,
            ..
        } => {
            let left = value(alloc, scope, depth, left.get(), reads, least)?;
            match value(alloc, scope, depth, right.get(), reads, least) {
                Ok(right) => binary(alloc, *sign, left, right),
                Err(error) => {
                    drop(left);
                    Err(error)
                }
            }
        }
        Operand::Neg { inner, .. } => {
            let inner = value(alloc, scope, depth, inner.get(), reads, least)?;
            Ok(Expr::Neg(Boxed::new(alloc, inner)?))
        }
        Operand::Min { list, .. } => {
            value_all(
                alloc,
                scope,
                depth,
                Extreme::Least,
                list.as_slice(),
                reads,
                least,
            )
        }
        Operand::Max { list, .. } => {
            value_all(
                alloc,
                scope,
                depth,
                Extreme::Greatest,
                list.as_slice(),
                reads,
                least,
            )
        }
    }
}

// The least or the greatest of operands, joined from the left.
#[cycle(value)]
fn value_all(
    alloc: Global,
    scope: &Scope,
    depth: usize,
    which: Extreme,
    operands: &[Operand],
    reads: &mut Items<Access>,
    least: &mut Option<BindError>,
) -> Result<Expr, AllocError>
    requires { depth ≤ 6 }
    ensures { IfOk result (λ e. Reads e reads.old reads.new least.old least.new
        (list_value (extreme_expr which) (map (valued depth scope.now) operands.now)
        (length reads.old))) }
{
    let Some((first, others)) = operands.split_first() else {
        return Ok(Expr::Const(0));
    };
    let mut all = value(alloc, scope, depth, first, reads, least)?;
    for operand in others {
        let Ok(next) = value(alloc, scope, depth, operand, reads, least) else {
            drop(all);
            return Err(AllocError);
        };
        all = extreme_of(alloc, which, all, next)?;
    }
    Ok(all)
}
