ghost use Rattle.std.specs.Prelude.{◌≡◌, IfOk};

use plain_data::Boxed;
use std::alloc::{AllocError, Global};
use wrap_expr::Expr;

/// An expression again, in a box of its own.
#[cycle(copied)]
fn boxed_copy(alloc: Global, expr: &Expr) -> Result<Boxed<Expr>, AllocError>
    ensures { IfOk result (λ boxed. boxed ≡ expr.now) }
{
    Boxed::new(alloc, copied(alloc, expr)?)
}

/// An expression again. Its stack grows with the depth of the expression.
#[cycle(copied)]
pub(crate) fn copied(alloc: Global, expr: &Expr) -> Result<Expr, AllocError>
    ensures { IfOk result (λ copy. copy ≡ expr.now) }
{
    Ok(match expr {
        Expr::Const(value) => Expr::Const(*value),
        Expr::Var(number) => Expr::Var(*number),
        Expr::Read(slot) => Expr::Read(*slot),
        Expr::Given => Expr::Given,
        Expr::Add(a, b) => Expr::Add(boxed_copy(alloc, a.get())?, boxed_copy(alloc, b.get())?),
        Expr::Sub(a, b) => Expr::Sub(boxed_copy(alloc, a.get())?, boxed_copy(alloc, b.get())?),
        Expr::Mul(a, b) => Expr::Mul(boxed_copy(alloc, a.get())?, boxed_copy(alloc, b.get())?),
        Expr::Min(a, b) => Expr::Min(boxed_copy(alloc, a.get())?, boxed_copy(alloc, b.get())?),
        Expr::Max(a, b) => Expr::Max(boxed_copy(alloc, a.get())?, boxed_copy(alloc, b.get())?),
        Expr::Neg(a) => Expr::Neg(boxed_copy(alloc, a.get())?),
    })
}
