ghost use Rattle.std.specs.Prelude.{◌≡◌, length};
ghost use Rattle.wrap_expr.specs.Value.{value_of, UsesOnly};

use crate::expr::Expr;

/// The value of an expression, in 64-bit two's complement: sums, differences, products and negation wrap. `at` are the
/// values of the loops, outermost first, `reads` the values read, by slot, and `given` the input value. It takes no
/// memory, and its stack grows with the depth of the expression.
pub fn eval(expr: &Expr, at: &[i64], reads: &[i64], given: i64) -> i64
    requires { UsesOnly (length at.now) (length reads.now) expr.now }
    ensures { result
        ≡ value_of expr.now (record { at = at.now; reads = reads.now; given = given }) }
{
    match expr {
        Expr::Const(value) => *value,
        Expr::Var(number) => at[*number as usize],
        Expr::Read(slot) => reads[*slot as usize],
        Expr::Given => given,
        Expr::Add(a, b) => {
            eval(a.get(), at, reads, given).wrapping_add(eval(b.get(), at, reads, given))
        }
        Expr::Sub(a, b) => {
            eval(a.get(), at, reads, given).wrapping_sub(eval(b.get(), at, reads, given))
        }
        Expr::Mul(a, b) => {
            eval(a.get(), at, reads, given).wrapping_mul(eval(b.get(), at, reads, given))
        }
        Expr::Min(a, b) => eval(a.get(), at, reads, given).min(eval(b.get(), at, reads, given)),
        Expr::Max(a, b) => eval(a.get(), at, reads, given).max(eval(b.get(), at, reads, given)),
        Expr::Neg(a) => eval(a.get(), at, reads, given).wrapping_neg(),
    }
}
