ghost use Rattle.std.specs.Prelude.{◌++◌};
ghost use Rattle.text_out.specs.Wrote.{Wrote};
ghost use Rattle.vhdl_text.specs.Expressions.{constant, expr_text, last_operand, read_value, variable};

use crate::literals::write_literal;
use text_out::{TextWriter, write_number};
use wrap_expr::Expr;

/// What an expression names its loops and reads by.
#[derive(Clone, Copy)]
pub enum Naming {
    /// Constant arrays, at the number of the fire.
    Arrays,
    /// Signals.
    Signals,
}

/// Writes an operand behind a text.
#[cycle(write_expr)]
fn write_first<W: TextWriter>(before: &[u8], naming: Naming, a: &Expr, out: &mut W)
    ensures { Wrote W.given out.old out.new (before.now ++ expr_text naming a.now) }
{
    out.put(before);
    write_expr(naming, a, out);
}

/// Writes an operand behind a text, and a parenthesis.
#[cycle(write_expr)]
fn write_last<W: TextWriter>(before: &[u8], naming: Naming, a: &Expr, out: &mut W)
    ensures { Wrote W.given out.old out.new (last_operand before.now (expr_text naming a.now)) }
{
    out.put(before);
    write_expr(naming, a, out);
    out.put(b")");
}

/// Writes an expression. Its stack grows with the depth of the expression.
#[cycle(write_expr)]
pub fn write_expr<W: TextWriter>(naming: Naming, expr: &Expr, out: &mut W)
    ensures { Wrote W.given out.old out.new (expr_text naming expr.now) }
{
    match expr {
        Expr::Const(value) => write_constant(*value, out),
        Expr::Var(number) => write_variable(naming, *number, out),
        Expr::Read(slot) => write_read(naming, *slot, out),
        Expr::Given => out.put(b"given"),
        Expr::Add(a, b) => {
            write_first(b"(", naming, a.get(), out);
            write_last(b" + ", naming, b.get(), out);
        }
        Expr::Sub(a, b) => {
            write_first(b"(", naming, a.get(), out);
            write_last(b" - ", naming, b.get(), out);
        }
        Expr::Mul(a, b) => {
            write_first(b"mul(", naming, a.get(), out);
            write_last(b", ", naming, b.get(), out);
        }
        Expr::Min(a, b) => {
            write_first(b"least(", naming, a.get(), out);
            write_last(b", ", naming, b.get(), out);
        }
        Expr::Max(a, b) => {
            write_first(b"most(", naming, a.get(), out);
            write_last(b", ", naming, b.get(), out);
        }
        Expr::Neg(a) => write_last(b"(zero - ", naming, a.get(), out),
    }
}

fn write_constant<W: TextWriter>(value: i64, out: &mut W)
    ensures { Wrote W.given out.old out.new (constant value) }
{
    out.put(b"signed'(");
    write_literal(value, out);
    out.put(b")");
}

fn write_variable<W: TextWriter>(naming: Naming, number: u32, out: &mut W)
    ensures { Wrote W.given out.old out.new (variable naming number) }
{
    out.put(b"v");
    write_number(number, out);
    match naming {
        Naming::Arrays => out.put(b"(arg(pc))"),
        Naming::Signals => {}
    }
}

fn write_read<W: TextWriter>(naming: Naming, slot: u32, out: &mut W)
    ensures { Wrote W.given out.old out.new (read_value naming slot) }
{
    out.put(b"pick(slot, r");
    write_number(slot, out);
    match naming {
        Naming::Arrays => out.put(b"(arg(pc)))"),
        Naming::Signals => out.put(b"_here)"),
    }
}
