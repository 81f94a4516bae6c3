use plain_data::Boxed;

/// An expression over 64-bit two's complement values.
#[derive(Drop)]
pub enum Expr {
    Const(i64),
    /// The value of the loop of this number, counted from the outermost.
    Var(u32),
    /// The value read at this slot.
    Read(u32),
    /// The input value of a source's point.
    Given,
    Add(Boxed<Expr>, Boxed<Expr>),
    Sub(Boxed<Expr>, Boxed<Expr>),
    Mul(Boxed<Expr>, Boxed<Expr>),
    Min(Boxed<Expr>, Boxed<Expr>),
    Max(Boxed<Expr>, Boxed<Expr>),
    Neg(Boxed<Expr>),
}
