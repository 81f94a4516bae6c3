use plain_data::{Boxed, Items};

/// The tree of a source. Each `token` in it is a token number, counted from 0.
#[derive(Drop)]
pub struct Tree {
    pub declarations: Items<Declaration>,
    pub parts: Items<Part>,
}

/// One declaration: its word and what it declares.
#[derive(Drop)]
pub struct Declaration {
    pub word: DeclWord,
    pub names: Items<Named>,
}

/// The word of a declaration.
#[derive(Clone, Copy, Debug, PartialEq, Eq)]
pub enum DeclWord {
    Param,
    Input,
    Output,
    Both,
    Var,
}

/// A declared name with its extents; a parameter has none.
#[derive(Drop)]
pub struct Named {
    pub name: Name,
    pub extents: Items<Operand>,
}

/// A name: its text and its token.
#[derive(Drop)]
pub struct Name {
    pub text: Items<u8>,
    pub token: u32,
}

/// A statement of the source.
#[derive(Drop)]
#[cycle(part)]
pub enum Part {
    For {
        name: Name,
        first: Operand,
        second: Name,
        inclusive: bool,
        bound: Operand,
        third: Name,
        step: Step,
        body: Boxed<Part>,
    },
    If {
        cond: Items<Comparison>,
        body: Boxed<Part>,
        other: Option<Other>,
    },
    Assign {
        target: Name,
        subscripts: Items<Operand>,
        value: Operand,
    },
    Block(Items<Part>),
}

/// What a loop's variable grows by: one, written `++`, or the value behind `+=`, with the token of `+=`.
#[derive(Drop)]
pub enum Step {
    One,
    By { token: u32, value: Operand },
}

/// An `else` with its token.
#[derive(Drop)]
#[cycle(part)]
pub struct Other {
    pub token: u32,
    pub body: Boxed<Part>,
}

/// A comparison, with the token of its sign.
#[derive(Drop)]
pub struct Comparison {
    pub left: Operand,
    pub sign: CompareSign,
    pub token: u32,
    pub right: Operand,
}

/// The sign of a comparison.
#[derive(Clone, Copy, Debug, PartialEq, Eq)]
pub enum CompareSign {
    Less,
    LessEq,
    Greater,
    GreaterEq,
    Equal,
}

/// An expression as it is written, without its parentheses.
#[derive(Drop)]
pub enum Operand {
    Number {
        value: i64,
        token: u32,
    },
    Access {
        name: Name,
        subscripts: Items<Operand>,
    },
    Binary {
        sign: BinarySign,
        token: u32,
        left: Boxed<Operand>,
        right: Boxed<Operand>,
    },
    Neg {
        token: u32,
        inner: Boxed<Operand>,
    },
    /// Of at least two arguments.
    Min {
        token: u32,
        list: Items<Operand>,
    },
    /// Of at least two arguments.
    Max {
        token: u32,
        list: Items<Operand>,
    },
}

/// The sign of a sum, a difference or a product.
#[derive(Clone, Copy, Debug, PartialEq, Eq)]
pub enum BinarySign {
    Add,
    Sub,
    Mul,
}
