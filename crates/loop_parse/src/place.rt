use crate::expression::Expression;
use loop_grammar::{
    CompareSign, Comparison, DeclWord, Declaration, Name, Named, Operand, Part, Step,
};
use plain_data::Items;

/// A `for` up to its second `;`.
#[derive(Drop)]
pub(crate) struct Bounds {
    pub(crate) name: Name,
    pub(crate) first: Operand,
    pub(crate) second: Name,
    pub(crate) inclusive: bool,
    pub(crate) bound: Operand,
}

/// A statement that waits for one inside it.
#[derive(Drop)]
pub(crate) enum Enclosing {
    /// A block, with the parts that stand before it in the list round it.
    Block(Items<Part>),
    For {
        bounds: Bounds,
        third: Name,
        step: Step,
    },
    If(Items<Comparison>),
    Else {
        cond: Items<Comparison>,
        block: Items<Part>,
        token: u32,
    },
}

/// A place in the brackets of a `for`.
#[derive(Drop)]
pub(crate) enum ForPlace {
    /// Before `(`.
    Open,
    /// Before `int` or the first name.
    Int,
    /// After `int`.
    Name,
    /// Before `=`.
    Assign(Name),
    /// Before the second name.
    Second {
        name: Name,
        first: Operand,
    },
    /// Before the bound's sign.
    Compare {
        name: Name,
        first: Operand,
        second: Name,
    },
    /// Before the third name or `++`.
    Step(Bounds),
    /// Between the third name and `++` or `+=`.
    StepSign {
        bounds: Bounds,
        third: Name,
    },
    /// Between `++` and the third name.
    Third(Bounds),
    /// Before the `)` after a step by `++`.
    Close {
        bounds: Bounds,
        third: Name,
    },
}

/// A place in a declaration, after the names that it has declared so far.
#[derive(Drop)]
pub(crate) enum DeclarePlace {
    /// Before a parameter.
    Parameter(Items<Named>),
    /// After a parameter.
    AfterParameter(Items<Named>),
    /// Before an array.
    Array {
        word: DeclWord,
        names: Items<Named>,
    },
    /// After an array and these extents.
    AfterArray {
        word: DeclWord,
        names: Items<Named>,
        name: Name,
        extents: Items<Operand>,
    },
}

/// What an expression is a part of.
#[derive(Drop)]
pub(crate) enum Slot {
    /// An array's next extent.
    Extent {
        word: DeclWord,
        names: Items<Named>,
        name: Name,
        extents: Items<Operand>,
    },
    /// The first value of a `for`.
    First(Name),
    /// The bound of a `for`.
    Bound {
        name: Name,
        first: Operand,
        second: Name,
        inclusive: bool,
    },
    /// What a `for` steps by, behind `+=` with this token.
    Step {
        bounds: Bounds,
        third: Name,
        token: u32,
    },
    /// The left side of a comparison, after these.
    Left(Items<Comparison>),
    /// The right side of a comparison.
    Right {
        cond: Items<Comparison>,
        left: Operand,
        sign: CompareSign,
        token: u32,
    },
    /// A subscript of an assignment's target.
    Subscript {
        name: Name,
        subscripts: Items<Operand>,
    },
    /// The value that an assignment gives to its target.
    Assigned {
        name: Name,
        subscripts: Items<Operand>,
    },
}

/// A place in a source at which the next token stands in a statement or a declaration itself.
#[derive(Drop)]
pub(crate) enum Place {
    /// Before a declaration, a statement or the end.
    Declaration,
    /// In a declaration.
    Declaring(DeclarePlace),
    /// Before a statement, or the end of the innermost block.
    Statement,
    /// After a block, which `else` may follow.
    AfterBlock(Items<Part>),
    /// In the brackets of a `for`.
    For(ForPlace),
    /// Between `if` and `(`.
    If,
    /// After the target of an assignment and these subscripts.
    Target {
        name: Name,
        subscripts: Items<Operand>,
    },
}

/// How far the reading of a source has come.
#[derive(Drop)]
pub(crate) enum Position {
    At(Place),
    /// In an expression.
    Within { slot: Slot, expression: Expression },
}

/// What was read of a source round a place: its declarations, the statements that are open, the innermost last, and the
/// parts before the place in the innermost list.
#[derive(Drop)]
pub(crate) struct Nesting {
    pub(crate) declarations: Items<Declaration>,
    pub(crate) enclosing: Items<Enclosing>,
    pub(crate) parts: Items<Part>,
}

/// A source that is being read.
#[derive(Drop)]
pub(crate) struct Reader {
    pub(crate) nesting: Nesting,
    pub(crate) position: Position,
}
