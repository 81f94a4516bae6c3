ghost use Rattle.sanlp.specs.WellFormed.{IsWellFormed};

use affine_core::{Form, Row, Vector};
use plain_data::Items;
use wrap_expr::Expr;

/// What a declared array is for.
#[derive(Clone, Copy, Debug, PartialEq, Eq)]
pub enum Kind {
    Input,
    Output,
    Both,
    Var,
}

impl Kind {
    ghost use Rattle.std.specs.Prelude.{◌≡◌};
    ghost use Rattle.sanlp.specs.Cells.{is_input as is_read, is_output as is_printed};

    /// Whether arrays of this kind are read from data before the body.
    pub fn is_input(self) -> bool
        ensures { result ≡ is_read self }
    {
        matches!(self, Kind::Input | Kind::Both)
    }

    /// Whether arrays of this kind are printed after the body.
    pub fn is_output(self) -> bool
        ensures { result ≡ is_printed self }
    {
        matches!(self, Kind::Output | Kind::Both)
    }
}

/// A declared array. An extent below 0 counts as 0.
#[derive(Drop)]
pub struct ArrayDecl {
    pub name: Items<u8>,
    pub kind: Kind,
    pub extents: Items<i64>,
}

/// An access to the cell of an array whose subscripts are affine in the loops round it.
#[derive(Drop)]
pub struct Access {
    pub array: u32,
    pub subscripts: Items<Form>,
}

/// A source writes its array's cells before the body, a sink reads them after it. The number is that
/// of the array.
#[derive(Clone, Copy, Debug, PartialEq, Eq)]
pub enum Role {
    Source(u32),
    Assign,
    Sink(u32),
}

/// A statement. Its iteration domain is where all `rows` hold, its depth the number of its loops.
#[derive(Drop)]
pub struct Statement {
    pub role: Role,
    pub loops: Items<u32>,
    pub rows: Items<Row>,
    pub write: Option<Access>,
    pub reads: Items<Access>,
    pub expr: Expr,
}

/// A part of a nest's body. A loop of step 1 runs its variable from the greatest lower form to the
/// least upper form, inclusive. A loop of a step above 1 has one lower form, and its variable is the
/// turn: it runs from 0 upwards by 1, as long as the lower form plus `step` times the turn is at most
/// every upper form.
#[derive(Drop)]
pub enum Node {
    Loop {
        id: u32,
        lower: Items<Form>,
        upper: Items<Form>,
        step: i64,
        body: Items<Node>,
    },
    Guard {
        rows: Items<Row>,
        body: Items<Node>,
    },
    Assign(u32),
}

/// A static affine nested loop program.
#[derive(Drop)]
pub struct Nest {
    pub arrays: Items<ArrayDecl>,
    pub statements: Items<Statement>,
    pub body: Items<Node>,
    pub ghost well_formed: { IsWellFormed arrays statements body },
}

/// The turn of a process: its number and that of the turn.
#[derive(Clone, Copy, Debug, PartialEq, Eq)]
pub struct Tag {
    pub process: u32,
    pub turn: u32,
}

/// A statement at one iteration vector.
#[derive(Drop, PartialEq, Eq)]
pub struct Point {
    pub statement: u32,
    pub at: Vector,
}

/// The points of each process, in order.
#[derive(Drop)]
pub struct Points {
    pub of: Items<Items<Vector>>,
}

/// Input values: one list for each declared array, empty where it is no input.
#[derive(Drop)]
pub struct Inputs {
    pub arrays: Items<Items<i64>>,
}

/// Output values: one list for each declared array, empty where it is no output.
#[derive(Drop)]
pub struct Arrays {
    pub arrays: Items<Items<i64>>,
}

impl Nest {
    ghost use Rattle.std.specs.Prelude.{◌≡◌, ◌<◌, length, slice_get, Some, IsTrue};
    ghost use Rattle.sanlp.specs.WellFormed.{all_forms_fit, statement_fits};

    /// The statement of this number.
    pub fn statement(&self, number: u32) -> &Statement
        requires { number < length self.now.statements }
        ensures value { slice_get self.now.statements number ≡ Some result.now }
        ensures fits { IsTrue (statement_fits self.now.arrays result.now) }
    {
        &self.statements.as_slice()[number as usize]
    }

    /// The parts of the body.
    pub fn parts(&self) -> &[Node]
        ensures value { result.now ≡ self.now.body }
        ensures fit { IsTrue (all_forms_fit result.now 0) }
    {
        self.body.as_slice()
    }
}
