//! Rows of iteration vectors that were looked at.
ghost use Rattle.std.specs.Prelude.{◌≡◌, ℤ, List, IsTrue};
ghost use Rattle.net_checker.specs.Tables.{AreProgressions, IsRow};

/// How many rows are kept.
const ROOM: usize = 256;

/// The places of a row among a statement's vectors: the first, and so many behind it, each by a step from the last.
#[derive(Clone, Copy)]
pub(crate) struct Row {
    pub(crate) statement: u32,
    pub(crate) first: u32,
    pub(crate) step: u32,
    pub(crate) turns: u32,
}

/// Rows that are known to be arithmetic progressions: of those whose first places leave one remainder, the last that was added.
#[derive(Drop)]
pub(crate) struct KnownRows {
    rows: [Option<Row>; ROOM],
}

// Whether two rows are the same.
fn is_same(row: Row, other: Row) -> bool
    ensures { IsTrue result → row ≡ other }
{
    row.first == other.first
        && row.statement == other.statement
        && row.step == other.step
        && row.turns == other.turns
}

impl KnownRows {
    /// None is known.
    pub(crate) fn none() -> KnownRows
        ensures { (points : List (List (List ℤ))) → AreProgressions points result }
    {
        KnownRows { rows: [None; ROOM] }
    }

    /// Whether this row is known.
    #[tactic(auto, using(crate::proofs::KnownRows::row_known))]
    pub(crate) fn has(&self, row: Row) -> bool
        ensures { IsTrue result → (points : List (List (List ℤ)))
            → AreProgressions points self.now → IsRow points row }
    {
        match self.rows[row.first as usize % ROOM] {
            Some(known) => is_same(known, row),
            None => false,
        }
    }

    /// Adds a row.
    #[tactic(auto, using(crate::proofs::KnownRows::row_added))]
    pub(crate) fn add(&mut self, row: Row)
        ensures { (points : List (List (List ℤ))) → AreProgressions points self.old
            → IsRow points row → AreProgressions points self.new }
    {
        self.rows[row.first as usize % ROOM] = Some(row);
    }
}
