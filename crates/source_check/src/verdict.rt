use int_polyhedra::Reason;

/// Why a tree is refused. Leaves are numbered from 0 in preorder; a number above 2^64 - 1 is given as 2^64 - 1.
#[derive(Drop, PartialEq, Eq)]
pub enum Rule {
    /// A form of the leaf's path or map has a wrong number of variables, the map a wrong number of forms, a divisor is
    /// below 2, or there are more than 6 quotients on the path.
    BadForm(u64),
    /// The leaf's statement does not exist, or does not write the read's array.
    NoWriter(u64),
    /// The leaf has so many proofs, and has to have so many.
    Proofs(u64, u64, u64),
    /// The leaf's proof of this number does not refute its system.
    Proof(u64, u64, Reason),
    /// The tree overflows at the reader's point of this turn. `check_tree` never says so: it looks at no point.
    Overflow(u32),
}

/// What `check_tree` says of a tree.
#[derive(Drop, PartialEq, Eq)]
pub enum TreeVerdict {
    Accepted,
    Refused(Rule),
}
