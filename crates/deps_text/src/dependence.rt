use source_tree::Origin;

/// Where a read has its values from. The read is told by the number of its statement and by its own number among the
/// statement's reads.
#[derive(Drop)]
pub struct Dependence {
    pub statement: u32,
    pub read: u32,
    pub origin: Origin,
}
