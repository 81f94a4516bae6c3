use crate::tree::Tree;
use plain_data::{Boxed, Items};

/// Where a certificate says that a read has its values from.
#[derive(Drop)]
pub enum Origin {
    /// From the last writers, which whoever checks the certificate finds.
    Sweep,
    /// From the points that the tree gives. It stands in a box, so that an origin without one is small.
    Tree(Boxed<Tree>),
}

/// A certificate of a network: one origin for each read, in the order of reader and read, and a schedule, which is a
/// list of process numbers.
#[derive(Drop)]
pub struct Cert {
    pub sources: Items<Origin>,
    pub schedule: Items<u32>,
}
