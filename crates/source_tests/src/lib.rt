//! Tests of what is bound of deep sources and of the trees of reads, on nests that are bound from sources. They stand apart from
//! what they test, since a crate with tests of its own is proved twice.
#![tactic(auto)]

#[cfg(test)]
mod bound;
#[cfg(test)]
mod classes;
#[cfg(test)]
mod deep;
#[cfg(test)]
mod given;
#[cfg(test)]
mod large;
#[cfg(test)]
mod programs;
#[cfg(test)]
mod sweeps;
#[cfg(test)]
mod trees;
#[cfg(test)]
mod trims;
