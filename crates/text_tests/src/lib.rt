//! Tests of texts that are read and written, of proofs that a text tells, and of what no clause says of streams and of folded
//! lists. They stand apart from what they test, since a crate with tests of its own is proved twice.
#![tactic(auto)]

#[cfg(test)]
mod certificates;
#[cfg(test)]
mod printing;
#[cfg(test)]
mod proofs;
#[cfg(test)]
mod scripts;
#[cfg(test)]
mod sequencers;
#[cfg(test)]
mod streams;
#[cfg(test)]
mod traces;
#[cfg(test)]
mod trees;
