//! Tests of the checker, by its verdicts on networks and certificates that were made by hand. They stand apart from what they
//! test, since a crate with tests of its own is proved twice.
#![tactic(auto)]

#[cfg(test)]
mod bound;
#[cfg(test)]
mod certificates;
#[cfg(test)]
mod verdicts;
