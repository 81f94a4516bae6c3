//! Tests of certificates, of loops with steps, of traces and of least capacities, by the top call. They stand apart from what they
//! test, since a crate with tests of its own is proved twice.
#![tactic(auto)]

#[cfg(test)]
mod certificates;
#[cfg(test)]
mod steps;
#[cfg(test)]
mod traces;
#[cfg(test)]
mod trims;
