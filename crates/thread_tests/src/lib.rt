//! Tests of the threads of `run`, `load` and `trace`, by the top call.
#![tactic(auto)]

#[cfg(test)]
mod boards;
#[cfg(test)]
mod capacities;
#[cfg(test)]
mod loads;
#[cfg(test)]
mod meeting;
#[cfg(test)]
mod threads;
