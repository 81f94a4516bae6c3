//! Tests of networks that are made of nests: of their channels and certificates, their automata, nodes, links and clocked runs,
//! their runs in other orders and by threads, and their least capacities. They stand apart from what they test, since a crate
//! with tests of its own is proved twice.
#![tactic(auto)]

#[cfg(test)]
mod alone;
#[cfg(test)]
mod automata;
#[cfg(test)]
mod bound;
#[cfg(test)]
mod clocks;
#[cfg(test)]
mod compiled;
#[cfg(test)]
mod links;
#[cfg(test)]
mod meeting;
#[cfg(test)]
mod nodes;
#[cfg(test)]
mod numbers;
#[cfg(test)]
mod orders;
#[cfg(test)]
mod plans;
#[cfg(test)]
mod scripts;
#[cfg(test)]
mod trims;
