//! Tests of what commands write of a source and its data, by the top call.
#![tactic(auto)]

#[cfg(test)]
mod dependences;
#[cfg(test)]
mod kernels;
#[cfg(test)]
mod networks;
#[cfg(test)]
mod programs;
#[cfg(test)]
mod simulations;
#[cfg(test)]
mod vhdl;
