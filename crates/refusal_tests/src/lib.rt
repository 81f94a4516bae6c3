//! Tests of the program by its top call where inputs are refused, limits are met or passed, and devices fail.
#![tactic(auto)]

#[cfg(test)]
mod devices;
#[cfg(test)]
mod limits;
#[cfg(test)]
mod refusals;
