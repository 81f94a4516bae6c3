//! Tests of networks that were made by hand: of their schedules, of the board that notes a run, and of their texts and VHDL. They
//! stand apart from what they test, since a crate with tests of its own is proved twice.
#![tactic(auto)]

#[cfg(test)]
mod boards;
#[cfg(test)]
mod events;
#[cfg(test)]
mod schedules;
#[cfg(test)]
mod texts;
#[cfg(test)]
mod vhdl;
