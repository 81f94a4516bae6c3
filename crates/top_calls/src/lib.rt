//! Calls of the program by its top call, on devices in memory, for the crates of its tests.
#![tactic(auto)]

mod calls;
mod examples;

pub use calls::{
    Call, Devices, End, Program, SOUND, UNREAD, end_by, end_of, expect, expect_all, expect_answer,
    expect_answers, expect_of, written_by,
};
pub use examples::{INCREMENT, INCREMENT_NETWORK, USAGE};
