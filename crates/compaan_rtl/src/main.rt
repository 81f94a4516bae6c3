//! The program `compaan_rtl`: its call over the words and the streams of the process.
#![tactic(auto)]

use call_endings::{host_streams, program_words};
use rtl_answers::run_design_program;
use std::process::ExitCode;

fn main(rt: HostRuntime) -> ExitCode {
    let mut streams = host_streams(rt.stdin(), rt.stdout(), rt.stderr());
    run_design_program(rt.alloc(), program_words(&rt), &mut streams)
}
