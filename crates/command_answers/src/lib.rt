//! What each command but `cert` and `deps` answers to a bundle and its parameters, or why there is no answer. Nothing is read or
//! written here.
//!
//! Between two calls, or from one step of the main loop to the next: nothing is read or written: an answer is a value,
//! and `specs/Replying.antt` says what is to be written of it.
#![tactic(auto)]

mod answer;
mod check;
mod describing;
mod law;
mod loading;
mod network_run;
mod printing;
mod refusal;
mod run;
mod simulating;
mod source;
mod status;
mod tracing;
mod trimming;

pub use answer::{
    Answer, ArrayAnswer, CertificateAnswer, ClockedAnswer, DependencesAnswer, NetworkAnswer,
    NodesAnswer, NumbersAnswer,
};
pub use check::check_certificate;
pub use describing::describe_network;
pub use law::statuses_have_own_numbers;
pub use loading::load;
pub use printing::print_network;
pub use refusal::{ClassReason, LimitReason, Refusal, Stop, TextReason};
pub use run::{run_by_interpreter, run_by_network};
pub use simulating::run_by_clock;
pub use source::{nest_of, size_of, sized_nest};
pub use status::Status;
pub use tracing::trace_network;
pub use trimming::trim_network;
