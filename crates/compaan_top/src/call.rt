ghost use Rattle.std.specs.Prelude.{◌≢◌, ◌≤◌, Option, Some, length, map, string_bytes};
ghost use Rattle.command_line.specs.Words.{order_of};
ghost use Rattle.command_line.specs.declared.words.Command.TheVariants as command;
ghost use Rattle.command_line.specs.declared.words.Order.{Order as WordOrder};
ghost use Rattle.call_endings.specs.Changes.{Change, change};
ghost use Rattle.call_endings.specs.Reads.{bundle_limit};
ghost use Rattle.compaan_top.specs.Answers.{Ends};
ghost use Rattle.compaan_top.specs.Calls.{IsCallOf};
ghost use Rattle.compaan_top.specs.Commands.{WaitsForNobody, WaitsForThreads};
ghost use Rattle.compaan_top.specs.Planned.{IsCertificatePlanned, IsPlanned, JudgesOrder};

use crate::certifying::print_certificate;
use crate::law::what_ends_is_a_call;
use crate::telling::tell_dependences;
use crate::writing::{status_of, write_text};
use call_endings::{bundle_of, order_of, tell_stop};
use cert_text::write_cert;
use command_answers::{
    Answer, CertificateAnswer, Status, Stop, check_certificate, describe_network, load,
    print_network, run_by_clock, run_by_interpreter, run_by_network, trace_network, trim_network,
};
use command_line::{Command, Order};
use io_edge::{Gate, Sink, Source};
use std::alloc::Global;
use std::sync::Wait;
use std::thread::Threads;

// What a command that waits for nobody comes to, but for `cert`, which has many texts.
fn perform(alloc: Global, order: &Order, bundle: &[u8]) -> Result<Answer, Stop>
    requires command { WaitsForNobody order.now.command }
    requires other { order.now.command ≢ command.Cert }
    requires bundle { length bundle.now ≤ bundle_limit }
    ensures { JudgesOrder order.now bundle.now result }
{
    match order.command {
        Command::Run | Command::Load | Command::Trace | Command::Cert => unreachable!(),
        Command::Seq => run_by_interpreter(alloc, &order.params, bundle),
        Command::Net => print_network(alloc, order.policy, &order.params, bundle),
        Command::Check => check_certificate(alloc, &order.params, bundle),
        Command::Deps => tell_dependences(alloc, &order.params, bundle),
        Command::Vhdl => describe_network(alloc, order.policy, &order.params, bundle),
        Command::Sim => run_by_clock(alloc, order.policy, &order.params, bundle),
        Command::Trim => trim_network(alloc, order.policy, &order.params, bundle),
    }
}

// What a command that waits for threads comes to, but for `load`, which reads nothing.
fn perform_by_threads<R: Threads + Wait + Sync, G: Gate + Sync>(
    rt: &R,
    alloc: Global,
    order: &Order,
    bundle: &[u8],
    gate: &G,
) -> Result<Answer, Stop>
    requires command { WaitsForThreads order.now.command }
    requires other { order.now.command ≢ command.Load }
    requires bundle { length bundle.now ≤ bundle_limit }
    ensures { JudgesOrder order.now bundle.now result }
{
    match order.command {
        Command::Run => run_by_network(rt, alloc, order.policy, &order.params, bundle, gate),
        Command::Trace => trace_network(rt, alloc, order.policy, &order.params, bundle, gate),
        Command::Seq
        | Command::Net
        | Command::Cert
        | Command::Check
        | Command::Deps
        | Command::Vhdl
        | Command::Load
        | Command::Sim
        | Command::Trim => unreachable!(),
    }
}

// Writes what was planned.
fn finish<K: Sink, E: Sink>(
    planned: Result<Answer, Stop>,
    output: &mut K,
    complaint: &mut E,
) -> Status
    ensures { (wanted : Option WordOrder) (input : Change) → IsPlanned wanted input planned
        → Ends wanted input (change K.held K.faults output.old output.new)
        (change E.held E.faults complaint.old complaint.new) result }
{
    match planned {
        Ok(answer) => match write_text(&answer, output) {
            Ok(()) => status_of(&answer),
            Err(_) => Status::OutputFailed,
        },
        Err(stop) => tell_stop(stop, complaint),
    }
}

// Writes the certificate that was planned.
fn finish_certificate<K: Sink, E: Sink>(
    planned: Result<CertificateAnswer, Stop>,
    output: &mut K,
    complaint: &mut E,
) -> Status
    ensures { (wanted : Option WordOrder) (input : Change)
        → IsCertificatePlanned wanted input planned
        → Ends wanted input (change K.held K.faults output.old output.new)
        (change E.held E.faults complaint.old complaint.new) result }
{
    match planned {
        Ok(answer) => match write_cert(&answer.network, &answer.cert, output) {
            Ok(()) => Status::Done,
            Err(_) => Status::OutputFailed,
        },
        Err(stop) => tell_stop(stop, complaint),
    }
}

// Carries out an order that waits for nobody.
fn carry_out_quietly<S: Source, K: Sink, E: Sink>(
    alloc: Global,
    order: &Order,
    input: &mut S,
    output: &mut K,
    complaint: &mut E,
) -> Status
    requires { WaitsForNobody order.now.command }
    ensures { Ends (Some order.now) (change S.left S.faults input.old input.new)
        (change K.held K.faults output.old output.new)
        (change E.held E.faults complaint.old complaint.new) result }
{
    match bundle_of(alloc, input) {
        Ok(bundle) => match order.command {
            Command::Cert => {
                let made = print_certificate(alloc, order.policy, &order.params, &bundle);
                finish_certificate(made, output, complaint)
            }
            _ => finish(perform(alloc, order, &bundle), output, complaint),
        },
        Err(stop) => tell_stop(stop, complaint),
    }
}

/// Every command but `run`, `load` and `trace`, which wait for threads. `IsCallOf` has what one can rely on, clause by clause.
///
/// The number that it answers is that of a `Status`. 2 comes from words alone, so never here; `check` alone answers 1.
pub fn quiet<S: Source, K: Sink, E: Sink>(
    alloc: Global,
    order: &Order,
    input: &mut S,
    output: &mut K,
    complaint: &mut E,
) -> u8
    requires { WaitsForNobody order.now.command }
    ensures { IsCallOf (Some order.now) (change S.left S.faults input.old input.new)
        (change K.held K.faults output.old output.new)
        (change E.held E.faults complaint.old complaint.new) result }
{
    what_ends_is_a_call();
    carry_out_quietly(alloc, order, input, output, complaint).number()
}

// Carries out an order that waits for threads, and reads a bundle.
fn carry_out_by_threads<R: Threads + Wait + Sync, S: Source, K: Sink, E: Sink, G: Gate + Sync>(
    rt: &R,
    alloc: Global,
    order: &Order,
    input: &mut S,
    output: &mut K,
    complaint: &mut E,
    gate: &G,
) -> Status
    requires command { WaitsForThreads order.now.command }
    requires other { order.now.command ≢ command.Load }
    ensures { Ends (Some order.now) (change S.left S.faults input.old input.new)
        (change K.held K.faults output.old output.new)
        (change E.held E.faults complaint.old complaint.new) result }
{
    match bundle_of(alloc, input) {
        Ok(bundle) => {
            finish(
                perform_by_threads(rt, alloc, order, &bundle, gate),
                output,
                complaint,
            )
        }
        Err(stop) => tell_stop(stop, complaint),
    }
}

// Carries an order out.
fn carry_out<R: Threads + Wait + Sync, S: Source, K: Sink, E: Sink, G: Gate + Sync>(
    rt: &R,
    alloc: Global,
    order: &Order,
    input: &mut S,
    output: &mut K,
    complaint: &mut E,
    gate: &G,
) -> u8
    ensures { IsCallOf (Some order.now) (change S.left S.faults input.old input.new)
        (change K.held K.faults output.old output.new)
        (change E.held E.faults complaint.old complaint.new) result }
{
    what_ends_is_a_call();
    match order.command {
        Command::Run | Command::Trace => {
            carry_out_by_threads(rt, alloc, order, input, output, complaint, gate).number()
        }
        Command::Load => {
            finish(
                load(rt, alloc, order.policy, order.load, gate),
                output,
                complaint,
            )
            .number()
        }
        Command::Seq
        | Command::Net
        | Command::Cert
        | Command::Check
        | Command::Deps
        | Command::Vhdl
        | Command::Sim
        | Command::Trim => quiet(alloc, order, input, output, complaint),
    }
}

/// All that the program does. `IsCallOf` has what one can rely on, clause by clause: how the call may end, whatever the source
/// and the sinks are, and with which statuses; and for a source that tells its bytes, what was written where no fault and no
/// want of memory ended the call, where it is done, where `check` writes `accepted`, and that `deps` passes no limit where each
/// read of the source's nest has a tree.
///
/// The number that it answers is that of a `Status`. `check` alone answers 1, `run`, `seq` and `sim` alone 9, words that are
/// refused alone 2, `load` none of 3, 5, 6, 7 and 9, and no call 11.
///
/// `run` and `load` have one thread for each process, so this may wait. Each of their workers asks the gate before it works,
/// and tells it each value that its process puts. `trace` has four, each of which asks the gate before each lock, and so does
/// the caller as number 4. `quiet`, which does every other command, returns.
pub fn compaan<R: Threads + Wait + Sync, S: Source, K: Sink, E: Sink, G: Gate + Sync>(
    rt: &R,
    alloc: Global,
    words: &[String],
    input: &mut S,
    output: &mut K,
    complaint: &mut E,
    gate: &G,
) -> u8
    ensures { IsCallOf (order_of (map string_bytes words.now))
        (change S.left S.faults input.old input.new)
        (change K.held K.faults output.old output.new)
        (change E.held E.faults complaint.old complaint.new) result }
{
    what_ends_is_a_call();
    match order_of(alloc, words) {
        Ok(order) => carry_out(rt, alloc, &order, input, output, complaint, gate),
        Err(stop) => tell_stop(stop, complaint).number(),
    }
}
