//! Calls of the program by its top call, and what they are to come to.

ghost use Rattle.std.specs.Prelude.{◌≡◌, ◌++◌, ◌∷◌, ◌↔◌, [], All, IsTrue, IfOk, OnOk, map, string_bytes};
ghost use Rattle.top_calls.specs.Ends.{BothSay, EndsWith, IsEnd, Says};

use compaan_top::compaan;
use io_edge::{Gate, MemSink, MemSource, Open};
use std::alloc::{AllocError, Global};
use std::sync::Wait;
use std::test::Fail;
use std::thread::Threads;

const NO_CALL: u32 = 1_000_000_000;

/// Devices in memory: how many bytes a read gives and a write of the output takes, which of them fails, and the room of the two
/// sinks.
#[derive(Clone, Copy)]
pub struct Devices {
    pub piece: usize,
    pub failing: u32,
    pub output_piece: usize,
    pub output_failing: u32,
    pub output_room: usize,
    pub complaint_room: usize,
}

/// Devices that never fail, with room for 1,000 bytes in each sink.
pub const SOUND: Devices = Devices {
    piece: 65_536,
    failing: NO_CALL,
    output_piece: 4_096,
    output_failing: NO_CALL,
    output_room: 1_000,
    complaint_room: 1_000,
};

/// Devices whose first read fails.
pub const UNREAD: Devices = Devices {
    failing: 0,
    ..SOUND
};

/// How a call ended: its status, and its two sinks.
#[derive(Drop)]
pub struct End {
    pub status: u8,
    pub output: MemSink,
    pub complaint: MemSink,
}

impl End {
    /// Whether it ended with this status, and its output and its complaint sink hold this.
    pub fn is(&self, status: u8, output: &[u8], complaint: &[u8]) -> bool
        ensures { IsTrue result
            → (self.now.status ≡ status) × (self.now.output.held ≡ output.now)
            × (self.now.complaint.held ≡ complaint.now) }
    {
        self.status == status && self.output.held() == output && self.complaint.held() == complaint
    }
}

/// The words of a call, its bundle, its status, and what it writes: to the output with the statuses 0 and 1, and else to the
/// complaint sink.
pub type Call = (&'static [&'static str], &'static [u8], u8, &'static [u8]);

/// The values of parameters, a bundle, and the answer.
pub type Program = (&'static [&'static str], &'static [u8], &'static [u8]);

fn push_words(alloc: Global, strings: &mut Vec<String>, words: &[&str]) -> Result<(), AllocError>
    ensures { OnOk result (map string_bytes strings.new.items
        ≡ map string_bytes strings.old.items ++ map (λ word. word.now) words.now) }
{
    for word in words {
        strings.push(String::from_str(alloc, word)?)?;
    }
    Ok(())
}

fn words_of(alloc: Global, words: &[&str], params: &[&str]) -> Result<Vec<String>, AllocError>
    ensures { IfOk result (λ strings. map string_bytes strings.items
        ≡ map (λ word. word.now) words.now ++ map (λ word. word.now) params.now) }
{
    let mut strings = Vec::new(alloc);
    push_words(alloc, &mut strings, words)?;
    push_words(alloc, &mut strings, params)?;
    Ok(strings)
}

fn call_on<G: Gate + Sync>(
    rt: &(impl AllocGlobal + Threads + Wait + Sync),
    devices: Devices,
    words: &[String],
    input: &mut MemSource,
    gate: &G,
) -> Result<End, AllocError>
    ensures { IfOk result (λ end.
        IsEnd (map string_bytes words.now) input.old.left end.status end.output end.complaint) }
{
    let alloc = rt.alloc();
    let failing = devices.output_failing;
    let mut output = MemSink::new(alloc, devices.output_room, devices.output_piece, &[failing])?;
    let Ok(mut complaint) = MemSink::new(alloc, devices.complaint_room, 4_096, &[]) else {
        drop(output);
        return Err(AllocError);
    };
    let status = compaan(rt, alloc, words, input, &mut output, &mut complaint, gate);
    Ok(End {
        status,
        output,
        complaint,
    })
}

fn call_with<G: Gate + Sync>(
    rt: &(impl AllocGlobal + Threads + Wait + Sync),
    devices: Devices,
    words: &[String],
    bundle: &[u8],
    gate: &G,
) -> Result<End, AllocError>
    ensures { IfOk result (λ end.
        IsEnd (map string_bytes words.now) bundle.now end.status end.output end.complaint) }
{
    let alloc = rt.alloc();
    let mut input = MemSource::new(alloc, bundle, devices.piece.max(1), &[devices.failing])?;
    let end = call_on(rt, devices, words, &mut input, gate);
    drop(input);
    end
}

/// Calls the program with words, the values of parameters behind them, and a gate.
pub fn end_by<G: Gate + Sync>(
    rt: &(impl AllocGlobal + Threads + Wait + Sync),
    devices: Devices,
    words: &[&str],
    params: &[&str],
    bundle: &[u8],
    gate: &G,
) -> Result<End, AllocError>
    ensures { IfOk result (λ end.
        IsEnd (map (λ word. word.now) words.now ++ map (λ word. word.now) params.now) bundle.now
        end.status end.output end.complaint) }
{
    let words = words_of(rt.alloc(), words, params)?;
    let end = call_with(rt, devices, &words, bundle, gate);
    drop(words);
    end
}

/// Calls the program with words and the values of parameters behind them.
pub fn end_of(
    rt: &(impl AllocGlobal + Threads + Wait + Sync),
    devices: Devices,
    words: &[&str],
    params: &[&str],
    bundle: &[u8],
) -> Result<End, AllocError>
    ensures { IfOk result (λ end.
        IsEnd (map (λ word. word.now) words.now ++ map (λ word. word.now) params.now) bundle.now
        end.status end.output end.complaint) }
{
    end_by(rt, devices, words, params, bundle, &Open)
}

/// Calls the program, and compares its status and what its two sinks hold.
pub fn expect(
    rt: &(impl AllocGlobal + Threads + Wait + Sync),
    devices: Devices,
    words: &[&str],
    bundle: &[u8],
    status: u8,
    output: &[u8],
    complaint: &[u8],
) -> Result<(), Fail>
    ensures { OnOk result (EndsWith (map (λ word. word.now) words.now) bundle.now status output.now
        complaint.now) }
{
    let end = end_of(rt, devices, words, &[], bundle)?;
    let holds = end.is(status, output, complaint);
    drop(end);
    if holds {
        Ok(())
    } else {
        Err(Fail::new(format_args!("{words:?} at {bundle:?}")))
    }
}

/// Calls the program with a command and the values of parameters, and compares its status and the text that it writes: to the
/// output with the statuses 0 and 1, and else to the complaint sink.
pub fn expect_of(
    rt: &(impl AllocGlobal + Threads + Wait + Sync),
    command: &str,
    params: &[&str],
    bundle: &[u8],
    status: u8,
    text: &[u8],
) -> Result<(), Fail>
    ensures { OnOk result
        (Says (command.now ∷ map (λ word. word.now) params.now) bundle.now status text.now) }
{
    let end = end_of(rt, SOUND, &[command], params, bundle)?;
    let holds = if status < 2 {
        end.is(status, text, b"")
    } else {
        end.is(status, b"", text)
    };
    drop(end);
    if holds {
        Ok(())
    } else {
        Err(Fail::new(format_args!("{command} {params:?} at {bundle:?}")))
    }
}

// Expects the end of a call.
fn expect_end(
    rt: &(impl AllocGlobal + Threads + Wait + Sync),
    devices: Devices,
    words: &[&str],
    bundle: &[u8],
    status: u8,
    text: &[u8],
) -> Result<(), Fail>
    ensures { OnOk result
        (Says (map (λ word. word.now) words.now) bundle.now status text.now) }
{
    if status < 2 {
        expect(rt, devices, words, bundle, status, text, b"")
    } else {
        expect(rt, devices, words, bundle, status, b"", text)
    }
}

/// Expects these ends of these calls.
pub fn expect_all(
    rt: &(impl AllocGlobal + Threads + Wait + Sync),
    devices: Devices,
    calls: &[Call],
) -> Result<(), Fail>
    ensures { OnOk result (All
        (λ call. Says (map (λ word. word.now) call.0.now) call.1.now call.2 call.3.now) calls.now) }
{
    for call in calls {
        let (words, bundle, status, text) = *call;
        expect_end(rt, devices, words, bundle, status, text)?;
    }
    Ok(())
}

/// Expects an end of `run` and of `seq`.
pub fn expect_answer(
    rt: &(impl AllocGlobal + Threads + Wait + Sync),
    params: &[&str],
    bundle: &[u8],
    status: u8,
    text: &[u8],
) -> Result<(), Fail>
    ensures { OnOk result
        (BothSay (map (λ word. word.now) params.now) bundle.now status text.now) }
{
    expect_of(rt, "run", params, bundle, status, text)?;
    expect_of(rt, "seq", params, bundle, status, text)
}

/// Expects these answers of `run` and of `seq`, with status 0.
pub fn expect_answers(
    rt: &(impl AllocGlobal + Threads + Wait + Sync),
    programs: &[Program],
) -> Result<(), Fail>
    ensures { OnOk result (All
        (λ it. BothSay (map (λ word. word.now) it.0.now) it.1.now 0 it.2.now) programs.now) }
{
    for program in programs {
        let (params, bundle, answer) = *program;
        expect_answer(rt, params, bundle, 0, answer)?;
    }
    Ok(())
}

/// What a command that succeeds and complains of nothing writes of a source.
pub fn written_by(
    rt: &(impl AllocGlobal + Threads + Wait + Sync),
    command: &str,
    params: &[&str],
    source: &[u8],
    room: usize,
) -> Result<End, Fail>
    ensures call { IfOk result (λ end.
        IsEnd (command.now ∷ map (λ word. word.now) params.now) source.now
        end.status end.output end.complaint) }
    ensures done { IfOk result (λ end. (end.status ≡ 0) × (end.complaint.held ≡ [])) }
{
    let devices = Devices {
        piece: 16,
        output_room: room,
        ..SOUND
    };
    let end = end_of(rt, devices, &[command], params, source)?;
    if end.status == 0 && end.complaint.held().is_empty() {
        Ok(end)
    } else {
        drop(end);
        Err(Fail::new(format_args!("{command} {params:?} at {source:?}")))
    }
}
