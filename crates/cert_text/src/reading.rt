ghost use Rattle.std.specs.Prelude.{◌≡◌, ◌≤◌, IfOk, MatchResult, length, true};
ghost use Rattle.net_core.specs.declared.network.Network.{Network as AnyNetwork};
ghost use Rattle.net_core.specs.Machine.{net_of};
ghost use Rattle.net_core.specs.Shape.{FitsNumbers};
ghost use Rattle.source_tree.specs.declared.cert.Cert.{Cert as AnyCert};
ghost use Rattle.plain_data.specs.Answers.{IsUnlessMemory};
ghost use Rattle.cert_lines.specs.Reading.{Reads, line as one_line, many};
ghost use Rattle.cert_text.specs.FoldedCerts.{whole_answer};
ghost use Rattle.cert_text.specs.Kept.{AddsPart, lists_of, pair_kept, process_kept, whole_kept};
ghost use Rattle.cert_text.specs.Places.{part_line};
ghost use Rattle.cert_text.specs.Reading.{part as part_within, reading, source as source_part};
ghost use Rattle.cert_text.specs.StandsFor.{StandsFor};

use crate::folded::FoldedList;
use crate::folded_cert::FoldedCert;
use crate::gathering::Gathering;
use crate::kept::{Kept, KeptProcess, pair_of, too_long};
use crate::keys::Keyed;
use crate::lines::{FromLine, read_line, read_lines};
use crate::places::{PartLine, ProcessHead, Sizes, SourceLine, Version, part_line_of};
use cert_lines::{CertError, Lines, NESTING_LIMIT};
use net_core::{Network, equal_is_same};
use plain_data::Items;
use source_tree::{Cert, Origin};
use std::alloc::Global;
use tree_text::read_tree;

fn read_part_line<T: FromLine>(
    version: Version,
    lines: &mut Lines,
) -> Result<PartLine<T>, CertError>
    ensures { Reads result lines.new (one_line (part_line T.judged version) lines.old) }
{
    let Some(line) = lines.next() else {
        return Err(CertError::Truncated);
    };
    lines.told(part_line_of(version, line))
}

/// Reads so many parts, whose repeats nest at most so many levels deep. A level takes two frames of the stack. Two items that
/// compare equal have to be the same value.
#[cycle(read_parts)]
fn read_parts<T: FromLine + Copy + Eq + Keyed>(
    levels: u32,
    version: Version,
    count: u32,
    alloc: Global,
    lines: &mut Lines,
) -> Result<FoldedList<T>, CertError>
    requires { (a b : T) → T.eq a b ≡ true → a ≡ b }
    ensures { Reads result lines.new
        (lists_of (part_within T.judged version levels) count lines.old) }
{
    let mut list = Gathering::new(alloc);
    for _ in 0..count {
        read_part(levels, version, alloc, &mut list, lines)?;
    }
    Ok(list.into_list(alloc)?)
}

/// Reads a part, whose repeats nest at most so many levels deep, to the end of a list.
#[cycle(read_parts)]
fn read_part<T: FromLine + Copy + Eq + Keyed>(
    levels: u32,
    version: Version,
    alloc: Global,
    list: &mut Gathering<T>,
    lines: &mut Lines,
) -> Result<(), CertError>
    requires { (a b : T) → T.eq a b ≡ true → a ≡ b }
    ensures { AddsPart result list.old list.new lines.new
        (part_within T.judged version levels lines.old) }
{
    let line = read_part_line(version, lines)?;
    match line {
        PartLine::Item(item) => Ok(list.push(alloc, item)?),
        PartLine::Repeat(times, parts) => {
            if levels == 0 {
                return Err(CertError::Deep(lines.taken()));
            }
            let body = read_parts(levels - 1, version, parts, alloc, lines)?;
            Ok(list.push_repeated(alloc, times, body)?)
        }
    }
}

fn read_process(
    version: Version,
    alloc: Global,
    lines: &mut Lines,
) -> Result<KeptProcess, CertError>
    ensures { Reads result lines.new (process_kept version lines.old) }
{
    equal_is_same();
    let head: ProcessHead = read_line(lines)?;
    let script = read_parts(NESTING_LIMIT, version, head.parts, alloc, lines)?;
    Ok(KeptProcess {
        slots: head.slots,
        script,
    })
}

fn read_processes(
    version: Version,
    count: u32,
    alloc: Global,
    lines: &mut Lines,
) -> Result<Items<KeptProcess>, CertError>
    ensures { Reads result lines.new (many (process_kept version) count lines.old) }
{
    let mut processes = Items::new(alloc);
    for _ in 0..count {
        processes.push(read_process(version, alloc, lines)?)?;
    }
    Ok(processes)
}

fn read_source(alloc: Global, lines: &mut Lines) -> Result<Origin, CertError>
    ensures { Reads result lines.new (source_part lines.old) }
{
    match read_line(lines)? {
        SourceLine::Sweep => Ok(Origin::Sweep),
        SourceLine::Tree => Ok(Origin::Tree(read_tree(alloc, lines)?)),
    }
}

fn read_sources(alloc: Global, count: u32, lines: &mut Lines) -> Result<Items<Origin>, CertError>
    ensures { Reads result lines.new (many source_part count lines.old) }
{
    let mut sources = Items::new(alloc);
    for _ in 0..count {
        sources.push(read_source(alloc, lines)?)?;
    }
    Ok(sources)
}

fn read_kept(
    version: Version,
    sizes: Sizes,
    alloc: Global,
    lines: &mut Lines,
) -> Result<Kept, CertError>
    ensures reads { Reads result lines.new (pair_kept version sizes lines.old) }
    ensures few { IfOk result (λ kept. length kept.processes ≤ 4294967295) }
{
    let processes = read_processes(version, sizes.processes, alloc, lines)?;
    let channels = read_lines(alloc, sizes.channels, lines)?;
    let sources = read_sources(alloc, sizes.sources, lines)?;
    let schedule = read_parts(NESTING_LIMIT, version, sizes.parts, alloc, lines)?;
    Ok(Kept {
        processes,
        channels,
        sources,
        schedule,
    })
}

fn read_whole(alloc: Global, lines: &mut Lines) -> Result<Kept, CertError>
    ensures reads { Reads result lines.new (whole_kept lines.old) }
    ensures few { IfOk result (λ kept. length kept.processes ≤ 4294967295) }
{
    let version = read_line(lines)?;
    let sizes = read_line(lines)?;
    let kept = read_kept(version, sizes, alloc, lines)?;
    lines.expect(b"end")?;
    lines.end()?;
    Ok(kept)
}

// The network and its certificate, whose schedule stays folded.
fn read_pair(alloc: Global, bytes: &[u8]) -> Result<(Network, FoldedCert), CertError>
    ensures { IsUnlessMemory CertError.Memory (whole_answer result) (reading bytes.now) }
{
    let mut lines = Lines::new(bytes);
    let kept = read_whole(alloc, &mut lines)?;
    match too_long(&kept) {
        Some(process) => Err(CertError::Long(process)),
        None => Ok(pair_of(alloc, kept)?),
    }
}

// The same, with the schedule entry by entry.
fn read_entries(alloc: Global, bytes: &[u8]) -> Result<(Network, Cert), CertError>
    ensures { IsUnlessMemory CertError.Memory result (reading bytes.now) }
{
    let (network, cert) = read_pair(alloc, bytes)?;
    let cert = cert.unfold(alloc)?;
    Ok((network, cert))
}

/// Reads the text of a network with its certificate, of version 1 or 2.
///
/// `Long` comes only where no line is refused, and before anything is expanded: where the scripts stand for more than
/// 142,606,336 events together, with the least process up to which they do; and else where the schedule stands for more
/// than 142,606,336 entries, with the number of processes.
///
/// The lists grow with the lines that come, so a count that a text announces takes no memory by itself; the schedule's
/// entries take four bytes each, which `read_folded` spares. The stack grows with the nesting of repeats, trees and
/// proofs, which the limit keeps within 8 MB.
pub fn read_cert(alloc: Global, bytes: &[u8]) -> Result<(Network, Cert), CertError>
    ensures exact { IsUnlessMemory CertError.Memory result (reading bytes.now) }

    // It answers a pair just where these bytes stand for it.
    ensures is_text { IfOk result (λ pair. StandsFor bytes.now pair.0 pair.1) }
    ensures reads_text { (network : AnyNetwork) (cert : AnyCert) →
        StandsFor bytes.now network cert →
        MatchResult result (λ pair. pair ≡ (network, cert)) (λ error. error ≡ CertError.Memory) }

    ensures few { IfOk result (λ pair. FitsNumbers (net_of pair.0)) }
{
    read_entries(alloc, bytes)
}

/// What `read_cert` answers, with a certificate whose schedule stays folded: a schedule takes memory by its lines, and none
/// by its entries.
pub fn read_folded(alloc: Global, bytes: &[u8]) -> Result<(Network, FoldedCert), CertError>
    ensures exact { IsUnlessMemory CertError.Memory (whole_answer result) (reading bytes.now) }
    ensures is_text { IfOk (whole_answer result) (λ pair. StandsFor bytes.now pair.0 pair.1) }
    ensures reads_text { (network : AnyNetwork) (cert : AnyCert) →
        StandsFor bytes.now network cert → MatchResult (whole_answer result)
        (λ pair. pair ≡ (network, cert)) (λ error. error ≡ CertError.Memory) }
    ensures few { IfOk (whole_answer result) (λ pair. FitsNumbers (net_of pair.0)) }
{
    read_pair(alloc, bytes)
}
