ghost use Rattle.std.specs.Prelude.{◌≡◌, ◌↔◌, IfOk, IfSome};
ghost use Rattle.sanlp.specs.Size.{SizeIsOk};
ghost use Rattle.sanlp.specs.Points.{points_of};
ghost use Rattle.source_tree.specs.Sources.{sources_of};
ghost use Rattle.net_core.specs.Machine.{net_of};
ghost use Rattle.net_core.specs.Shape.{FitsNumbers};
ghost use Rattle.net_core.specs.Sound.{IsSound};
ghost use Rattle.net_checker.specs.Fits.{Fits, first, first_with, verdict_of, with_entries};
ghost use Rattle.net_checker.specs.Schedules.{entries_in};

use crate::classes::class_refusal;
use crate::entries::schedule_refusal;
use crate::firings::firing_refusal;
use crate::nest_network::{NestNetwork, ShapedNetwork};
use crate::schedule::Schedule;
use crate::shapes::shape_refusal;
use crate::sources::{source_refusal, table};
use crate::verdict::{Refusal, Verdict};
use net_core::Network;
use plain_data::Items;
use sanlp::{Nest, Points};
use script_blocks::Script;
use source_tree::{Cert, SourceTable};
use std::alloc::{AllocError, Global};

// What is wrong first with these entries as the schedule, if anything is. The last writers of all reads may be known.
fn first_refusal(
    alloc: Global,
    candidate: &NestNetwork,
    cert: &Cert,
    schedule: &Schedule,
    sources: Option<SourceTable>,
) -> Result<Option<Refusal>, AllocError>
    requires { IfSome sources (λ table. table.of ≡ sources_of candidate.now.nest.now) }
    ensures { IfOk result (λ refusal. refusal
        ≡ first_with candidate.now.nest.now candidate.now.network.now cert.now
        (entries_in schedule.now)) }
{
    let nest = candidate.nest;
    let network = candidate.network;
    if let Some(refusal) = shape_refusal(nest, network, cert) {
        return Ok(Some(refusal));
    }
    if let Some(refusal) = firing_refusal(candidate) {
        return Ok(Some(refusal));
    }
    let mut rows = Items::new(alloc);
    if let Some(refusal) = source_refusal(alloc, candidate, cert, &mut rows)? {
        return Ok(Some(refusal));
    }
    let fitting = ShapedNetwork {
        nest,
        points: candidate.points,
        network,
    };
    let table = table(alloc, nest, cert, sources, rows)?;
    if let Some(refusal) = schedule_refusal(alloc, &fitting, &table, schedule)? {
        return Ok(Some(refusal));
    }
    drop(table);
    class_refusal(alloc, &fitting)
}

// The verdict on the certificate with these entries as its schedule. The last writers of all reads may be known.
fn judge(
    alloc: Global,
    candidate: &NestNetwork,
    cert: &Cert,
    schedule: &Schedule,
    sources: Option<SourceTable>,
) -> Result<Verdict, AllocError>
    requires { IfSome sources (λ table. table.of ≡ sources_of candidate.now.nest.now) }
    ensures exact { IfOk result
        (λ verdict. verdict ≡ verdict_of (first candidate.now.nest.now candidate.now.network.now
        (with_entries cert.now (entries_in schedule.now)))) }
    ensures fits { IfOk result (λ verdict. (verdict ≡ Verdict.Accepted)
        ↔ Fits candidate.now.nest.now candidate.now.network.now
        (with_entries cert.now (entries_in schedule.now))) }
    ensures sound { IfOk result (λ verdict. verdict ≡ Verdict.Accepted
        → IsSound candidate.now.nest.now candidate.now.network.now) }
{
    match first_refusal(alloc, candidate, cert, schedule, sources)? {
        Some(refusal) => Ok(Verdict::Refused(refusal)),
        None => Ok(Verdict::Accepted),
    }
}

/// Accepted exactly where the network and the certificate fit the nest, and else what is wrong first. What is accepted is
/// sound: in every order of events it computes what the nest computes (Kahn 1974). It takes the time of the network's
/// events, of sorting the uses of each channel, and of checking each tree and following it at each point of its reader;
/// and where some origin is `Sweep`, of one sweep of the nest. Nothing fails but want of memory.
pub fn check(
    alloc: Global,
    nest: &Nest,
    points: &Points,
    network: &Network,
    cert: &Cert,
) -> Result<Verdict, AllocError>
    requires size { SizeIsOk nest.now }
    requires points { points.now.of ≡ points_of nest.now }
    requires numbers { FitsNumbers (net_of network.now) }
    ensures exact { IfOk result
        (λ verdict. verdict ≡ verdict_of (first nest.now network.now cert.now)) }
    ensures fits { IfOk result
        (λ verdict. (verdict ≡ Verdict.Accepted) ↔ Fits nest.now network.now cert.now) }
    ensures sound { IfOk result
        (λ verdict. verdict ≡ Verdict.Accepted → IsSound nest.now network.now) }
{
    let candidate = NestNetwork {
        nest,
        points,
        network,
    };
    let entries = Schedule::Listed(cert.schedule.as_slice());
    judge(alloc, &candidate, cert, &entries, None)
}

/// The answer of `check` to the certificate with this schedule in place of its own. The schedule stays folded, so that it
/// takes no memory by its entries. Nothing fails but want of memory.
pub fn check_folded(
    alloc: Global,
    nest: &Nest,
    points: &Points,
    network: &Network,
    cert: &Cert,
    schedule: &Script<u32>,
) -> Result<Verdict, AllocError>
    requires size { SizeIsOk nest.now }
    requires points { points.now.of ≡ points_of nest.now }
    requires numbers { FitsNumbers (net_of network.now) }
    ensures exact { IfOk result (λ verdict. verdict
        ≡ verdict_of (first nest.now network.now (with_entries cert.now schedule.now))) }
    ensures fits { IfOk result (λ verdict. (verdict ≡ Verdict.Accepted)
        ↔ Fits nest.now network.now (with_entries cert.now schedule.now)) }
    ensures sound { IfOk result
        (λ verdict. verdict ≡ Verdict.Accepted → IsSound nest.now network.now) }
{
    let candidate = NestNetwork {
        nest,
        points,
        network,
    };
    let entries = Schedule::Folded(schedule);
    judge(alloc, &candidate, cert, &entries, None)
}

/// The answer of `check`, where the last writers of all reads are known, as from the sweep that the network was derived by. The
/// nest isn't swept, and the table is let go of before the classes of channels are judged. Nothing fails but want of memory.
pub fn check_with_sources(
    alloc: Global,
    nest: &Nest,
    points: &Points,
    network: &Network,
    cert: &Cert,
    sources: SourceTable,
) -> Result<Verdict, AllocError>
    requires size { SizeIsOk nest.now }
    requires points { points.now.of ≡ points_of nest.now }
    requires numbers { FitsNumbers (net_of network.now) }
    requires sources { sources.of ≡ sources_of nest.now }
    ensures exact { IfOk result
        (λ verdict. verdict ≡ verdict_of (first nest.now network.now cert.now)) }
    ensures fits { IfOk result
        (λ verdict. (verdict ≡ Verdict.Accepted) ↔ Fits nest.now network.now cert.now) }
    ensures sound { IfOk result
        (λ verdict. verdict ≡ Verdict.Accepted → IsSound nest.now network.now) }
{
    let candidate = NestNetwork {
        nest,
        points,
        network,
    };
    let entries = Schedule::Listed(cert.schedule.as_slice());
    judge(alloc, &candidate, cert, &entries, Some(sources))
}
