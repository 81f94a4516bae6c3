//! What is kept of a text before its scripts and its schedule are known to be short enough.

ghost use Rattle.std.specs.Prelude.{◌≡◌, ◌+◌, ◌≤◌, IfOk, All, None, length, map, min};
ghost use Rattle.cert_text.specs.FoldedCerts.{whole_cert};
ghost use Rattle.cert_text.specs.Folding.{long_script, most_events, too_long as long_of};
ghost use Rattle.cert_text.specs.Kept.{cert_of_kept, network_of_kept, process_of_kept, scripts_of};

use crate::folded::FoldedList;
use crate::folded_cert::FoldedCert;
use net_core::{Channel, Event, Network, Process};
use plain_data::Items;
use source_tree::{Cert, Origin};
use std::alloc::{AllocError, Global};

/// The most events of all scripts together, and the most entries of a schedule.
const MOST_EVENTS: u64 = 142_606_336;

/// A process as a text is read: its slots, and its script kept folded.
#[derive(Drop)]
pub(crate) struct KeptProcess {
    pub(crate) slots: u32,
    pub(crate) script: FoldedList<Event>,
}

/// A network and its certificate as a text is read: scripts and schedule are kept folded.
#[derive(Drop)]
pub(crate) struct Kept {
    pub(crate) processes: Items<KeptProcess>,
    pub(crate) channels: Items<Channel>,
    pub(crate) sources: Items<Origin>,
    pub(crate) schedule: FoldedList<u32>,
}

/// The number of items, or one more than the most where there are more.
fn capped_len<T>(list: &FoldedList<T>) -> u64
    ensures { result ≡ min (length list.now) (most_events + 1) }
{
    match list.len() {
        Some(len) => len.min(MOST_EVENTS + 1),
        None => MOST_EVENTS + 1,
    }
}

/// The least process up to which the scripts have too many events together.
fn long_process(processes: &[KeptProcess]) -> Option<u32>
    requires { length processes.now ≤ 4294967295 }
    ensures { result ≡ long_script (scripts_of processes.now) }
{
    let mut events: u64 = 0;
    let mut number: u32 = 0;
    for process in processes {
        let len = capped_len(&process.script);
        if len > MOST_EVENTS - events {
            return Some(number);
        }
        events += len;
        number += 1;
    }
    None
}

/// The least process up to which the scripts are too long together; where there is none and the schedule is too long, the
/// number of processes. It takes no memory.
pub(crate) fn too_long(kept: &Kept) -> Option<u32>
    requires { length kept.now.processes ≤ 4294967295 }
    ensures { result ≡ long_of (scripts_of kept.now.processes) kept.now.schedule }
{
    if let Some(process) = long_process(kept.processes.as_slice()) {
        return Some(process);
    }
    if capped_len(&kept.schedule) > MOST_EVENTS {
        Some(kept.processes.len() as u32)
    } else {
        None
    }
}

fn process_of(alloc: Global, kept: KeptProcess) -> Result<Process, AllocError>
    requires { length kept.script ≤ most_events }
    ensures { IfOk result (λ process. process ≡ process_of_kept kept) }
{
    Ok(Process {
        slots: kept.slots,
        script: kept.script.into_script(alloc)?,
    })
}

fn processes_of(alloc: Global, kept: Items<KeptProcess>) -> Result<Items<Process>, AllocError>
    requires { All (λ process. length process.script ≤ most_events) kept }
    ensures { IfOk result (λ processes. processes ≡ map process_of_kept kept) }
{
    let mut processes = Items::new(alloc);
    for process in kept.into_vec() {
        processes.push(process_of(alloc, process)?)?;
    }
    Ok(processes)
}

/// The pair that was kept, or want of memory. Scripts and schedule stay folded.
pub(crate) fn pair_of(alloc: Global, kept: Kept) -> Result<(Network, FoldedCert), AllocError>
    requires { long_of (scripts_of kept.processes) kept.schedule ≡ None }
    ensures network { IfOk result (λ pair. pair.0 ≡ network_of_kept kept) }
    ensures cert { IfOk result (λ pair. whole_cert pair.1 ≡ cert_of_kept kept) }
{
    let network = Network {
        processes: processes_of(alloc, kept.processes)?,
        channels: kept.channels,
    };
    let schedule = kept.schedule.into_script(alloc)?;
    let rest = Cert {
        sources: kept.sources,
        schedule: Items::new(alloc),
    };
    Ok((network, FoldedCert { rest, schedule }))
}
