ghost use Rattle.std.specs.Prelude.{◌≡◌, ◌<◌, ◌≤◌, ◌-◌, ℕ, false, length};
ghost use Rattle.std.specs.List.{find, range_with_len};
ghost use Rattle.net_core.specs.Cuts.{enabled_at};
ghost use Rattle.net_core.specs.Machine.{net_of};
ghost use Rattle.net_core.specs.Progress.{IsProgress, at_capacities, cut_of};
ghost use Rattle.witness_plan.specs.Records.{IsOwn};
ghost use Rattle.cap_trim.specs.LeastRuns.{LeadsTo, least_after};

use net_core::{Event, Network, Progress};

// The least process from this one on that may go on.
fn least_enabled(
    progress: &Progress,
    network: &Network,
    capacities: &[u32],
    from: u32,
) -> Option<u32>
    requires progress { IsProgress (net_of network.now) progress.now }
    requires capacities { length capacities.now ≡ length network.now.channels }
    requires from { from ≤ length network.now.processes }
    ensures { result
        ≡ find
        (enabled_at (at_capacities (net_of network.now) capacities.now) (cut_of progress.now))
        (range_with_len from (length network.now.processes - from)) }
{
    let count = network.processes.len() as u32;
    let mut process = from;
    while process < count {
        if progress.is_enabled(network, capacities, process) {
            return Some(process);
        }
        process += 1;
    }
    None
}

// The least process that an event of this process, the least enabled one, may have left or made enabled: at a Get that is
// also the channel's writer, and at a Put its reader.
fn least_after(network: &Network, process: u32, event: &Event) -> u32
    requires own { IsOwn (net_of network.now) process event.now }
    ensures { result ≡ least_after (net_of network.now) process event.now }
{
    let channels = network.channels.as_slice();
    match event {
        Event::Get { channel, .. } => process.min(channels[*channel as usize].writer),
        Event::Fire { .. } => process,
        Event::Put { channel } => process.min(channels[*channel as usize].reader),
    }
}

/// Lets a network with these capacities go on until no process is enabled. The least enabled process makes the next event.
/// It takes the time of its events, each with a look at the processes from the least one that the last event may have left
/// or made enabled, and no memory.
pub(crate) fn go_on(progress: &mut Progress, network: &Network, capacities: &[u32])
    requires progress { IsProgress (net_of network.now) progress.old }
    requires capacities { length capacities.now ≡ length network.now.channels }
    ensures progress { IsProgress (net_of network.now) progress.new }
    ensures run { LeadsTo (at_capacities (net_of network.now) capacities.now) (cut_of progress.old)
        (cut_of progress.new) }
    ensures stuck { (p : ℕ)
        → enabled_at (at_capacities (net_of network.now) capacities.now) (cut_of progress.new) p
        ≡ false }
{
    let mut from = 0;
    while let Some(process) = least_enabled(progress, network, capacities, from) {
        let event = progress.make_event(network, process);
        from = least_after(network, process, &event);
    }
}
