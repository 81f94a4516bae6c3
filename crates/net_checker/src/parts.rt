ghost use Rattle.std.specs.Prelude.{◌≡◌, ◌<◌, length};
ghost use Rattle.net_core.specs.Machine.{net_of};
ghost use Rattle.net_core.specs.Shape.{turns};
ghost use Rattle.net_checker.specs.Shapes.{read_total};
ghost use Rattle.sanlp.specs.Access.{read_count};

use net_core::{Event, Network, Process};
use sanlp::{Nest, Points, reads_before};
use script_blocks::Script;

// A process.
pub(crate) fn process_of(network: &Network, process: u32) -> &Process
    requires { process < length network.now.processes }
    ensures script { result.now.script ≡ (net_of network.now).script process }
    ensures slots { result.now.slots ≡ (net_of network.now).slots process }
{
    &network.processes.as_slice()[process as usize]
}

// The script of a process.
pub(crate) fn script_of(network: &Network, process: u32) -> &Script<Event>
    requires { process < length network.now.processes }
    ensures { result.now ≡ (net_of network.now).script process }
{
    &process_of(network, process).script
}

// The number of a process's slots. A process that isn't there has none.
pub(crate) fn slots_of(network: &Network, process: u32) -> u32
    ensures { result ≡ (net_of network.now).slots process }
{
    match network.processes.get(process as usize) {
        Some(process) => process.slots,
        None => 0,
    }
}

// The writer of a channel.
pub(crate) fn writer_of(network: &Network, channel: u32) -> u32
    ensures { result ≡ (net_of network.now).writer channel }
{
    match network.channels.get(channel as usize) {
        Some(channel) => channel.writer,
        None => 0,
    }
}

// The capacity of a channel.
pub(crate) fn capacity_of(network: &Network, channel: u32) -> u32
    ensures { result ≡ (net_of network.now).capacity channel }
{
    match network.channels.get(channel as usize) {
        Some(channel) => channel.capacity,
        None => 0,
    }
}

// How many points a process has.
#[tactic(auto, using(crate::proofs::Lists::default_items))]
pub(crate) fn turns_of(points: &Points, process: u32) -> usize
    ensures { result ≡ turns points.now.of process }
{
    match points.of.get(process as usize) {
        Some(vectors) => vectors.len(),
        None => 0,
    }
}

// How many reads a process's statement has.
pub(crate) fn reads_of(nest: &Nest, process: u32) -> usize
    ensures { result ≡ read_count nest.now process }
{
    match nest.statements.get(process as usize) {
        Some(statement) => statement.reads.len(),
        None => 0,
    }
}

// How many reads all statements have together.
pub(crate) fn read_total(nest: &Nest) -> usize
    ensures { result ≡ read_total nest.now }
{
    reads_before(nest, nest.statements.len())
}
