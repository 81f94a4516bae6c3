ghost use Rattle.std.specs.Prelude.{◌≡◌, ◌<◌, ◌^◌, length, IfOk};
ghost use Rattle.net_core.specs.Machine.{net_of};
ghost use Rattle.net_core.specs.Shape.{FitsNumbers};
ghost use Rattle.net_core.specs.Sound.{IsSound};
ghost use Rattle.sanlp.specs.Size.{SizeIsOk};
ghost use Rattle.text_out.specs.Wrote.{Wrote};
ghost use Rattle.command_answers.specs.Judging.{Judges};
ghost use Rattle.command_answers.specs.Printing.{Prints};
ghost use Rattle.call_endings.specs.Changes.{Writes, change};
ghost use Rattle.rtl_answers.specs.Answering.{as_reply};
ghost use Rattle.clock_sim.specs.Clocks.{clocks};
ghost use Rattle.rtl_answers.specs.Clocking.{clocks_for, clocks_lines, clocks_of, clocks_text, clocks_with, down_clocks};

use crate::answer::Answer;
use crate::networks::{NestPoints, network_for};
use bundle::parts_of;
use clock_sim::simulate;
use command_answers::{Stop, sized_nest};
use io_edge::{Sink, WriteFault};
use loop_class::Params;
use loop_walk::points;
use net_core::{Network, WiredNetwork};
use node_automata::automata;
use plain_data::Items;
use port_sim::{clock_count, sound_networks_end};
use rtl_line::{Policy, Ports};
use sanlp::{Inputs, Nest};
use std::alloc::{AllocError, Global};
use text_out::{TextWriter, Word, Writer, write_line};

/// How many clocks a nest's network takes.
#[derive(Drop)]
pub struct Clocks {
    pub clocks: u64,
    /// Beside least capacities, how many it takes with those that the schedule `down` needs.
    pub down: Option<u64>,
}

// The number of clocks of the clocked run of a network's scripts. It doesn't hang on values, so the arrays that are given are empty.
fn script_clocks(
    alloc: Global,
    nest_points: &NestPoints,
    network: &Network,
) -> Result<u64, AllocError>
    requires numbers { FitsNumbers (net_of network.now) }
    requires sound { IsSound nest_points.now.nest.now network.now }
    ensures { IfOk result (λ count. count ≡ clocks (net_of network.now)) }
{
    let nest = nest_points.nest;
    let points = nest_points.points;
    let autos = automata(alloc, nest, points, network)?;
    let nothing = Inputs {
        arrays: Items::new(alloc),
    };
    let clocked = simulate(alloc, nest, points, &nothing, network, &autos)?;
    Ok(clocked.clocks)
}

// The number of clocks of a network whose ports take turns so.
fn clocks_with(
    alloc: Global,
    ports: Ports,
    nest_points: &NestPoints,
    network: &Network,
) -> Result<u64, AllocError>
    requires numbers { FitsNumbers (net_of network.now) }
    requires sound { IsSound nest_points.now.nest.now network.now }
    ensures { IfOk result (λ count. count ≡ clocks_with ports (net_of network.now)) }
{
    match ports {
        Ports::One => script_clocks(alloc, nest_points, network),
        Ports::All => {
            sound_networks_end();
            let wired = WiredNetwork { network };
            clock_count(alloc, &wired)
        }
    }
}

// The number of clocks of a nest's network.
fn clocks_for(
    alloc: Global,
    ports: Ports,
    policy: Policy,
    nest_points: &NestPoints,
) -> Result<u64, AllocError>
    ensures { IfOk result (λ count. count ≡ clocks_for ports policy nest_points.now.nest.now) }
{
    let network = network_for(alloc, policy, nest_points)?;
    clocks_with(alloc, ports, nest_points, &network)
}

// Beside least capacities, the number of clocks with those that the schedule `down` needs.
fn down_clocks(
    alloc: Global,
    ports: Ports,
    policy: Policy,
    nest_points: &NestPoints,
) -> Result<Option<u64>, AllocError>
    ensures { IfOk result (λ down. down ≡ down_clocks ports policy nest_points.now.nest.now) }
{
    match policy {
        Policy::Seq | Policy::Down => Ok(None),
        Policy::Least => {
            let clocks = clocks_for(alloc, ports, Policy::Down, nest_points)?;
            Ok(Some(clocks))
        }
    }
}

fn clocks_of(alloc: Global, ports: Ports, policy: Policy, nest: &Nest) -> Result<Clocks, AllocError>
    requires { SizeIsOk nest.now }
    ensures { IfOk result (λ told. told ≡ clocks_of ports policy nest.now) }
{
    let points = points(alloc, nest)?;
    let nest_points = NestPoints {
        nest,
        points: &points,
    };
    let clocks = clocks_for(alloc, ports, policy, &nest_points)?;
    let down = down_clocks(alloc, ports, policy, &nest_points)?;
    Ok(Clocks { clocks, down })
}

/// The clocks of the network of a bundle's source, where its ports take turns so.
pub(crate) fn count_clocks(
    alloc: Global,
    ports: Ports,
    policy: Policy,
    params: &Params,
    bundle: &[u8],
) -> Result<Answer, Stop>
    requires { length bundle.now < 2 ^ 32 }
    ensures { Judges
        (λ answer. Prints (clocks_text ports policy) params.now bundle.now (as_reply answer)) result }
{
    let parts = parts_of(bundle);
    let nest = sized_nest(alloc, parts.source, params)?;
    let told = clocks_of(alloc, ports, policy, &nest)?;
    Ok(Answer::Clocks(told))
}

fn write_lines<W: TextWriter>(told: &Clocks, out: &mut W)
    ensures { Wrote W.given out.old out.new (clocks_lines told.now) }
{
    write_line(&[Word::Text(b"clocks"), Word::Number(told.clocks)], out);
    if let Some(down) = told.down {
        write_line(&[Word::Text(b"down"), Word::Number(down)], out);
    }
}

/// Writes the lines of clocks. It takes no memory.
pub(crate) fn write_clocks<K: Sink>(told: &Clocks, sink: &mut K) -> Result<(), WriteFault>
    ensures { Writes (change K.held K.faults sink.old sink.new) (clocks_lines told.now) result }
{
    let mut out = Writer::new(sink);
    write_lines(told, &mut out);
    out.finish()
}
