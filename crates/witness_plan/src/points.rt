//! A run that is made point by point.
ghost use Rattle.std.specs.Prelude.{◌≡◌, ◌<◌, ◌≤◌, ◌+◌, [], drop, length, map, take, All, IfOk, OnOk};
ghost use Rattle.net_core.specs.Machine.{net_of};
ghost use Rattle.net_core.specs.Shape.{FitsNumbers, IsWired};
ghost use Rattle.witness_plan.specs.Effects.{after_effects, effect_of, first_point, first_points, puts_in_front, HasQueue};
ghost use Rattle.witness_plan.specs.PointRuns.{IsPointRun};
ghost use Rattle.witness_plan.specs.Sequential.{capacities};
ghost use Rattle.witness_plan.specs.Steps.{with_points};

use crate::effects::{Effect, script_effects};
use crate::queues::{QueueTotals, greatest_lengths, note_effect};
use crate::schedules::Witness;
use net_core::{Network, Process, event_count};
use plain_data::Items;
use std::alloc::{AllocError, Global};

// The effects behind the first so many.
fn behind(effects: &[Effect], passed: usize) -> &[Effect]
    requires { passed ≤ length effects.now }
    ensures { result.now ≡ drop passed effects.now }
{
    &effects[passed..]
}

// Notes the effects up to the first that is a Fire's, and with it, or all where there is none. It answers how many these are.
fn pass_fire(effects: &[Effect], queues: &mut [QueueTotals]) -> usize
    requires { All (HasQueue (length queues.old)) effects.now }
    ensures within { result ≤ length effects.now }
    ensures point { first_point effects.now ≡ result + puts_in_front (drop result effects.now) }
    ensures queues { queues.new ≡ after_effects queues.old (take result effects.now) }
{
    let mut passed = 0;
    for effect in effects {
        note_effect(*effect, queues);
        passed += 1;
        if effect.is_nothing() {
            return passed;
        }
    }
    passed
}

// Notes the effects of the Puts that stand in front, and answers how many these are.
fn pass_puts(effects: &[Effect], queues: &mut [QueueTotals]) -> usize
    requires { All (HasQueue (length queues.old)) effects.now }
    ensures within { result ≤ length effects.now }
    ensures puts { result ≡ puts_in_front effects.now }
    ensures queues { queues.new ≡ after_effects queues.old (take result effects.now) }
{
    let mut passed = 0;
    for effect in effects {
        if !effect.is_append() {
            return passed;
        }
        note_effect(*effect, queues);
        passed += 1;
    }
    passed
}

// Notes the effects of the first point, and answers how many these are.
fn pass_point(effects: &[Effect], queues: &mut [QueueTotals]) -> usize
    requires { All (HasQueue (length queues.old)) effects.now }
    ensures within { result ≤ length effects.now }
    ensures point { result ≡ first_point effects.now }
    ensures queues { queues.new ≡ after_effects queues.old (take result effects.now) }
{
    let fired = pass_fire(effects, queues);
    let puts = pass_puts(behind(effects, fired), queues);
    fired + puts
}

// Notes the effects of the first so many points, and answers how many these are.
fn pass_points(effects: &[Effect], count: usize, queues: &mut [QueueTotals]) -> usize
    requires { All (HasQueue (length queues.old)) effects.now }
    ensures within { result ≤ length effects.now }
    ensures points { result ≡ first_points count effects.now }
    ensures queues { queues.new ≡ after_effects queues.old (take result effects.now) }
{
    let mut passed = 0;
    for _ in 0..count {
        passed += pass_point(behind(effects, passed), queues);
    }
    passed
}

/// A run of a network that is made point by point: the numbers of the processes that made its events, for each process what its
/// events do and how many of them it has made, and what each channel's queue has had.
#[derive(Drop)]
pub(crate) struct PointRun {
    schedule: Vec<u32>,
    effects: Vec<Items<Effect>>,
    positions: Vec<usize>,
    queues: Vec<QueueTotals>,
}

// For each process what its events do.
fn effects_of_processes(
    alloc: Global,
    processes: &[Process],
) -> Result<Vec<Items<Effect>>, AllocError>
    ensures { IfOk result (λ effects.
        effects.items ≡ map (λ process. map effect_of process.script) processes.now) }
{
    let mut effects = Vec::with_capacity(alloc, processes.len())?;
    for process in processes {
        effects.push(script_effects(alloc, &process.script)?)?;
    }
    Ok(effects)
}

impl PointRun {
    /// No event yet.
    pub(crate) fn new(alloc: Global, network: &Network) -> Result<PointRun, AllocError>
        requires wired { IsWired (net_of network.now) }
        requires numbers { FitsNumbers (net_of network.now) }
        ensures schedule { IfOk result (λ run. run.schedule.items ≡ []) }
        ensures run { IfOk result (IsPointRun (net_of network.now)) }
    {
        let schedule = Vec::with_capacity(alloc, event_count(network) as usize)?;
        let effects = effects_of_processes(alloc, network.processes.as_slice())?;
        let positions = vec![in alloc; 0; network.processes.len()]?;
        let queues = vec![in alloc; QueueTotals::NONE; network.channels.len()]?;
        Ok(PointRun {
            schedule,
            effects,
            positions,
            queues,
        })
    }

    /// The schedule, and the greatest length of each channel's queue along it.
    pub(crate) fn into_witness(
        self,
        alloc: Global,
        network: &Network,
    ) -> Result<Witness, AllocError>
        requires { IsPointRun (net_of network.now) self }
        ensures schedule { IfOk result (λ witness. witness.schedule ≡ self.schedule.items) }
        ensures capacities { IfOk result
            (λ witness. witness.capacities ≡ capacities network.now self.schedule.items) }
    {
        let _ = network;
        let PointRun {
            schedule,
            queues,
            ..
        } = self;
        let capacities = greatest_lengths(alloc, &queues)?;
        Ok(Witness {
            schedule: Items::from_vec(schedule),
            capacities,
        })
    }

    /// Lets a process make the events of so many points.
    pub(crate) fn make_points(
        &mut self,
        network: &Network,
        process: u32,
        count: usize,
    ) -> Result<(), AllocError>
        requires run { IsPointRun (net_of network.now) self.old }
        requires process { 0 < count → process < length network.now.processes }
        ensures schedule { OnOk result
            (self.new.schedule.items
            ≡ with_points (net_of network.now) self.old.schedule.items process count) }
        ensures run { OnOk result (IsPointRun (net_of network.now) self.new) }
    {
        let _ = network;
        if count == 0 {
            return Ok(());
        }
        let at = process as usize;
        let position = self.positions[at];
        let effects = behind(self.effects[at].as_slice(), position);
        let passed = pass_points(effects, count, &mut self.queues);
        self.positions[at] = position + passed;
        let entries = self.schedule.len() + passed;
        self.schedule.resize(entries, process)?;
        Ok(())
    }
}
