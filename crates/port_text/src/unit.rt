ghost use Rattle.std.specs.Prelude.{◌≡◌, length, map, IfOk};
ghost use Rattle.std.specs.List.{AllZip};
ghost use Rattle.std.specs.Option.{option_copied};
ghost use Rattle.script_blocks.specs.Nesting.{greatest};
ghost use Rattle.port_items.specs.Items.{fire_items};
ghost use Rattle.unit_text.specs.Units.{IsSequencerOf};
ghost use Rattle.port_text.specs.Limits.{first_with_long_sequencer as first_with_long, get_instructions, has_long_sequencer as has_long, put_instructions};
ghost use Rattle.port_text.specs.Units.{IsGetControlOf, IsPutControlOf};

use net_core::{Event, Refs};
use node_automata::NodeAuto;
use plain_data::Items;
use port_items::{GetItem, PutItem, fires_of, get_port, put_port};
use repeat_sequencer::Sequencer;
use script_blocks::Script;
use std::alloc::{AllocError, Global};
use unit_text::{HasUnit, MOST_INSTRUCTIONS, Unit, longest_of, sequencer_of};

/// The control of the port at which a process gets from a channel.
#[derive(Drop)]
pub struct GetControl {
    pub channel: u32,
    /// Whether the port waits for a fire at first, which its sequencer then gives last.
    pub waits: bool,
    pub items: Sequencer<GetItem>,
}

/// The control of the port at which a process puts to a channel.
#[derive(Drop)]
pub struct PutControl {
    pub channel: u32,
    pub items: Sequencer<PutItem>,
}

/// The hardware of a process whose ports go each at its own pace: what it does with the counters of its loops, a sequencer for its
/// fires, and the controls of its ports, ascending by channels. The sequencer of its whole script is no part of the text.
#[derive(Drop)]
pub struct PortUnit {
    pub unit: Unit,
    pub fires: Sequencer<Refs>,
    pub gets: Items<GetControl>,
    pub puts: Items<PutControl>,
}

// The sequencer of the fires of a script.
fn fires_sequencer(alloc: Global, script: &Script<Event>) -> Result<Sequencer<Refs>, AllocError>
    ensures { IfOk result (IsSequencerOf (fire_items script.now)) }
{
    let fires = fires_of(alloc, script)?;
    sequencer_of(alloc, &fires)
}

fn get_control(
    alloc: Global,
    script: &Script<Event>,
    channel: u32,
) -> Result<GetControl, AllocError>
    ensures { IfOk result (IsGetControlOf script.now channel) }
{
    let port = get_port(alloc, script, channel)?;
    let items = sequencer_of(alloc, &port.items)?;
    Ok(GetControl {
        channel,
        waits: port.waits,
        items,
    })
}

fn put_control(
    alloc: Global,
    script: &Script<Event>,
    channel: u32,
) -> Result<PutControl, AllocError>
    ensures { IfOk result (IsPutControlOf script.now channel) }
{
    let port = put_port(alloc, script, channel)?;
    let items = sequencer_of(alloc, &port)?;
    Ok(PutControl { channel, items })
}

// The controls of the ports at which a process of this script gets from these channels.
fn get_controls(
    alloc: Global,
    script: &Script<Event>,
    channels: &[u32],
) -> Result<Items<GetControl>, AllocError>
    ensures { IfOk result (AllZip (IsGetControlOf script.now) channels.now) }
{
    let mut controls = Items::new(alloc);
    for channel in channels {
        controls.push(get_control(alloc, script, *channel)?)?;
    }
    Ok(controls)
}

// The controls of the ports at which a process of this script puts to these channels.
fn put_controls(
    alloc: Global,
    script: &Script<Event>,
    channels: &[u32],
) -> Result<Items<PutControl>, AllocError>
    ensures { IfOk result (AllZip (IsPutControlOf script.now) channels.now) }
{
    let mut controls = Items::new(alloc);
    for channel in channels {
        controls.push(put_control(alloc, script, *channel)?)?;
    }
    Ok(controls)
}

// The most instructions that one of these sequencers has.
fn longest_get(controls: &[GetControl]) -> usize
    ensures { result ≡ greatest (map get_instructions controls.now) }
{
    let mut most: usize = 0;
    for control in controls {
        most = most.max(control.items.instructions.len());
    }
    most
}

fn longest_put(controls: &[PutControl]) -> usize
    ensures { result ≡ greatest (map put_instructions controls.now) }
{
    let mut most: usize = 0;
    for control in controls {
        most = most.max(control.items.instructions.len());
    }
    most
}

impl HasUnit for PortUnit {
    ghost unit_of = { λ unit. unit.unit };

    fn unit(&self) -> &Unit {
        &self.unit
    }
}

impl PortUnit {
    ghost use Rattle.std.specs.Prelude.{◌≡◌, ◌<◌, ◌^◌, length, max, map, IfOk};
    ghost use Rattle.script_blocks.specs.Nesting.{greatest};
    ghost use Rattle.port_text.specs.Limits.{most_instructions, port_instructions};
    ghost use Rattle.port_text.specs.Units.{IsPortUnitOf};

    /// The hardware of a process that has this automaton, or want of memory. The sequencers of its fires and of its ports are folded
    /// as well as it is found. That they are small is promised by no clause.
    pub fn of(alloc: Global, auto: NodeAuto) -> Result<PortUnit, AllocError>
        requires { length auto.values < 2 ^ 32 }
        ensures { IfOk result (λ unit. IsPortUnitOf auto unit) }
    {
        let fires = fires_sequencer(alloc, &auto.events)?;
        let gets = get_controls(alloc, &auto.events, auto.gets.as_slice())?;
        let puts = put_controls(alloc, &auto.events, auto.puts.as_slice())?;
        let unit = Unit::of(alloc, auto)?;
        Ok(PortUnit {
            unit,
            fires,
            gets,
            puts,
        })
    }

    // The most instructions that the sequencer of one of its ports has.
    fn longest_port(&self) -> usize
        ensures { result ≡ port_instructions self.now }
    {
        longest_get(self.gets.as_slice()).max(longest_put(self.puts.as_slice()))
    }

    /// The most instructions that one of its sequencers has: that of its fires, of a port, or of what a loop gains. It takes no
    /// memory, and the time of a look at each port and each loop.
    pub fn longest_sequencer(&self) -> usize
        ensures { result ≡ most_instructions self.now }
    {
        self.fires
            .instructions
            .len()
            .max(self.longest_port())
            .max(longest_of(self.unit.loops.as_slice()))
    }
}

fn has_long_sequencer(unit: &PortUnit) -> bool
    ensures { result ≡ has_long unit.now }
{
    unit.longest_sequencer() > MOST_INSTRUCTIONS
}

/// The first of these units with a sequencer that is too long for a design: it has more than 65,536 instructions, as
/// `longest_sequencer` tells. It takes no memory.
pub fn first_with_long_sequencer(units: &[PortUnit]) -> Option<&PortUnit>
    ensures { option_copied result ≡ first_with_long units.now }
{
    for unit in units {
        if has_long_sequencer(unit) {
            return Some(unit);
        }
    }
    None
}
