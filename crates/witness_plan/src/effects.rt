//! Scripts by what their events do to the queues.
ghost use Rattle.std.specs.Prelude.{◌≡◌, ◌∷◌, ◌++◌, ℕ, List, map, IfOk, IsFalse, IsTrue, OnOk};
ghost use Rattle.script_blocks.specs.Expansion.{part_expansion, parts_expansion, repeated};
ghost use Rattle.witness_plan.specs.declared.effects.Effect.{Effect};
ghost use Rattle.witness_plan.specs.declared.effects.Effect.TheVariants.{Append, Nothing};
ghost use Rattle.witness_plan.specs.Effects.{effect_of, puts_in_front};

use net_core::Event;
use plain_data::Items;
use script_blocks::{BlockPart, Script};
use std::alloc::{AllocError, Global};

/// What an event does to the queues. It doesn't tell slots and references, so it takes eight bytes.
#[derive(Clone, Copy)]
pub(crate) enum Effect {
    /// Takes the front of a channel's queue: a Get.
    Take(u32),
    /// Leaves all queues as they are: a Fire.
    Nothing,
    /// Appends to a channel's queue: a Put.
    Append(u32),
}

impl Effect {
    /// Whether it is that of a Fire.
    pub(crate) fn is_nothing(self) -> bool
        ensures fire { IsTrue result → self ≡ Nothing }
        ensures other { IsFalse result → self ≡ Nothing → ⊥ }
    {
        matches!(self, Effect::Nothing)
    }

    /// Whether it is that of a Put, of whichever channel.
    pub(crate) fn is_append(self) -> bool
        ensures put { IsTrue result → (channel : ℕ) × (self ≡ Append channel) }
        ensures other { IsFalse result
            → (effects : List Effect) → puts_in_front (self ∷ effects) ≡ 0 }
    {
        matches!(self, Effect::Append(_))
    }
}

// What an event does.
fn effect_of(event: &Event) -> Effect
    ensures { result ≡ effect_of event.now }
{
    match event {
        Event::Get { channel, .. } => Effect::Take(*channel),
        Event::Fire { .. } => Effect::Nothing,
        Event::Put { channel } => Effect::Append(*channel),
    }
}

// Adds what the events do for which these parts stand.
#[cycle(adding)]
fn add_parts(parts: &[BlockPart<Event>], effects: &mut Vec<Effect>) -> Result<(), AllocError>
    ensures { OnOk result
        (effects.new.items ≡ effects.old.items ++ map effect_of (parts_expansion parts.now)) }
{
    for part in parts {
        add_part(part, effects)?;
    }
    Ok(())
}

#[cycle(adding)]
fn add_part(part: &BlockPart<Event>, effects: &mut Vec<Effect>) -> Result<(), AllocError>
    ensures { OnOk result
        (effects.new.items ≡ effects.old.items ++ map effect_of (part_expansion part.now)) }
{
    match part {
        BlockPart::Item(event) => {
            effects.push(effect_of(event))?;
            Ok(())
        }
        BlockPart::Repeat(count, body) => add_copies(*count, body.parts.as_slice(), effects),
    }
}

// The same of so many copies of these parts. What the first one does is copied.
#[cycle(adding)]
fn add_copies(
    count: u32,
    parts: &[BlockPart<Event>],
    effects: &mut Vec<Effect>,
) -> Result<(), AllocError>
    ensures { OnOk result
        (effects.new.items
        ≡ effects.old.items ++ map effect_of (repeated count (parts_expansion parts.now))) }
{
    if count == 0 {
        return Ok(());
    }
    let start = effects.len();
    add_parts(parts, effects)?;
    let end = effects.len();
    for _ in 1..count {
        effects.extend_from_within(start..end)?;
    }
    Ok(())
}

/// What the events of a script do, in order.
pub(crate) fn script_effects(
    alloc: Global,
    script: &Script<Event>,
) -> Result<Items<Effect>, AllocError>
    ensures { IfOk result (λ effects. effects ≡ map effect_of script.now) }
{
    let mut effects = Vec::with_capacity(alloc, script.len() as usize)?;
    add_parts(script.blocks().parts.as_slice(), &mut effects)?;
    Ok(Items::from_vec(effects))
}
