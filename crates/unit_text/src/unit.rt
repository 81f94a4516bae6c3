ghost use Rattle.std.specs.Prelude.{◌≡◌, ◌<◌, ◌^◌, length, map, slice_index_or, All, IfOk};
ghost use Rattle.std.specs.Option.{option_copied};
ghost use Rattle.script_blocks.specs.Nesting.{greatest};
ghost use Rattle.unit_text.specs.Limits.{first_with_long_sequencer as first_with_long, gain_instructions, has_long_sequencer as has_long};
ghost use Rattle.unit_text.specs.Units.{gain, gains_round, loop_values, names_loop, named_loops, IsCounterOf, IsSequencerOf};
ghost use Rattle.unit_text.specs.declared.unit.Unit.{Unit};

use affine_core::Vector;
use net_core::Event;
use node_automata::NodeAuto;
use plain_data::Items;
use repeat_sequencer::Sequencer;
use script_blocks::Script;
use std::alloc::{AllocError, Global};
use vhdl_text::value_at;
use wrap_expr::Expr;

/// The most instructions of a sequencer in a design.
pub const MOST_INSTRUCTIONS: usize = 65_536;

/// A counter for a loop that the expression of a process names.
#[derive(Drop)]
pub struct LoopCounter {
    /// The number of the loop, outermost first.
    pub number: u32,
    /// Its value at the first point, or 0 where there is no point.
    pub first: i64,
    /// What the value gains from each point to the next, and from the last to the first, with wrapping.
    pub gains: Sequencer<i64>,
}

/// The hardware of a process: what it does, a sequencer for its script, and a counter for each loop that its expression
/// names, ascending.
#[derive(Drop)]
pub struct Unit {
    pub auto: NodeAuto,
    pub control: Sequencer<Event>,
    pub loops: Items<LoopCounter>,
}

/// What has the hardware of a process.
pub trait HasUnit {
    ghost unit_of: { Self → Unit };

    /// This hardware. It takes no memory.
    fn unit(&self) -> &Unit
        ensures { result.now ≡ unit_of self.now };
}

impl HasUnit for Unit {
    ghost unit_of = { λ unit. unit };

    fn unit(&self) -> &Unit {
        self
    }
}

// Whether an expression names the loop of this number. Its stack grows with the depth of the expression.
#[cycle(names)]
fn names(expr: &Expr, number: u32) -> bool
    ensures { result ≡ names_loop number expr.now }
{
    match expr {
        Expr::Var(loop_number) => *loop_number == number,
        Expr::Const(_) | Expr::Read(_) | Expr::Given => false,
        Expr::Add(a, b) | Expr::Sub(a, b) | Expr::Mul(a, b) | Expr::Min(a, b) | Expr::Max(a, b) =>
            names(a.get(), number) || names(b.get(), number),
        Expr::Neg(a) => names(a.get(), number),
    }
}

// The value of a loop at the point of this place, or another value where there is none.
fn loop_value(points: &[Vector], number: u32, place: usize, other: i64) -> i64
    ensures { result ≡ slice_index_or (loop_values number points.now) place other }
{
    match points.get(place) {
        Some(at) => value_at(at, number),
        None => other,
    }
}

// What the value of a loop gains at the point of this place.
fn gain_at(points: &[Vector], number: u32, place: usize) -> i64
    requires { place < length points.now }
    ensures { result ≡ gain (loop_values number points.now) place }
{
    let first = loop_value(points, number, 0, 0);
    let next = loop_value(points, number, place + 1, first);
    next.wrapping_sub(loop_value(points, number, place, 0))
}

// What a loop's value gains, from each point to the next, and from the last to the first.
fn gains_of(alloc: Global, points: &[Vector], number: u32) -> Result<Items<i64>, AllocError>
    ensures { IfOk result (λ gains. gains ≡ gains_round (loop_values number points.now)) }
{
    let mut gains = Items::new(alloc);
    for place in 0..points.len() {
        gains.push(gain_at(points, number, place))?;
    }
    Ok(gains)
}

/// The sequencer of a script as it is kept, or want of memory.
pub fn sequencer_of<T: Copy>(alloc: Global, script: &Script<T>) -> Result<Sequencer<T>, AllocError>
    ensures { IfOk result (IsSequencerOf script.now) }
{
    Sequencer::of_blocks(alloc, script.blocks())
}

// A sequencer of these values, folded as well as it is found.
fn folded_sequencer(alloc: Global, values: &[i64]) -> Result<Sequencer<i64>, AllocError>
    requires { length values.now < 2 ^ 32 }
    ensures { IfOk result (IsSequencerOf values.now) }
{
    let script = Script::folded(alloc, values)?;
    sequencer_of(alloc, &script)
}

// The counter of a loop over these points.
fn loop_counter(alloc: Global, points: &[Vector], number: u32) -> Result<LoopCounter, AllocError>
    requires { length points.now < 2 ^ 32 }
    ensures counter { IfOk result (IsCounterOf points.now) }
    ensures number { IfOk result (λ counter. counter.number ≡ number) }
{
    let gained = gains_of(alloc, points, number)?;
    let gains = folded_sequencer(alloc, gained.as_slice())?;
    let first = loop_value(points, number, 0, 0);
    Ok(LoopCounter {
        number,
        first,
        gains,
    })
}

// The counters of the loops that the expression of an automaton names, ascending.
fn loop_counters(alloc: Global, auto: &NodeAuto) -> Result<Items<LoopCounter>, AllocError>
    requires { length auto.now.values < 2 ^ 32 }
    ensures numbers { IfOk result
        (λ loops. map (λ counter. counter.number) loops ≡ named_loops auto.now) }
    ensures counters { IfOk result (λ loops. All (IsCounterOf auto.now.values) loops) }
{
    let points = auto.values.as_slice();
    let mut loops = Items::new(alloc);
    for number in 0..auto.depth {
        if names(&auto.expr, number) {
            loops.push(loop_counter(alloc, points, number)?)?;
        }
    }
    Ok(loops)
}

/// The most instructions that the sequencer of one of these counters has. It takes no memory.
pub fn longest_of(loops: &[LoopCounter]) -> usize
    ensures { result ≡ greatest (map gain_instructions loops.now) }
{
    let mut most: usize = 0;
    for counter in loops {
        most = most.max(counter.gains.instructions.len());
    }
    most
}

impl Unit {
    ghost use Rattle.std.specs.Prelude.{◌≡◌, ◌<◌, ◌^◌, length, IfOk};
    ghost use Rattle.unit_text.specs.Limits.{most_instructions};
    ghost use Rattle.unit_text.specs.Units.{IsUnitOf};

    /// The hardware of a process that has this automaton, or want of memory. Its sequencers are of the script as it is kept,
    /// and of what the loops gain, folded as well as it is found. That they are small is promised by no clause.
    pub fn of(alloc: Global, auto: NodeAuto) -> Result<Unit, AllocError>
        requires { length auto.values < 2 ^ 32 }
        ensures { IfOk result (λ unit. IsUnitOf auto unit) }
    {
        let control = sequencer_of(alloc, &auto.events)?;
        let loops = loop_counters(alloc, &auto)?;
        Ok(Unit {
            auto,
            control,
            loops,
        })
    }

    /// The most instructions that one of its sequencers has: that of its script, or one of what a loop gains. It takes no memory,
    /// and the time of a look at each loop.
    pub fn longest_sequencer(&self) -> usize
        ensures { result ≡ most_instructions self.now }
    {
        self.control
            .instructions
            .len()
            .max(longest_of(self.loops.as_slice()))
    }
}

fn has_long_sequencer(unit: &Unit) -> bool
    ensures { result ≡ has_long unit.now }
{
    unit.longest_sequencer() > MOST_INSTRUCTIONS
}

/// The first of these units with a sequencer that is too long for a design: it has more than 65,536 instructions, as
/// `longest_sequencer` tells. It takes no memory.
pub fn first_with_long_sequencer(units: &[Unit]) -> Option<&Unit>
    ensures { option_copied result ≡ first_with_long units.now }
{
    for unit in units {
        if has_long_sequencer(unit) {
            return Some(unit);
        }
    }
    None
}
