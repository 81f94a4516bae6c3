ghost use Rattle.std.specs.Prelude.{◌≡◌, ◌+◌, ◌-◌, ◌^◌, ◌<◌, ◌≤◌, ℕ, [], length, vec_len, vec_capacity, IfOk, Some, slice_get};
ghost use Rattle.sanlp.specs.Points.{points_of};
ghost use Rattle.sanlp.specs.WellFormed.{output_numbers};
ghost use Rattle.net_core.specs.Machine.{net_of};
ghost use Rattle.net_core.specs.Shape.{IsShaped, FitsNumbers, turns};
ghost use Rattle.net_core.specs.Sound.{sink_lists_from};
ghost use Rattle.net_core.specs.Rooms.{fresh_store};
ghost use Rattle.thread_runner.specs.Benches.{IsFreshBench, AreFreshRooms, HaveSpace};

use net_core::{Network, Room, State, kept, start};
use plain_data::Items;
use sanlp::{ArrayDecl, Arrays, Nest, Points};
use std::alloc::{AllocError, Global};

/// All memory that a run needs besides its ends and its starts: a fresh room for each process, the answer's lists with room
/// for all cells, and an opening state of the machine.
#[derive(Drop)]
pub struct Bench {
    pub(crate) rooms: Vec<Room<i64>>,
    // For each sink a list, that of the last sink first.
    pub(crate) lists: Vec<Vec<i64>>,
    pub(crate) arrays: Vec<Items<i64>>,
    pub(crate) state: State<i64>,
}

impl Bench {
    /// A fresh bench for this network.
    pub fn new(
        alloc: Global,
        nest: &Nest,
        points: &Points,
        network: &Network,
    ) -> Result<Bench, AllocError>
        requires points { points.now.of ≡ points_of nest.now }
        requires shaped { IsShaped (net_of network.now) points.now.of }
        requires numbers { FitsNumbers (net_of network.now) }
        ensures { IfOk result (λ bench. IsFreshBench nest.now network.now bench) }
    {
        let rooms = fresh_rooms(alloc, network, points)?;
        let lists = empty_lists(alloc, nest, points)?;
        let arrays = Vec::with_capacity(alloc, nest.arrays.len())?;
        let state = start(alloc, network, points)?;
        Ok(Bench {
            rooms,
            lists,
            arrays,
            state,
        })
    }
}

fn fresh_rooms(
    alloc: Global,
    network: &Network,
    points: &Points,
) -> Result<Vec<Room<i64>>, AllocError>
    requires shaped { IsShaped (net_of network.now) points.now.of }
    requires numbers { FitsNumbers (net_of network.now) }
    ensures { IfOk result
        (λ rooms. AreFreshRooms network.now (length network.now.processes) rooms.items) }
{
    let mut rooms = Vec::new(alloc);
    for process in 0..network.processes.len() {
        rooms.push(Room::new(alloc, network, points, process as u32)?)?;
    }
    Ok(rooms)
}

// How many of these arrays are printed.
fn output_count(arrays: &[ArrayDecl]) -> usize
    ensures { result ≡ length (output_numbers arrays.now) }
{
    let mut count = 0;
    for array in arrays {
        if array.kind.is_output() {
            count += 1;
        }
    }
    count
}

// An empty list for each sink, with room for a value for each of its points. The last sink's comes first.
fn empty_lists(alloc: Global, nest: &Nest, points: &Points) -> Result<Vec<Vec<i64>>, AllocError>
    requires { points.now.of ≡ points_of nest.now }
    ensures number { IfOk result
        (λ lists. length lists.items ≡ length (output_numbers nest.now.arrays)) }
    ensures space { IfOk result
        (λ lists. HaveSpace (turns (points_of nest.now)) (length nest.now.statements) lists.items) }
{
    let mut lists = Vec::new(alloc);
    let mut sink = nest.statements.len();
    for _ in 0..output_count(nest.arrays.as_slice()) {
        sink -= 1;
        lists.push(Vec::with_capacity(alloc, points.of.as_slice()[sink].len())?)?;
    }
    Ok(lists)
}

/// What the processes have kept.
pub(crate) trait Keeper {
    ghost use Rattle.std.specs.Prelude.{ℕ, ℤ, List};

    ghost processes: { Self → ℕ };

    ghost values: { Self → ℕ → List ℤ };

    fn kept(&self, process: u32) -> &[i64]
        requires { process < processes self.now }
        ensures { result.now ≡ values self.now process };
}

impl Keeper for State<i64> {
    ghost use Rattle.net_core.specs.Held.{held_of, run_of};

    ghost processes = { λ state. (held_of state).processes };

    ghost values = { λ state p. ((run_of state).local p).kept };

    fn kept(&self, process: u32) -> &[i64] {
        kept(self, process)
    }
}

/// The rooms of all processes.
#[derive(Clone, Copy)]
pub(crate) struct Rooms<'a> {
    pub(crate) rooms: &'a [Room<i64>],
}

impl<'a> Keeper for Rooms<'a> {
    ghost use Rattle.std.specs.Prelude.{length};
    ghost use Rattle.thread_runner.specs.Benches.{kept_in};

    ghost processes = { λ all. length all.rooms.now };

    ghost values = { λ all. kept_in all.rooms.now };

    fn kept(&self, process: u32) -> &[i64] {
        self.rooms[process as usize].kept()
    }
}

// A list of these values, in the room of an empty list.
fn filled(mut list: Vec<i64>, values: &[i64]) -> Items<i64>
    requires empty { list.items ≡ [] }
    requires space { length values.now ≤ vec_capacity list }
    ensures { result ≡ values.now }
{
    for value in values {
        list.push_reserved(*value);
    }
    Items::from_vec(list)
}

/// The lists that the sinks have kept, one for each declared array, which is empty where it is no output. It takes no memory.
pub(crate) fn gathered<K: Keeper>(
    alloc: Global,
    nest: &Nest,
    keeper: &K,
    mut lists: Vec<Vec<i64>>,
    mut arrays: Vec<Items<i64>>,
) -> Arrays
    requires processes { (K.processes keeper.now ≡ length nest.now.statements)
        × (length nest.now.statements < 2 ^ 32) }
    requires values { (p : ℕ) → length (K.values keeper.now p) ≤ turns (points_of nest.now) p }
    requires lists { (length lists.items ≡ length (output_numbers nest.now.arrays))
        × HaveSpace (turns (points_of nest.now)) (length nest.now.statements) lists.items }
    requires arrays { (arrays.items ≡ []) × (length nest.now.arrays ≤ vec_capacity arrays) }
    ensures { result.arrays
        ≡ sink_lists_from (K.values keeper.now)
        (length nest.now.statements - length (output_numbers nest.now.arrays)) nest.now.arrays }
{
    let mut sink = nest.statements.len() - output_count(nest.arrays.as_slice());
    for array in nest.arrays.as_slice() {
        if array.kind.is_output() {
            let Some(list) = lists.pop() else {
                unreachable!();
            };
            arrays.push_reserved(filled(list, keeper.kept(sink as u32)));
            sink += 1;
        } else {
            arrays.push_reserved(Items::new(alloc));
        }
    }
    Arrays {
        arrays: Items::from_vec(arrays),
    }
}
