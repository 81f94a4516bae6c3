//! Tests of networks that are run in several orders of events.
ghost use Rattle.std.specs.Prelude.{◌≡◌, true, IfSome};
ghost use Rattle.net_core.specs.Held.{held_of, run_of, IsFor};
ghost use Rattle.net_core.specs.Machine.{net_of, enabled};
ghost use Rattle.net_core.specs.Rules.{AllKeepTo, value_limits};
ghost use Rattle.net_core.specs.Sound.{IsSound};

use crate::bound::{Made, has_list, inputs, is_accepted, make};
use loop_run::interpret;
use net_core::{Network, State, Values, enabled, ended, kept, sound, start, step};
use sanlp::{Arrays, Inputs, Nest, Role};
use std::alloc::{AllocError, Global};
use std::test::Fail;
use witness_plan::Policy;

/// A program with one output array: the value of its parameter N, its source, the values of its arrays, the output, and the
/// number of its network's events.
#[derive(Clone, Copy)]
struct Program {
    value: i64,
    source: &'static [u8],
    inputs: &'static [&'static [i64]],
    output: &'static [i64],
    events: usize,
}

/// Which of the enabled processes goes on.
#[derive(Clone, Copy)]
enum Order {
    Least,
    Highest,
    /// The first that is found from a place on, which a generator with this seed gives anew for each event.
    Shuffled(u32),
}

static ORDERS: [Order; 5] = [
    Order::Least,
    Order::Highest,
    Order::Shuffled(1),
    Order::Shuffled(2_463_534_242),
    Order::Shuffled(362_436_069),
];

static PROGRAMS: [Program; 6] = [
    // transpose
    Program {
        value: 0,
        source: b"in a[2][2]; out b[2][2]; for (j = 0; j < 2; j++) for (i = 0; i < 2; i++) b[j][i] = a[i][j];",
        inputs: &[&[1, 2, 3, 4], &[]],
        output: &[1, 3, 2, 4],
        events: 28,
    },
    // last_value
    Program {
        value: 3,
        source: b"param N; out y[N]; var t; for (i = 0; i < N; i++) { y[i] = t; t = i; t = t + 10; }",
        inputs: &[&[], &[]],
        output: &[0, 10, 11],
        events: 28,
    },
    // two_writers
    Program {
        value: 3,
        source: b"param N; in x[N]; out y[N]; var a[N]; for (i = 0; i < N; i++) { if (i < 2) { a[i] = x[i]; } else { a[i] = 0 - x[i]; } } for (i = 0; i < N; i++) y[i] = a[i];",
        inputs: &[&[1, 2, 3], &[], &[]],
        output: &[1, 2, -3],
        events: 30,
    },
    // matrix_product
    Program {
        value: 2,
        source: b"param N; in A[N][N], B[N][N]; out C[N][N]; for (i = 0; i < N; i++) for (j = 0; j < N; j++) { C[i][j] = 0; for (k = 0; k < N; k++) C[i][j] = C[i][j] + A[i][k] * B[k][j]; }",
        inputs: &[&[1, 2, 3, 4], &[5, 6, 7, 8], &[]],
        output: &[19, 22, 43, 50],
        events: 64,
    },
    // reversed_rows
    Program {
        value: 0,
        source: b"in x[3]; out b[2][3]; for (i = 0; i < 2; i++) for (j = 0; j < 3; j++) b[i][j] = x[2-j];",
        inputs: &[&[1, 2, 3], &[]],
        output: &[3, 2, 1, 3, 2, 1],
        events: 33,
    },
    // scaling
    Program {
        value: 4,
        source: b"param N; in x[N], c; out y[N]; for (i = 0; i < N; i++) y[i] = x[i] * c;",
        inputs: &[&[1, 2, 3, 4], &[10], &[]],
        output: &[10, 20, 30, 40],
        events: 31,
    },
];

/// The process that is asked at this place.
fn asked(order: Order, place: u32, many: u32, first: u32) -> u32 {
    match order {
        Order::Least => place,
        Order::Highest => many.saturating_sub(place).saturating_sub(1),
        Order::Shuffled(_) => first.wrapping_add(place) % many.max(1),
    }
}

/// The first process in the order that may go on.
fn chosen(state: &State<i64>, network: &Network, order: Order, first: u32) -> Option<u32>
    requires { IsFor (net_of network.now) (held_of state.now) }
    ensures { IfSome result
        (λ process. enabled (net_of network.now) (run_of state.now) process ≡ true) }
{
    let many = network.processes.len() as u32;
    for place in 0..many {
        let process = asked(order, place, many, first);
        if enabled(state, network, process) {
            return Some(process);
        }
    }
    None
}

fn seed_of(order: Order) -> u32 {
    match order {
        Order::Least | Order::Highest => 0,
        Order::Shuffled(seed) => seed,
    }
}

/// Runs a network until no process may go on, for so many events at most. Answers the number of events, and a number that
/// differs where runs differ, in all runs that are looked at here.
fn run_in(
    state: &mut State<i64>,
    network: &Network,
    rule: &Values,
    order: Order,
    events: usize,
) -> (usize, u64)
    requires state { IsFor (net_of network.now) (held_of state.old) }
    requires limits { AllKeepTo (net_of network.now) (value_limits rule.now.nest.now) }
    ensures { IsFor (net_of network.now) (held_of state.new) }
{
    let mut number = seed_of(order);
    let mut mark = 0_u64;
    for at in 0..events {
        number = number.wrapping_mul(1_664_525).wrapping_add(1_013_904_223);
        let Some(process) = chosen(state, network, order, number >> 16) else {
            return (at, mark);
        };
        step(state, network, rule, process);
        mark = mark
            .wrapping_mul(6_364_136_223_846_793_005)
            .wrapping_add(u64::from(process));
    }
    (events, mark)
}

/// The number of events of all scripts.
fn event_count(network: &Network) -> usize {
    let mut events = 0_usize;
    for process in network.processes.as_slice() {
        events = events.saturating_add(process.script.len() as usize);
    }
    events
}

/// Whether there is a sink, and each has kept its array's values.
fn sinks_keep(nest: &Nest, network: &Network, state: &State<i64>, arrays: &Arrays) -> bool
    requires { IsFor (net_of network.now) (held_of state.now) }
{
    let mut has_sink = false;
    for (at, statement) in nest.statements.as_slice().iter().enumerate() {
        if let Role::Sink(array) = statement.role {
            let Some(values) = arrays.arrays.get(array as usize) else {
                return false;
            };
            if at >= network.processes.len() || kept(state, at as u32) != values.as_slice() {
                return false;
            }
            has_sink = true;
        }
    }
    has_sink
}

/// Runs a sound network in an order. Answers the number of the run where it has so many events and ends all, and the sinks have
/// kept the arrays.
fn ran(
    alloc: Global,
    made: &Made,
    inputs: &Inputs,
    arrays: &Arrays,
    order: Order,
    events: usize,
) -> Result<Option<u64>, AllocError>
    requires { IsSound made.now.nest made.now.network }
{
    sound();
    let mut state = start(alloc, &made.network, &made.points)?;
    let rule = Values {
        nest: &made.nest,
        points: &made.points,
        inputs,
    };
    let (many, mark) = run_in(&mut state, &made.network, &rule, order, events);
    let is_right = many == events
        && ended(&state, &made.network)
        && sinks_keep(&made.nest, &made.network, &state, arrays);
    drop(state);
    Ok(if is_right { Some(mark) } else { None })
}

/// Whether the runs in all orders end with these arrays, and differ.
fn all_ran(
    alloc: Global,
    made: &Made,
    inputs: &Inputs,
    arrays: &Arrays,
    events: usize,
) -> Result<bool, AllocError>
    requires { IsSound made.now.nest made.now.network }
{
    let mut marks = Vec::new(alloc);
    for order in &ORDERS {
        let Some(mark) = ran(alloc, made, inputs, arrays, *order, events)? else {
            return Ok(false);
        };
        if marks.contains(&mark) {
            return Ok(false);
        }
        marks.push(mark)?;
    }
    Ok(true)
}

/// Whether a program's network has its number of events, the interpreter gives its output, and so do the runs in all orders.
fn gives_output(alloc: Global, made: &Made, program: &Program) -> Result<bool, AllocError>
    requires { IsSound made.now.nest made.now.network }
{
    let inputs = inputs(alloc, program.inputs)?;
    let arrays = interpret(alloc, &made.nest, &inputs)?;
    let is_right = event_count(&made.network) == program.events
        && made.cert.schedule.len() == program.events
        && has_list(arrays.arrays.as_slice(), program.output);
    let have_run = all_ran(alloc, made, &inputs, &arrays, program.events);
    drop(inputs);
    drop(arrays);
    Ok(is_right && have_run?)
}

#[test]
fn every_order_gives_the_answer(rt: HostRuntime) -> Result<(), Fail> {
    for program in &PROGRAMS {
        let made = make(rt.alloc(), program.source, program.value, Policy::Seq)?;
        let is_accepted = is_accepted(rt.alloc(), &made);
        let gives_output = gives_output(rt.alloc(), &made, program);
        drop(made);
        assert!(rt; is_accepted? && gives_output?);
    }
    Ok(())
}
