//! Tests of `node_automata`, and so of the scripts that `process_derive` makes.
ghost use Rattle.net_core.specs.Sound.{IsSound};

use crate::bound::{Made, make};
use affine_core::Vector;
use net_core::{Event, Ref, Refs};
use node_automata::{NodeAuto, automata, automaton};
use sanlp::Role;
use script_blocks::Script;
use std::alloc::{AllocError, Global};
use std::test::Fail;
use witness_plan::Policy;
use wrap_expr::Expr;

// Two statements assign a, and the last one reads what it wrote a turn before.
const RUNNING: &[u8] = b"param N; in x[N]; out y[N]; var a[N]; \
    for (i = 0; i < N; i++) { if (i < 2) { a[i] = x[i]; } else { a[i] = 0 - x[i]; } } \
    for (i = 0; i < N; i++) y[i] = y[i-1] + a[i];";

/// What is wanted of an automaton. Its points have one loop value each.
#[derive(Clone, Copy)]
struct Wanted {
    process: u32,
    role: Role,
    reads: u32,
    gets: &'static [u32],
    puts: &'static [u32],
    slots: u32,
    /// Its events, as words: `g` with a channel and a slot is a Get, `f` with its references a Fire, where `z` is `Zero`, and
    /// `p` with a channel a Put.
    script: &'static [u8],
    values: &'static [i64],
    expr: Computes,
}

/// What an expression computes: the given value, its first read, that taken from 0, or the sum of both its reads.
#[derive(Clone, Copy)]
enum Computes {
    Given,
    Read,
    Negation,
    Sum,
}

/// A source that is given x, three assignments and a sink that prints y, where N is 3. Channel 2 leads from process 3 to
/// itself, and by it and by channels 0 and 1 some turns hand nothing on.
static WANTED: [Wanted; 5] = [
    Wanted {
        process: 0,
        role: Role::Source(0),
        reads: 0,
        gets: &[],
        puts: &[0, 1],
        slots: 0,
        script: b"f p0 f p0 f p1",
        values: &[0, 1, 2],
        expr: Computes::Given,
    },
    Wanted {
        process: 1,
        role: Role::Assign,
        reads: 1,
        gets: &[0],
        puts: &[3],
        slots: 1,
        script: b"g00 f0 p3 g00 f0 p3",
        values: &[0, 1],
        expr: Computes::Read,
    },
    Wanted {
        process: 2,
        role: Role::Assign,
        reads: 1,
        gets: &[1],
        puts: &[4],
        slots: 1,
        script: b"g10 f0 p4",
        values: &[2],
        expr: Computes::Negation,
    },
    Wanted {
        process: 3,
        role: Role::Assign,
        reads: 2,
        gets: &[2, 3, 4],
        puts: &[2, 5],
        slots: 3,
        script: b"g31 fz1 p2 p5 g20 g31 f01 p2 p5 g20 g42 f02 p5",
        values: &[0, 1, 2],
        expr: Computes::Sum,
    },
    Wanted {
        process: 4,
        role: Role::Sink(1),
        reads: 1,
        gets: &[5],
        puts: &[],
        slots: 1,
        script: b"g50 f0 g50 f0 g50 f0",
        values: &[0, 1, 2],
        expr: Computes::Read,
    },
];

fn digit(byte: u8) -> u32 {
    u32::from(byte.wrapping_sub(b'0'))
}

// Whether these are the references of a fire.
fn are_references(refs: &Refs, names: &[u8]) -> bool {
    refs.len() == names.len()
        && names.iter().enumerate().all(|(read, name)| match refs.get(read) {
            Some(Ref::Zero) => *name == b'z',
            Some(Ref::Slot(slot)) => slot == digit(*name),
            None => false,
        })
}

fn is_event(event: &Event, word: &[u8]) -> bool {
    match (event, word) {
        (Event::Get { channel, slot }, [b'g', from, to]) => {
            *channel == digit(*from) && *slot == digit(*to)
        }
        (Event::Fire { refs }, [b'f', names @ ..]) => are_references(refs, names),
        (Event::Put { channel }, [b'p', to]) => *channel == digit(*to),
        _ => false,
    }
}

fn is_script(events: &Script<Event>, script: &[u8]) -> bool {
    let mut words = script.split(|byte| *byte == b' ');
    for event in events.iter() {
        let Some(word) = words.next() else {
            return false;
        };
        if !is_event(&event, word) {
            return false;
        }
    }
    words.next().is_none()
}

fn is_negation(left: &Expr, right: &Expr) -> bool {
    matches!((left, right), (Expr::Const(0), Expr::Read(0)))
}

fn is_sum(left: &Expr, right: &Expr) -> bool {
    matches!((left, right), (Expr::Read(0), Expr::Read(1)))
}

fn is_expression(expr: &Expr, wanted: Computes) -> bool {
    match (expr, wanted) {
        (Expr::Given, Computes::Given) => true,
        (Expr::Read(read), Computes::Read) => *read == 0,
        (Expr::Sub(left, right), Computes::Negation) => is_negation(left.get(), right.get()),
        (Expr::Add(left, right), Computes::Sum) => is_sum(left.get(), right.get()),
        _ => false,
    }
}

// Whether a process has these points.
fn are_points(vectors: &[Vector], values: &[i64]) -> bool {
    vectors.len() == values.len()
        && vectors
            .iter()
            .zip(values)
            .all(|(vector, value)| vector.as_slice() == [*value].as_slice())
}

// Whether an automaton is what is wanted.
fn is_wanted(auto: &NodeAuto, wanted: &Wanted) -> bool {
    auto.process == wanted.process
        && auto.role == wanted.role
        && auto.depth == 1
        && auto.reads == wanted.reads
        && auto.gets.as_slice() == wanted.gets
        && auto.puts.as_slice() == wanted.puts
        && auto.slots == wanted.slots
        && is_script(&auto.events, wanted.script)
        && are_points(auto.values.as_slice(), wanted.values)
        && is_expression(&auto.expr, wanted.expr)
}

fn are_wanted(autos: &[NodeAuto]) -> bool {
    autos.len() == WANTED.len()
        && autos
            .iter()
            .zip(&WANTED)
            .all(|(auto, wanted)| is_wanted(auto, wanted))
}

// Whether the automata of a network are what is wanted.
fn all_are_wanted(alloc: Global, made: &Made) -> Result<bool, AllocError>
    requires { IsSound made.now.nest made.now.network }
{
    let autos = automata(alloc, &made.nest, &made.points, &made.network)?;
    let are_wanted = are_wanted(&autos);
    drop(autos);
    Ok(are_wanted)
}

// Whether the automaton of a process by itself is what is wanted.
fn one_is_wanted(alloc: Global, made: &Made, wanted: &Wanted) -> Result<bool, AllocError>
    requires { IsSound made.now.nest made.now.network }
{
    if wanted.process as usize >= made.network.processes.len() {
        return Ok(false);
    }
    let auto = automaton(
        alloc,
        &made.nest,
        &made.points,
        &made.network,
        wanted.process,
    )?;
    let is_wanted = is_wanted(&auto, wanted);
    drop(auto);
    Ok(is_wanted)
}

#[test]
fn automata_are_what_their_processes_do(rt: HostRuntime) -> Result<(), Fail> {
    let made = make(rt.alloc(), RUNNING, 3, Policy::Seq)?;
    let all = all_are_wanted(rt.alloc(), &made);
    let one = one_is_wanted(rt.alloc(), &made, &WANTED[3]);
    drop(made);
    assert!(rt; all? && one?);
    Ok(())
}

// How many negations an expression begins with.
fn negations(expr: &Expr) -> u32 {
    match expr {
        Expr::Neg(inner) => negations(inner.get()).saturating_add(1),
        _ => 0,
    }
}

// How many negations the expression of the first process begins with.
fn first_negations(alloc: Global, made: &Made) -> Result<u32, AllocError>
    requires { IsSound made.now.nest made.now.network }
{
    let autos = automata(alloc, &made.nest, &made.points, &made.network)?;
    let many = match autos.first() {
        Some(auto) => negations(&auto.expr),
        None => 0,
    };
    drop(autos);
    Ok(many)
}

// A source with so many negations, as many as its tokens allow.
fn negated(alloc: Global, many: u32) -> Result<Vec<u8>, AllocError> {
    let mut source = Vec::from_slice(alloc, b"out y; y = ")?;
    for _ in 0..many {
        source.extend_from_slice(b"- ")?;
    }
    source.extend_from_slice(b"1;")?;
    Ok(source)
}

// (`rt try` bears fewer.)
#[test]
fn the_deepest_expression_is_copied(rt: HostRuntime) -> Result<(), Fail> {
    let source = negated(rt.alloc(), 8_185)?;
    let made = make(rt.alloc(), &source, 0, Policy::Seq);
    drop(source);
    let made = made?;
    let many = first_negations(rt.alloc(), &made);
    drop(made);
    assert!(rt; many? == 8_185);
    Ok(())
}
