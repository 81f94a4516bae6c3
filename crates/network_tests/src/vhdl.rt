//! Tests of `vhdl_text`.

use crate::events::{Step, channel, script};
use affine_core::Vector;
use channel_class::UseOrder;
use io_edge::MemSink;
use net_core::{Network, Ref};
use node_automata::NodeAuto;
use plain_data::{Boxed, Items};
use sanlp::Role;
use std::alloc::{AllocError, Global};
use std::test::Fail;
use vhdl_text::{VhdlError, too_long, write_vhdl};
use wrap_expr::Expr;

/// A process: the numbers of its own, its depth, its reads and its slots, its role, its events with so many fires behind them, its
/// channels, its points, and what it computes.
#[derive(Clone, Copy)]
struct Node {
    numbers: [u32; 4],
    role: Role,
    steps: &'static [Step],
    fires: u32,
    gets: &'static [u32],
    puts: &'static [u32],
    values: &'static [&'static [i64]],
    computes: Computes,
}

/// What a process computes.
#[derive(Clone, Copy)]
enum Computes {
    Given,
    Read,
    /// The value read and 1.
    OneMore,
    /// The greater one of a negation and of the lesser one of a product and a difference.
    Greatest,
    /// -(1 - (-(1 - ..))), so many pairs of levels deep.
    Nested(u32),
}

/// The process that is given the one value of an array.
const SOURCE: Node = Node {
    numbers: [0, 1, 0, 0],
    role: Role::Source(0),
    steps: &[Step::Fire(&[]), Step::Put(0)],
    fires: 0,
    gets: &[],
    puts: &[0],
    values: &[&[0]],
    computes: Computes::Given,
};

/// The process that adds 1.
const ASSIGN: Node = Node {
    numbers: [1, 1, 1, 1],
    role: Role::Assign,
    steps: &[Step::Get(0, 0), Step::Fire(&[Ref::Slot(0)]), Step::Put(1)],
    fires: 0,
    gets: &[0],
    puts: &[1],
    values: &[&[0]],
    computes: Computes::OneMore,
};

/// The process that prints the sum.
const SINK: Node = Node {
    numbers: [2, 1, 1, 1],
    role: Role::Sink(1),
    steps: &[Step::Get(1, 0), Step::Fire(&[Ref::Slot(0)])],
    fires: 0,
    gets: &[1],
    puts: &[],
    values: &[&[0]],
    computes: Computes::Read,
};

/// A process of two loops with a channel to itself, which has another name where it comes in.
const OWN_CHANNEL: Node = Node {
    numbers: [7, 2, 2, 3],
    role: Role::Assign,
    steps: &[
        Step::Get(2, 0),
        Step::Fire(&[Ref::Slot(0), Ref::Zero]),
        Step::Put(4),
        Step::Put(10),
        Step::Get(4, 2),
        Step::Fire(&[Ref::Slot(0), Ref::Slot(2)]),
        Step::Put(10),
    ],
    fires: 0,
    gets: &[2, 4],
    puts: &[4, 10],
    values: &[&[-1, 5], &[i64::MAX, -2]],
    computes: Computes::Greatest,
};

/// The entity of the process that adds 1, and its architecture, where the network has no channels.
const ADDS_ONE: &[u8] = b"-- compaan vhdl 1

library ieee;
use ieee.std_logic_1164.all;
use ieee.numeric_std.all;
entity node_1 is
  port (
    clk : in std_logic;
    rst : in std_logic;
    c0_valid : in std_logic;
    c0_data : in signed(63 downto 0);
    c0_take : out std_logic;
    c1_ready : in std_logic;
    c1_data : out signed(63 downto 0);
    c1_give : out std_logic;
    done : out std_logic
  );
end entity;
architecture rtl of node_1 is
  type codes is array (natural range <>) of integer;
  type words is array (natural range <>) of signed(63 downto 0);
  constant zero : signed(63 downto 0) := x\"0000000000000000\";
  constant op : codes(0 to 3) := (0 => 1, 1 => 2, 2 => 3, 3 => 0);
  constant arg : codes(0 to 3) := (0 => 0, 1 => 0, 2 => 1, 3 => 0);
  constant dst : codes(0 to 3) := (0 => 0, 1 => 0, 2 => 0, 3 => 0);
  constant r0 : codes(0 to 1) := (0 => 0, 1 => -1);
  constant v0 : words(0 to 1) := (0 => x\"0000000000000000\", 1 => x\"0000000000000000\");
  signal pc : integer range 0 to 3 := 0;
  signal slot : words(0 to 1);
  signal fired : signed(63 downto 0);
  function pick(b : words; r : integer) return signed is
  begin
    if r < 0 then
      return zero;
    else
      return b(r);
    end if;
  end function;
  function mul(a, b : signed(63 downto 0)) return signed is
    variable p : signed(127 downto 0);
  begin
    p := a * b;
    return p(63 downto 0);
  end function;
  function least(a, b : signed(63 downto 0)) return signed is
  begin
    if a < b then
      return a;
    else
      return b;
    end if;
  end function;
  function most(a, b : signed(63 downto 0)) return signed is
  begin
    if a < b then
      return b;
    else
      return a;
    end if;
  end function;
begin
  c0_take <= '1' when op(pc) = 1 and arg(pc) = 0 else '0';
  c1_data <= fired;
  c1_give <= '1' when op(pc) = 3 and arg(pc) = 1 else '0';
  done <= '1' when op(pc) = 0 else '0';
  process (clk)
  begin
    if rising_edge(clk) then
      if rst = '1' then
        pc <= 0;
      else
        case op(pc) is
          when 1 =>
            if arg(pc) = 0 and c0_valid = '1' then
              slot(dst(pc)) <= c0_data;
              pc <= pc + 1;
            end if;
          when 2 =>
            fired <= (pick(slot, r0(arg(pc))) + signed'(x\"0000000000000001\"));
            pc <= pc + 1;
          when 3 =>
            if arg(pc) = 1 and c1_ready = '1' then
              pc <= pc + 1;
            end if;
          when others =>
            null;
        end case;
      end if;
    end if;
  end process;
end architecture;
";

fn vector(alloc: Global, values: &[i64]) -> Vector {
    let mut vector = Vector::empty(alloc);
    for value in values {
        if vector.len() < 6 {
            vector.push(*value);
        }
    }
    vector
}

/// Points with these loop values.
fn points(alloc: Global, values: &[&[i64]]) -> Result<Items<Vector>, AllocError> {
    let mut points = Items::new(alloc);
    for at in values {
        points.push(vector(alloc, at))?;
    }
    Ok(points)
}

/// An operation with two operands.
#[derive(Clone, Copy)]
enum Two {
    Add,
    Sub,
    Mul,
    Min,
    Max,
}

fn of_two(alloc: Global, two: Two, left: Expr, right: Expr) -> Result<Expr, AllocError> {
    let Ok(left) = Boxed::new(alloc, left) else {
        drop(right);
        return Err(AllocError);
    };
    let Ok(right) = Boxed::new(alloc, right) else {
        drop(left);
        return Err(AllocError);
    };
    Ok(match two {
        Two::Add => Expr::Add(left, right),
        Two::Sub => Expr::Sub(left, right),
        Two::Mul => Expr::Mul(left, right),
        Two::Min => Expr::Min(left, right),
        Two::Max => Expr::Max(left, right),
    })
}

fn negated(alloc: Global, expr: Expr) -> Result<Expr, AllocError> {
    Ok(Expr::Neg(Boxed::new(alloc, expr)?))
}

fn lesser(alloc: Global) -> Result<Expr, AllocError> {
    let product = of_two(alloc, Two::Mul, Expr::Var(0), Expr::Read(1))?;
    match of_two(alloc, Two::Sub, Expr::Read(0), Expr::Const(i64::MIN)) {
        Ok(difference) => of_two(alloc, Two::Min, product, difference),
        Err(error) => {
            drop(product);
            Err(error)
        }
    }
}

fn greatest(alloc: Global) -> Result<Expr, AllocError> {
    let lesser = lesser(alloc)?;
    match negated(alloc, Expr::Var(1)) {
        Ok(negation) => of_two(alloc, Two::Max, lesser, negation),
        Err(error) => {
            drop(lesser);
            Err(error)
        }
    }
}

fn nested(alloc: Global, pairs: u32) -> Result<Expr, AllocError> {
    let mut expr = Expr::Var(0);
    for _ in 0..pairs {
        let difference = of_two(alloc, Two::Sub, Expr::Const(1), expr)?;
        expr = negated(alloc, difference)?;
    }
    Ok(expr)
}

fn expression(alloc: Global, computes: Computes) -> Result<Expr, AllocError> {
    match computes {
        Computes::Given => Ok(Expr::Given),
        Computes::Read => Ok(Expr::Read(0)),
        Computes::OneMore => of_two(alloc, Two::Add, Expr::Read(0), Expr::Const(1)),
        Computes::Greatest => greatest(alloc),
        Computes::Nested(pairs) => nested(alloc, pairs),
    }
}

/// The automaton of a process.
fn automaton(alloc: Global, node: &Node) -> Result<NodeAuto, AllocError> {
    let [process, depth, reads, slots] = node.numbers;
    let events = script(alloc, node.steps, node.fires)?;
    let gets = Items::from_slice(alloc, node.gets)?;
    let puts = Items::from_slice(alloc, node.puts)?;
    let values = points(alloc, node.values)?;
    let expr = expression(alloc, node.computes)?;
    Ok(NodeAuto {
        process,
        role: node.role,
        depth,
        reads,
        gets,
        puts,
        slots,
        events,
        values,
        expr,
    })
}

/// The automata of these processes.
fn automata(alloc: Global, nodes: &[Node]) -> Result<Items<NodeAuto>, AllocError> {
    let mut autos = Items::new(alloc);
    for node in nodes {
        let Ok(auto) = automaton(alloc, node) else {
            drop(autos);
            return Err(AllocError);
        };
        if autos.push(auto).is_err() {
            drop(autos);
            return Err(AllocError);
        }
    }
    Ok(autos)
}

/// The network of these channels, each with its writer, its reader and its capacity.
fn network(alloc: Global, channels: &[[u32; 3]]) -> Result<Network, AllocError> {
    let mut list = Items::new(alloc);
    for [writer, reader, capacity] in channels {
        list.push(channel([*writer, *reader, 0, *capacity], UseOrder::InOrder, false))?;
    }
    Ok(Network {
        processes: Items::new(alloc),
        channels: list,
    })
}

/// Writes the text of these processes and channels, and answers what writing answers.
fn write(
    alloc: Global,
    channels: &[[u32; 3]],
    nodes: &[Node],
    text: &mut MemSink,
) -> Result<Result<(), VhdlError>, AllocError> {
    let network = network(alloc, channels)?;
    let autos = automata(alloc, nodes)?;
    let answer = write_vhdl(&network, autos.as_slice(), text);
    drop(autos);
    drop(network);
    Ok(answer)
}

/// The text of these processes and channels, in pieces of so many bytes.
fn written(
    alloc: Global,
    channels: &[[u32; 3]],
    nodes: &[Node],
    piece: usize,
) -> Result<MemSink, Fail> {
    let mut text = MemSink::new(alloc, 200_000, piece, &[])?;
    match write(alloc, channels, nodes, &mut text)? {
        Ok(()) => Ok(text),
        Err(_) => Err(Fail::from("the text isn't written")),
    }
}

/// Whether a part stands somewhere in a text.
fn has(text: &[u8], part: &[u8]) -> bool {
    for at in 0..text.len() {
        if text[at..].starts_with(part) {
            return true;
        }
    }
    false
}

/// Whether a text is its one part, or has all parts where there are several.
fn is_of(text: &[u8], parts: &[&[u8]]) -> bool {
    match parts {
        [whole] => text == *whole,
        _ => parts.iter().all(|part| has(text, part)),
    }
}

const OF_A_SOURCE: &[&[u8]] = &[
    b"    rst : in std_logic;\n    given : in signed(63 downto 0);\n    given_take : out std_logic;\n    c0_ready : in",
    b"begin\n  given_take <= '1' when op(pc) = 2 else '0';\n  c0_data <= fired;\n",
    b"          when 1 =>\n            null;\n          when 2 =>\n            fired <= given;\n            pc",
];

const OF_A_SINK: &[&[u8]] = &[
    b"    rst : in std_logic;\n    result : out signed(63 downto 0);\n    result_give : out std_logic;\n    c1_valid : in",
    b"  signal fired : signed(63 downto 0);\n  signal gave : std_logic := '0';\n  function",
    b"begin\n  result <= fired;\n  result_give <= gave;\n  c1_take <= ",
    b"    if rising_edge(clk) then\n      gave <= '0';\n      if rst = '1' then\n",
    b"r0(arg(pc)));\n            gave <= '1';\n            pc <= pc + 1;\n          when 3 =>\n            null;\n          when",
];

const OF_AN_OWN_CHANNEL: &[&[u8]] = &[
    b"    c2_data : in signed(63 downto 0);\n    c2_take",
    b"    c4_in : in signed(63 downto 0);\n    c4_take",
    b"    c4_data : out signed(63 downto 0);\n    c4_give",
    b" arg : codes(0 to 7) := (0 => 2, 1 => 0, 2 => 4, 3 => 10, 4 => 4, 5 => 1, 6 => 10, 7 => 0);",
    b" r1 : codes(0 to 2) := (0 => -1, 1 => 2, 2 => -1);",
    b"(0 => x\"0000000000000005\", 1 => x\"fffffffffffffffe\", 2 => x\"0000000000000000\");",
    b"              slot(dst(pc)) <= c4_in;\n",
    b"most(least(mul(v0(arg(pc)), pick(slot, r1(arg(pc)))), (pick(slot, r0(arg(pc))) - ",
    b" - signed'(x\"8000000000000000\"))), (zero - v1(arg(pc))));\n",
];

const OF_A_NETWORK: &[&[u8]] = &[
    b"-- compaan vhdl 1\n-- channel 0 node_0 node_1 capacity 1\n",
    b"-- channel 1 node_1 node_2 capacity 17\n\nlibrary ieee;\n",
    b"end architecture;\n\nlibrary ieee;\n",
];

/// Channels and processes, of whose text these are the parts.
#[derive(Clone, Copy)]
struct Told {
    channels: &'static [[u32; 3]],
    nodes: &'static [Node],
    piece: usize,
    parts: &'static [&'static [u8]],
}

static TOLD: [Told; 5] = [
    Told {
        channels: &[],
        nodes: &[ASSIGN],
        piece: 10_000,
        parts: &[ADDS_ONE],
    },
    Told {
        channels: &[],
        nodes: &[SOURCE],
        piece: 10_000,
        parts: OF_A_SOURCE,
    },
    Told {
        channels: &[],
        nodes: &[SINK],
        piece: 10_000,
        parts: OF_A_SINK,
    },
    Told {
        channels: &[],
        nodes: &[OWN_CHANNEL],
        piece: 10_000,
        parts: OF_AN_OWN_CHANNEL,
    },
    // First the channels, and then the nodes.
    Told {
        channels: &[[0, 1, 1], [1, 2, 17]],
        nodes: &[SOURCE, SINK],
        piece: 7,
        parts: OF_A_NETWORK,
    },
];

#[test]
fn a_node_is_an_entity_with_its_architecture(rt: HostRuntime) -> Result<(), Fail> {
    for row in &TOLD {
        let text = written(rt.alloc(), row.channels, row.nodes, row.piece)?;
        assert!(rt; is_of(text.held(), row.parts));
    }
    Ok(())
}

// The second of these scripts is the first that is too long.
static LONG: [Node; 3] = [
    Node {
        numbers: [0, 0, 0, 0],
        role: Role::Assign,
        steps: &[],
        fires: 65_536,
        gets: &[],
        puts: &[],
        values: &[],
        computes: Computes::Given,
    },
    Node {
        numbers: [1, 0, 0, 0],
        role: Role::Assign,
        steps: &[],
        fires: 65_537,
        gets: &[],
        puts: &[],
        values: &[],
        computes: Computes::Given,
    },
    Node {
        numbers: [2, 0, 0, 0],
        role: Role::Assign,
        steps: &[],
        fires: 65_538,
        gets: &[],
        puts: &[],
        values: &[],
        computes: Computes::Given,
    },
];

// Whether some script of these processes is too long.
fn is_too_long(alloc: Global, nodes: &[Node]) -> Result<bool, AllocError> {
    let autos = automata(alloc, nodes)?;
    let is_too_long = too_long(autos.as_slice()).is_some();
    drop(autos);
    Ok(is_too_long)
}

#[test]
fn the_first_script_that_is_too_long_is_told(rt: HostRuntime) -> Result<(), Fail> {
    assert!(rt; !is_too_long(rt.alloc(), &LONG[..1])?);
    let mut text = MemSink::new(rt.alloc(), 100, 100, &[])?;
    let answer = write(rt.alloc(), &[], &LONG, &mut text)?;
    assert!(rt; answer == Err(VhdlError::ScriptTooLong(1, 65_537)));
    assert!(rt; text.held().is_empty());
    Ok(())
}

// The room, the call that fails, and what is held then, where a call takes 10 bytes.
static FRONTS: [(usize, u32, &[u8]); 5] = [
    (0, 99, b""),
    (12, 99, b"-- compaan v"),
    (500, 0, b""),
    (500, 1, b"-- compaan"),
    (500, 3, b"-- compaan vhdl 1\n-- channel 0"),
];

#[test]
fn a_sink_that_fails_midway_holds_a_front(rt: HostRuntime) -> Result<(), Fail> {
    for (room, failing, held) in &FRONTS {
        let mut text = MemSink::new(rt.alloc(), *room, 10, &[*failing])?;
        let answer = write(rt.alloc(), &[[0, 1, 1], [1, 2, 17]], &[], &mut text)?;
        assert!(rt; answer == Err(VhdlError::WriteFault));
        assert!(rt; text.held() == *held);
    }
    Ok(())
}

// A process that does nothing, with an expression of no level and one of 8,192.
const FLAT: Node = Node {
    numbers: [0, 0, 0, 0],
    role: Role::Assign,
    steps: &[],
    fires: 0,
    gets: &[],
    puts: &[],
    values: &[],
    computes: Computes::Nested(0),
};

const DEEP: Node = Node {
    numbers: [0, 0, 0, 0],
    role: Role::Assign,
    steps: &[],
    fires: 0,
    gets: &[],
    puts: &[],
    values: &[],
    computes: Computes::Nested(4096),
};

// As many levels as a source has tokens, each pair with 42 bytes beside the 11 of the innermost variable. (`rt try` bears
// fewer.)
#[test]
fn an_expression_of_8192_levels_is_written(rt: HostRuntime) -> Result<(), Fail> {
    let flat = written(rt.alloc(), &[], &[FLAT], 10_000)?;
    assert!(rt; has(flat.held(), b"fired <= v0(arg(pc));\n"));
    let text = written(rt.alloc(), &[], &[DEEP], 200_000)?;
    assert!(rt; text.held().len() == flat.held().len() + 42 * 4096);
    Ok(())
}
