//! Networks in VHDL.

use std::process::Abort;
use std::sync::Wait;
use std::test::Fail;
use std::thread::Threads;
use top_calls::{Call, INCREMENT, SOUND, expect_all, written_by};

const COUNTER: &[u8] = b"param N; var a; for (i = 0; i < N; i++) a = i;";

/// A loop with a step, and what its node has of it: the turns of its points, and its variable.
const EVERY_SECOND: &[u8] = b"var a; for (i = 1; i < 6; i += 2) a = i;";

const TURNS: &[u8] = b"
  constant v0 : words(0 to 3) := (0 => x\"0000000000000000\", 1 => x\"0000000000000001\", 2 => x\"0000000000000002\", 3 => x\"0000000000000000\");
";

const VARIABLE: &[u8] = b"
            fired <= (signed'(x\"0000000000000001\") + mul(signed'(x\"0000000000000002\"), v0(arg(pc))));
";

/// The channels of the increment with N=1, and the ports of its source.
const HEAD: &[u8] = b"-- compaan vhdl 1
-- channel 0 node_0 node_1 capacity 1
-- channel 1 node_1 node_2 capacity 1

library ieee;
use ieee.std_logic_1164.all;
use ieee.numeric_std.all;
entity node_0 is
  port (
    clk : in std_logic;
    rst : in std_logic;
    given : in signed(63 downto 0);
    given_take : out std_logic;
    c0_ready : in std_logic;
    c0_data : out signed(63 downto 0);
    c0_give : out std_logic;
    done : out std_logic
  );
end entity;
";

/// The node of its assignment, between two empty lines.
const ASSIGNMENT: &[u8] = b"
library ieee;
use ieee.std_logic_1164.all;
use ieee.numeric_std.all;
entity node_1 is
  port (
    clk : in std_logic;
    rst : in std_logic;
    c0_valid : in std_logic;
    c0_data : in signed(63 downto 0);
    c0_take : out std_logic;
    c1_ready : in std_logic;
    c1_data : out signed(63 downto 0);
    c1_give : out std_logic;
    done : out std_logic
  );
end entity;
architecture rtl of node_1 is
  type codes is array (natural range <>) of integer;
  type words is array (natural range <>) of signed(63 downto 0);
  constant zero : signed(63 downto 0) := x\"0000000000000000\";
  constant op : codes(0 to 3) := (0 => 1, 1 => 2, 2 => 3, 3 => 0);
  constant arg : codes(0 to 3) := (0 => 0, 1 => 0, 2 => 1, 3 => 0);
  constant dst : codes(0 to 3) := (0 => 0, 1 => 0, 2 => 0, 3 => 0);
  constant r0 : codes(0 to 1) := (0 => 0, 1 => -1);
  constant v0 : words(0 to 1) := (0 => x\"0000000000000000\", 1 => x\"0000000000000000\");
  signal pc : integer range 0 to 3 := 0;
  signal slot : words(0 to 1);
  signal fired : signed(63 downto 0);
  function pick(b : words; r : integer) return signed is
  begin
    if r < 0 then
      return zero;
    else
      return b(r);
    end if;
  end function;
  function mul(a, b : signed(63 downto 0)) return signed is
    variable p : signed(127 downto 0);
  begin
    p := a * b;
    return p(63 downto 0);
  end function;
  function least(a, b : signed(63 downto 0)) return signed is
  begin
    if a < b then
      return a;
    else
      return b;
    end if;
  end function;
  function most(a, b : signed(63 downto 0)) return signed is
  begin
    if a < b then
      return b;
    else
      return a;
    end if;
  end function;
begin
  c0_take <= '1' when op(pc) = 1 and arg(pc) = 0 else '0';
  c1_data <= fired;
  c1_give <= '1' when op(pc) = 3 and arg(pc) = 1 else '0';
  done <= '1' when op(pc) = 0 else '0';
  process (clk)
  begin
    if rising_edge(clk) then
      if rst = '1' then
        pc <= 0;
      else
        case op(pc) is
          when 1 =>
            if arg(pc) = 0 and c0_valid = '1' then
              slot(dst(pc)) <= c0_data;
              pc <= pc + 1;
            end if;
          when 2 =>
            fired <= (pick(slot, r0(arg(pc))) + signed'(x\"0000000000000001\"));
            pc <= pc + 1;
          when 3 =>
            if arg(pc) = 1 and c1_ready = '1' then
              pc <= pc + 1;
            end if;
          when others =>
            null;
        end case;
      end if;
    end if;
  end process;
end architecture;

";

/// The ports of its sink.
const SINK: &[u8] = b"entity node_2 is
  port (
    clk : in std_logic;
    rst : in std_logic;
    result : out signed(63 downto 0);
    result_give : out std_logic;
    c1_valid : in std_logic;
    c1_data : in signed(63 downto 0);
    c1_take : out std_logic;
    done : out std_logic
  );
end entity;
";

/// Whether a part stands somewhere in a text.
fn has(text: &[u8], part: &[u8]) -> bool {
    for at in 0..text.len() {
        if text[at..].starts_with(part) {
            return true;
        }
    }
    false
}

/// Whether each of these parts stands somewhere in a text.
fn has_all(text: &[u8], parts: &[&[u8]]) -> bool {
    parts.iter().all(|part| has(text, part))
}

/// Values of parameters, sources, the room of a text, its front, and parts of it.
static DESCRIBED: [(&[&str], &[u8], usize, &[u8], &[&[u8]]); 4] = [
    (
        &["N=1", "--policy=seq"],
        INCREMENT,
        100_000,
        HEAD,
        &[ASSIGNMENT, SINK],
    ),
    (
        &["N=1", "--policy=down"],
        INCREMENT,
        100_000,
        HEAD,
        &[ASSIGNMENT, SINK],
    ),
    (
        &[],
        EVERY_SECOND,
        100_000,
        b"-- compaan vhdl 1\n",
        &[TURNS, VARIABLE],
    ),
    // the longest script
    (
        &["N=65536"],
        COUNTER,
        100_000_000,
        b"-- compaan vhdl 1\n\nlibrary ieee;\n",
        &[],
    ),
];

fn expect_described(
    rt: &(impl Abort + AllocGlobal + Threads + Wait + Sync),
    params: &[&str],
    source: &[u8],
    room: usize,
    front: &[u8],
    parts: &[&[u8]],
) -> Result<(), Fail> {
    let written = written_by(rt, "vhdl", params, source, room)?;
    let held = written.output.held();
    let holds = held.starts_with(front)
        && has_all(held, parts)
        && held.ends_with(b"end architecture;\n");
    drop(written);
    assert!(rt; holds);
    Ok(())
}

#[test]
fn nodes_are_described(rt: HostRuntime) -> Result<(), Fail> {
    for (params, source, room, front, parts) in &DESCRIBED {
        expect_described(&rt, params, source, *room, front, parts)?;
    }
    Ok(())
}

static REFUSED: [Call; 3] = [
    (&["vhdl", "N=65537"], COUNTER, 8, b"limit: Script 0 65537\n"),
    // the source and its size are judged before
    (&["vhdl"], b"$", 6, b"text: BadByte 0\n"),
    (&["vhdl", "N=4194305"], COUNTER, 8, b"limit: Size 8388609\n"),
];

#[test]
fn a_longer_script_is_refused(rt: HostRuntime) -> Result<(), Fail> {
    expect_all(&rt, SOUND, &REFUSED)
}
