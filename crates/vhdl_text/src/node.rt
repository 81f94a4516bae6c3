ghost use Rattle.std.specs.Prelude.{◌++◌, codes, length};
ghost use Rattle.text_out.specs.Wrote.{Wrote};
ghost use Rattle.vhdl_text.specs.declared.expression.Naming.TheVariants.{Arrays};
ghost use Rattle.vhdl_text.specs.Expressions.{expr_text};
ghost use Rattle.vhdl_text.specs.Pieces.{fire_text, functions_text, start_text, step_text};
ghost use Rattle.vhdl_text.specs.VhdlText.{architecture_head, case_head, done_line, entity_end, gave_high, gave_low, node_text, process_end, process_head, role_lines, role_ports, role_signal, signals};

use crate::channels::{Part, write_branch, write_parts};
use crate::constants::{Column, write_column, write_reads, write_variables};
use crate::expression::{Naming, write_expr};
use node_automata::NodeAuto;
use sanlp::Role;
use text_out::{TextWriter, write_number};

fn write_role_ports<W: TextWriter>(role: Role, out: &mut W)
    ensures { Wrote W.given out.old out.new (role_ports role) }
{
    match role {
        Role::Source(_) => out.put(
            b"    given : in signed(63 downto 0);\n    given_take : out std_logic;\n",
        ),
        Role::Assign => {}
        Role::Sink(_) => out.put(
            b"    result : out signed(63 downto 0);\n    result_give : out std_logic;\n",
        ),
    }
}

fn write_role_signal<W: TextWriter>(role: Role, out: &mut W)
    ensures { Wrote W.given out.old out.new (role_signal role) }
{
    match role {
        Role::Source(_) | Role::Assign => {}
        Role::Sink(_) => out.put(b"  signal gave : std_logic := '0';\n"),
    }
}

fn write_role_lines<W: TextWriter>(role: Role, out: &mut W)
    ensures { Wrote W.given out.old out.new (role_lines role) }
{
    match role {
        Role::Source(_) => out.put(b"  given_take <= '1' when op(pc) = 2 else '0';\n"),
        Role::Assign => {}
        Role::Sink(_) => out.put(b"  result <= fired;\n  result_give <= gave;\n"),
    }
}

fn write_gave_low<W: TextWriter>(role: Role, out: &mut W)
    ensures { Wrote W.given out.old out.new (gave_low role) }
{
    match role {
        Role::Source(_) | Role::Assign => {}
        Role::Sink(_) => out.put(b"      gave <= '0';\n"),
    }
}

fn write_gave_high<W: TextWriter>(role: Role, out: &mut W)
    ensures { Wrote W.given out.old out.new (gave_high role) }
{
    match role {
        Role::Source(_) | Role::Assign => {}
        Role::Sink(_) => out.put(b"            gave <= '1';\n"),
    }
}

/// Writes the empty line before a node, and its entity up to the ports `clk` and `rst`.
fn write_start<W: TextWriter>(process: u32, out: &mut W)
    ensures { Wrote W.given out.old out.new (start_text process) }
{
    out.put(
        b"\nlibrary ieee;\nuse ieee.std_logic_1164.all;\nuse ieee.numeric_std.all;\nentity node_",
    );
    write_number(process, out);
    out.put(b" is\n  port (\n    clk : in std_logic;\n    rst : in std_logic;\n");
}

fn write_entity_end<W: TextWriter>(out: &mut W)
    ensures { Wrote W.given out.old out.new entity_end }
{
    out.put(b"    done : out std_logic\n  );\nend entity;\n");
}

fn write_architecture_head<W: TextWriter>(process: u32, out: &mut W)
    ensures { Wrote W.given out.old out.new (architecture_head process) }
{
    out.put(b"architecture rtl of node_");
    write_number(process, out);
    out.put(b" is\n  type codes is array (natural range <>) of integer;\n");
    out.put(b"  type words is array (natural range <>) of signed(63 downto 0);\n");
    out.put(b"  constant zero : signed(63 downto 0) := x\"0000000000000000\";\n");
}

fn write_signals<W: TextWriter>(auto: &NodeAuto, out: &mut W)
    ensures { Wrote W.given out.old out.new (signals (length auto.now.events) auto.now.slots) }
{
    out.put(b"  signal pc : integer range 0 to ");
    write_number(auto.events.len(), out);
    out.put(b" := 0;\n  signal slot : words(0 to ");
    write_number(auto.slots, out);
    out.put(b");\n  signal fired : signed(63 downto 0);\n");
}

/// Writes the functions that expressions call, and the beginning of the statements.
pub fn write_functions<W: TextWriter>(out: &mut W)
    ensures { Wrote W.given out.old out.new functions_text }
{
    out.put(
        b"  function pick(b : words; r : integer) return signed is\n  begin\n    if r < 0 then\n      return zero;\n    else\n      return b(r);\n    end if;\n  end function;\n",
    );
    out.put(
        b"  function mul(a, b : signed(63 downto 0)) return signed is\n    variable p : signed(127 downto 0);\n  begin\n    p := a * b;\n    return p(63 downto 0);\n  end function;\n",
    );
    out.put(
        b"  function least(a, b : signed(63 downto 0)) return signed is\n  begin\n    if a < b then\n      return a;\n    else\n      return b;\n    end if;\n  end function;\n",
    );
    out.put(
        b"  function most(a, b : signed(63 downto 0)) return signed is\n  begin\n    if a < b then\n      return b;\n    else\n      return a;\n    end if;\n  end function;\n",
    );
    out.put(b"begin\n");
}

/// Writes the last line before the process, and its beginning.
fn write_process_head<W: TextWriter>(out: &mut W)
    ensures { Wrote W.given out.old out.new (done_line ++ process_head) }
{
    out.put(
        b"  done <= '1' when op(pc) = 0 else '0';\n  process (clk)\n  begin\n    if rising_edge(clk) then\n",
    );
}

/// Writes what is done at a reset, and the beginning of a Get.
fn write_case_head<W: TextWriter>(out: &mut W)
    ensures { Wrote W.given out.old out.new (case_head ++ codes "          when 1 =>\n") }
{
    out.put(
        b"      if rst = '1' then\n        pc <= 0;\n      else\n        case op(pc) is\n          when 1 =>\n",
    );
}

/// Writes what is done at a fire, up to the assignment.
fn write_fire<W: TextWriter>(auto: &NodeAuto, out: &mut W)
    ensures { Wrote W.given out.old out.new (fire_text (expr_text Arrays auto.now.expr)) }
{
    out.put(b"          when 2 =>\n            fired <= ");
    write_expr(Naming::Arrays, &auto.expr, out);
    out.put(b";\n");
}

/// Writes the end of a fire, and the beginning of a Put.
fn write_step<W: TextWriter>(out: &mut W)
    ensures { Wrote W.given out.old out.new step_text }
{
    out.put(b"            pc <= pc + 1;\n          when 3 =>\n");
}

fn write_process_end<W: TextWriter>(out: &mut W)
    ensures { Wrote W.given out.old out.new process_end }
{
    out.put(
        b"          when others =>\n            null;\n        end case;\n      end if;\n    end if;\n  end process;\nend architecture;\n",
    );
}

/// Writes the node of a process, with an empty line before it.
pub(crate) fn write_node<W: TextWriter>(auto: &NodeAuto, out: &mut W)
    ensures { Wrote W.given out.old out.new (node_text auto.now) }
{
    let gets = auto.gets.as_slice();
    let puts = auto.puts.as_slice();
    write_start(auto.process, out);
    write_role_ports(auto.role, out);
    write_parts(Part::PortsIn, auto, gets, out);
    write_parts(Part::PortsOut, auto, puts, out);
    write_entity_end(out);
    write_architecture_head(auto.process, out);
    write_column(Column::Op, auto, out);
    write_column(Column::Arg, auto, out);
    write_column(Column::Dst, auto, out);
    write_reads(auto, out);
    write_variables(auto, out);
    write_signals(auto, out);
    write_role_signal(auto.role, out);
    write_functions(out);
    write_role_lines(auto.role, out);
    write_parts(Part::Take, auto, gets, out);
    write_parts(Part::Give, auto, puts, out);
    write_process_head(out);
    write_gave_low(auto.role, out);
    write_case_head(out);
    write_branch(Part::Receive, auto, gets, out);
    write_fire(auto, out);
    write_gave_high(auto.role, out);
    write_step(out);
    write_branch(Part::Send, auto, puts, out);
    write_process_end(out);
}
