ghost use Rattle.text_out.specs.Wrote.{Wrote};
ghost use Rattle.vhdl_text.specs.declared.expression.Naming.TheVariants.{Signals};
ghost use Rattle.vhdl_text.specs.Expressions.{expr_text};
ghost use Rattle.unit_text.specs.Nodes.{fire_lines};
ghost use Rattle.port_text.specs.Nodes.{clocked_text, constants_text, done_line, entities_text, fire_sequencer, may_fire_line, port_unit_text, ports_text, read_text, reads_text, reset_text, role_lines, sequencers_text, signals_text, wiring_text};

use crate::ports::{PortPart, write_gets, write_puts};
use crate::tables::write_read_table;
use crate::unit::PortUnit;
use sanlp::Role;
use sequencer_text::{EntityName, write_name, write_sequencer};
use text_out::{TextWriter, write_number};
use unit_text::{LoopPart, RolePart, role_part, write_entity, write_loops};
use vhdl_text::{Naming, write_expr, write_functions, write_with_number};

/// What a node has for a read.
#[derive(Clone, Copy)]
pub(crate) enum ReadPart {
    /// The slot of each fire.
    Table,
    /// The slot of the next fire.
    Signal,
    /// The line that drives it.
    Line,
}

fn write_read<W: TextWriter>(part: ReadPart, unit: &PortUnit, read: u32, out: &mut W)
    ensures { Wrote W.given out.old out.new (read_text part unit.now read) }
{
    let number = u64::from(read);
    match part {
        ReadPart::Table => write_read_table(read, &unit.fires, out),
        ReadPart::Signal => {
            write_with_number(number, &[b"  signal r", b"_here : integer;\n"], out)
        }
        ReadPart::Line => { write_with_number(number, &[b"  r", b"_here <= r", b"(pc);\n"], out) }
    }
}

// Writes a part for each read.
fn write_reads<W: TextWriter>(part: ReadPart, unit: &PortUnit, out: &mut W)
    ensures { Wrote W.given out.old out.new (reads_text part unit.now) }
{
    for read in 0..unit.unit.auto.reads {
        write_read(part, unit, read, out);
    }
}

// Writes a part for each port of the process: for those at which it gets, and then for those at which it puts.
fn write_ports<W: TextWriter>(part: PortPart, unit: &PortUnit, out: &mut W)
    ensures { Wrote W.given out.old out.new (ports_text part unit.now) }
{
    write_gets(part, unit.unit.auto.process, unit.gets.as_slice(), out);
    write_puts(part, unit.unit.auto.process, unit.puts.as_slice(), out);
}

// When a process of a role fires, and the lines that drive the ports of its role.
fn write_role<W: TextWriter>(role: Role, out: &mut W)
    ensures { Wrote W.given out.old out.new (role_lines role) }
{
    match role {
        Role::Source(_) => out.put(
            b"  fires <= may_fire and given_valid;\n  given_ready <= may_fire and not rst;\n",
        ),
        Role::Assign => out.put(b"  fires <= may_fire;\n"),
        Role::Sink(_) => out.put(
            b"  fires <= '1' when may_fire = '1' and (gave = '0' or result_ready = '1') else '0';\n  result <= fired;\n  result_valid <= '1' when gave = '1' and rst = '0' else '0';\n",
        ),
    }
}

fn write_fire_sequencer<W: TextWriter>(process: u32, out: &mut W)
    ensures { Wrote W.given out.old out.new (fire_sequencer process) }
{
    out.put(b"  fire : entity work.");
    write_name(EntityName::Fires(process), out);
    out.put(
        b"\n    port map (\n      clk => clk,\n      rst => rst,\n      again => again,\n      step => fires,\n      at => pc\n    );\n",
    );
}

fn write_may_fire<W: TextWriter>(unit: &PortUnit, out: &mut W)
    ensures { Wrote W.given out.old out.new (may_fire_line unit.now) }
{
    out.put(b"  may_fire <= '1' when pc /= ");
    write_number(unit.fires.instructions.len() as u64, out);
    out.put(b"\n");
    write_ports(PortPart::MayFire, unit, out);
    out.put(b"    else '0';\n");
}

fn write_done<W: TextWriter>(unit: &PortUnit, out: &mut W)
    ensures { Wrote W.given out.old out.new (done_line unit.now) }
{
    out.put(b"  done <= '1' when pc = ");
    write_number(unit.fires.instructions.len() as u64, out);
    out.put(b"\n");
    write_ports(PortPart::Done, unit, out);
    out.put(b"    else '0';\n");
}

// Writes the sequencers of the fires, of the ports and of the loops.
fn write_entities<W: TextWriter>(unit: &PortUnit, out: &mut W)
    ensures { Wrote W.given out.old out.new (entities_text unit.now) }
{
    write_sequencer(EntityName::Fires(unit.unit.auto.process), &unit.fires, out);
    write_ports(PortPart::Entity, unit, out);
    write_loops(LoopPart::Entity, &unit.unit, out);
}

fn write_constants<W: TextWriter>(unit: &PortUnit, out: &mut W)
    ensures { Wrote W.given out.old out.new (constants_text unit.now) }
{
    write_with_number(
        u64::from(unit.unit.auto.process),
        &[
            b"architecture rtl of node_",
            b" is\n  type codes is array (natural range <>) of integer;\n  type words is array (natural range <>) of signed(63 downto 0);\n  constant zero : signed(63 downto 0) := x\"0000000000000000\";\n",
        ],
        out,
    );
    write_ports(PortPart::Tables, unit, out);
    write_reads(ReadPart::Table, unit, out);
    write_loops(LoopPart::Table, &unit.unit, out);
}

fn write_signals<W: TextWriter>(unit: &PortUnit, out: &mut W)
    ensures { Wrote W.given out.old out.new (signals_text unit.now) }
{
    write_with_number(
        unit.fires.instructions.len() as u64,
        &[
            b"  signal pc : integer range 0 to ",
            b";\n  signal may_fire, fires : std_logic;\n",
        ],
        out,
    );
    write_ports(PortPart::Signals, unit, out);
    write_reads(ReadPart::Signal, unit, out);
    write_loops(LoopPart::Signals, &unit.unit, out);
    write_with_number(
        u64::from(unit.unit.auto.slots),
        &[
            b"  signal slot : words(0 to ",
            b");\n  signal fired : signed(63 downto 0);\n",
        ],
        out,
    );
    out.put(role_part(RolePart::Signal, unit.unit.auto.role));
    write_functions(out);
}

// Writes the sequencers in the node.
fn write_sequencers<W: TextWriter>(unit: &PortUnit, out: &mut W)
    ensures { Wrote W.given out.old out.new (sequencers_text unit.now) }
{
    write_fire_sequencer(unit.unit.auto.process, out);
    write_ports(PortPart::Sequencer, unit, out);
    write_loops(LoopPart::Part, &unit.unit, out);
}

fn write_wiring<W: TextWriter>(unit: &PortUnit, out: &mut W)
    ensures { Wrote W.given out.old out.new (wiring_text unit.now) }
{
    write_sequencers(unit, out);
    write_reads(ReadPart::Line, unit, out);
    write_ports(PortPart::Lines, unit, out);
    write_may_fire(unit, out);
    write_role(unit.unit.auto.role, out);
    write_done(unit, out);
}

fn write_fire<W: TextWriter>(unit: &PortUnit, out: &mut W)
    ensures { Wrote W.given out.old out.new
        (fire_lines (expr_text Signals unit.now.unit.auto.expr)) }
{
    out.put(b"      if fires = '1' then\n        fired <= ");
    write_expr(Naming::Signals, &unit.unit.auto.expr, out);
    out.put(b";\n");
}

// Writes what is done at an edge but for a reset.
fn write_clocked<W: TextWriter>(unit: &PortUnit, out: &mut W)
    ensures { Wrote W.given out.old out.new (clocked_text unit.now) }
{
    out.put(b"  process (clk)\n  begin\n    if rising_edge(clk) then\n");
    write_ports(PortPart::Clocked, unit, out);
    out.put(role_part(RolePart::Taken, unit.unit.auto.role));
    write_fire(unit, out);
    out.put(role_part(RolePart::Gives, unit.unit.auto.role));
    write_loops(LoopPart::Gain, &unit.unit, out);
}

fn write_reset<W: TextWriter>(unit: &PortUnit, out: &mut W)
    ensures { Wrote W.given out.old out.new (reset_text unit.now) }
{
    out.put(b"      end if;\n      if rst = '1' then\n        fired <= zero;\n");
    out.put(role_part(RolePart::Reset, unit.unit.auto.role));
    write_loops(LoopPart::Reset, &unit.unit, out);
    write_ports(PortPart::Reset, unit, out);
    out.put(b"      end if;\n    end if;\n  end process;\nend architecture;\n");
}

/// Writes the sequencers of a process and of its ports, and its node, with an empty line before each.
pub fn write_port_unit<W: TextWriter>(unit: &PortUnit, out: &mut W)
    ensures { Wrote W.given out.old out.new (port_unit_text unit.now) }
{
    write_entities(unit, out);
    write_entity(&unit.unit, out);
    write_constants(unit, out);
    write_signals(unit, out);
    write_wiring(unit, out);
    write_clocked(unit, out);
    write_reset(unit, out);
}
