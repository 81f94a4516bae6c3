ghost use Rattle.std.specs.Prelude.{◌≡◌, ℕ, map};
ghost use Rattle.std.specs.List.{flat_map};
ghost use Rattle.text_out.specs.Wrote.{Wrote};
ghost use Rattle.vhdl_text.specs.declared.expression.Naming.TheVariants.{Signals};
ghost use Rattle.vhdl_text.specs.Expressions.{expr_text};
ghost use Rattle.vhdl_text.specs.Literals.{literal as literal_text};
ghost use Rattle.vhdl_text.specs.Pieces.{entries_from};
ghost use Rattle.sanlp.specs.declared.nest.Role.TheVariants.{Source, Assign, Sink};
ghost use Rattle.unit_text.specs.Nodes.{control_part, declarations_text, entity_text, fire_lines, gain_table, loop_part, loop_reset, loop_signals, loop_text, loops_text, part_text, parts_text, process_text, read_text, reads_text, role_text, unit_text, wiring_text};

use crate::events::write_event_table;
use crate::unit::{LoopCounter, Unit};
use repeat_sequencer::Instruction;
use sanlp::Role;
use sequencer_text::{EntityName, write_name, write_sequencer};
use text_out::{TextWriter, Word, write_number};
use vhdl_text::{
    Column, Naming, literal, write_all, write_entry, write_expr, write_functions, write_head,
    write_tail, write_with_number,
};

/// What a node has for a channel.
#[derive(Clone, Copy)]
pub(crate) enum Part {
    /// The ports of an incoming channel.
    PortsIn,
    /// The ports of an outgoing channel.
    PortsOut,
    /// When a Get comes.
    StepIn,
    /// When a Put comes.
    StepOut,
    /// The line that drives the port of an incoming channel.
    Take,
    /// The lines that drive the ports of an outgoing channel.
    Give,
    /// What is done at a Get.
    Receive,
}

/// What a node has for a read.
#[derive(Clone, Copy)]
pub(crate) enum ReadPart {
    /// The slot of each fire.
    Table,
    /// The slot at the instruction.
    Signal,
    /// The line that drives it.
    Line,
}

/// What a node has for a loop that its expression names.
#[derive(Clone, Copy)]
pub enum LoopPart {
    /// Its sequencer, before the node.
    Entity,
    /// What it gains.
    Table,
    /// Its signals.
    Signals,
    /// Its sequencer in the node.
    Part,
    /// What it gains at a fire.
    Gain,
    /// What it is at a reset.
    Reset,
}

/// What a node has for its role.
#[derive(Clone, Copy)]
pub enum RolePart {
    /// Its ports.
    Ports,
    /// A sink's signal.
    Signal,
    /// When it fires.
    Fires,
    /// The lines that drive its ports.
    Lines,
    /// The value that was given is taken.
    Taken,
    /// A value is given.
    Gives,
    /// What is done at a reset.
    Reset,
}

/// What a node has for its role: of a source and of a sink lines of VHDL, and of another process nothing.
pub fn role_part(part: RolePart, role: Role) -> &'static [u8]
    ensures { result.now ≡ role_text part role }
{
    match role {
        Role::Source(_) => source_part(part),
        Role::Assign => assign_part(part),
        Role::Sink(_) => sink_part(part),
    }
}

fn source_part(part: RolePart) -> &'static [u8]
    ensures { (array : ℕ) → result.now ≡ role_text part (Source array) }
{
    match part {
        RolePart::Ports => {
            b"    given : in signed(63 downto 0);\n    given_valid : in std_logic;\n    given_ready : out std_logic;\n"
        }
        RolePart::Fires => b"  fires <= '1' when op_here = 2 and given_valid = '1' else '0';\n",
        RolePart::Lines => b"  given_ready <= '1' when op_here = 2 and rst = '0' else '0';\n",
        RolePart::Signal | RolePart::Taken | RolePart::Gives | RolePart::Reset => b"",
    }
}

fn assign_part(part: RolePart) -> &'static [u8]
    ensures { result.now ≡ role_text part Assign }
{
    match part {
        RolePart::Fires => b"  fires <= '1' when op_here = 2 else '0';\n",
        RolePart::Ports
        | RolePart::Signal
        | RolePart::Lines
        | RolePart::Taken
        | RolePart::Gives
        | RolePart::Reset => b"",
    }
}

fn sink_part(part: RolePart) -> &'static [u8]
    ensures { (array : ℕ) → result.now ≡ role_text part (Sink array) }
{
    match part {
        RolePart::Ports => {
            b"    result : out signed(63 downto 0);\n    result_valid : out std_logic;\n    result_ready : in std_logic;\n"
        }
        RolePart::Signal => b"  signal gave : std_logic := '0';\n",
        RolePart::Fires => {
            b"  fires <= '1' when op_here = 2 and (gave = '0' or result_ready = '1') else '0';\n"
        }
        RolePart::Lines =>
            b"  result <= fired;\n  result_valid <= '1' when gave = '1' and rst = '0' else '0';\n",
        RolePart::Taken =>
            b"      if result_ready = '1' then\n        gave <= '0';\n      end if;\n",
        RolePart::Gives => b"        gave <= '1';\n",
        RolePart::Reset => b"        gave <= '0';\n",
    }
}

fn write_part<W: TextWriter>(part: Part, channel: u64, out: &mut W)
    ensures { Wrote W.given out.old out.new (part_text part channel) }
{
    match part {
        Part::PortsIn => write_with_number(
            channel,
            &[
                b"    c",
                b"_valid : in std_logic;\n    c",
                b"_front : in signed(63 downto 0);\n    c",
                b"_take : out std_logic;\n",
            ],
            out,
        ),
        Part::PortsOut => write_with_number(
            channel,
            &[
                b"    c",
                b"_ready : in std_logic;\n    c",
                b"_data : out signed(63 downto 0);\n    c",
                b"_give : out std_logic;\n",
            ],
            out,
        ),
        Part::StepIn => write_with_number(
            channel,
            &[
                b"    or (op_here = 1 and arg_here = ",
                b" and c",
                b"_valid = '1')\n",
            ],
            out,
        ),
        Part::StepOut => write_with_number(
            channel,
            &[
                b"    or (op_here = 3 and arg_here = ",
                b" and c",
                b"_ready = '1')\n",
            ],
            out,
        ),
        Part::Take => write_with_number(
            channel,
            &[
                b"  c",
                b"_take <= '1' when op_here = 1 and arg_here = ",
                b" else '0';\n",
            ],
            out,
        ),
        Part::Give => write_with_number(
            channel,
            &[
                b"  c",
                b"_data <= fired;\n  c",
                b"_give <= '1' when op_here = 3 and arg_here = ",
                b" else '0';\n",
            ],
            out,
        ),
        Part::Receive => write_with_number(
            channel,
            &[
                b"      if op_here = 1 and arg_here = ",
                b" and c",
                b"_valid = '1' then\n        slot(dst_here) <= c",
                b"_front;\n      end if;\n",
            ],
            out,
        ),
    }
}

/// Writes a part for each of these channels.
fn write_parts<W: TextWriter>(part: Part, channels: &[u32], out: &mut W)
    ensures { Wrote W.given out.old out.new (parts_text part channels.now) }
{
    for channel in channels {
        write_part(part, u64::from(*channel), out);
    }
}

fn write_read<W: TextWriter>(part: ReadPart, unit: &Unit, read: u32, out: &mut W)
    ensures { Wrote W.given out.old out.new (read_text part unit.now read) }
{
    let number = u64::from(read);
    match part {
        ReadPart::Table => write_event_table(Column::Read(read), &unit.control, out),
        ReadPart::Signal => {
            write_with_number(number, &[b"  signal r", b"_here : integer;\n"], out)
        }
        ReadPart::Line => { write_with_number(number, &[b"  r", b"_here <= r", b"(pc);\n"], out) }
    }
}

/// Writes a part for each read.
fn write_reads<W: TextWriter>(part: ReadPart, unit: &Unit, out: &mut W)
    ensures { Wrote W.given out.old out.new (reads_text part unit.now) }
{
    for read in 0..unit.auto.reads {
        write_read(part, unit, read, out);
    }
}

fn write_gains<W: TextWriter>(instructions: &[Instruction<i64>], out: &mut W)
    ensures { Wrote W.given out.old out.new
        (entries_from 0 (map (λ i. literal_text i.item) instructions.now)) }
{
    for (index, instruction) in instructions.iter().enumerate() {
        write_entry(index as u64, Word::Text(&literal(instruction.item)), out);
    }
}

// Writes the table of what a loop gains.
fn write_gain_table<W: TextWriter>(counter: &LoopCounter, out: &mut W)
    ensures { Wrote W.given out.old out.new (gain_table counter.now) }
{
    let count = counter.gains.instructions.len() as u64;
    let number = Word::Number(u64::from(counter.number));
    write_head(b"gain", number, b"words", count, out);
    write_gains(counter.gains.instructions.as_slice(), out);
    write_tail(count, Word::Text(&literal(1)), out);
}

fn write_loop_signals<W: TextWriter>(counter: &LoopCounter, out: &mut W)
    ensures { Wrote W.given out.old out.new (loop_signals counter.now) }
{
    let number = Word::Number(u64::from(counter.number));
    write_all(
        &[
            Word::Text(b"  signal pc"),
            number,
            Word::Text(b" : integer range 0 to "),
            Word::Number(counter.gains.instructions.len() as u64),
            Word::Text(b";\n  signal v"),
            number,
            Word::Text(b" : signed(63 downto 0) := "),
            Word::Text(&literal(counter.first)),
            Word::Text(b";\n"),
        ],
        out,
    );
}

fn write_loop_part<W: TextWriter>(process: u32, counter: &LoopCounter, out: &mut W)
    ensures { Wrote W.given out.old out.new (loop_part process counter.now) }
{
    out.put(b"  loop");
    write_number(counter.number, out);
    out.put(b" : entity work.");
    write_name(EntityName::Loop(process, counter.number), out);
    out.put(
        b"\n    port map (\n      clk => clk,\n      rst => rst,\n      again => '1',\n      step => fires,\n      at => pc",
    );
    write_number(counter.number, out);
    out.put(b"\n    );\n");
}

fn write_loop_reset<W: TextWriter>(counter: &LoopCounter, out: &mut W)
    ensures { Wrote W.given out.old out.new (loop_reset counter.now) }
{
    write_all(
        &[
            Word::Text(b"        v"),
            Word::Number(u64::from(counter.number)),
            Word::Text(b" <= "),
            Word::Text(&literal(counter.first)),
            Word::Text(b";\n"),
        ],
        out,
    );
}

fn write_loop<W: TextWriter>(part: LoopPart, process: u32, counter: &LoopCounter, out: &mut W)
    ensures { Wrote W.given out.old out.new (loop_text part process counter.now) }
{
    match part {
        LoopPart::Entity => {
            write_sequencer(
                EntityName::Loop(process, counter.number),
                &counter.gains,
                out,
            );
        }
        LoopPart::Table => write_gain_table(counter, out),
        LoopPart::Signals => write_loop_signals(counter, out),
        LoopPart::Part => write_loop_part(process, counter, out),
        LoopPart::Gain => write_with_number(
            u64::from(counter.number),
            &[b"        v", b" <= v", b" + gain", b"(pc", b");\n"],
            out,
        ),
        LoopPart::Reset => write_loop_reset(counter, out),
    }
}

// Writes a part for each of these loops of a process.
fn write_each_loop<W: TextWriter>(part: LoopPart, process: u32, loops: &[LoopCounter], out: &mut W)
    ensures { Wrote W.given out.old out.new (flat_map (loop_text part process) loops.now) }
{
    for counter in loops {
        write_loop(part, process, counter, out);
    }
}

/// Writes a part for each loop that the expression of a process names, ascending.
pub fn write_loops<W: TextWriter>(part: LoopPart, unit: &Unit, out: &mut W)
    ensures { Wrote W.given out.old out.new (loops_text part unit.now) }
{
    write_each_loop(part, unit.auto.process, unit.loops.as_slice(), out);
}

fn write_control<W: TextWriter>(process: u32, out: &mut W)
    ensures { Wrote W.given out.old out.new (control_part process) }
{
    out.put(b"  control : entity work.");
    write_name(EntityName::Control(process), out);
    out.put(
        b"\n    port map (\n      clk => clk,\n      rst => rst,\n      again => again,\n      step => step,\n      at => pc\n    );\n",
    );
}

/// Writes the entity of a node, with the ports of its role and of its channels, and an empty line before it.
pub fn write_entity<W: TextWriter>(unit: &Unit, out: &mut W)
    ensures { Wrote W.given out.old out.new (entity_text unit.now) }
{
    write_with_number(
        u64::from(unit.auto.process),
        &[
            b"\nlibrary ieee;\nuse ieee.std_logic_1164.all;\nuse ieee.numeric_std.all;\nentity node_",
            b" is\n  port (\n    clk : in std_logic;\n    rst : in std_logic;\n    again : in std_logic;\n",
        ],
        out,
    );
    out.put(role_part(RolePart::Ports, unit.auto.role));
    write_parts(Part::PortsIn, unit.auto.gets.as_slice(), out);
    write_parts(Part::PortsOut, unit.auto.puts.as_slice(), out);
    out.put(b"    done : out std_logic\n  );\nend entity;\n");
}

fn write_declarations<W: TextWriter>(unit: &Unit, out: &mut W)
    ensures { Wrote W.given out.old out.new (declarations_text unit.now) }
{
    write_with_number(
        u64::from(unit.auto.process),
        &[
            b"architecture rtl of node_",
            b" is\n  type codes is array (natural range <>) of integer;\n  type words is array (natural range <>) of signed(63 downto 0);\n  constant zero : signed(63 downto 0) := x\"0000000000000000\";\n",
        ],
        out,
    );
    write_event_table(Column::Op, &unit.control, out);
    write_event_table(Column::Arg, &unit.control, out);
    write_event_table(Column::Dst, &unit.control, out);
    write_reads(ReadPart::Table, unit, out);
    write_loops(LoopPart::Table, unit, out);
    write_with_number(
        unit.control.instructions.len() as u64,
        &[
            b"  signal pc : integer range 0 to ",
            b";\n  signal step : std_logic;\n  signal fires : std_logic;\n  signal op_here, arg_here, dst_here : integer;\n",
        ],
        out,
    );
    write_reads(ReadPart::Signal, unit, out);
    write_loops(LoopPart::Signals, unit, out);
    write_with_number(
        u64::from(unit.auto.slots),
        &[
            b"  signal slot : words(0 to ",
            b");\n  signal fired : signed(63 downto 0);\n",
        ],
        out,
    );
    out.put(role_part(RolePart::Signal, unit.auto.role));
    write_functions(out);
}

fn write_wiring<W: TextWriter>(unit: &Unit, out: &mut W)
    ensures { Wrote W.given out.old out.new (wiring_text unit.now) }
{
    write_control(unit.auto.process, out);
    write_loops(LoopPart::Part, unit, out);
    out.put(b"  op_here <= op(pc);\n  arg_here <= arg(pc);\n  dst_here <= dst(pc);\n");
    write_reads(ReadPart::Line, unit, out);
    out.put(role_part(RolePart::Fires, unit.auto.role));
    out.put(b"  step <= '1' when fires = '1'\n");
    write_parts(Part::StepIn, unit.auto.gets.as_slice(), out);
    write_parts(Part::StepOut, unit.auto.puts.as_slice(), out);
    out.put(b"    else '0';\n");
    out.put(role_part(RolePart::Lines, unit.auto.role));
    write_parts(Part::Take, unit.auto.gets.as_slice(), out);
    write_parts(Part::Give, unit.auto.puts.as_slice(), out);
    out.put(b"  done <= '1' when op_here = 4 else '0';\n");
}

fn write_fire<W: TextWriter>(unit: &Unit, out: &mut W)
    ensures { Wrote W.given out.old out.new (fire_lines (expr_text Signals unit.now.auto.expr)) }
{
    out.put(b"      if fires = '1' then\n        fired <= ");
    write_expr(Naming::Signals, &unit.auto.expr, out);
    out.put(b";\n");
}

fn write_process<W: TextWriter>(unit: &Unit, out: &mut W)
    ensures { Wrote W.given out.old out.new (process_text unit.now) }
{
    out.put(b"  process (clk)\n  begin\n    if rising_edge(clk) then\n");
    write_parts(Part::Receive, unit.auto.gets.as_slice(), out);
    out.put(role_part(RolePart::Taken, unit.auto.role));
    write_fire(unit, out);
    out.put(role_part(RolePart::Gives, unit.auto.role));
    write_loops(LoopPart::Gain, unit, out);
    out.put(b"      end if;\n      if rst = '1' then\n        fired <= zero;\n");
    out.put(role_part(RolePart::Reset, unit.auto.role));
    write_loops(LoopPart::Reset, unit, out);
    out.put(b"      end if;\n    end if;\n  end process;\nend architecture;\n");
}

/// Writes the sequencers of a process and its node, with an empty line before each.
pub fn write_unit<W: TextWriter>(unit: &Unit, out: &mut W)
    ensures { Wrote W.given out.old out.new (unit_text unit.now) }
{
    write_sequencer(EntityName::Control(unit.auto.process), &unit.control, out);
    write_loops(LoopPart::Entity, unit, out);
    write_entity(unit, out);
    write_declarations(unit, out);
    write_wiring(unit, out);
    write_process(unit, out);
}
