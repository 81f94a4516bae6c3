ghost use Rattle.std.specs.Prelude.{◌≡◌, ◌++◌};
ghost use Rattle.text_out.specs.Wrote.{Wrote};
ghost use Rattle.port_text.specs.declared.tables.GetColumn.TheVariants.{Op, Dst};
ghost use Rattle.port_text.specs.Ports.{bit as bit_text, get_reset, get_sequencer, get_signals, get_text, gets_text, put_sequencer, put_signals, put_text, puts_text};
ghost use Rattle.port_text.specs.Tables.{get_table};

use crate::tables::{GetColumn, write_get_table, write_put_table};
use crate::unit::{GetControl, PutControl};
use sequencer_text::{EntityName, write_name, write_sequencer};
use text_out::{TextWriter, write_number};
use vhdl_text::write_with_number;

/// What a node has for each of its ports.
#[derive(Clone, Copy)]
pub(crate) enum PortPart {
    /// Its sequencer, before the node.
    Entity,
    /// What its items are.
    Tables,
    /// Its signals.
    Signals,
    /// Its sequencer in the node.
    Sequencer,
    /// The lines that drive its signals.
    Lines,
    /// When the process may fire.
    MayFire,
    /// When the process is done.
    Done,
    /// What is done at an edge.
    Clocked,
    /// What is done at a reset.
    Reset,
}

fn bit(high: bool) -> &'static [u8]
    ensures { result.now ≡ bit_text high }
{
    if high { b"1" } else { b"0" }
}

fn write_get_tables<W: TextWriter>(control: &GetControl, out: &mut W)
    ensures { Wrote W.given out.old out.new
        (get_table Op control.now ++ get_table Dst control.now) }
{
    write_get_table(GetColumn::Op, control, out);
    write_get_table(GetColumn::Dst, control, out);
}

fn write_get_signals<W: TextWriter>(control: &GetControl, out: &mut W)
    ensures { Wrote W.given out.old out.new (get_signals control.now) }
{
    out.put(b"  signal get");
    write_number(control.channel, out);
    out.put(b"_pc : integer range 0 to ");
    write_number(control.items.instructions.len() as u64, out);
    write_with_number(
        u64::from(control.channel),
        &[
            b";\n  signal get",
            b"_op_here, get",
            b"_dst_here : integer;\n  signal get",
            b"_free, get",
            b"_step : std_logic;\n  signal get",
            b"_waits : std_logic := '",
        ],
        out,
    );
    out.put(bit(control.waits));
    out.put(b"';\n");
}

fn write_get_sequencer<W: TextWriter>(process: u32, channel: u32, out: &mut W)
    ensures { Wrote W.given out.old out.new (get_sequencer process channel) }
{
    out.put(b"  get");
    write_number(channel, out);
    out.put(b" : entity work.");
    write_name(EntityName::Get(process, channel), out);
    write_with_number(
        u64::from(channel),
        &[
            b"\n    port map (\n      clk => clk,\n      rst => rst,\n      again => again,\n      step => get",
            b"_step,\n      at => get",
            b"_pc\n    );\n",
        ],
        out,
    );
}

fn write_get_reset<W: TextWriter>(control: &GetControl, out: &mut W)
    ensures { Wrote W.given out.old out.new (get_reset control.now) }
{
    out.put(b"        get");
    write_number(control.channel, out);
    out.put(b"_waits <= '");
    out.put(bit(control.waits));
    out.put(b"';\n");
}

fn write_get<W: TextWriter>(part: PortPart, process: u32, control: &GetControl, out: &mut W)
    ensures { Wrote W.given out.old out.new (get_text part process control.now) }
{
    let channel = u64::from(control.channel);
    match part {
        PortPart::Entity => write_sequencer(
            EntityName::Get(process, control.channel),
            &control.items,
            out,
        ),
        PortPart::Tables => write_get_tables(control, out),
        PortPart::Signals => write_get_signals(control, out),
        PortPart::Sequencer => write_get_sequencer(process, control.channel, out),
        PortPart::Lines => write_with_number(
            channel,
            &[
                b"  get",
                b"_op_here <= op_get",
                b"(get",
                b"_pc);\n  get",
                b"_dst_here <= dst_get",
                b"(get",
                b"_pc);\n  get",
                b"_free <= '1' when get",
                b"_waits = '0' or fires = '1' else '0';\n  get",
                b"_step <= '1' when get",
                b"_free = '1' and (get",
                b"_op_here = 2 or (get",
                b"_op_here /= 4 and c",
                b"_valid = '1')) else '0';\n  c",
                b"_take <= '1' when get",
                b"_free = '1' and (get",
                b"_op_here = 1 or get",
                b"_op_here = 3) else '0';\n",
            ],
            out,
        ),
        PortPart::MayFire => {
            write_with_number(channel, &[b"    and get", b"_waits = '1'\n"], out)
        }
        PortPart::Done => write_with_number(channel, &[b"    and get", b"_op_here = 4\n"], out),
        PortPart::Clocked => write_with_number(
            channel,
            &[
                b"      if get",
                b"_step = '1' and get",
                b"_op_here /= 2 then\n        slot(get",
                b"_dst_here) <= c",
                b"_front;\n      end if;\n      if get",
                b"_step = '1' and get",
                b"_op_here /= 1 then\n        get",
                b"_waits <= '1';\n      elsif fires = '1' then\n        get",
                b"_waits <= '0';\n      end if;\n",
            ],
            out,
        ),
        PortPart::Reset => write_get_reset(control, out),
    }
}

/// Writes a part for each of these ports of a process.
pub(crate) fn write_gets<W: TextWriter>(
    part: PortPart,
    process: u32,
    controls: &[GetControl],
    out: &mut W,
)
    ensures { Wrote W.given out.old out.new (gets_text part process controls.now) }
{
    for control in controls {
        write_get(part, process, control, out);
    }
}

fn write_put_signals<W: TextWriter>(control: &PutControl, out: &mut W)
    ensures { Wrote W.given out.old out.new (put_signals control.now) }
{
    out.put(b"  signal put");
    write_number(control.channel, out);
    out.put(b"_pc : integer range 0 to ");
    write_number(control.items.instructions.len() as u64, out);
    write_with_number(
        u64::from(control.channel),
        &[
            b";\n  signal put",
            b"_op_here : integer;\n  signal put",
            b"_clear, put",
            b"_step : std_logic;\n  signal put",
            b"_waits : std_logic := '0';\n",
        ],
        out,
    );
}

fn write_put_sequencer<W: TextWriter>(process: u32, channel: u32, out: &mut W)
    ensures { Wrote W.given out.old out.new (put_sequencer process channel) }
{
    out.put(b"  put");
    write_number(channel, out);
    out.put(b" : entity work.");
    write_name(EntityName::Put(process, channel), out);
    write_with_number(
        u64::from(channel),
        &[
            b"\n    port map (\n      clk => clk,\n      rst => rst,\n      again => again,\n      step => put",
            b"_step,\n      at => put",
            b"_pc\n    );\n",
        ],
        out,
    );
}

fn write_put<W: TextWriter>(part: PortPart, process: u32, control: &PutControl, out: &mut W)
    ensures { Wrote W.given out.old out.new (put_text part process control.now) }
{
    let channel = u64::from(control.channel);
    match part {
        PortPart::Entity => write_sequencer(
            EntityName::Put(process, control.channel),
            &control.items,
            out,
        ),
        PortPart::Tables => write_put_table(control, out),
        PortPart::Signals => write_put_signals(control, out),
        PortPart::Sequencer => write_put_sequencer(process, control.channel, out),
        PortPart::Lines => write_with_number(
            channel,
            &[
                b"  put",
                b"_op_here <= op_put",
                b"(put",
                b"_pc);\n  put",
                b"_clear <= '1' when put",
                b"_waits = '0' or c",
                b"_ready = '1' else '0';\n  put",
                b"_step <= '1' when fires = '1' or (put",
                b"_clear = '1' and put",
                b"_op_here = 1) else '0';\n  c",
                b"_data <= fired;\n  c",
                b"_give <= put",
                b"_waits;\n",
            ],
            out,
        ),
        PortPart::MayFire => write_with_number(
            channel,
            &[
                b"    and put",
                b"_clear = '1' and (put",
                b"_op_here = 2 or put",
                b"_op_here = 3)\n",
            ],
            out,
        ),
        PortPart::Done => write_with_number(
            channel,
            &[b"    and put", b"_op_here = 4 and put", b"_waits = '0'\n"],
            out,
        ),
        PortPart::Clocked => write_with_number(
            channel,
            &[
                b"      if put",
                b"_step = '1' and put",
                b"_op_here /= 2 then\n        put",
                b"_waits <= '1';\n      elsif put",
                b"_clear = '1' then\n        put",
                b"_waits <= '0';\n      end if;\n",
            ],
            out,
        ),
        PortPart::Reset => {
            write_with_number(channel, &[b"        put", b"_waits <= '0';\n"], out)
        }
    }
}

/// Writes a part for each of these ports of a process.
pub(crate) fn write_puts<W: TextWriter>(
    part: PortPart,
    process: u32,
    controls: &[PutControl],
    out: &mut W,
)
    ensures { Wrote W.given out.old out.new (puts_text part process controls.now) }
{
    for control in controls {
        write_put(part, process, control, out);
    }
}
