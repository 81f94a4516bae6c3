ghost use Rattle.std.specs.Prelude.{◌≡◌};
ghost use Rattle.text_out.specs.Wrote.{Wrote};
ghost use Rattle.vhdl_text.specs.Channels.{branch_text, data_in, is_own as leads_back, part_text, parts_text, ports_in, receive_lines};

use crate::words::write_with_number;
use node_automata::NodeAuto;
use text_out::{TextWriter, write_number};

/// What a node has for a channel.
#[derive(Clone, Copy)]
pub(crate) enum Part {
    /// The ports of an incoming channel.
    PortsIn,
    /// The ports of an outgoing channel.
    PortsOut,
    /// The line that drives the port of an incoming channel.
    Take,
    /// The lines that drive the ports of an outgoing channel.
    Give,
    /// What is done at a Get.
    Receive,
    /// What is done at a Put.
    Send,
}

/// Whether an incoming channel leads from the process to itself.
fn is_own(auto: &NodeAuto, channel: u32) -> bool
    ensures { result ≡ leads_back auto.now channel }
{
    auto.puts.as_slice().contains(&channel)
}

fn write_data_in<W: TextWriter>(own: bool, out: &mut W)
    ensures { Wrote W.given out.old out.new (data_in own) }
{
    if own {
        out.put(b"_in");
    } else {
        out.put(b"_data");
    }
}

fn write_ports_in<W: TextWriter>(own: bool, channel: u64, out: &mut W)
    ensures { Wrote W.given out.old out.new (ports_in own channel) }
{
    out.put(b"    c");
    write_number(channel, out);
    out.put(b"_valid : in std_logic;\n    c");
    write_number(channel, out);
    write_data_in(own, out);
    out.put(b" : in signed(63 downto 0);\n    c");
    write_number(channel, out);
    out.put(b"_take : out std_logic;\n");
}

fn write_receive_lines<W: TextWriter>(own: bool, channel: u64, out: &mut W)
    ensures { Wrote W.given out.old out.new (receive_lines own channel) }
{
    out.put(b"            if arg(pc) = ");
    write_number(channel, out);
    out.put(b" and c");
    write_number(channel, out);
    out.put(b"_valid = '1' then\n              slot(dst(pc)) <= c");
    write_number(channel, out);
    write_data_in(own, out);
    out.put(b";\n              pc <= pc + 1;\n            end if;\n");
}

fn write_part<W: TextWriter>(part: Part, own: bool, channel: u64, out: &mut W)
    ensures { Wrote W.given out.old out.new (part_text part own channel) }
{
    match part {
        Part::PortsIn => write_ports_in(own, channel, out),
        Part::PortsOut => write_with_number(
            channel,
            &[
                b"    c",
                b"_ready : in std_logic;\n    c",
                b"_data : out signed(63 downto 0);\n    c",
                b"_give : out std_logic;\n",
            ],
            out,
        ),
        Part::Take => write_with_number(
            channel,
            &[
                b"  c",
                b"_take <= '1' when op(pc) = 1 and arg(pc) = ",
                b" else '0';\n",
            ],
            out,
        ),
        Part::Give => write_with_number(
            channel,
            &[
                b"  c",
                b"_data <= fired;\n  c",
                b"_give <= '1' when op(pc) = 3 and arg(pc) = ",
                b" else '0';\n",
            ],
            out,
        ),
        Part::Receive => write_receive_lines(own, channel, out),
        Part::Send => write_with_number(
            channel,
            &[
                b"            if arg(pc) = ",
                b" and c",
                b"_ready = '1' then\n              pc <= pc + 1;\n            end if;\n",
            ],
            out,
        ),
    }
}

/// Writes a part for each of these channels.
pub(crate) fn write_parts<W: TextWriter>(part: Part, auto: &NodeAuto, channels: &[u32], out: &mut W)
    ensures { Wrote W.given out.old out.new (parts_text part auto.now channels.now) }
{
    for channel in channels {
        write_part(part, is_own(auto, *channel), u64::from(*channel), out);
    }
}

/// Writes the same as a branch of the case statement, which isn't empty where there is no channel.
pub(crate) fn write_branch<W: TextWriter>(
    part: Part,
    auto: &NodeAuto,
    channels: &[u32],
    out: &mut W,
)
    ensures { Wrote W.given out.old out.new (branch_text part auto.now channels.now) }
{
    if channels.is_empty() {
        out.put(b"            null;\n");
    } else {
        write_parts(part, auto, channels, out);
    }
}
