ghost use Rattle.std.specs.Prelude.{◌≡◌, ◌==◌, ◌++◌, [], codes, false, if◌then◌else◌, map};
ghost use Rattle.std.specs.List.{flat_map};
ghost use Rattle.text_out.specs.Wrote.{Wrote};
ghost use Rattle.unit_text.specs.Ports.{port_line};
ghost use Rattle.rtl_text.specs.Joins.{array_joins, join_line, join_lines, role_joins_of};
ghost use Rattle.rtl_text.specs.Names.{array_name, differ_in_case as differ_in_letters, goes_on as is_continued, has_namesake as has_double, is_bare as stands_bare, is_digit as is_decimal, is_letter as is_letter_byte, is_lower_case as is_small, is_plain as is_plain_name, may_follow as may_stand, port_name, way_out};
ghost use Rattle.rtl_text.specs.Networks.{channel_part_text, channel_text, for_channels, for_units, instance_text, joins_text, network_body, network_entity, node_part, unit_part_text};
ghost use Rattle.rtl_text.specs.Ports.{array_ports, outer_ports, port_lines};

use net_core::{Channel, Network};
use sanlp::{Nest, Role};
use text_out::{TextWriter, write_number};
use unit_text::{HasUnit, Unit, write_unit};
use vhdl_text::write_with_number;

/// What the text of a design has for the hardware of a process.
#[derive(Clone, Copy)]
pub(crate) enum UnitPart {
    /// Its entities.
    Entities,
    /// The ports of the network that its role has.
    Ports,
    /// The signal that it is done.
    DoneSignal,
    /// Its node in the network.
    Node,
    /// The term that says that it is done.
    DoneTerm,
}

/// What the network has for a channel.
#[derive(Clone, Copy)]
pub(crate) enum ChannelPart {
    /// Its signals.
    Signals,
    /// Its instance.
    Instance,
}

/// Which end of a channel a process is.
#[derive(Clone, Copy)]
pub(crate) enum End {
    Reader,
    Writer,
}

/// How the ports of an array are named: by its name, and what they say behind their part.
#[derive(Clone, Copy)]
struct PortNames<'a> {
    nest: &'a Nest,
    array: &'a [u8],
    way: &'a [u8],
}

fn is_lower_case(byte: u8) -> bool
    ensures { result ≡ is_small byte }
{
    byte >= b'a' && byte <= b'z'
}

fn is_letter(byte: u8) -> bool
    ensures { result ≡ is_letter_byte byte }
{
    is_lower_case(byte.to_ascii_lowercase())
}

fn is_digit(byte: u8) -> bool
    ensures { result ≡ is_decimal byte }
{
    byte >= b'0' && byte <= b'9'
}

fn is_underscore(byte: u8) -> bool
    ensures { result ≡ (byte == 95) }
{
    byte == b'_'
}

fn may_follow(behind: bool, byte: u8) -> bool
    ensures { result ≡ may_stand behind byte }
{
    is_letter(byte) || is_digit(byte) || (is_underscore(byte) && !behind)
}

fn goes_on(name: &[u8]) -> bool
    ensures { result ≡ is_continued false name.now }
{
    let mut behind = false;
    for byte in name {
        if may_follow(behind, *byte) {
            behind = is_underscore(*byte);
        } else {
            return false;
        }
    }
    !behind
}

/// Whether VHDL takes a name as it is: letters, digits and single underscores between two of these, and a letter in front.
fn is_plain(name: &[u8]) -> bool
    ensures { result ≡ is_plain_name name.now }
{
    match name {
        [first, others @ ..] => is_letter(*first) && goes_on(others),
        [] => false,
    }
}

/// Whether two names differ in the case of their letters alone.
fn differ_in_case(name: &[u8], other: &[u8]) -> bool
    ensures { result ≡ differ_in_letters name.now other.now }
{
    name.eq_ignore_ascii_case(other) && name != other
}

/// Whether another array's name differs from this one in the case of its letters alone.
fn has_namesake(nest: &Nest, name: &[u8]) -> bool
    ensures { result ≡ has_double nest.now name.now }
{
    let arrays = nest.arrays.as_slice();
    arrays
        .iter()
        .any(|array| differ_in_case(name, array.name.as_slice()))
}

/// Whether an array's name stands as it is in those of its ports, and not between backslashes.
fn is_bare(nest: &Nest, name: &[u8]) -> bool
    ensures { result ≡ stands_bare nest.now name.now }
{
    is_plain(name) && !has_namesake(nest, name)
}

/// Writes the name of a port of an array.
fn write_port<W: TextWriter>(names: &PortNames, part: &[u8], out: &mut W)
    ensures { Wrote W.given out.old out.new
        (port_name names.now.nest.now names.now.array.now part.now names.now.way.now) }
{
    if is_bare(names.nest, names.array) {
        out.put(names.array);
        out.put(b"_");
        out.put(part);
        out.put(names.way);
    } else {
        out.put(b"\\");
        out.put(names.array);
        out.put(b"_");
        out.put(part);
        out.put(names.way);
        out.put(b"\\");
    }
}

/// The name of an array, empty where there is no such array.
fn name_of(nest: &Nest, array: u32) -> &[u8]
    ensures { result.now ≡ array_name nest.now array }
{
    match nest.arrays.get(array as usize) {
        Some(declared) => declared.name.as_slice(),
        None => &[],
    }
}

/// What a port of a sink's array says besides: that it goes out, where the array is given too.
fn way_out_of(nest: &Nest, array: u32) -> &'static [u8]
    ensures { result.now ≡ way_out nest.now array }
{
    match nest.arrays.get(array as usize) {
        Some(declared) => way_of(declared.kind.is_input()),
        None => b"",
    }
}

fn way_of(is_given: bool) -> &'static [u8]
    ensures { result.now ≡ (if is_given then codes "_out" else []) }
{
    if is_given { b"_out" } else { b"" }
}

fn source_names(nest: &Nest, array: u32) -> PortNames<'_>
    ensures nest { result.nest.now ≡ nest.now }
    ensures array { result.array.now ≡ array_name nest.now array }
    ensures way { result.way.now ≡ [] }
{
    PortNames {
        nest,
        array: name_of(nest, array),
        way: b"",
    }
}

fn sink_names(nest: &Nest, array: u32) -> PortNames<'_>
    ensures nest { result.nest.now ≡ nest.now }
    ensures array { result.array.now ≡ array_name nest.now array }
    ensures way { result.way.now ≡ way_out nest.now array }
{
    PortNames {
        nest,
        array: name_of(nest, array),
        way: way_out_of(nest, array),
    }
}

/// Writes the channel's entity, with an empty line before it.
pub fn write_channel<W: TextWriter>(out: &mut W)
    ensures { Wrote W.given out.old out.new channel_text }
{
    out.put(
        b"\nlibrary ieee;\nuse ieee.std_logic_1164.all;\nuse ieee.numeric_std.all;\nentity channel is\n  generic (\n    capacity : positive\n  );\n  port (\n    clk : in std_logic;\n    rst : in std_logic;\n    ready : out std_logic;\n    give : in std_logic;\n    data : in signed(63 downto 0);\n    valid : out std_logic;\n    take : in std_logic;\n    front : out signed(63 downto 0)\n  );\nend entity;\n",
    );
    out.put(
        b"architecture rtl of channel is\n  type words is array (natural range <>) of signed(63 downto 0);\n  subtype place is natural range 0 to capacity - 1;\n  signal ring : words(0 to capacity - 1);\n  signal oldest : place := 0;\n  signal free : place := 0;\n  signal length : natural range 0 to capacity := 0;\n  signal is_ready : std_logic;\n  signal is_valid : std_logic;\n  function following(at : place) return place is\n  begin\n    if at = capacity - 1 then\n      return 0;\n    else\n      return at + 1;\n    end if;\n  end function;\n",
    );
    out.put(
        b"begin\n  is_ready <= '1' when length < capacity else '0';\n  is_valid <= '1' when length > 0 else '0';\n  ready <= is_ready;\n  valid <= is_valid;\n  front <= ring(oldest);\n  process (clk)\n    variable gives : boolean;\n    variable takes : boolean;\n  begin\n    if rising_edge(clk) then\n      if rst = '1' then\n        oldest <= 0;\n        free <= 0;\n        length <= 0;\n      else\n        gives := give = '1' and is_ready = '1';\n        takes := take = '1' and is_valid = '1';\n        if gives then\n          ring(free) <= data;\n          free <= following(free);\n        end if;\n        if takes then\n          oldest <= following(oldest);\n        end if;\n        if gives and not takes then\n          length <= length + 1;\n        elsif takes and not gives then\n          length <= length - 1;\n        end if;\n      end if;\n    end if;\n  end process;\nend architecture;\n",
    );
}

/// Writes a port of an array as an entity has it, with its mode and type.
fn write_port_line<W: TextWriter>(names: &PortNames, part: &[u8], mode: &[u8], out: &mut W)
    ensures { Wrote W.given out.old out.new
        (port_line
        (port_name names.now.nest.now names.now.array.now part.now names.now.way.now, mode.now)
        ++ codes ";\n") }
{
    out.put(b"    ");
    write_port(names, part, out);
    out.put(b" : ");
    out.put(mode);
    out.put(b";\n");
}

/// Writes the ports of an array with their modes and types.
fn write_array_ports<W: TextWriter>(
    names: &PortNames,
    value: &[u8],
    valid: &[u8],
    ready: &[u8],
    out: &mut W,
)
    ensures { Wrote W.given out.old out.new
        (port_lines (array_ports names.now.nest.now names.now.array.now names.now.way.now
        value.now valid.now ready.now)) }
{
    write_port_line(names, b"data", value, out);
    write_port_line(names, b"valid", valid, out);
    write_port_line(names, b"ready", ready, out);
}

fn write_outer_ports<W: TextWriter>(nest: &Nest, role: Role, out: &mut W)
    ensures { Wrote W.given out.old out.new (port_lines (outer_ports nest.now role)) }
{
    match role {
        Role::Source(array) => write_array_ports(
            &source_names(nest, array),
            b"in signed(63 downto 0)",
            b"in std_logic",
            b"out std_logic",
            out,
        ),
        Role::Assign => {}
        Role::Sink(array) => write_array_ports(
            &sink_names(nest, array),
            b"out signed(63 downto 0)",
            b"out std_logic",
            b"in std_logic",
            out,
        ),
    }
}

/// Writes how a port of a node is joined to one of an array.
fn write_join_line<W: TextWriter>(inner: &[u8], names: &PortNames, part: &[u8], out: &mut W)
    ensures { Wrote W.given out.old out.new
        (join_line
        (inner.now, port_name names.now.nest.now names.now.array.now part.now names.now.way.now)
        ++ codes ",\n") }
{
    out.put(b"      ");
    out.put(inner);
    out.put(b" => ");
    write_port(names, part, out);
    out.put(b",\n");
}

/// Writes how the ports of a node's role are joined to those of an array.
fn write_array_joins<W: TextWriter>(
    value: &[u8],
    valid: &[u8],
    ready: &[u8],
    names: &PortNames,
    out: &mut W,
)
    ensures { Wrote W.given out.old out.new
        (join_lines (array_joins names.now.nest.now value.now valid.now ready.now
        names.now.array.now names.now.way.now)) }
{
    write_join_line(value, names, b"data", out);
    write_join_line(valid, names, b"valid", out);
    write_join_line(ready, names, b"ready", out);
}

fn write_role_joins<W: TextWriter>(nest: &Nest, role: Role, out: &mut W)
    ensures { Wrote W.given out.old out.new (join_lines (role_joins_of nest.now role)) }
{
    match role {
        Role::Source(array) => write_array_joins(
            b"given",
            b"given_valid",
            b"given_ready",
            &source_names(nest, array),
            out,
        ),
        Role::Assign => {}
        Role::Sink(array) => write_array_joins(
            b"result",
            b"result_valid",
            b"result_ready",
            &sink_names(nest, array),
            out,
        ),
    }
}

/// Writes how the ports of a channel are joined at this end of it.
fn write_join<W: TextWriter>(end: End, channel: u64, out: &mut W)
    ensures { Wrote W.given out.old out.new (joins_text end channel) }
{
    match end {
        End::Reader => write_with_number(
            channel,
            &[
                b"      c",
                b"_valid => valid_",
                b",\n      c",
                b"_front => front_",
                b",\n      c",
                b"_take => take_",
                b",\n",
            ],
            out,
        ),
        End::Writer => write_with_number(
            channel,
            &[
                b"      c",
                b"_ready => ready_",
                b",\n      c",
                b"_data => data_",
                b",\n      c",
                b"_give => give_",
                b",\n",
            ],
            out,
        ),
    }
}

fn write_joins<W: TextWriter>(end: End, channels: &[u32], out: &mut W)
    ensures { Wrote W.given out.old out.new (flat_map (joins_text end) channels.now) }
{
    for channel in channels {
        write_join(end, u64::from(*channel), out);
    }
}

fn write_node<W: TextWriter>(nest: &Nest, unit: &Unit, out: &mut W)
    ensures { Wrote W.given out.old out.new (node_part nest.now unit.now) }
{
    let number = u64::from(unit.auto.process);
    write_with_number(
        number,
        &[
            b"  node_",
            b" : entity work.node_",
            b"\n    port map (\n      clk => clk,\n      rst => rst,\n      again => again,\n",
        ],
        out,
    );
    write_role_joins(nest, unit.auto.role, out);
    write_joins(End::Reader, unit.auto.gets.as_slice(), out);
    write_joins(End::Writer, unit.auto.puts.as_slice(), out);
    write_with_number(number, &[b"      done => done_", b"\n    );\n"], out);
}

fn write_unit_part<W: TextWriter>(part: UnitPart, nest: &Nest, unit: &Unit, out: &mut W)
    ensures { Wrote W.given out.old out.new (unit_part_text part nest.now unit.now) }
{
    let number = u64::from(unit.auto.process);
    match part {
        UnitPart::Entities => write_unit(unit, out),
        UnitPart::Ports => write_outer_ports(nest, unit.auto.role, out),
        UnitPart::DoneSignal => {
            write_with_number(number, &[b"  signal done_", b" : std_logic;\n"], out)
        }
        UnitPart::Node => write_node(nest, unit, out),
        UnitPart::DoneTerm => write_with_number(number, &[b" and done_", b""], out),
    }
}

fn write_each_unit<U: HasUnit, W: TextWriter>(part: UnitPart, nest: &Nest, units: &[U], out: &mut W)
    ensures { Wrote W.given out.old out.new
        (flat_map (λ holder. unit_part_text part nest.now (U.unit_of holder)) units.now) }
{
    for holder in units {
        write_unit_part(part, nest, holder.unit(), out);
    }
}

/// Writes a part for each of these units.
pub(crate) fn write_for_units<U: HasUnit, W: TextWriter>(
    part: UnitPart,
    nest: &Nest,
    units: &[U],
    out: &mut W,
)
    ensures { Wrote W.given out.old out.new
        (for_units part nest.now (map U.unit_of units.now)) }
{
    write_each_unit(part, nest, units, out);
}

/// Writes the instance of a channel.
fn write_instance<W: TextWriter>(number: u64, capacity: u32, out: &mut W)
    ensures { Wrote W.given out.old out.new (instance_text number capacity) }
{
    out.put(b"  channel_");
    write_number(number, out);
    out.put(b" : entity work.channel\n    generic map (\n      capacity => ");
    write_number(capacity, out);
    write_with_number(
        number,
        &[
            b"\n    )\n    port map (\n      clk => clk,\n      rst => rst,\n      ready => ready_",
            b",\n      give => give_",
            b",\n      data => data_",
            b",\n      valid => valid_",
            b",\n      take => take_",
            b",\n      front => front_",
            b"\n    );\n",
        ],
        out,
    );
}

fn write_channel_part<W: TextWriter>(
    part: ChannelPart,
    number: usize,
    channel: &Channel,
    out: &mut W,
)
    ensures { Wrote W.given out.old out.new (channel_part_text part (number, channel.now)) }
{
    match part {
        ChannelPart::Signals => write_with_number(
            number as u64,
            &[
                b"  signal ready_",
                b", give_",
                b", valid_",
                b", take_",
                b" : std_logic;\n  signal data_",
                b", front_",
                b" : signed(63 downto 0);\n",
            ],
            out,
        ),
        ChannelPart::Instance => write_instance(number as u64, channel.capacity, out),
    }
}

// Writes a part for each of these channels.
fn write_for_channels<W: TextWriter>(part: ChannelPart, channels: &[Channel], out: &mut W)
    ensures { Wrote W.given out.old out.new (for_channels part channels.now) }
{
    for (number, channel) in channels.iter().enumerate() {
        write_channel_part(part, number, channel, out);
    }
}

/// Writes the entity of the network of these units, with an empty line before it.
pub fn write_entity<U: HasUnit, W: TextWriter>(nest: &Nest, units: &[U], out: &mut W)
    ensures { Wrote W.given out.old out.new
        (network_entity nest.now (map U.unit_of units.now)) }
{
    out.put(
        b"\nlibrary ieee;\nuse ieee.std_logic_1164.all;\nuse ieee.numeric_std.all;\nentity network is\n  port (\n    clk : in std_logic;\n    rst : in std_logic;\n    again : in std_logic;\n",
    );
    write_for_units(UnitPart::Ports, nest, units, out);
    out.put(b"    done : out std_logic\n  );\nend entity;\n");
}

/// Writes the architecture of the network: its channels, and the nodes of these units.
pub fn write_body<U: HasUnit, W: TextWriter>(
    nest: &Nest,
    network: &Network,
    units: &[U],
    out: &mut W,
)
    ensures { Wrote W.given out.old out.new
        (network_body nest.now network.now (map U.unit_of units.now)) }
{
    let channels = network.channels.as_slice();
    out.put(b"architecture rtl of network is\n");
    write_for_channels(ChannelPart::Signals, channels, out);
    write_for_units(UnitPart::DoneSignal, nest, units, out);
    out.put(b"begin\n");
    write_for_units(UnitPart::Node, nest, units, out);
    write_for_channels(ChannelPart::Instance, channels, out);
    out.put(b"  done <= '1'");
    write_for_units(UnitPart::DoneTerm, nest, units, out);
    out.put(b";\nend architecture;\n");
}
