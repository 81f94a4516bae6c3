ghost use Rattle.std.specs.Prelude.{◌≡◌, IfOk, OnOk, map, string_bytes};
ghost use Rattle.std.specs.Option.{option_map};
ghost use Rattle.rtl_line.specs.Splits.{found_in, rest_of};
ghost use Rattle.rtl_line.specs.Words.{is_option as begins_as_option, ReadsOrder, kind_of, order_of, policy_named, policy_of, ports_named, ports_of, split_words};

use command_line::{WordsError, params_of};
use loop_bind::Params;
use std::alloc::{AllocError, Global};

/// Which capacities the channels of a design have.
#[derive(Clone, Copy, Debug, PartialEq, Eq)]
pub enum Policy {
    /// Those that the schedule needs which follows the sequential program.
    Seq,
    /// Those that the schedule needs which takes the highest-numbered process that is ready.
    Down,
    /// Least ones: with one place less in any channel the network sticks.
    Least,
}

/// How the ports of a process, which are the ends of channels there, take turns.
#[derive(Clone, Copy, Debug, PartialEq, Eq)]
pub enum Ports {
    /// At each clock one of them moves, or the process fires, in the order of the process's script.
    One,
    /// At each clock all of them may move, and the process fire: between two fires each port goes at its own pace.
    All,
}

/// What the words order: the capacities that are wanted, how ports take turns, whether the clocks are to be told in place of the
/// design, and values for parameters.
#[derive(Drop)]
pub struct Order {
    pub policy: Policy,
    pub ports: Ports,
    pub clocks: bool,
    pub params: Params,
}

/// What a word before the first `--` is.
#[derive(Clone, Copy, Debug, PartialEq, Eq)]
pub(crate) enum Kind {
    /// The word `--`.
    Dashes,
    /// `--policy`, whose value is the next word.
    Policy,
    /// `--policy=VALUE`.
    PolicyValue,
    /// `--ports`, whose value is the next word.
    Ports,
    /// `--ports=VALUE`.
    PortsValue,
    /// `--clocks`.
    Clocks,
    /// Another option.
    Unknown,
    Item,
}

/// The words taken apart, in their order.
#[derive(Drop)]
pub(crate) struct Split<'a> {
    pub(crate) items: Vec<&'a str>,
    pub(crate) policies: Vec<&'a [u8]>,
    pub(crate) ports: Vec<&'a [u8]>,
    pub(crate) clocks: bool,
}

fn is_option(word: &[u8]) -> bool
    ensures { result ≡ begins_as_option word.now }
{
    word.len() > 1 && word[0] == b'-'
}

fn kind_of(word: &[u8]) -> Kind
    ensures { result ≡ kind_of word.now }
{
    if word == b"--".as_slice() {
        Kind::Dashes
    } else if word == b"--policy".as_slice() {
        Kind::Policy
    } else if word.starts_with(b"--policy=") {
        Kind::PolicyValue
    } else if word == b"--ports".as_slice() {
        Kind::Ports
    } else if word.starts_with(b"--ports=") {
        Kind::PortsValue
    } else if word == b"--clocks".as_slice() {
        Kind::Clocks
    } else if is_option(word) {
        Kind::Unknown
    } else {
        Kind::Item
    }
}

// Takes all words that are left as items.
fn add_items<'a>(split: &mut Split<'a>, words: &'a [String]) -> Result<(), AllocError>
    ensures { OnOk result
        (found_in split.new ≡ rest_of split.old (map string_bytes words.now)) }
{
    for word in words {
        split.items.push(word.as_str())?;
    }
    Ok(())
}

// The words taken apart, or none where one before the first `--` is another option, or `--policy` or `--ports` is the last.
fn split_words<'a>(alloc: Global, words: &'a [String]) -> Result<Option<Split<'a>>, AllocError>
    ensures { IfOk result
        (λ split. option_map found_in split ≡ split_words (map string_bytes words.now)) }
{
    let mut split = Split {
        items: Vec::new(alloc),
        policies: Vec::new(alloc),
        ports: Vec::new(alloc),
        clocks: false,
    };
    let mut left = words;
    while let [word, behind @ ..] = left {
        left = behind;
        match kind_of(word.as_bytes()) {
            Kind::Dashes => {
                add_items(&mut split, behind)?;
                return Ok(Some(split));
            }
            Kind::Policy => {
                let [value, others @ ..] = behind else {
                    return Ok(None);
                };
                split.policies.push(value.as_bytes())?;
                left = others;
            }
            Kind::PolicyValue => split.policies.push(&word.as_bytes()[9..])?,
            Kind::Ports => {
                let [value, others @ ..] = behind else {
                    return Ok(None);
                };
                split.ports.push(value.as_bytes())?;
                left = others;
            }
            Kind::PortsValue => split.ports.push(&word.as_bytes()[8..])?,
            Kind::Clocks => split.clocks = true,
            Kind::Unknown => return Ok(None),
            Kind::Item => split.items.push(word.as_str())?,
        }
    }
    Ok(Some(split))
}

fn policy_named(value: &[u8]) -> Option<Policy>
    ensures { result ≡ policy_named value.now }
{
    if value == b"seq".as_slice() {
        Some(Policy::Seq)
    } else if value == b"down".as_slice() {
        Some(Policy::Down)
    } else if value == b"least".as_slice() {
        Some(Policy::Least)
    } else {
        None
    }
}

// The policy by the values that it is given, of which there is at most one.
fn policy_of(values: &[&[u8]]) -> Option<Policy>
    ensures { result ≡ policy_of (map (λ value. value.now) values.now) }
{
    match values {
        [] => Some(Policy::Seq),
        [value] => policy_named(value),
        _ => None,
    }
}

fn ports_named(value: &[u8]) -> Option<Ports>
    ensures { result ≡ ports_named value.now }
{
    if value == b"one".as_slice() {
        Some(Ports::One)
    } else if value == b"all".as_slice() {
        Some(Ports::All)
    } else {
        None
    }
}

// How ports take turns by the values that are given, of which there is at most one.
fn ports_of(values: &[&[u8]]) -> Option<Ports>
    ensures { result ≡ ports_of (map (λ value. value.now) values.now) }
{
    match values {
        [] => Some(Ports::One),
        [value] => ports_named(value),
        _ => None,
    }
}

/// What the words after the program's name order. Before the first `--`, which is dropped, a word `--policy` takes the
/// next word as its value, and `--policy=VALUE` is the same; the value is `seq`, `down` or `least`, and `seq` where none is given.
/// So it is with `--ports`, whose value is `one` or `all`, and `one` where none is given. The word `--clocks` there asks for the
/// clocks, once or more often. `Words` comes exactly where the words are refused: where the policy or the ports are given twice or
/// have another value, where another word before the first `--` begins with `-` and isn't `-` alone, or where one of the words that are
/// left isn't NAME=VALUE or gives a NAME again. VALUE is an optional `-` and 1 to 18 decimal digits.
pub fn read_words(alloc: Global, words: &[String]) -> Result<Order, WordsError>
    ensures { ReadsOrder (order_of (map string_bytes words.now)) result }
{
    let Some(split) = split_words(alloc, words)? else {
        return Err(WordsError::Words);
    };
    let Some(policy) = policy_of(&split.policies) else {
        return Err(WordsError::Words);
    };
    let Some(ports) = ports_of(&split.ports) else {
        return Err(WordsError::Words);
    };
    let params = params_of(alloc, &split.items)?;
    Ok(Order {
        policy,
        ports,
        clocks: split.clocks,
        params,
    })
}
