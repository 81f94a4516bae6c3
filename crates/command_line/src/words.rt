ghost use Rattle.std.specs.Prelude.{◌≡◌, ◌<◌, ◌^◌, ◌≤◌, ◌≢◌, ◌==◌, ◌∷◌, ℕ, List, [], true, length, position, IfOk, IfErr, OnOk, IfSome, IsErrOf, Some, None, map, string_bytes};
ghost use Rattle.std.specs.Char.{is_ascii_digit};
ghost use Rattle.std.specs.List.{list_all};
ghost use Rattle.std.specs.Option.{option_map};
ghost use Rattle.std.specs.Str.Parse.{digits_value};
ghost use Rattle.clap.specs.Words.{found_of, kind_of};
ghost use Rattle.clap.specs.declared.error.kind.ErrorKind.TheVariants.{OutOfMemory};
ghost use Rattle.command_line.specs.Matches.{split_found};
ghost use Rattle.command_line.specs.Words.{command_of, load_order, number_of, order_of, order_of_items, order_of_split, param_of, params_order, params_with, policy_named, policy_of, value_of};
ghost use Rattle.command_line.specs.declared.words.WordsError.TheVariants.{Memory, Words};

use clap::error::ErrorKind;
use clap::{Arg, ArgAction, ArgMatches};
use loop_bind::Params;
use loop_lex::is_name;
use std::alloc::{AllocError, Global};
use thiserror::Error;
use witness_plan::Policy;

/// What the program is to do.
#[derive(Clone, Copy, Debug, PartialEq, Eq)]
pub enum Command {
    /// Write what the loops compute, by the network.
    Run,
    /// Write what the loops compute, by the interpreter.
    Seq,
    /// Write the network.
    Net,
    /// Write the certificate of the network.
    Cert,
    /// Check the certificate that the bundle has.
    Check,
    /// Write where each read has its values from.
    Deps,
    /// Write the network as VHDL.
    Vhdl,
    /// Multiply matrices of a size by the network, and write what that came to.
    Load,
    /// Write what the loops compute, by the network's processes under one clock, and the number of clocks.
    Sim,
    /// Write capacities none of which can be lowered, and where the network sticks with one place less.
    Trim,
    /// Write a run of the network that workers make over one locked board.
    Trace,
}

/// What the words order: a command, the schedule that is wanted, and values for parameters.
#[derive(Drop)]
pub struct Order {
    pub command: Command,
    pub policy: Policy,
    pub params: Params,
    /// The number that follows `load`, and 0 at another command.
    pub load: u64,
}

/// Why the words give no order.
#[derive(Clone, Copy, Debug, PartialEq, Eq, Error)]
pub enum WordsError {
    /// They are refused.
    #[error("the words are refused")]
    Words,
    /// Want of memory.
    #[error("no memory")]
    Memory,
}

impl From<AllocError> for WordsError {
    ghost from_gives = { λ _ e. e ≡ Memory };

    fn from(_: AllocError) -> WordsError {
        WordsError::Memory
    }
}

impl From<clap::Error> for WordsError {
    ghost from_gives = { λ error e. e ≡ Words → kind_of error ≢ OutOfMemory };

    fn from(error: clap::Error) -> WordsError {
        match error.kind() {
            ErrorKind::OutOfMemory => WordsError::Memory,
            _ => WordsError::Words,
        }
    }
}

/// The words as `clap` reads them: the option `--policy`, which takes one value, and the items.
fn matches_of<'a>(alloc: Global, words: &'a [String]) -> Result<ArgMatches<'a>, clap::Error>
    ensures ok { IfOk result
        (λ matches. order_of (map string_bytes words.entry.now)
        ≡ order_of_split (split_found (found_of matches))) }
    ensures refused { IfErr result
        (λ error. kind_of error ≢ OutOfMemory
        → order_of (map string_bytes words.entry.now) ≡ None) }
{
    let policy = Arg::new(alloc, "policy")
        .long("policy")
        .action(ArgAction::Set);
    let items = Arg::new(alloc, "items").action(ArgAction::Append);
    let command = clap::Command::new(alloc, "compaan")
        .no_binary_name(true)
        .disable_help_flag(true)
        .disable_version_flag(true)
        .arg(policy)?
        .arg(items)?;
    command.try_get_matches_from(words)
}

fn has_digits(text: &[u8]) -> bool
    ensures { result ≡ list_all is_ascii_digit text.now }
{
    text.iter().all(|byte| byte.is_ascii_digit())
}

fn number_of(text: &[u8]) -> Option<u64>
    ensures value { result ≡ number_of text.now }
    ensures small { IfSome result (λ number. number < 10 ^ 18) }
{
    if text.is_empty() || text.len() > 18 || !has_digits(text) {
        return None;
    }
    Some(digits_value(text))
}

fn digits_value(digits: &[u8]) -> u64
    requires few { length digits.now ≤ 18 }
    requires digits { list_all is_ascii_digit digits.now ≡ true }
    ensures value { result ≡ digits_value 10 digits.now }
    ensures small { result < 10 ^ 18 }
{
    let mut number = 0;
    for digit in digits {
        number = number * 10 + u64::from(*digit - b'0');
    }
    number
}

fn value_of(text: &[u8]) -> Option<i64>
    ensures { result ≡ value_of text.now }
{
    match text {
        [first, rest @ ..] => {
            if *first == b'-' {
                number_of(rest).map(|number| -(number as i64))
            } else {
                number_of(text).map(|number| number as i64)
            }
        }
        [] => None,
    }
}

fn equals_sign(item: &[u8]) -> Option<usize>
    ensures { result ≡ position (λ byte. byte == 61) item.now }
{
    item.iter().position(|byte| *byte == b'=')
}

fn param_of(item: &[u8]) -> Option<(&[u8], i64)>
    ensures { option_map (λ param. (param.0.now, param.1)) result ≡ param_of item.now }
{
    let end = equals_sign(item)?;
    let name = &item[..end];
    if !is_name(name) {
        return None;
    }
    let value = value_of(&item[end + 1..])?;
    Some((name, value))
}

fn add_param(params: &mut Params, item: &[u8]) -> Result<(), WordsError>
    ensures ok { OnOk result
        ((items : List (List ℕ))
        → params_with params.old (item.now ∷ items) ≡ params_with params.new items) }
    ensures refused { IsErrOf result WordsError.Words → (items : List (List ℕ))
        → params_with params.old (item.now ∷ items) ≡ None }
{
    let Some((name, value)) = param_of(item) else {
        return Err(WordsError::Words);
    };
    if !params.add(name, value)? {
        return Err(WordsError::Words);
    }
    Ok(())
}

/// The values that items NAME=VALUE give to parameters, in their order. VALUE is an optional `-` and 1 to 18 decimal digits.
/// `Words` comes exactly where an item isn't NAME=VALUE or gives a NAME again.
pub fn params_of(alloc: Global, items: &[&str]) -> Result<Params, WordsError>
    ensures ok { IfOk result
        (λ params. params_with [] (map (λ item. item.now) items.now) ≡ Some params) }
    ensures refused { IsErrOf result WordsError.Words
        → params_with [] (map (λ item. item.now) items.now) ≡ None }
{
    let mut params = Params::empty(alloc);
    for item in items {
        add_param(&mut params, item.as_bytes())?;
    }
    Ok(params)
}

fn command_of(word: &[u8]) -> Option<Command>
    ensures { result ≡ command_of word.now }
{
    if word == b"run".as_slice() {
        Some(Command::Run)
    } else if word == b"seq".as_slice() {
        Some(Command::Seq)
    } else if word == b"net".as_slice() {
        Some(Command::Net)
    } else if word == b"cert".as_slice() {
        Some(Command::Cert)
    } else if word == b"check".as_slice() {
        Some(Command::Check)
    } else if word == b"deps".as_slice() {
        Some(Command::Deps)
    } else if word == b"vhdl".as_slice() {
        Some(Command::Vhdl)
    } else if word == b"load".as_slice() {
        Some(Command::Load)
    } else if word == b"sim".as_slice() {
        Some(Command::Sim)
    } else if word == b"trim".as_slice() {
        Some(Command::Trim)
    } else if word == b"trace".as_slice() {
        Some(Command::Trace)
    } else {
        None
    }
}

fn policy_named(value: &[u8]) -> Option<Policy>
    ensures { result ≡ policy_named value.now }
{
    if value == b"seq".as_slice() {
        Some(Policy::Seq)
    } else if value == b"down".as_slice() {
        Some(Policy::Down)
    } else {
        None
    }
}

fn policy_of(matches: &ArgMatches<'_>) -> Option<Policy>
    ensures { result ≡ policy_of (split_found (found_of matches.now)).policies }
{
    match matches.get_str("policy") {
        Some(value) => policy_named(value.as_bytes()),
        None => Some(Policy::Seq),
    }
}

fn load_order(alloc: Global, policy: Policy, words: &[&str]) -> Option<Order>
    ensures { result ≡ load_order policy (map (λ word. word.now) words.now) }
{
    let [word] = words else {
        return None;
    };
    let load = number_of(word.as_bytes())?;
    Some(Order {
        command: Command::Load,
        policy,
        params: Params::empty(alloc),
        load,
    })
}

fn params_order(
    alloc: Global,
    policy: Policy,
    command: Command,
    items: &[&str],
) -> Result<Order, WordsError>
    ensures ok { IfOk result
        (λ order. params_order policy command (map (λ item. item.now) items.now) ≡ Some order) }
    ensures refused { IsErrOf result WordsError.Words
        → params_order policy command (map (λ item. item.now) items.now) ≡ None }
{
    Ok(Order {
        command,
        policy,
        params: params_of(alloc, items)?,
        load: 0,
    })
}

fn order_of_items(alloc: Global, policy: Policy, items: &[&str]) -> Result<Order, WordsError>
    ensures ok { IfOk result
        (λ order. order_of_items policy (map (λ item. item.now) items.now) ≡ Some order) }
    ensures refused { IsErrOf result WordsError.Words
        → order_of_items policy (map (λ item. item.now) items.now) ≡ None }
{
    let [word, rest @ ..] = items else {
        return Err(WordsError::Words);
    };
    let Some(command) = command_of(word.as_bytes()) else {
        return Err(WordsError::Words);
    };
    match command {
        Command::Load => load_order(alloc, policy, rest).ok_or(WordsError::Words),
        _ => params_order(alloc, policy, command, rest),
    }
}

/// What the words after the program's name order. Before the first `--`, which is dropped, a word `--policy` takes the
/// next word as its value, and `--policy=VALUE` is the same; the value is `seq` or `down`, and `seq` where none is given.
/// `Words` comes exactly where the words are refused: where the policy is given twice or has another value, where another
/// word before the first `--` begins with `-` and isn't `-` alone, where the first of the words that are left is no
/// command, where another isn't NAME=VALUE or gives a NAME again, or where `load` isn't followed by one number alone. VALUE
/// is an optional `-` and 1 to 18 decimal digits, and the number is 1 to 18 decimal digits.
pub fn read_words(alloc: Global, words: &[String]) -> Result<Order, WordsError>
    ensures ok { IfOk result (λ order. order_of (map string_bytes words.now) ≡ Some order) }
    ensures refused { IsErrOf result WordsError.Words
        → order_of (map string_bytes words.now) ≡ None }
{
    let matches = matches_of(alloc, words)?;
    let Some(policy) = policy_of(&matches) else {
        return Err(WordsError::Words);
    };
    let Some(items) = matches.get_raw("items") else {
        return Err(WordsError::Words);
    };
    order_of_items(alloc, policy, items)
}
