//! What each place of the text wants of its line.

ghost use Rattle.std.specs.Prelude.{◌≡◌, ◌<◌, ◌++◌, ◌∷◌, [], IfOk, length};
ghost use Rattle.net_core.specs.declared.network.Event.TheVariants.{Fire};
ghost use Rattle.cert_lines.specs.Words.{both as judged_together, made, number as number_of, words_of};
ghost use Rattle.cert_text.specs.Words.{at_least, class as class_of, reference as reference_of};
ghost use Rattle.cert_text.specs.Places.{channel_line, entry_line, event_line, fire_words, get_words as behind_g, part_line, process_line, put_words as behind_p, repeat_words as behind_r, sizes_line, source_line, version_line};
ghost use Rattle.cert_text.specs.declared.places.PartLine.TheVariants.{Item as ItemLine};

use crate::lines::FromLine;
use cert_lines::{Fault, Words, both, expect_text, number};
use channel_class::{ChannelClass, UseOrder};
use net_core::{Channel, Event, Ref, Refs};

/// The version of a text. Version 1 has no repeats.
#[derive(Clone, Copy)]
pub(crate) enum Version {
    One,
    Two,
}

/// What a line of a part says: an item, or a repeat with its count and how many parts follow.
#[derive(Drop)]
pub(crate) enum PartLine<T> {
    Item(T),
    Repeat(u32, u32),
}

/// How many processes, channels, sources and parts of the schedule follow.
#[derive(Clone, Copy)]
pub(crate) struct Sizes {
    pub(crate) processes: u32,
    pub(crate) channels: u32,
    pub(crate) sources: u32,
    pub(crate) parts: u32,
}

/// The number of slots of a process, and how many parts follow.
#[derive(Clone, Copy)]
pub(crate) struct ProcessHead {
    pub(crate) slots: u32,
    pub(crate) parts: u32,
}

/// Whether a source is found by a sweep, or a tree follows.
#[derive(Clone, Copy)]
pub(crate) enum SourceLine {
    Sweep,
    Tree,
}

/// A reference: `z` for no token, or the number of a slot.
fn reference(word: &[u8]) -> Result<Ref, Fault>
    ensures { result ≡ reference_of word.now }
{
    if word == b"z".as_slice() {
        return Ok(Ref::Zero);
    }
    Ok(Ref::Slot(number(word)?))
}

/// The class that has this word.
fn class(word: &[u8]) -> Result<ChannelClass, Fault>
    ensures { result ≡ class_of word.now }
{
    let (order, multiplicity) = if word == b"inorder".as_slice() {
        (UseOrder::InOrder, false)
    } else if word == b"inorder+".as_slice() {
        (UseOrder::InOrder, true)
    } else if word == b"reorder".as_slice() {
        (UseOrder::Reorder, false)
    } else if word == b"reorder+".as_slice() {
        (UseOrder::Reorder, true)
    } else {
        return Err(Fault::Words);
    };
    Ok(ChannelClass {
        order,
        multiplicity,
    })
}

impl FromLine for ProcessHead {
    ghost judged = { process_line };

    fn from_line(line: &[u8]) -> Result<ProcessHead, Fault> {
        let mut words = Words::new(line);
        let (Some(word), Some(slots), Some(parts), None) = (
            words.next(),
            words.next(),
            words.next(),
            words.next(),
        ) else {
            return Err(Fault::Words);
        };
        if word != b"process".as_slice() {
            return Err(Fault::Words);
        }
        let (slots, parts) = both(number(slots), number(parts))?;
        Ok(ProcessHead { slots, parts })
    }
}

/// The sizes with these numbers.
fn sizes_of(numbers: Result<((u32, u32), (u32, u32)), Fault>) -> Result<Sizes, Fault>
    ensures { result
        ≡ made (λ n. record {
          processes = n.0.0;
          channels = n.0.1;
          sources = n.1.0;
          parts = n.1.1;
        }) numbers }
{
    let ((processes, channels), (sources, parts)) = numbers?;
    Ok(Sizes {
        processes,
        channels,
        sources,
        parts,
    })
}

impl FromLine for Sizes {
    ghost judged = { sizes_line };

    fn from_line(line: &[u8]) -> Result<Sizes, Fault> {
        let mut words = Words::new(line);
        let (Some(word), Some(processes), Some(channels), Some(sources), Some(parts), None) = (
            words.next(),
            words.next(),
            words.next(),
            words.next(),
            words.next(),
            words.next(),
        ) else {
            return Err(Fault::Words);
        };
        if word != b"sizes".as_slice() {
            return Err(Fault::Words);
        }
        let first = both(number(processes), number(channels));
        let second = both(number(sources), number(parts));
        sizes_of(both(first, second))
    }
}

/// Adds a reference at the end.
fn with_reference(refs: Result<Refs, Fault>, reference: Result<Ref, Fault>) -> Result<Refs, Fault>
    requires { IfOk refs (λ refs. length refs < 8) }
    ensures { result ≡ made (λ pair. pair.0 ++ pair.1 ∷ []) (judged_together refs reference) }
{
    let (mut refs, reference) = both(refs, reference)?;
    refs.push(reference);
    Ok(refs)
}

/// The references of a fire.
fn references(mut words: Words) -> Result<Refs, Fault>
    ensures { made Fire result ≡ fire_words words.entry }
{
    let mut refs = Ok(Refs::empty());
    let mut count: usize = 0;
    while let Some(word) = words.next() {
        if count == 8 {
            return Err(Fault::Words);
        }
        count += 1;
        refs = with_reference(refs, reference(word));
    }
    refs
}

/// What stands behind `g`.
fn get_words(mut words: Words) -> Result<Event, Fault>
    ensures { result ≡ behind_g words.entry }
{
    let (Some(channel), Some(slot), None) = (words.next(), words.next(), words.next()) else {
        return Err(Fault::Words);
    };
    let (channel, slot) = both(number(channel), number(slot))?;
    Ok(Event::Get { channel, slot })
}

/// What stands behind `p`.
fn put_words(mut words: Words) -> Result<Event, Fault>
    ensures { result ≡ behind_p words.entry }
{
    let (Some(channel), None) = (words.next(), words.next()) else {
        return Err(Fault::Words);
    };
    let channel = number(channel)?;
    Ok(Event::Put { channel })
}

impl FromLine for Event {
    ghost judged = { event_line };

    fn from_line(line: &[u8]) -> Result<Event, Fault> {
        let mut words = Words::new(line);
        let Some(word) = words.next() else {
            return Err(Fault::Words);
        };
        if word == b"g".as_slice() {
            get_words(words)
        } else if word == b"f".as_slice() {
            let refs = references(words)?;
            Ok(Event::Fire { refs })
        } else if word == b"p".as_slice() {
            put_words(words)
        } else {
            Err(Fault::Words)
        }
    }
}

/// The channel with these ends, this read, this capacity and this class.
fn channel_of(
    parts: Result<(((u32, u32), (u32, u32)), ChannelClass), Fault>,
) -> Result<Channel, Fault>
    ensures { result
        ≡ made (λ n. record {
          writer = n.0.0.0;
          reader = n.0.0.1;
          read = n.0.1.0;
          capacity = n.0.1.1;
          class = n.1;
        }) parts }
{
    let (((writer, reader), (read, capacity)), class) = parts?;
    Ok(Channel {
        writer,
        reader,
        read,
        capacity,
        class,
    })
}

impl FromLine for Channel {
    ghost judged = { channel_line };

    fn from_line(line: &[u8]) -> Result<Channel, Fault> {
        let mut words = Words::new(line);
        let (
            Some(word),
            Some(writer),
            Some(reader),
            Some(read),
            Some(capacity),
            Some(order),
            None,
        ) = (
            words.next(),
            words.next(),
            words.next(),
            words.next(),
            words.next(),
            words.next(),
            words.next(),
        ) else {
            return Err(Fault::Words);
        };
        if word != b"channel".as_slice() {
            return Err(Fault::Words);
        }
        let ends = both(number(writer), number(reader));
        let limits = both(number(read), number(capacity));
        let numbers = both(ends, limits);
        channel_of(both(numbers, class(order)))
    }
}

impl FromLine for SourceLine {
    ghost judged = { source_line };

    fn from_line(line: &[u8]) -> Result<SourceLine, Fault> {
        let mut words = Words::new(line);
        let (Some(word), None) = (words.next(), words.next()) else {
            return Err(Fault::Words);
        };
        if word == b"sweep".as_slice() {
            Ok(SourceLine::Sweep)
        } else if word == b"tree".as_slice() {
            Ok(SourceLine::Tree)
        } else {
            Err(Fault::Words)
        }
    }
}

/// An entry of a schedule.
impl FromLine for u32 {
    ghost judged = { entry_line };

    fn from_line(line: &[u8]) -> Result<u32, Fault> {
        let mut words = Words::new(line);
        let (Some(process), None) = (words.next(), words.next()) else {
            return Err(Fault::Words);
        };
        number(process)
    }
}

impl FromLine for Version {
    ghost judged = { version_line };

    fn from_line(line: &[u8]) -> Result<Version, Fault> {
        if expect_text(line, b"cert 1").is_ok() {
            Ok(Version::One)
        } else if expect_text(line, b"cert 2").is_ok() {
            Ok(Version::Two)
        } else {
            Err(Fault::Words)
        }
    }
}

/// A number that is not below the least.
fn number_from(least: u32, word: &[u8]) -> Result<u32, Fault>
    ensures { result ≡ at_least least (number_of word.now) }
{
    let number = number(word)?;
    if number < least {
        return Err(Fault::Range);
    }
    Ok(number)
}

/// What stands behind `r`.
fn repeat_words<T: Drop>(mut words: Words) -> Result<PartLine<T>, Fault>
    ensures { result ≡ behind_r words.entry }
{
    let (Some(count), Some(parts), None) = (words.next(), words.next(), words.next()) else {
        return Err(Fault::Words);
    };
    let (count, parts) = both(number_from(2, count), number_from(1, parts))?;
    Ok(PartLine::Repeat(count, parts))
}

fn item_line<T: Drop>(item: Result<T, Fault>) -> Result<PartLine<T>, Fault>
    ensures { result ≡ made ItemLine item }
{
    Ok(PartLine::Item(item?))
}

/// What a line of a part says.
pub(crate) fn part_line_of<T: FromLine>(version: Version, line: &[u8]) -> Result<PartLine<T>, Fault>
    ensures { result ≡ part_line T.judged version (words_of line.now) }
{
    if let Version::Two = version {
        let mut words = Words::new(line);
        if words.next() == Some(b"r".as_slice()) {
            return repeat_words(words);
        }
    }
    item_line(T::from_line(line))
}
