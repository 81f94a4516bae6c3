//! The fields of the data, one after the other.
//!
//! Bytes go the way of the crate `csv` with its defaults. Its own reader keeps a record with the ends of its fields, of which
//! there may be as many as bytes; here one field is kept at a time.

ghost use Rattle.std.specs.Prelude.{◌≡◌, ◌<◌, ◌≤◌, ◌∷◌, ◌++◌, [], List, ℕ, Some, false, IfOk, length};
ghost use Rattle.csv.specs.Machine.{ends_at_end, in_field as field_step, start_field as first_step, start_record as record_step, step as csv_step};
ghost use Rattle.csv.specs.Reading.{default_config, strip_bom};
ghost use Rattle.csv.specs.declared.parser.State.TheVariants as st;
ghost use Rattle.array_data.specs.Reading.{IsLeft, action_of, record_left, state_of, text_of};

use plain_data::Items;
use std::alloc::AllocError;

/// Where a reader stands in a record.
#[derive(Clone, Copy)]
pub(crate) enum Place {
    StartRecord,
    StartField,
    InField,
    InQuoted,
    AfterQuote,
    AfterCr,
}

/// What a byte does.
#[derive(Clone, Copy)]
pub(crate) enum Action {
    Skip,
    Copy,
    EndField,
    EndRecord,
}

fn in_field(byte: u8) -> (Place, Action)
    ensures { (state_of result.0, action_of result.1) ≡ field_step default_config byte }
{
    match byte {
        b',' => (Place::StartField, Action::EndField),
        b'\r' => (Place::AfterCr, Action::EndRecord),
        b'\n' => (Place::StartRecord, Action::EndRecord),
        _ => (Place::InField, Action::Copy),
    }
}

fn start_field(byte: u8) -> (Place, Action)
    ensures { (state_of result.0, action_of result.1) ≡ first_step default_config byte }
{
    if byte == b'"' {
        (Place::InQuoted, Action::Skip)
    } else {
        in_field(byte)
    }
}

fn start_record(byte: u8) -> (Place, Action)
    ensures { (state_of result.0, action_of result.1) ≡ record_step default_config byte }
{
    if byte == b'\r' || byte == b'\n' {
        (Place::StartRecord, Action::Skip)
    } else {
        start_field(byte)
    }
}

fn in_quoted(byte: u8) -> (Place, Action)
    ensures { (state_of result.0, action_of result.1) ≡ csv_step default_config st.InQuoted byte }
{
    if byte == b'"' {
        (Place::AfterQuote, Action::Skip)
    } else {
        (Place::InQuoted, Action::Copy)
    }
}

fn after_quote(byte: u8) -> (Place, Action)
    ensures { (state_of result.0, action_of result.1) ≡ csv_step default_config st.AfterQuote byte }
{
    if byte == b'"' {
        (Place::InQuoted, Action::Copy)
    } else {
        in_field(byte)
    }
}

fn after_cr(byte: u8) -> (Place, Action)
    ensures { (state_of result.0, action_of result.1) ≡ csv_step default_config st.AfterCr byte }
{
    if byte == b'\n' {
        (Place::StartRecord, Action::Skip)
    } else {
        start_record(byte)
    }
}

/// What a byte does, and where the reader stands behind it.
fn step(place: Place, byte: u8) -> (Place, Action)
    ensures { (state_of result.0, action_of result.1)
        ≡ csv_step default_config (state_of place) byte }
{
    match place {
        Place::StartRecord => start_record(byte),
        Place::StartField => start_field(byte),
        Place::InField => in_field(byte),
        Place::InQuoted => in_quoted(byte),
        Place::AfterQuote => after_quote(byte),
        Place::AfterCr => after_cr(byte),
    }
}

// Whether the end of the data ends a record.
fn is_in_record(place: Place) -> bool
    ensures { result ≡ ends_at_end (state_of place) }
{
    !matches!(place, Place::StartRecord | Place::AfterCr)
}

// The data without a byte order mark at its start.
fn without_mark(bytes: &[u8]) -> &[u8]
    ensures { result.now ≡ strip_bom bytes.now }
{
    match bytes.strip_prefix(b"\xef\xbb\xbf") {
        Some(rest) => rest,
        None => bytes,
    }
}

/// The bytes that are left of the data, and where their reader stands.
#[derive(Drop)]
pub(crate) struct Reader<'a> {
    bytes: &'a [u8],
    place: Place,
}

impl<'a> Reader<'a> {
    /// Before the first record of the data.
    pub(crate) fn new(bytes: &'a [u8]) -> Reader<'a>
        ensures { text_of result
            ≡ record { state = st.StartRecord; bytes = strip_bom bytes.now } }
    {
        Reader {
            bytes: without_mark(bytes),
            place: Place::StartRecord,
        }
    }

    /// Reads the next field, without its quotes, in the place of what `field` holds, and answers whether it is the last one of
    /// its record; or `None` where there is no further record.
    pub(crate) fn next_field(&mut self, field: &mut Items<u8>) -> Result<Option<bool>, AllocError>
        ensures left { IfOk result (λ last. (fields : List (List ℕ)) →
            IsLeft (record_left (text_of self.old) fields) last (text_of self.new)
            (fields ++ field.new ∷ [])) }
        ensures shorter { IfOk result (λ last. last ≡ Some false →
            length self.new.bytes.now < length self.old.bytes.now) }
        ensures no_longer { length self.new.bytes.now ≤ length self.old.bytes.now }
    {
        field.truncate(0);
        while let Some((byte, rest)) = self.bytes.split_first() {
            let (place, action) = step(self.place, *byte);
            self.bytes = rest;
            self.place = place;
            match action {
                Action::Skip => {}
                Action::Copy => field.push(*byte)?,
                Action::EndField => return Ok(Some(false)),
                Action::EndRecord => return Ok(Some(true)),
            }
        }
        if is_in_record(self.place) {
            self.place = Place::StartRecord;
            Ok(Some(true))
        } else {
            Ok(None)
        }
    }
}
