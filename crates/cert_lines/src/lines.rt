//! The lines of a text, one after the other.

ghost use Rattle.std.specs.Prelude.{◌≡◌, ◌+◌, ◌-◌, MatchOption, None, Some};
ghost use Rattle.cert_lines.specs.Words.{just, words_of};
ghost use Rattle.cert_lines.specs.Reading.{Reads, first_line, line as one_line, line_read, text_end};

use crate::error::{CertError, Fault};
use crate::words::cut;
use std::marker::Model;

/// How deep trees, proofs and repeats nest at most in a text.
pub const NESTING_LIMIT: u32 = 512;

/// Refuses a line that isn't just this text.
pub fn expect_text(line: &[u8], text: &[u8]) -> Result<(), Fault>
    ensures { result ≡ just text.now (words_of line.now) }
{
    if line == text {
        Ok(())
    } else {
        Err(Fault::Words)
    }
}

/// What is left of a text, and how many lines were taken before.
#[derive(Drop)]
pub struct Lines<'a> {
    rest: &'a [u8],
    taken: u64,
}

impl<'a> Model for Lines<'a> {
    ghost use Rattle.std.specs.Prelude.{◌+◌, ◌<◌, ◌^◌, length};
    ghost use Rattle.cert_lines.specs.Reading.{Place, place_code};

    ghost Value = { Place };

    ghost coded = { place_code };

    ghost view = { λ lines. record { line = lines.taken + 1; text = lines.rest.now } };

    ghost invariant = { λ lines. lines.taken + length lines.rest.now < 2 ^ 64 };
}

impl<'a> Lines<'a> {
    /// The lines of this text.
    pub fn new(text: &'a [u8]) -> Lines<'a>
        ensures { result ≡ record { line = 1; text = text.now } }
    {
        Lines {
            rest: text,
            taken: 0,
        }
    }

    /// How many lines were taken.
    pub fn taken(&self) -> u64
        ensures { self.now.line ≡ result + 1 }
    {
        self.taken
    }

    /// Takes the next line, if it has a line feed.
    pub fn next(&mut self) -> Option<&'a [u8]>
        ensures none { MatchOption result (first_line self.old.text ≡ None)
            (λ line. first_line self.old.text ≡ Some (line.now, self.new.text)) }
        ensures number { MatchOption result (self.new ≡ self.old)
            (λ _. self.new.line ≡ self.old.line + 1) }
    {
        match cut(self.rest, b'\n') {
            Some((line, rest)) => {
                self.rest = rest;
                self.taken += 1;
                Some(line)
            }
            None => None,
        }
    }

    /// The value, or the refusal of the line that was taken last.
    pub fn told<T: Drop>(&self, said: Result<T, Fault>) -> Result<T, CertError>
        ensures { Reads result self.now (line_read (self.now.line - 1) self.now.text said) }
    {
        match said {
            Ok(value) => Ok(value),
            Err(Fault::Words) => Err(CertError::Line(self.taken)),
            Err(Fault::Range) => Err(CertError::Number(self.taken)),
        }
    }

    /// Takes the next line, which is just this text.
    pub fn expect(&mut self, text: &[u8]) -> Result<(), CertError>
        ensures { Reads result self.new (one_line (just text.now) self.old) }
    {
        let Some(line) = self.next() else {
            return Err(CertError::Truncated);
        };
        self.told(expect_text(line, text))
    }

    /// Refuses a text that goes on.
    pub fn end(&mut self) -> Result<(), CertError>
        ensures { Reads result self.new (text_end self.old) }
    {
        if self.rest.is_empty() {
            return Ok(());
        }
        match self.next() {
            Some(_) => Err(CertError::Line(self.taken)),
            None => Err(CertError::Truncated),
        }
    }
}
