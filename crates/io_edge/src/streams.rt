ghost use Rattle.std.specs.Prelude.{◌≡◌};

use crate::edge::{Failed, Sink, Source, raised};
use std::io::{Read, Write};

/// A reader as a source. Its count rises at each error.
///
/// It tells what its reader tells; that over the program's own input tells nothing.
#[derive(Drop)]
pub struct StdIn<R: Read + Drop> {
    reader: R,
    faults: u64,
}

impl<R: Read + Drop> StdIn<R> {
    /// The reader as a source without faults.
    pub fn new(reader: R) -> StdIn<R>
        ensures bytes { ⟦<StdIn<R> as Source>⟧.left result ≡ R.remaining reader }
        ensures quiet { ⟦<StdIn<R> as Source>⟧.faults result ≡ 0 }
    {
        StdIn { reader, faults: 0 }
    }
}

impl<R: Read + Drop> Source for StdIn<R> {
    ghost left = { λ s. R.remaining s.reader };

    ghost faults = { λ s. s.faults };

    ghost reads = { λ _. 0 };

    fn read(&mut self, buf: &mut [u8]) -> Result<usize, Failed> {
        match self.reader.read(buf) {
            Ok(count) => Ok(count),
            Err(_) => {
                self.faults = raised(self.faults);
                Err(Failed)
            }
        }
    }
}

/// A writer as a sink. Its count rises at each error, and where a write takes nothing of a non-empty piece.
///
/// It tells what its writer tells; that over the program's own output tells nothing.
#[derive(Drop)]
pub struct StdOut<W: Write + Drop> {
    writer: W,
    faults: u64,
}

impl<W: Write + Drop> StdOut<W> {
    /// The writer as a sink without faults.
    pub fn new(writer: W) -> StdOut<W>
        ensures bytes { ⟦<StdOut<W> as Sink>⟧.held result ≡ W.contents writer }
        ensures quiet { ⟦<StdOut<W> as Sink>⟧.faults result ≡ 0 }
    {
        StdOut { writer, faults: 0 }
    }
}

impl<W: Write + Drop> Sink for StdOut<W> {
    ghost held = { λ s. W.contents s.writer };

    ghost faults = { λ s. s.faults };

    fn write(&mut self, piece: &[u8]) -> Result<usize, Failed> {
        match self.writer.write(piece) {
            Ok(count) => {
                if count == 0 && !piece.is_empty() {
                    self.faults = raised(self.faults);
                }
                Ok(count)
            }
            Err(_) => {
                self.faults = raised(self.faults);
                Err(Failed)
            }
        }
    }
}
