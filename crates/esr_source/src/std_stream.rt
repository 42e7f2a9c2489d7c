//! A script and an output over a reader and a writer, as standard input and standard output are.
ghost use Rattle.std.specs.Prelude.{◌≡◌, false};

use crate::stream::{Lines, Out};
use esr_depot::{Counted, Failed};
use std::io::{Read, Write};

/// A script from a reader. It tells what the reader does: of standard input nothing.
#[derive(Drop)]
pub struct StdLines<R> {
    reader: R,
    faults: u64,
}

impl<R: Read + Drop> StdLines<R> {
    pub fn new(reader: R) -> StdLines<R>
        ensures left { ⟦<StdLines<R> as Lines>⟧.left result ≡ R.remaining reader }
        ensures count { ⟦<StdLines<R> as Counted>⟧.faults result ≡ 0 }
    {
        StdLines { reader, faults: 0 }
    }
}

impl<R> Counted for StdLines<R> {
    ghost faults = { λ l. l.faults };

    fn fault_count(&self) -> u64 {
        self.faults
    }
}

impl<R: Read + Drop> Lines for StdLines<R> {
    ghost left = { λ l. R.remaining l.reader };

    ghost is_sure = { λ _. false };

    fn read(&mut self, buf: &mut [u8]) -> Result<usize, Failed> {
        match self.reader.read(buf) {
            Ok(count) => Ok(count),
            Err(_) => {
                self.faults = self.faults.saturating_add(1);
                Err(Failed)
            }
        }
    }
}

/// An output to a writer. It tells what the writer does: of standard output nothing.
#[derive(Drop)]
pub struct StdOut<W> {
    writer: W,
    faults: u64,
}

impl<W: Write + Drop> StdOut<W> {
    pub fn new(writer: W) -> StdOut<W>
        ensures contents { ⟦<StdOut<W> as Out>⟧.contents result ≡ W.contents writer }
        ensures count { ⟦<StdOut<W> as Counted>⟧.faults result ≡ 0 }
    {
        StdOut { writer, faults: 0 }
    }
}

impl<W> Counted for StdOut<W> {
    ghost faults = { λ o. o.faults };

    fn fault_count(&self) -> u64 {
        self.faults
    }
}

impl<W: Write + Drop> Out for StdOut<W> {
    ghost contents = { λ o. W.contents o.writer };

    ghost sure = { λ _. 0 };

    fn write(&mut self, bytes: &[u8]) -> Result<usize, Failed> {
        match self.writer.write(bytes) {
            Ok(count) if count > 0 || bytes.is_empty() => Ok(count),
            _ => {
                self.faults = self.faults.saturating_add(1);
                Err(Failed)
            }
        }
    }
}
