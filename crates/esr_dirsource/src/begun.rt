//! A file that is being written.
ghost use Rattle.std.specs.Prelude.{◌≡◌, ◌≢◌, ◌+◌, ◌-◌, ◌^◌, ◌<◌, ◌≤◌, true, length, OnOk, OnErr, IsErr};
ghost use Rattle.esr_source.specs.Files.{is_file_name};
ghost use Rattle.esr_dirsource.specs.declared.begun.State.TheVariants as State;

use esr_seq::Text;
use std::fs::{File, OpenFile};
use std::io::{self, ErrorKind, Seek, SeekFrom, Write};
use std::rt::Files;

/// What is known of the bytes of a file that is being written.
#[derive(Clone, Copy)]
enum State {
    /// They are those that were written.
    Whole,
    /// A part of what a failed write left may follow them.
    Torn,
    /// A sync failed. The system may have dropped some of them, and would report that no more.
    Lost,
}

/// A file that is being written: its name, the count of bytes that were written, and of those that still may be.
#[derive(Drop)]
pub(crate) struct BegunFile<F> {
    file: F,
    pub name: Text,
    written: u64,
    pub room: u64,
    state: State,
    ghost named: { is_file_name name ≡ true },
    ghost fits: { written + room < 2 ^ 64 },
}

impl<F> BegunFile<F> {
    /// A file that was just made, and is empty.
    pub fn new(file: F, name: Text, room: u64) -> BegunFile<F>
        requires { is_file_name name ≡ true }
        ensures name { result.name ≡ name }
        ensures room { result.room ≡ room }
        ensures written { result.written ≡ 0 }
    {
        BegunFile {
            file,
            name,
            written: 0,
            room,
            state: State::Whole,
        }
    }
}

impl<F: Write + Seek + OpenFile> BegunFile<F> {
    /// Appends the bytes, for which there is room, or fails and counts none of them.
    pub fn append(&mut self, bytes: &[u8]) -> io::Result<()>
        requires { length bytes.now ≤ self.old.room }
        ensures room { OnOk result (self.new.room ≡ self.old.room - length bytes.now) }
        ensures written { OnOk result (self.new.written ≡ self.old.written + length bytes.now) }
        ensures room_kept { OnErr result (self.new.room ≡ self.old.room) }
        ensures written_kept { OnErr result (self.new.written ≡ self.old.written) }
        ensures name { self.new.name ≡ self.old.name }

        // What a failed write left is not taken for the bytes of the file, and a lost file stays lost.
        ensures torn { OnErr result (self.new.state ≢ State.Whole) }
        ensures lost { self.old.state ≡ State.Lost → IsErr result }
        ensures stays_lost { self.old.state ≡ State.Lost → self.new.state ≡ State.Lost }
    {
        self.mend()?;
        self.state = State::Torn;
        self.file.write_all(bytes)?;
        self.state = State::Whole;
        let count = bytes.len() as u64;
        self.written += count;
        self.room -= count;
        Ok(())
    }

    /// Cuts off what a failed write left. A file that was lost stays so.
    fn mend(&mut self) -> io::Result<()>
        ensures written { self.new.written ≡ self.old.written }
        ensures room { self.new.room ≡ self.old.room }
        ensures name { self.new.name ≡ self.old.name }
        ensures whole { OnOk result (self.new.state ≡ State.Whole) }
        ensures err { OnErr result (self.new.state ≡ self.old.state) }
        ensures torn { OnErr result (self.new.state ≢ State.Whole) }
        ensures lost { self.old.state ≡ State.Lost → IsErr result }
    {
        match self.state {
            State::Whole => return Ok(()),
            State::Lost => return Err(io::Error::from(ErrorKind::Other)),
            State::Torn => {}
        }
        self.file.set_len(self.written)?;
        self.file.seek(SeekFrom::Start(self.written))?;
        self.state = State::Whole;
        Ok(())
    }

    /// Syncs the file, and then its folder.
    pub fn finish<R: Files>(&mut self, rt: &R, folder: &str) -> io::Result<()>
        ensures room { self.new.room ≡ self.old.room }
        ensures written { self.new.written ≡ self.old.written }
        ensures name { self.new.name ≡ self.old.name }
        ensures lost { self.old.state ≡ State.Lost → IsErr result }
        ensures stays_lost { self.old.state ≡ State.Lost → self.new.state ≡ State.Lost }
    {
        self.mend()?;
        let folder = File::open(rt, folder)?;
        self.state = State::Lost;
        self.file.sync_all()?;
        folder.sync_all()?;
        self.state = State::Whole;
        Ok(())
    }
}
