//! Files of which some calls fail.
use crate::failing::Fails;
use std::cell::Cell;
use std::fs::{File, Metadata, OpenFile, OpenOptions};
use std::io::{self, ErrorKind, Read, Seek, SeekFrom, Write};
use std::rt::Files;

/// Of each file's reads and writes the first is interrupted and the third fails, a write takes one byte, and its first sync
/// fails where it is opened for writing.
#[derive(Drop)]
pub(crate) struct Shaky;

#[derive(Drop)]
pub(crate) struct ShakyFile {
    file: File,
    calls: u64,
    has_synced: Cell<bool>,
}

impl ShakyFile {
    /// Counts a call.
    fn call(&mut self) -> io::Result<()> {
        self.calls = self.calls.saturating_add(1);
        match self.calls {
            1 => Err(io::Error::from(ErrorKind::Interrupted)),
            3 => Err(io::Error::from(ErrorKind::Other)),
            _ => Ok(()),
        }
    }
}

impl Read for ShakyFile {
    fn read(&mut self, buf: &mut [u8]) -> io::Result<usize> {
        self.call()?;
        self.file.read(buf)
    }
}

impl Write for ShakyFile {
    fn write(&mut self, buf: &[u8]) -> io::Result<usize> {
        self.call()?;
        self.file.write(&buf[..buf.len().min(1)])
    }

    fn flush(&mut self) -> io::Result<()> {
        self.file.flush()
    }
}

impl Seek for ShakyFile {
    fn seek(&mut self, to: SeekFrom) -> io::Result<u64> {
        self.file.seek(to)
    }
}

impl OpenFile for ShakyFile {
    fn metadata(&self) -> io::Result<Metadata> {
        self.file.metadata()
    }

    fn set_len(&self, size: u64) -> io::Result<()> {
        self.file.set_len(size)
    }

    fn sync_all(&self) -> io::Result<()> {
        if self.has_synced.replace(true) {
            self.file.sync_all()
        } else {
            Err(io::Error::from(ErrorKind::Other))
        }
    }

    fn sync_data(&self) -> io::Result<()> {
        self.sync_all()
    }
}

impl Fails for Shaky {
    type File = ShakyFile;

    fn turn(&self) -> io::Result<()> {
        Ok(())
    }

    fn open(&self, rt: &HostRuntime, how: &OpenOptions, path: &str) -> io::Result<ShakyFile> {
        Ok(ShakyFile {
            file: rt.open_file(how, path)?,
            calls: 0,
            has_synced: Cell::new(!how.asks_write()),
        })
    }
}
