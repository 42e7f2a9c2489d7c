//! The file system for tests, of whose calls or files some fail.
use std::alloc::Allocator;
use std::fmt::Display;
use std::fs::{File, Metadata, OpenFile, OpenOptions};
use std::io::{self, ErrorKind, Read, Seek, Write};
use std::rt::Files;
use std::sync::atomic::{AtomicU64, Ordering};

/// What fails.
pub(crate) trait Fails {
    /// A file, once it is opened.
    type File: Read + Write + Seek + OpenFile + Drop;

    /// Fails if the next call is to.
    fn turn(&self) -> io::Result<()>;

    fn open(&self, rt: &HostRuntime, how: &OpenOptions, path: &str) -> io::Result<Self::File>;
}

/// The call after the next `left` ones fails, and no other. Where the file system is full, the files of stages take no byte.
#[derive(Drop)]
pub(crate) struct OneCall {
    left: AtomicU64,
    is_full: bool,
}

impl OneCall {
    pub fn new(left: u64, is_full: bool) -> OneCall {
        OneCall {
            left: AtomicU64::new(left),
            is_full,
        }
    }
}

impl Fails for OneCall {
    type File = File;

    fn turn(&self) -> io::Result<()> {
        if self.left.fetch_sub(1, Ordering::SeqCst) == 0 {
            return Err(ErrorKind::StorageFull.into());
        }
        Ok(())
    }

    fn open(&self, rt: &HostRuntime, how: &OpenOptions, path: &str) -> io::Result<File> {
        let file = rt.open_file(how, path)?;
        if self.is_full && path.contains("/stage/") {
            return rt.open_file(OpenOptions::new().write(true), "/dev/full");
        }
        Ok(file)
    }
}

/// The file system, with what fails of it.
#[derive(Drop)]
pub(crate) struct Failing<'a, F> {
    rt: &'a HostRuntime,
    fails: F,
}

impl<'a, F> Failing<'a, F> {
    pub fn new(rt: &'a HostRuntime, fails: F) -> Failing<'a, F> {
        Failing { rt, fails }
    }
}

impl<F: Fails> Files for Failing<'_, F> {
    type File = F::File;

    type Dir = <HostRuntime as Files>::Dir;

    fn open_file(&self, how: &OpenOptions, path: &str) -> io::Result<F::File> {
        self.fails.turn()?;
        self.fails.open(self.rt, how, path)
    }

    fn open_dir(&self, path: &str) -> io::Result<Self::Dir> {
        self.fails.turn()?;
        self.rt.open_dir(path)
    }

    fn metadata(&self, path: &str) -> io::Result<Metadata> {
        self.fails.turn()?;
        self.rt.metadata(path)
    }

    fn symlink_metadata(&self, path: &str) -> io::Result<Metadata> {
        self.fails.turn()?;
        self.rt.symlink_metadata(path)
    }

    fn copy(&self, _from: &str, _to: &str) -> io::Result<u64> {
        Err(ErrorKind::Unsupported.into())
    }

    fn rename(&self, from: &str, to: &str) -> io::Result<()> {
        self.fails.turn()?;
        self.rt.rename(from, to)
    }

    fn remove_file(&self, path: &str) -> io::Result<()> {
        self.fails.turn()?;
        self.rt.remove_file(path)
    }

    fn create_dir(&self, path: &str) -> io::Result<()> {
        self.fails.turn()?;
        self.rt.create_dir(path)
    }

    fn remove_dir(&self, path: &str) -> io::Result<()> {
        self.rt.remove_dir(path)
    }

    fn remove_dir_all<B: Allocator>(&self, _alloc: B, _path: &str) -> io::Result<()> {
        Err(ErrorKind::Unsupported.into())
    }

    fn hard_link(&self, original: &str, link: &str) -> io::Result<()> {
        self.fails.turn()?;
        self.rt.hard_link(original, link)
    }
}

impl<F> Eprint for Failing<'_, F> {
    fn eprint<D: Display + Drop>(&self, value: D) -> io::Result<()> {
        self.rt.eprint(value)
    }

    fn eprintln<D: Display + Drop>(&self, value: D) -> io::Result<()> {
        self.rt.eprintln(value)
    }
}
