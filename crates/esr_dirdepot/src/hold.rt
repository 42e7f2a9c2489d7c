//! Whether this process may use the folder.
use std::fs::{File, OpenOptions, TryLockError};
use std::io;
use std::rt::Files;

/// What a container knows of its folder.
#[derive(Drop)]
pub enum Hold {
    /// No call has looked for it.
    Unseen,
    /// It was absent.
    Absent,
    /// This container made it, and hasn't its lock yet.
    Made,
    /// It is this container's as long as the file is open.
    Held(File),
    /// Another process has it, or had it since it was absent.
    Refused,
}

/// The file of the lock, which is made where it is absent.
pub fn open_lock<R: Files<File = File>>(files: &R, path: &str) -> io::Result<File> {
    OpenOptions::new()
        .read(true)
        .write(true)
        .create(true)
        .open(files, path)
}

/// Takes the lock, or tells that another open file has it.
pub fn take_lock(file: &File) -> io::Result<bool> {
    match file.try_lock() {
        Ok(()) => Ok(true),
        Err(TryLockError::WouldBlock) => Ok(false),
        Err(TryLockError::Error(error)) => Err(error),
    }
}
