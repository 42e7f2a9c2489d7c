//! Files and folders, made and looked up so that what a call did is on the disk when it answers.
use std::fs::{self, File};
use std::io::{self, ErrorKind};
use std::rt::Files;

/// The folder that holds an entry.
pub fn parent_of(path: &str) -> &str {
    match path.rsplit_once('/') {
        Some(("", _)) => "/",
        Some((folder, _)) => folder,
        None => ".",
    }
}

/// Puts a folder's entries on the disk.
pub fn sync_folder<R: Files<File = File>>(files: &R, path: &str) -> io::Result<()> {
    File::open(files, path)?.sync_all()
}

/// Makes a folder, with its entry on the disk, unless something has its name.
pub fn make_folder<R: Files<File = File>>(files: &R, path: &str) -> io::Result<()> {
    match fs::create_dir(files, path) {
        Ok(()) => {}
        Err(error) if error.kind() == ErrorKind::AlreadyExists => return Ok(()),
        Err(error) => return Err(error),
    }
    let synced = sync_folder(files, parent_of(path));
    if synced.is_err() {
        // Another call is to make it again, and then to sync it.
        let _ = fs::remove_dir(files, path);
    }
    synced
}

/// Makes the absent folders on the way to an entry, beginning with the one that ends at `start` bytes of its path.
pub fn make_way<R: Files<File = File>>(files: &R, path: &str, start: usize) -> io::Result<()> {
    for end in start..path.len() {
        if let Some((folder, rest)) = path.split_at_checked(end)
            && rest.starts_with('/')
        {
            make_folder(files, folder)?;
        }
    }
    Ok(())
}

/// Removes the folders on the way to an entry that are empty now, from the one that holds it up to the one that ends at
/// `start` bytes of its path. One that can't be removed stays, with those above it.
pub fn clear_way<R: Files<File = File>>(files: &R, path: &str, start: usize) {
    for end in (start..path.len()).rev() {
        if let Some((folder, rest)) = path.split_at_checked(end)
            && rest.starts_with('/')
            && fs::remove_dir(files, folder).is_err()
        {
            return;
        }
    }
}

/// Tells whether a plain file has that path. What is there and is no plain file is an error.
pub fn has_file<R: Files<File = File>>(files: &R, path: &str) -> io::Result<bool> {
    match fs::symlink_metadata(files, path) {
        Ok(found) if found.is_file() => Ok(true),
        Ok(_) => Err(ErrorKind::InvalidData.into()),
        Err(error) if error.kind() == ErrorKind::NotFound => Ok(false),
        Err(error) => Err(error),
    }
}

/// The plain file of that path, to be read, or `None` where there is none.
pub fn open_file<R: Files<File = File>>(files: &R, path: &str) -> io::Result<Option<File>> {
    if has_file(files, path)? {
        Ok(Some(File::open(files, path)?))
    } else {
        Ok(None)
    }
}

/// Removes the files in a folder. At a type that isn't known its loop is proved far sooner than at a pair.
pub fn remove_files_in<R: Files + AllocGlobal + Clone + Drop>(
    files: &R,
    folder: &str,
) -> io::Result<()> {
    for entry in fs::read_dir(files, folder)? {
        fs::remove_file(files, entry?.path())?;
    }
    Ok(())
}

/// Removes a file, if there is one.
pub fn remove_file<R: Files<File = File>>(files: &R, path: &str) -> io::Result<()> {
    match fs::remove_file(files, path) {
        Err(error) if error.kind() == ErrorKind::NotFound => Ok(()),
        done => done,
    }
}
