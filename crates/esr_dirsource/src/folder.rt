//! What a folder holds, and what is done to folders.
ghost use Rattle.std.specs.Prelude.{◌≡◌, ◌++◌, drop, IfOk, length};
ghost use Rattle.std.specs.Io.{ReadsAtMost};
ghost use Rattle.esr_source.specs.Files.{IsListing};

use esr_seq::{Seq, Text};
use esr_source::{Files as FileList, ListedFile, is_listing};
use std::alloc::Global;
use std::fs::{self, DirEntry, File, OpenFile};
use std::io::{self, ErrorKind, Read};
use std::rt::Files;

/// The files of a folder, in the byte order of their names. A folder fails that isn't there, that has anything but plain
/// files, or whose files may not be listed.
pub(crate) fn list<R: Files>(rt: &R, alloc: Global, folder: &str) -> io::Result<FileList>
    ensures { IfOk result IsListing }
{
    let mut files = files_in(rt, alloc, folder)?;
    files.sort_unstable_by(|a, b| a.name.cmp(&b.name));
    if !is_listing(files.as_slice()) {
        return Err(io::Error::from(ErrorKind::InvalidData));
    }
    Ok(Seq::from_vec(files))
}

/// The files of a folder, in any order.
fn files_in<R: Files>(rt: &R, alloc: Global, folder: &str) -> io::Result<Vec<ListedFile>> {
    let mut files = Vec::new(alloc);
    add_files(&(rt, alloc), folder, &mut files)?;
    Ok(files)
}

/// Adds the files of a folder, in any order. At a type that isn't known its loop is proved far sooner than at a pair.
fn add_files<R: Files + AllocGlobal + Clone + Drop>(
    rt: &R,
    folder: &str,
    files: &mut Vec<ListedFile>,
) -> io::Result<()> {
    let alloc = rt.alloc();
    for entry in fs::read_dir(rt, folder)? {
        add_file(alloc, &entry?, files)?;
    }
    Ok(())
}

/// Adds what is listed of an entry.
fn add_file<R: Files>(
    alloc: Global,
    entry: &DirEntry<R>,
    files: &mut Vec<ListedFile>,
) -> io::Result<()> {
    files.push(listed_file(alloc, entry)?)?;
    Ok(())
}

/// What is listed of an entry. One that isn't a plain file fails, a symbolic link too.
fn listed_file<R: Files>(alloc: Global, entry: &DirEntry<R>) -> io::Result<ListedFile> {
    let metadata = entry.metadata()?;
    if !metadata.is_file() {
        return Err(io::Error::from(ErrorKind::InvalidData));
    }
    Ok(ListedFile {
        name: Text::from_str(alloc, entry.file_name())?,
        length: metadata.len(),
    })
}

/// Opens a plain file for reading. Anything else fails, a symbolic link too.
pub(crate) fn open_plain<R: Files>(rt: &R, path: &str) -> io::Result<R::File> {
    if !fs::symlink_metadata(rt, path)?.is_file() {
        return Err(io::Error::from(ErrorKind::InvalidInput));
    }
    File::open(rt, path)
}

/// Reads once, and again where a signal interrupted that.
pub(crate) fn read_some<F: Read>(file: &mut F, buf: &mut [u8]) -> io::Result<usize>
    ensures bound { ReadsAtMost result buf.new }
    ensures length { length buf.new ≡ length buf.old }
{
    for _ in 0..u64::MAX {
        match file.read(buf) {
            Err(error) if error.kind() == ErrorKind::Interrupted => {}
            answer => return answer,
        }
    }
    Err(io::Error::from(ErrorKind::TimedOut))
}

/// Makes a folder where there is none, and answers whether it did.
fn make<R: Files>(rt: &R, folder: &str) -> io::Result<bool> {
    match fs::create_dir(rt, folder) {
        Ok(()) => Ok(true),
        Err(_) if is_folder(rt, folder) => Ok(false),
        Err(error) => Err(error),
    }
}

/// The folder that holds an entry.
fn parent_of(path: &str) -> &str {
    match path.rsplit_once('/') {
        Some(("", _)) => "/",
        Some((folder, _)) => folder,
        None => ".",
    }
}

/// Makes a folder where there is none, so that its name outlasts a power cut.
fn make_lasting<R: Files>(rt: &R, folder: &str) -> io::Result<()> {
    if !make(rt, folder)? {
        return Ok(());
    }
    let synced = sync(rt, parent_of(folder));
    if synced.is_err() {
        // Another call is to make it again, and then to sync its name.
        let _ = fs::remove_dir(rt, folder);
    }
    synced
}

/// Makes a folder and those on the way to it, each where there is none, so that their names outlast a power cut.
pub(crate) fn make_with_way<R: Files>(rt: &R, path: &str) -> io::Result<()> {
    for end in 1..path.len() {
        if let Some((folder, rest)) = path.split_at_checked(end)
            && rest.starts_with('/')
        {
            make_lasting(rt, folder)?;
        }
    }
    make_lasting(rt, path)
}

/// Whether there is such a folder, or a link to one.
fn is_folder<R: Files>(rt: &R, path: &str) -> bool {
    match fs::metadata(rt, path) {
        Ok(metadata) => metadata.is_dir(),
        Err(_) => false,
    }
}

/// Makes a folder in another where there is none, and syncs the other, so that it outlasts a power cut. A symbolic link
/// fails, since it could lead anywhere.
pub(crate) fn make_in<R: Files>(rt: &R, parent: &str, folder: &str) -> io::Result<()> {
    make(rt, folder)?;
    if !fs::symlink_metadata(rt, folder)?.is_dir() {
        return Err(io::Error::from(ErrorKind::NotADirectory));
    }
    sync(rt, parent)
}

/// Syncs the names that a folder holds.
fn sync<R: Files>(rt: &R, folder: &str) -> io::Result<()> {
    File::open(rt, folder)?.sync_all()
}
