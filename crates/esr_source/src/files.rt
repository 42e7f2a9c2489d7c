//! The files of a shard.
ghost use Rattle.std.specs.Prelude.{◌≡◌, IfOk, IsTrue, None, map};
ghost use Rattle.std.specs.List.{list_all};
ghost use Rattle.esr_source.specs.Files.{IsListing, is_listing, is_listed, is_file_name, is_dots, is_name_byte, is_rising, listed_of, told_file};

use esr_seq::{Bytes, Seq, Text, TryClone};
use std::alloc::{AllocError, Global};

/// A file that is listed, by its name and its length in bytes.
#[derive(Debug, Drop)]
pub struct ListedFile {
    pub name: Text,
    pub length: u64,
}

impl TryClone for ListedFile {
    fn try_clone(&self, alloc: Global) -> Result<ListedFile, AllocError> {
        Ok(ListedFile {
            name: self.name.try_clone(alloc)?,
            length: self.length,
        })
    }
}

/// The files of a shard, in the byte order of their names.
pub type Files = Seq<ListedFile>;

/// A file in memory.
#[derive(Debug, Drop)]
pub struct MemFile {
    pub name: Text,
    pub bytes: Bytes,
}

impl MemFile {
    /// A file of copies of these.
    pub fn new(alloc: Global, name: &str, bytes: &[u8]) -> Result<MemFile, AllocError>
        ensures { IfOk result (λ f. f ≡ record { name = name.now; bytes = bytes.now }) }
    {
        Ok(MemFile {
            name: Text::from_str(alloc, name)?,
            bytes: Bytes::from_slice(alloc, bytes)?,
        })
    }
}

impl TryClone for MemFile {
    fn try_clone(&self, alloc: Global) -> Result<MemFile, AllocError> {
        Ok(MemFile {
            name: self.name.try_clone(alloc)?,
            bytes: self.bytes.try_clone(alloc)?,
        })
    }
}

/// The least length that no listed file has.
const LENGTH_LIMIT: u64 = 1 << 60;

/// The least count of files that no list has.
const COUNT_LIMIT: u64 = 1 << 32;

/// The longest name of a file, in bytes.
const NAME_LIMIT: usize = 255;

/// Whether a shard may list these files: each name is 1 to 255 bytes of 33 to 126 without a slash, and neither `.` nor
/// `..`, the names rise in byte order, each length is below 2^60, and there are fewer than 2^32.
pub fn is_listing(files: &[ListedFile]) -> bool
    ensures exact { result ≡ is_listing files.now }
    ensures facts { IsTrue result → IsListing files.now }
{
    (files.len() as u64) < COUNT_LIMIT && are_listed(files) && is_rising(files)
}

/// Whether files of these names and lengths may be listed.
fn are_listed(files: &[ListedFile]) -> bool
    ensures { result ≡ list_all is_listed files.now }
{
    files.iter().all(is_listed)
}

/// Whether a file of this name and length may be listed.
fn is_listed(file: &ListedFile) -> bool
    ensures { result ≡ is_listed file.now }
{
    file.length < LENGTH_LIMIT && is_file_name(file.name.as_str().as_bytes())
}

fn is_file_name(name: &[u8]) -> bool
    ensures { result ≡ is_file_name name.now }
{
    if name.is_empty() || name.len() > NAME_LIMIT || is_dots(name) {
        return false;
    }
    has_name_bytes(name)
}

fn has_name_bytes(name: &[u8]) -> bool
    ensures { result ≡ list_all is_name_byte name.now }
{
    name.iter().all(|byte| is_name_byte(*byte))
}

/// One dot or two.
fn is_dots(name: &[u8]) -> bool
    ensures { result ≡ is_dots name.now }
{
    name == b".".as_slice() || name == b"..".as_slice()
}

fn is_name_byte(byte: u8) -> bool
    ensures { result ≡ is_name_byte byte }
{
    33 <= byte && byte <= 126 && byte != b'/'
}

/// Whether each name is above the one before, in byte order.
fn is_rising(files: &[ListedFile]) -> bool
    ensures { result ≡ is_rising None files.now }
{
    let mut last: Option<&str> = None;
    for file in files {
        let name = file.name.as_str();
        if let Some(last) = last {
            if last >= name {
                return false;
            }
        }
        last = Some(name);
    }
    true
}

/// What a shard lists of these files.
pub(crate) fn listing_of(alloc: Global, files: &[MemFile]) -> Result<Files, AllocError>
    ensures { IfOk result (λ l. l ≡ map (λ f. listed_of (told_file f)) files.now) }
{
    let mut listing = Seq::new(alloc);
    for file in files {
        listing.push(ListedFile {
            name: file.name.try_clone(alloc)?,
            length: file.bytes.len() as u64,
        })?;
    }
    Ok(listing)
}
