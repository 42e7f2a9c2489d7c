//! Paths of folders and files.
ghost use Rattle.std.specs.Prelude.{◌≡◌, string_bytes, true, IfOk, IfSome};
ghost use Rattle.std.specs.List.{list_all};
ghost use Rattle.esr_dirsource.specs.Paths.{path_in, source_folder, target_folder, is_folder_byte, is_folder_name};
ghost use Rattle.esr_source.specs.Files.{is_file_name};

use esr_seq::Text;
use esr_source::{ListedFile, is_listing};
use std::alloc::{AllocError, Global};

/// The path of what has this name in a folder.
pub(crate) fn path_in(alloc: Global, folder: &str, name: &str) -> Result<Text, AllocError>
    ensures { IfOk result (λ path. path ≡ path_in folder.now name.now) }
{
    let mut path = Text::from_str(alloc, folder)?;
    path.push_str("/")?;
    path.push_str(name)?;
    Ok(path)
}

/// The path of the folder of that number in a folder.
fn numbered(alloc: Global, folder: &str, number: u32) -> Result<Text, AllocError>
    ensures { IfOk result (λ path. path ≡ source_folder folder.now number) }
{
    let name = number.to_string(alloc)?;
    path_in(alloc, folder, name.as_str())
}

/// The folder of a shard's files where they are read: `PLACE/S`.
pub(crate) fn source_folder(alloc: Global, place: &str, number: u32) -> Result<Text, AllocError>
    ensures { IfOk result (λ path. path ≡ source_folder place.now number) }
{
    numbered(alloc, place, number)
}

/// The folder of a shard's files where they are written, `PLACE/INDEX/S`, and the one that holds it.
#[derive(Drop)]
pub(crate) struct Folders {
    /// `PLACE/INDEX`
    pub index: Text,
    /// `PLACE/INDEX/S`
    pub shard: Text,
}

impl Folders {
    pub fn new(alloc: Global, place: &str, index: &str, number: u32) -> Result<Folders, AllocError>
        ensures index { IfOk result (λ f. f.index ≡ path_in place.now index.now) }
        ensures shard { IfOk result (λ f. f.shard ≡ target_folder place.now index.now number) }
    {
        let index = path_in(alloc, place, index)?;
        let shard = numbered(alloc, index.as_str(), number)?;
        Ok(Folders { index, shard })
    }
}

/// Whether this is the name of one folder, from which no path leads up.
pub(crate) fn is_folder_name(name: &str) -> bool
    ensures { result ≡ is_folder_name name.now }
{
    if name.is_empty() || name == "." || name == ".." {
        return false;
    }
    has_folder_bytes(name.as_bytes())
}

fn has_folder_bytes(name: &[u8]) -> bool
    ensures { result ≡ list_all is_folder_byte name.now }
{
    name.iter().all(|byte| is_folder_byte(*byte))
}

fn is_folder_byte(byte: u8) -> bool
    ensures { result ≡ is_folder_byte byte }
{
    byte != b'/' && byte != 0
}

/// The name, if a shard may list a file of it.
pub(crate) fn file_name(name: Text) -> Option<Text>
    ensures { IfSome result (λ n. (n ≡ name) × (is_file_name name ≡ true)) }
{
    let files = [ListedFile { name, length: 0 }];
    if !is_listing(&files) {
        return None;
    }
    let [file] = files;
    Some(file.name)
}
