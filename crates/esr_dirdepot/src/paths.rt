//! Where the parts of a container stand in its folder.
ghost use Rattle.std.specs.Prelude.{◌≡◌, ◌+◌, ◌≤◌, ◌↔◌, IfOk, IsOk, IsTrue, OnOk, length, string_bytes, string_capacity};

use crate::name::{LONGEST_NAME, is_inside};
use esr_seq::Text;
use std::alloc::{AllocError, Global};
use std::io::{self, ErrorKind};

/// The paths of a container in a folder. They are made once, so that no later call takes memory for a path.
#[derive(Drop)]
pub struct Paths {
    /// The folder itself.
    pub dir: Text,
    /// The file whose lock says that a process uses the folder.
    pub lock: Text,
    /// The folder of blobs.
    pub blobs: Text,
    /// The folder of stages.
    pub stages: Text,
    /// The record.
    pub record: Text,
    /// The record's next text, until it is swapped in.
    pub next_record: Text,
    /// The path of the blob that was aimed at last. Its room is reserved.
    pub aimed: String,
    ghost reserved: { length blobs + 129 ≤ string_capacity aimed },
}

/// The folder's path with no slash at its end, so that it is that of an entry.
fn trimmed(dir: &str) -> &str {
    match dir.trim_end_matches('/') {
        "" if dir.is_empty() => ".",
        "" => "/",
        path => path,
    }
}

fn below(alloc: Global, dir: &str, entry: &str) -> Result<Text, AllocError> {
    Ok(Text::from_string(format!(in alloc; "{dir}/{entry}")?))
}

/// The paths of two entries.
fn both_below(
    alloc: Global,
    dir: &str,
    entry: &str,
    other: &str,
) -> Result<(Text, Text), AllocError> {
    let entry = below(alloc, dir, entry)?;
    Ok((entry, below(alloc, dir, other)?))
}

/// The path of the folder of blobs, and room for that of any blob.
fn blobs_below(alloc: Global, dir: &str) -> Result<(Text, String), AllocError>
    ensures { IfOk result (λ r. length r.0 + 129 ≤ string_capacity r.1) }
{
    let blobs = below(alloc, dir, "blobs")?;
    let longest = blobs.len().checked_add(1 + LONGEST_NAME).ok_or(AllocError)?;
    let aimed = String::with_capacity(alloc, longest)?;
    Ok((blobs, aimed))
}

impl Paths {
    ghost use Rattle.esr_dirdepot.specs.Names.{leads_inside, path_below};

    pub fn new(alloc: Global, dir: &str) -> Result<Paths, AllocError> {
        let dir = trimmed(dir);
        let (blobs, aimed) = blobs_below(alloc, dir)?;
        let (lock, stages) = both_below(alloc, dir, "lock", "stage")?;
        let (record, next_record) = both_below(alloc, dir, "record", "stage/record")?;
        Ok(Paths {
            dir: Text::from_str(alloc, dir)?,
            lock,
            blobs,
            stages,
            record,
            next_record,
            aimed,
        })
    }

    /// Aims at the blob of that name, which has to lead inside the folder of blobs. It takes no memory.
    pub fn aim(&mut self, name: &str) -> io::Result<()>
        ensures inside { IsOk result ↔ IsTrue (leads_inside name.now) }
        ensures path { OnOk result (string_bytes self.new.aimed ≡ path_below self.new.blobs name.now) }
    {
        if !is_inside(name) {
            return Err(ErrorKind::InvalidInput.into());
        }
        self.aimed.clear();
        self.aimed.push_str(self.blobs.as_str()).unwrap();
        self.aimed.push_str("/").unwrap();
        self.aimed.push_str(name).unwrap();
        Ok(())
    }
}
