//! The names of files where they were taken from.
ghost use Rattle.std.specs.Prelude.{◌≡◌, true, false, IfOk, IfErr};
ghost use Rattle.std.specs.List.{list_all};
ghost use Rattle.esr_shardidx.specs.FileNames.{is_name_byte, is_relative, is_file_name, IsRefused};

use esr_seq::TryClone;
use std::alloc::{AllocError, Global};
use std::marker::Model;

/// Why there is no name.
#[derive(Clone, Copy, Debug)]
pub enum PhysicalRefusal {
    /// Memory ran out.
    Memory,
    /// The text breaks the rule.
    BadName,
}

/// The name of a file where it was taken from: 1 to 255 bytes of 33 to 126, none a slash, and neither
/// `.` nor `..`.
#[derive(Debug)]
pub struct PhysicalName {
    text: String,
}

impl Drop for PhysicalName {
    // Not derived: each crate above would prove a derived one again.
    fn drop(self) {
        let PhysicalName { text: _text } = self;
    }
}

impl Model for PhysicalName {
    ghost use Rattle.std.specs.Prelude.{◌≡◌, true, List, ℕ, string_bytes};
    ghost use Rattle.esr_shardidx.specs.FileNames.{is_file_name};

    ghost Value = { List ℕ };

    ghost view = { λ n. string_bytes n.text };

    ghost invariant = { λ n. is_file_name (string_bytes n.text) ≡ true };
}

fn is_name_byte(c: u8) -> bool
    ensures { result ≡ is_name_byte c }
{
    33 <= c && c <= 126 && c != b'/'
}

fn are_name_bytes(bytes: &[u8]) -> bool
    ensures { result ≡ list_all is_name_byte bytes.now }
{
    bytes.iter().all(|c| is_name_byte(*c))
}

/// Whether the bytes name a folder relative to another one.
fn is_relative(bytes: &[u8]) -> bool
    ensures { result ≡ is_relative bytes.now }
{
    bytes == b".".as_slice() || bytes == b"..".as_slice()
}

/// Whether a file may have this name.
fn is_file_name(bytes: &[u8]) -> bool
    ensures { result ≡ is_file_name bytes.now }
{
    if bytes.is_empty() {
        return false;
    }
    if bytes.len() > 255 {
        return false;
    }
    if is_relative(bytes) {
        return false;
    }
    are_name_bytes(bytes)
}

impl PhysicalName {
    /// The name of this text.
    pub fn new(alloc: Global, text: &str) -> Result<PhysicalName, PhysicalRefusal>
        ensures ok { IfOk result (λ n. (n ≡ text.now) × (is_file_name text.now ≡ true)) }
        ensures err { IfErr result (λ e. IsRefused e text.now) }
    {
        if !is_file_name(text.as_bytes()) {
            return Err(PhysicalRefusal::BadName);
        }
        match String::from_str(alloc, text) {
            Ok(text) => Ok(PhysicalName { text }),
            Err(_) => Err(PhysicalRefusal::Memory),
        }
    }

    /// The text of the name.
    pub fn as_str(&self) -> &str
        ensures text { result.now ≡ self.now }
        ensures rule { is_file_name self.now ≡ true }
    {
        self.text.as_str()
    }
}

impl TryClone for PhysicalName {
    fn try_clone(&self, alloc: Global) -> Result<PhysicalName, AllocError> {
        let text = String::from_str(alloc, self.text.as_str())?;
        Ok(PhysicalName { text })
    }
}
