//! Bytes that are being read.
ghost use Rattle.std.specs.Prelude.{◌≡◌, ◌≤◌, ◌++◌, ◌<◌, [], length, take};

use esr_seq::Bytes;
use std::marker::Model;

/// Bytes that are being read: a contract sees those that are left.
#[derive(Drop)]
pub(crate) struct Unread {
    bytes: Bytes,
    place: usize,
}

impl Model for Unread {
    ghost use Rattle.std.specs.Prelude.{List, ℕ, drop, length, ◌≤◌};

    ghost Value = { List ℕ };

    ghost view = { λ u. drop u.place u.bytes };

    ghost invariant = { λ u. u.place ≤ length u.bytes };
}

impl Unread {
    pub fn new(bytes: Bytes) -> Unread
        ensures { result ≡ bytes }
    {
        Unread { bytes, place: 0 }
    }

    /// Moves as many bytes as there are, or as fit, into the front of the buffer, and answers how many.
    pub fn read(&mut self, buf: &mut [u8]) -> usize
        ensures bound { result ≤ length buf.new }
        ensures moved { take result buf.new ++ self.new ≡ self.old }
        ensures end { result ≡ 0 → 0 < length buf.new → self.new ≡ [] }
    {
        let left = &self.bytes.as_slice()[self.place..];
        let count = buf.len().min(left.len());
        buf[..count].copy_from_slice(&left[..count]);
        self.place += count;
        count
    }
}
