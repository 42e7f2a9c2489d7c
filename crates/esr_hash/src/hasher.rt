//! The print of bytes that come in pieces.
ghost use Rattle.std.specs.Prelude.{◌≡◌, ◌+◌, ◌<◌, ◌^◌, ◌++◌, List, ℕ, [], length};
ghost use Rattle.esr_hash.specs.Fed.{fed_count, HasFed};
ghost use Rattle.esr_hash.specs.Digits.{IsPrint};
ghost use Rattle.esr_hash.specs.Prints.{print_of};

use crate::Print;
use sha2::{Digest, Sha256};

/// The bytes that it was fed, in order, as far as their print needs them.
#[derive(Drop)]
pub struct Hasher {
    len: u64,
    state: Sha256,
}

impl Hasher {
    /// A hasher that was fed nothing.
    pub fn start() -> Hasher
        ensures { HasFed result [] }
    {
        Hasher {
            len: 0,
            state: Sha256::new(),
        }
    }

    /// Feeds a piece: fewer than 2^61 bytes in all.
    pub fn feed(&mut self, piece: &[u8])
        requires { fed_count self.old + length piece.now < 2 ^ 61 }
        ensures joined { (m : List ℕ) → HasFed self.old m → HasFed self.new (m ++ piece.now) }
        ensures count { fed_count self.new ≡ fed_count self.old + length piece.now }
    {
        self.len += piece.len() as u64;
        self.state.update(piece);
    }

    /// The print of all pieces, joined.
    pub fn end(self) -> Print
        ensures joined { (m : List ℕ) → HasFed self m → result ≡ print_of m }
        ensures print { IsPrint result }
    {
        Print {
            len: self.len,
            sha256: self.state.finalize(),
        }
    }
}
