//! Where the files of shards come from.
ghost use Rattle.std.specs.Prelude.{◌≡◌, ◌<◌, ℕ, true, false, List, Some, None, map, length, IfOk, IfSome, IsSomeAnd, OnOk, OnErr, IsErr, is_err};
ghost use Rattle.std.specs.Io.{ReadsAtMost};
ghost use Rattle.std.specs.Io.KnownBytes.{ReadConsumes};
ghost use Rattle.esr_depot.specs.Calls.{HasCause, is_wanting, has_failed};
ghost use Rattle.esr_source.specs.Address.{address};
ghost use Rattle.esr_source.specs.Files.{listed_of, bytes_at, IsListing};
ghost use Rattle.esr_source.specs.Sure.{ServesAll};
ghost use Rattle.esr_source.specs.Told.{ShardTold, SourcesTold};

use crate::files::Files;
use esr_depot::{CallError, Counted, Failed};
use std::alloc::{AllocError, Global};

/// The files of one shard, as they are being read.
pub trait Shard: Counted + Drop + Send {
    /// What it shows to proofs. The address, the files and the place stay as they are.
    ghost told: { Self → ShardTold };

    /// The names and lengths of the files, in the byte order of names. A shard whose place doesn't exist fails, and so
    /// does one with a file that may not be listed.
    fn list(&mut self, alloc: Global) -> Result<Files, CallError>
        ensures told { IfOk result (λ fs. IfSome (told self.old).files (λ files. fs ≡ map listed_of files)) }
        ensures rule { IfOk result IsListing }
        ensures absent { (told self.old).is_there ≡ Some false → IsErr result }
        ensures ok { IfOk result (λ fs. told self.new ≡ record (told self.old) { listed = Some fs }) }
        ensures err { OnErr result (told self.new ≡ told self.old) }
        ensures memory { is_wanting result ≡ true → Self.faults self.new ≡ Self.faults self.old }
        ensures cause { HasCause (Self.faults self.old) (Self.faults self.new) (has_failed result) }
        ensures sure { ServesAll (told self.old).is_sure (Self.faults self.old) (Self.faults self.new) (has_failed result) };

    /// Goes to the first byte of the file at that place of the list, counted from 0.
    fn start(&mut self, alloc: Global, file: usize) -> Result<(), CallError>
        requires { IsSomeAnd (told self.old).listed (λ fs. file < length fs) }
        ensures ok { OnOk result (told self.new ≡ record (told self.old) { left = bytes_at (told self.old).files file }) }
        ensures err { OnErr result (told self.new ≡ told self.old) }
        ensures memory { is_wanting result ≡ true → Self.faults self.new ≡ Self.faults self.old }
        ensures cause { HasCause (Self.faults self.old) (Self.faults self.new) (has_failed result) }
        ensures sure { ServesAll (told self.old).is_sure (Self.faults self.old) (Self.faults self.new) (has_failed result) };

    /// Goes on in that file: moves some of its bytes into the front of the buffer and answers how many, 0 exactly at
    /// the end or for an empty buffer.
    fn read(&mut self, buf: &mut [u8]) -> Result<usize, Failed>
        ensures bound { ReadsAtMost result buf.new }
        ensures bytes { ReadConsumes (told self.old).left (told self.new).left result buf.new }
        ensures length { length buf.new ≡ length buf.old }
        ensures kept { told self.new ≡ record (told self.old) { left = (told self.new).left } }
        ensures cause { HasCause (Self.faults self.old) (Self.faults self.new) (is_err result) }
        ensures sure { ServesAll (told self.old).is_sure (Self.faults self.old) (Self.faults self.new) (is_err result) };
}

/// A new value, if there was memory for it.
pub type New<T> = Result<T, AllocError>;

/// Where the files of shards come from.
pub trait Sources: Sync + Drop {
    type Shard: Shard;

    /// What they show to proofs.
    ghost told: { Self → SourcesTold };

    /// A shard that hasn't failed and wasn't listed yet.
    fn shard(&self, alloc: Global, place: &str, index: &str, number: u32) -> New<Self::Shard>
        ensures address { IfOk result (λ s. (Self.Shard.told s).address ≡ address place.now index.now number) }
        ensures files { IfOk result (λ s. (Self.Shard.told s).files ≡ (told self.now).files place.now index.now number) }
        ensures is_there { IfOk result (λ s. (Self.Shard.told s).is_there ≡ (told self.now).is_there place.now index.now number) }
        ensures sure { IfOk result (λ s. (told self.now).is_quiet ≡ true → (told self.now).is_there place.now index.now number ≡ Some true
            → (Self.Shard.told s).is_sure ≡ true) }
        ensures listed { IfOk result (λ s. (Self.Shard.told s).listed ≡ None) }
        ensures count { IfOk result (λ s. Self.Shard.faults s ≡ 0) };

    /// What is told may be listed.
    ghost may_be_listed: { (s : Self) (place index : List ℕ) (number : ℕ) → IfSome ((told s).files place index number) (λ fs. IsListing (map listed_of fs)) };
}
