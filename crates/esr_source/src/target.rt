//! Where the files of shards go to.
ghost use Rattle.std.specs.Prelude.{◌≡◌, ◌≤◌, true, Some, None, map, length, Contains, IfOk, IfSome, IsSome, IsSomeAnd, OnOk, OnErr, is_err, option_map};
ghost use Rattle.esr_depot.specs.Calls.{HasCause, is_wanting, has_failed};
ghost use Rattle.esr_source.specs.Address.{address};
ghost use Rattle.esr_source.specs.Begun.{begun_file, more, with_ended, new_files};
ghost use Rattle.esr_source.specs.Sure.{ServesAll};
ghost use Rattle.esr_source.specs.Told.{TargetTold, TargetsTold};

use crate::source::New;
use esr_depot::{CallError, Counted, Failed};
use std::alloc::Global;

/// The files of one shard, as they are being written.
pub trait Target: Counted + Drop + Send {
    /// What it shows to proofs. The address stays as it is.
    ghost told: { Self → TargetTold };

    /// Begins a file of at most that many bytes.
    fn create(&mut self, alloc: Global, name: &str, room: u64) -> Result<(), CallError>
        requires none_begun { (told self.old).begun ≡ None }
        requires free { IfSome (told self.old).files (λ fs. Contains (map (λ f. f.0) fs) name.now → ⊥) }
        ensures ok { OnOk result (told self.new ≡ record (told self.old) { begun = Some (begun_file name.now (told self.old).files room) }) }
        ensures err { OnErr result (told self.new ≡ told self.old) }
        ensures memory { is_wanting result ≡ true → Self.faults self.new ≡ Self.faults self.old }
        ensures cause { HasCause (Self.faults self.old) (Self.faults self.new) (has_failed result) }
        ensures steady { OnOk result (Self.faults self.new ≡ Self.faults self.old) }
        ensures sure { ServesAll (told self.old).is_sure (Self.faults self.old) (Self.faults self.new) (has_failed result) };

    /// Appends all of the bytes to that file, or fails and leaves it. It takes no memory.
    fn write(&mut self, bytes: &[u8]) -> Result<(), Failed>
        requires room { IsSomeAnd (told self.old).begun (λ b. length bytes.now ≤ b.room) }
        ensures ok { OnOk result (told self.new ≡ record (told self.old) { begun = option_map (more bytes.now) (told self.old).begun }) }
        ensures err { OnErr result (told self.new ≡ told self.old) }
        ensures cause { HasCause (Self.faults self.old) (Self.faults self.new) (is_err result) }
        ensures steady { OnOk result (Self.faults self.new ≡ Self.faults self.old) }
        ensures sure { ServesAll (told self.old).is_sure (Self.faults self.old) (Self.faults self.new) (is_err result) };

    /// Adds that file to those that were ended, or fails and leaves all as it was. It takes no memory.
    fn end(&mut self) -> Result<(), Failed>
        requires { IsSome (told self.old).begun }
        ensures ok { OnOk result (told self.new ≡ record (told self.old) { begun = None; files = with_ended (told self.old).files (told self.old).begun }) }
        ensures err { OnErr result (told self.new ≡ told self.old) }
        ensures cause { HasCause (Self.faults self.old) (Self.faults self.new) (is_err result) }
        ensures steady { OnOk result (Self.faults self.new ≡ Self.faults self.old) }
        ensures sure { ServesAll (told self.old).is_sure (Self.faults self.old) (Self.faults self.new) (is_err result) };
}

/// Where the files of shards go to.
pub trait Targets: Sync + Drop {
    type Target: Target;

    /// What they show to proofs.
    ghost told: { Self → TargetsTold };

    /// A target in which no file was ended and none is begun.
    fn target(&self, alloc: Global, place: &str, index: &str, number: u32) -> New<Self::Target>
        ensures made_for { IfOk result (λ t. (Self.Target.told t).made_for ≡ address place.now index.now number) }
        ensures files { IfOk result (λ t. (Self.Target.told t).files ≡ new_files (told self.now).tells) }
        ensures begun { IfOk result (λ t. (Self.Target.told t).begun ≡ None) }
        ensures sure { IfOk result (λ t. (told self.now).is_quiet ≡ true → (Self.Target.told t).is_sure ≡ true) }
        ensures count { IfOk result (λ t. Self.Target.faults t ≡ 0) };
}
