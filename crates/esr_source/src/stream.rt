//! What a run reads its script from, and what it writes to.
ghost use Rattle.std.specs.Prelude.{◌≡◌, ◌<◌, ℕ, Bool, List, Option, length, IfOk, is_err};
ghost use Rattle.std.specs.Io.{ReadsAtMost, WritesAtMost};
ghost use Rattle.std.specs.Io.KnownBytes.{ReadConsumes, WriteAppends};
ghost use Rattle.esr_depot.specs.Calls.{HasCause};
ghost use Rattle.esr_source.specs.Sure.{ServesAll, TakesSurely};

use esr_depot::{Counted, Failed};

/// The bytes of a script.
pub trait Lines: Counted + Drop {
    /// The bytes that are left, where they are told.
    ghost left: { Self → Option (List ℕ) };

    /// It tells that no read fails.
    ghost is_sure: { Self → Bool };

    /// Moves some of the bytes into the front of the buffer and answers how many, 0 exactly at the end or for an empty
    /// buffer.
    fn read(&mut self, buf: &mut [u8]) -> Result<usize, Failed>
        ensures bound { ReadsAtMost result buf.new }
        ensures bytes { ReadConsumes (left self.old) (left self.new) result buf.new }
        ensures cause { HasCause (Self.faults self.old) (Self.faults self.new) (is_err result) }
        ensures is_sure { is_sure self.new ≡ is_sure self.old }
        ensures sure { ServesAll (is_sure self.old) (Self.faults self.old) (Self.faults self.new) (is_err result) };
}

/// What a run writes to.
pub trait Out: Counted + Drop {
    /// The bytes that it has taken, where they are told.
    ghost contents: { Self → Option (List ℕ) };

    /// How many more bytes it is sure to take.
    ghost sure: { Self → ℕ };

    /// Takes at least one of the bytes, if there is one, and answers how many it took of their front; or fails and takes
    /// none.
    fn write(&mut self, bytes: &[u8]) -> Result<usize, Failed>
        ensures bound { WritesAtMost result bytes.now }
        ensures some { IfOk result (λ taken. 0 < length bytes.now → 0 < taken) }
        ensures taken { WriteAppends (contents self.old) (contents self.new) result bytes.now }
        ensures cause { HasCause (Self.faults self.old) (Self.faults self.new) (is_err result) }
        ensures sure { TakesSurely (sure self.old) (sure self.new) result };
}
