//! A blob that is being read.
ghost use Rattle.std.specs.Prelude.{◌≡◌, ℕ, Bool, IsTrue, List, Option, IsErr, is_err};
ghost use Rattle.std.specs.Io.{ReadsAtMost};
ghost use Rattle.std.specs.Io.KnownBytes.{ReadConsumes};
ghost use Rattle.esr_depot.specs.Calls.{HasCause};

use crate::counted::Counted;
use crate::error::Failed;

/// A blob that is being read.
pub trait Fetch: Counted + Drop {
    /// The bytes that are left to be read, where the fetch tells them.
    ghost left: { Self → Option (List ℕ) };

    /// It tells that no read fails.
    ghost is_sure: { Self → Bool };

    /// Reads into the front of the buffer and answers how many bytes it read: 0 exactly at the end or for an empty buffer.
    fn read(&mut self, buf: &mut [u8]) -> Result<usize, Failed>
        ensures bound { ReadsAtMost result buf.new }
        ensures bytes { ReadConsumes (left self.old) (left self.new) result buf.new }
        ensures cause { HasCause (Self.faults self.old) (Self.faults self.new) (is_err result) }
        ensures sure { is_sure self.new ≡ is_sure self.old }
        ensures sure_ok { IsTrue (is_sure self.old) → IsErr result → ⊥ };
}
