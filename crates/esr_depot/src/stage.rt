//! A blob that is being written.
ghost use Rattle.std.specs.Prelude.{◌≡◌, ◌-◌, ◌≤◌, ℕ, Bool, IsTrue, List, Option, length, OnOk, OnErr, IsErr, is_err};
ghost use Rattle.std.specs.Io.KnownBytes.{append_known};
ghost use Rattle.esr_depot.specs.Calls.{HasCause};

use crate::counted::Counted;
use crate::error::Failed;

/// A blob that is being written, and isn't in the container yet.
pub trait Stage: Counted + Drop {
    /// The name under which it is to be committed.
    ghost name: { Self → List ℕ };

    /// What was written so far, where the stage tells it.
    ghost contents: { Self → Option (List ℕ) };

    /// How many bytes may still be written.
    ghost room: { Self → ℕ };

    /// It tells that no write fails.
    ghost is_sure: { Self → Bool };

    /// Appends all of the piece, or fails and leaves what was written. It takes no memory.
    fn write(&mut self, piece: &[u8]) -> Result<(), Failed>
        requires { length piece.now ≤ room self.old }
        ensures written { OnOk result (contents self.new ≡ append_known (contents self.old) piece.now) }
        ensures room { OnOk result (room self.new ≡ room self.old - length piece.now) }
        ensures name { name self.new ≡ name self.old }
        ensures err { OnErr result (contents self.new ≡ contents self.old) }
        ensures err_room { OnErr result (room self.new ≡ room self.old) }
        ensures cause { HasCause (Self.faults self.old) (Self.faults self.new) (is_err result) }
        ensures sure { is_sure self.new ≡ is_sure self.old }
        ensures sure_ok { IsTrue (is_sure self.old) → IsErr result → ⊥ };
}
