//! What the only desk of a repository tells besides its steps.
ghost use Rattle.std.specs.Prelude.{◌≡◌, ◌+◌, ◌^◌, length, true, false, IfOk};
ghost use Rattle.esr_core.specs.Ready.{AnyReady};
ghost use Rattle.esr_desk.specs.Calls.{calls_at};
ghost use Rattle.esr_desk.specs.Numbered.{Numbered};
ghost use Rattle.esr_desk.specs.Start.{Legal, world_of};

use crate::Desk;
use std::alloc::{AllocError, Global};

/// A desk that has seen the whole history, and made each entry of who 0 itself. It began with 2^40 turns, of which each entry
/// took one.
pub trait Sole: Desk {
    /// The history is legal, and each ticket is numbered from 1 on.
    fn is_legal(&self)
        ensures legal { Legal Self.start (Self.seen self.now) }
        ensures numbered { Numbered 1 Self.start.world };

    /// How many turns are left, of 2^40.
    fn left(&self) -> u64
        ensures { length (Self.seen self.now) + result ≡ 2 ^ 40 };

    /// Whether a unit is ready. It answers so after a record swap that failed, too: a take is refused then.
    fn is_ready(&self, alloc: Global) -> Result<bool, AllocError>
        ensures ready { IfOk result (λ any. any ≡ true → (world_of Self.start (Self.seen self.now)).deposed ≡ false
            → AnyReady (world_of Self.start (Self.seen self.now))) }
        ensures none { IfOk result (λ any. any ≡ false → AnyReady (world_of Self.start (Self.seen self.now)) → ⊥) };

    /// Each entry of who 0 is the desk's own.
    ghost all_calls: { (d : Self) → Self.calls d ≡ calls_at 0 (Self.seen d) };
}
