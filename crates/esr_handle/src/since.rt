//! What was there when the desk was put into the lock, and what each worker got. Callers pick both.
ghost use Rattle.std.specs.Prelude.{ℕ, List, []};
ghost use Rattle.esr_turns.specs.Passes.{LockId};
ghost use Rattle.esr_core.specs.Entry.{Moment};
ghost use Rattle.esr_handle.specs.Turned.{no_lock};

use std::marker::Brand;

/// The history up to where the desk was put into the lock.
pub trait Since {
    ghost before: { List Moment };
}

impl Since for Brand {
    ghost before = { [] };
}

/// The lock at which a worker steps, and how many turns it has in all.
pub trait Share {
    ghost lock: { LockId };

    ghost total: { ℕ };
}

impl Share for Brand {
    ghost lock = { no_lock };

    ghost total = { 0 };
}
