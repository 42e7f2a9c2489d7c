//! The entries of the history under the lock.
use std::marker::Model;

/// An entry with its image, where the container tells. No value of it is made.
pub struct Event {
    who: u64,
}

impl Model for Event {
    ghost use Rattle.std.specs.Prelude.{None};
    ghost use Rattle.std.specs.Coded.{codes};
    ghost use Rattle.esr_depot.specs.Image.{blobs_code};
    ghost use Rattle.esr_core.specs.Entry.{TakeStep, NothingReady, Moment};

    ghost Value = { Moment };

    ghost coded = { Prim.hlevel (codes, blobs_code) };

    ghost view = { λ e. record { entry = record { who = e.who; step = TakeStep; reply = NothingReady }; image = None } };
}
