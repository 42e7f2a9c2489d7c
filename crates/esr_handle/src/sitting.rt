//! The desk under the lock.
ghost use Rattle.std.specs.Prelude.{◌≡◌, true, length, drop};
ghost use Rattle.esr_turns.specs.Histories.{StartsWith};
ghost use Rattle.esr_desk.specs.Start.{Legal};
ghost use Rattle.esr_desk.specs.Numbered.{Numbered};
ghost use Rattle.esr_handle.specs.Owned.{ticket_of_moment, ticket_given};

use crate::{Event, Since};
use esr_desk::Sole;
use esr_turns::Logged;
use std::marker::{Model, PhantomData};

// The turns of a desk.
const TURNS: u64 = 1 << 40;

/// A desk that is alone, as a lock guards it. Contracts see its whole history; the lock counts the entries since it was put in.
pub struct Sitting<Q: Sole, B: Since> {
    pub(crate) desk: Q,
    pub(crate) base: u64,
    pub(crate) of: PhantomData<B>,
}

impl<Q: Sole, B: Since> Model for Sitting<Q, B> {
    ghost use Rattle.std.specs.Prelude.{List};
    ghost use Rattle.esr_core.specs.Entry.{Moment};
    ghost use Rattle.std.specs.Coded.{codes};
    ghost use Rattle.esr_depot.specs.Image.{blobs_code};

    ghost Value = { List Moment };

    ghost coded = { Prim.hlevel (codes, blobs_code) };

    ghost use Rattle.std.specs.Prelude.{◌≡◌, true, length};
    ghost use Rattle.esr_turns.specs.Histories.{StartsWith};

    ghost view = { λ s. Q.seen s.desk };

    ghost invariant = { λ s. (s.base ≡ length B.before) × StartsWith (Q.seen s.desk) B.before × (Q.start.alone ≡ true) };
}

impl<Q: Sole, B: Since> Logged for Sitting<Q, B> {
    type Event = Event;

    ghost history = { λ s. drop (length B.before) s };

    ghost of = { ticket_of_moment };

    ghost gave = { ticket_given };

    fn entries(&self) -> u64 {
        TURNS - self.desk.left() - self.base
    }
}

impl<Q: Sole, B: Since> Sitting<Q, B> {
    /// The desk as it is put into the lock.
    pub fn new(desk: Q) -> Sitting<Q, B>
        requires alone { Q.start.alone ≡ true }
        requires before { B.before ≡ Q.seen desk }
        ensures { result ≡ Q.seen desk }
    {
        let base = TURNS - desk.left();
        Sitting {
            desk,
            base,
            of: PhantomData,
        }
    }

    /// The desk, with what came since.
    pub fn into_desk(self) -> Q
        ensures { Q.seen result ≡ self }
    {
        let Sitting {
            desk,
            base: _,
            of: _,
        } = self;
        desk
    }
}

/// A desk under a lock keeps the law.
pub trait Lawful {
    fn is_legal(&self);
}

impl<Q: Sole, B: Since> Lawful for Sitting<Q, B> {
    /// The history is legal, with numbered tickets, and goes on from where the desk was put in.
    fn is_legal(&self)
        ensures legal { Legal Q.start self.now }
        ensures numbered { Numbered 1 Q.start.world }
        ensures begins { StartsWith self.now B.before }
        ensures alone { Q.start.alone ≡ true }
    {
        let _base = self.base;
        self.desk.is_legal();
    }
}
