//! The law of tickets that have ended.
ghost use Rattle.std.specs.Prelude.{◌≡◌, ◌⊎◌, ◌++◌, ℕ, List, true};
ghost use Rattle.esr_core.specs.Entry.{Moment};
ghost use Rattle.esr_desk.specs.Start.{Start, Legal, ticket_of};
ghost use Rattle.esr_desk.specs.Own.{reader_of};
ghost use Rattle.esr_drive.specs.Over.{IsOver};
ghost use Rattle.esr_drive.specs.Ended.{WasGiven};

use crate::law::laws;

/// As a history goes on, a ticket that has ended is out no more; one that is out was out before, or was given since, and so is
/// one of a restore.
pub fn ended_tickets_stay()
    ensures over { (s : Start) (old more : List Moment) (k : ℕ) → IsOver s old k → IsOver s (old ++ more) k }
    ensures tickets { (s : Start) (old more : List Moment) (k : ℕ) → Legal s (old ++ more) → (ticket_of s (old ++ more) k).out ≡ true → ((ticket_of s old k).out ≡ true) ⊎ WasGiven more k }
    ensures readers { (s : Start) (old more : List Moment) (k : ℕ) → Legal s (old ++ more) → (reader_of s (old ++ more) k).out ≡ true → ((reader_of s old k).out ≡ true) ⊎ WasGiven more k }
{
    laws();
}
