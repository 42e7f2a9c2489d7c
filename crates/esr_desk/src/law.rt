//! Laws of histories.
ghost use Rattle.std.specs.Prelude.{◌≡◌, ◌<◌, ℕ, List, [], ◌∷◌, ◌++◌};
ghost use Rattle.esr_model.specs.Values.{Has};
ghost use Rattle.esr_core.specs.Entry.{Given, Gave, Moment};
ghost use Rattle.esr_desk.specs.Start.{Start, Legal, world_of};
ghost use Rattle.esr_desk.specs.Once.{HasMadeNone, NoneTwice};
ghost use Rattle.esr_desk.specs.Numbered.{Numbered};

/// No step was made by the ticket that a unit is given: its number is new.
pub fn each_ticket_is_new()
    ensures { (s : Start) (log : List Moment) (m : Moment) (ticket op : ℕ) (unit : Given) → Numbered 1 s.world → Legal s (log ++ m ∷ [])
        → m.entry.reply ≡ Gave ticket op unit → HasMadeNone (log ++ m ∷ []) ticket }
{
    esr_core::each_step_is_one_change();
    esr_core::each_step_has_its_maker();
    esr_core::answers_tell_their_steps();
}

/// Each ticket that was given is below the next one, which the next unit is given.
pub fn each_ticket_is_given_once()
    ensures below { (s : Start) (log : List Moment) (m : Moment) (ticket op : ℕ) (unit : Given) → Numbered 1 s.world → Legal s log → Has log m
        → m.entry.reply ≡ Gave ticket op unit → ticket < (world_of s log).next_ticket }
    ensures next { (s : Start) (log : List Moment) (m : Moment) (ticket op : ℕ) (unit : Given) → Legal s (log ++ m ∷ [])
        → m.entry.reply ≡ Gave ticket op unit → ticket ≡ (world_of s log).next_ticket }
{
    esr_core::each_step_is_one_change();
    esr_core::answers_tell_their_steps();
}

/// In a legal history no ticket makes a step twice on one name.
pub fn no_step_is_made_twice()
    ensures { (s : Start) (log : List Moment) → Legal s log → NoneTwice log }
{}
