//! The laws of the numbers of tickets.
ghost use Rattle.std.specs.Prelude.{◌≡◌, ◌≤◌, ◌∷◌, ◌++◌, [], ℕ, List};
ghost use Rattle.esr_core.specs.Entry.{Given, Gave, Moment};
ghost use Rattle.esr_desk.specs.Start.{Start, Legal, no_ticket, ticket_of};
ghost use Rattle.esr_quiet.specs.Numbers.{HasNoTickets};

/// Tickets are numbered from one on.
pub fn tickets_are_numbered()
    ensures none { (s : Start) (log : List Moment) → HasNoTickets s → ticket_of s log 0 ≡ no_ticket }
    ensures given { (s : Start) (log : List Moment) (m : Moment) (ticket op : ℕ) (unit : Given) → HasNoTickets s → Legal s (log ++ m ∷ []) → m.entry.reply ≡ Gave ticket op unit → 1 ≤ ticket }
{}
