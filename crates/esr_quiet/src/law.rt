//! Laws of histories over quiet objects.
ghost use Rattle.std.specs.Prelude.{◌≡◌, ◌≢◌, ◌⊎◌, ◌∷◌, ◌++◌, [], ℕ, List, true, Some};
ghost use Rattle.esr_model.specs.Values.{Formats};
ghost use Rattle.esr_core.specs.World.{World};
ghost use Rattle.esr_core.specs.Entry.{Read, TakeStep, ElectStep, ReadStep, Given, Gave, NothingReady, Moment};
ghost use Rattle.esr_core.specs.After.{after};
ghost use Rattle.esr_core.specs.Allowed.{Allowed};
ghost use Rattle.esr_core.specs.Ready.{AnyReady};
ghost use Rattle.esr_desk.specs.declared.fault.Fault.{Fault};
ghost use Rattle.esr_desk.specs.declared.hand.Hand.TheVariants as hands;
ghost use Rattle.esr_desk.specs.Start.{Start, Legal, world_of, ticket_of};
ghost use Rattle.esr_desk.specs.Last.{IsLast};
ghost use Rattle.esr_desk.specs.Evidence.{Evidence};
ghost use Rattle.esr_desk.specs.Grew.{AllOf};
ghost use Rattle.esr_quiet.specs.Caused.{AreCaused, AreVerifyCaused};
ghost use Rattle.esr_quiet.specs.Smooth.{IsSmooth, NoneFailed, NoneUndeleted, NoneUnrestored, NoneUnverified, NoneAsked, EachFetchFinds};
ghost use Rattle.esr_quiet.specs.Refusals.{AreByRule};
ghost use Rattle.esr_quiet.specs.Prefixes.{Prefixes};

/// Over quiet objects that tell no unit fails: what could show a failure doesn't come.
pub fn no_unit_fails<S, F, H, T>()
    ensures { (e : Evidence S F H T) (s : Start) (log : List Moment) (faults : List (Fault S F H T)) → IsSmooth s log → AreCaused hands.Unit e s log faults → NoneFailed log }
{
    each_world_is_free();
    none_fail_where_free::<S, F, H, T>();
}

/// No shard of a restore fails either, where targets are sure: what its ticket may read is there, and reads.
pub fn no_restore_fails<S, F, H, T>()
    ensures { (e : Evidence S F H T) (s : Start) (log : List Moment) (faults : List (Fault S F H T)) → IsSmooth s log → s.sure_targets ≡ true → AreCaused hands.Restore e s log faults → NoneUnrestored log }
{
    each_world_is_free();
    esr_core::opened_restores_are_lawful();
    esr_core::each_history_keeps_restores();
    esr_core::each_reader_is_served();
}

/// Nor where none was asked, whatever the targets.
pub fn no_unasked_restore_fails()
    ensures { (s : Start) (log : List Moment) → IsSmooth s log → NoneAsked log → NoneUnrestored log }
{
    each_world_is_free();
}

/// No delete or cleanup fails, unless its ticket is stale: each index that it reads is there, and reads.
pub fn no_delete_fails<S, F, H, T>()
    ensures { (e : Evidence S F H T) (s : Start) (log : List Moment) (faults : List (Fault S F H T)) → IsSmooth s log → AreCaused hands.Delete e s log faults → NoneUndeleted s log }
{
    each_world_is_free();
}

/// No verification fails: what it wrote is the text of its id, and stays as it is until it is removed.
pub fn no_verification_fails<S, F, H, T>()
    ensures { (e : Evidence S F H T) (s : Start) (log : List Moment) (faults : List (Fault S F H T)) → IsSmooth s log → AreVerifyCaused e s log faults → NoneUnverified log }
{
    each_world_is_free();
}

/// Nor does a check: the safe root stands, so each blob that it reaches is there and reads, and no two disagree.
pub fn no_check_fails<S, F, H, T>()
    ensures { (e : Evidence S F H T) (s : Start) (log : List Moment) (faults : List (Fault S F H T)) → IsSmooth s log → AreCaused hands.Check e s log faults → NoneUnverified log }
{
    each_world_is_free();
    esr_core::opened_restores_are_lawful();
    esr_core::each_history_keeps_restores();
    esr_core::each_reader_is_served();
}

/// And no step is refused but that of a command, by a rule, or the swap of a stale ticket: so no name is ever taken.
pub fn only_rules_refuse()
    ensures { (s : Start) (log : List Moment) → IsSmooth s log → AreByRule s log }
{
    each_world_is_free();
    rules_refuse_where_free();
}

/// Each blob that a restore, a check or a verification fetches is there.
pub fn each_fetch_finds_its_blob()
    ensures { (s : Start) (log : List Moment) → IsSmooth s log → EachFetchFinds log }
{
    each_world_is_free();
    esr_core::opened_restores_are_lawful();
    esr_core::each_history_keeps_restores();
    esr_core::each_reader_is_served();
}

/// Steps of a ticket leave all other tickets; so does the giving of a unit, but for the ticket that it gives; and what else is asked leaves all.
pub fn other_tickets_stay()
    ensures steps { (s : Start) (log more : List Moment) (who k : ℕ) → Legal s (log ++ more) → AllOf who more → who ≢ 0 → k ≢ who → ticket_of s (log ++ more) k ≡ ticket_of s log k }
    ensures gives { (s : Start) (log : List Moment) (m : Moment) (ticket op : ℕ) (unit : Given) (k : ℕ) → Legal s (log ++ m ∷ []) → m.entry.step ≡ TakeStep → m.entry.reply ≡ Gave ticket op unit → k ≢ ticket
        → ticket_of s (log ++ m ∷ []) k ≡ ticket_of s log k }
    ensures nothing { (s : Start) (log : List Moment) (m : Moment) (k : ℕ) → Legal s (log ++ m ∷ []) → m.entry.who ≡ 0 → ((ticket op : ℕ) (unit : Given) → m.entry.reply ≢ Gave ticket op unit) → k ≢ 0
        → ticket_of s (log ++ m ∷ []) k ≡ ticket_of s log k }
    ensures checks { (s : Start) (log : List Moment) (m : Moment) (read : Read) (k : ℕ) → Legal s (log ++ m ∷ []) → m.entry.who ≡ 0 → m.entry.step ≡ ReadStep read → k ≢ 0 → ticket_of s (log ++ m ∷ []) k ≡ ticket_of s log k }
{}

/// Steps of tickets, takes of units, and elections leave what who 0 has done of a check or a verification.
pub fn work_leaves_the_caller()
    ensures { (f : Formats) (part_size : ℕ) (w : World) (m : Moment) → Allowed f part_size w m → (m.entry.who ≢ 0) ⊎ ((m.entry.step ≡ TakeStep) ⊎ (m.entry.step ≡ ElectStep)) → (after f w m).caller ≡ w.caller }
{}

/// After a take that gave nothing no unit is ready.
pub fn nothing_is_ready_after_an_empty_take()
    ensures { (s : Start) (log : List Moment) → Legal s log → IsLast log 0 TakeStep NothingReady → AnyReady (world_of s log) → ⊥ }
{}

/// Where each world of the history is lawful and free, no unit fails.
pub(crate) fn none_fail_where_free<S, F, H, T>()
    ensures { (e : Evidence S F H T) (s : Start) (log : List Moment) (faults : List (Fault S F H T)) → IsSmooth s log → Prefixes s log → AreCaused hands.Unit e s log faults → NoneFailed log }
{}

/// And only rules refuse.
pub(crate) fn rules_refuse_where_free()
    ensures { (s : Start) (log : List Moment) → IsSmooth s log → Prefixes s log → AreByRule s log }
{}

/// Each world of a history over quiet objects is lawful, and what is still to be written in it is free.
pub(crate) fn each_world_is_free()
    ensures { (s : Start) (log : List Moment) → IsSmooth s log → Prefixes s log }
{
    esr_core::opening_is_lawful();
    esr_core::each_history_is_lawful();
    esr_core::each_history_is_tracked();
    esr_core::each_history_is_ranked();
    esr_core::each_step_is_one_change();
}
