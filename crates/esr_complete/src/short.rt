//! The laws of the length of histories over quiet objects.
ghost use Rattle.std.specs.Prelude.{◌≡◌, ℕ, suc, ◌+◌, ◌*◌, ◌^◌, ◌≤◌, List, [], ◌∷◌, ◌++◌, length};
ghost use Rattle.esr_core.specs.Entry.{Moment};
ghost use Rattle.esr_core.specs.History.{AreTold};
ghost use Rattle.esr_law.specs.Reach.{RefusesUnlisted};
ghost use Rattle.esr_law.specs.Spent.{ids_in};
ghost use Rattle.esr_bounds.specs.Clients.{commands_in, draws_in, looks_in};
ghost use Rattle.esr_bounds.specs.Units.{shards_in};
ghost use Rattle.esr_bounds.specs.Work.{work_of, asks_in, restores_in};
ghost use Rattle.esr_bounds.specs.Clones.{bare_steps, indices_by, sum_of, most_asked_shards, most_asked_work};
ghost use Rattle.esr_bounds.specs.Others.{lost_in, most_shards, most_of_all};
ghost use Rattle.esr_desk.specs.Start.{Start, Legal, formats_of};
ghost use Rattle.esr_quiet.specs.Asked.{asked_steps};
ghost use Rattle.esr_quiet.specs.Smooth.{IsSmooth, IsSpent};

/// Over quiet objects that tell no fetch of a restore, a check or a verification is lost.
pub fn smooth_runs_lose_nothing()
    ensures { (s : Start) (log : List Moment) → IsSmooth s log → lost_in log ≡ 0 }
{
    esr_quiet::each_fetch_finds_its_blob();
}

/// And a history is no longer than what it asks for, where what reads as a root lists each snapshot that an index of it has.
pub fn smooth_runs_are_short()
    ensures { (s : Start) (log : List Moment) → IsSmooth s log → RefusesUnlisted (formats_of s) → length log ≤ most_of_all (formats_of s) s.part_size s.world log }
{
    esr_core::opening_is_lawful();
    esr_core::opened_worlds_are_tracked();
    esr_core::opened_worlds_track_restores();
    esr_quiet::only_rules_refuse();
    esr_bounds::no_history_is_longer_than_asked();
}

/// Its accepted restores have no more shards than there are, each: those of the opened root, and those that it asks for.
pub fn smooth_runs_restore_few()
    ensures { (s : Start) (log : List Moment) → IsSmooth s log → restores_in log ≤ asks_in log * most_shards s.world log }
{
    esr_core::opening_is_lawful();
    esr_core::opened_worlds_are_tracked();
    esr_core::opened_worlds_track_restores();
    esr_quiet::only_rules_refuse();
    esr_bounds::no_restore_has_more_shards_than_there_are();
}

/// Its clones have no more shards and indices than there are: so its commands, as lines ask for them, bound the shards that it asks for, and the steps of
/// its units in so many terms.
pub fn smooth_runs_clone_few()
    ensures shards { (s : Start) (log : List Moment) → IsSmooth s log → shards_in log ≤ most_asked_shards (asks_in log) s.world (bare_steps log) }
    ensures work { (s : Start) (log : List Moment) (terms : ℕ) → IsSmooth s log
        → work_of (formats_of s) s.part_size terms log ≤ most_asked_work (formats_of s) s.part_size terms (asks_in log) s.world (bare_steps log) }
{
    esr_core::opening_is_lawful();
    esr_core::opened_worlds_are_tracked();
    esr_core::opened_worlds_track_restores();
    esr_quiet::only_rules_refuse();
    esr_bounds::no_clone_has_more_shards_than_there_are();
}

/// It asks for few ids, also with one more step, which is refused since a number is spent: each step for no more than 2^32 and one for each shard that there
/// is, and a snapshot besides for one for each of its indices.
pub fn smooth_runs_ask_for_few_ids()
    ensures { (s : Start) (log : List Moment) (last : Moment) → IsSmooth s log → Legal s (log ++ last ∷ []) → AreTold (log ++ last ∷ []) → IsSpent last.entry.reply
        → ids_in (log ++ last ∷ []) ≤ suc (length log) * (2 ^ 32 + most_shards s.world log) + sum_of indices_by (bare_steps (log ++ last ∷ [])) }
{
    esr_core::opening_is_lawful();
    esr_core::opened_worlds_are_tracked();
    esr_core::opened_worlds_track_restores();
    esr_quiet::only_rules_refuse();
    esr_bounds::no_history_asks_for_many_ids();
}

/// Who 0 makes no more commands, looks and draws of verifications than there are steps for which lines ask.
pub fn each_command_is_asked()
    ensures { (log : List Moment) → commands_in log + (looks_in log + draws_in log) ≤ length (asked_steps log) }
{}
