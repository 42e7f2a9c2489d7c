//! What the listed targets are.
ghost use Rattle.std.specs.Prelude.{◌≡◌, ◌++◌, ℕ, List};
ghost use Rattle.esr_core.specs.Entry.{Step, Moment};
ghost use Rattle.esr_core.specs.Tracked.{Tracked};
ghost use Rattle.esr_core.specs.ReadTracked.{ReadTracked};
ghost use Rattle.esr_model.specs.Places.{sorted_by};
ghost use Rattle.esr_script.specs.declared.item.ScriptLine.{ScriptLine};
ghost use Rattle.esr_desk.specs.Start.{Start, Legal};
ghost use Rattle.esr_quiet.specs.Asked.{asked_steps};
ghost use Rattle.esr_complete.specs.Lines.{steps_of, entries_of};
ghost use Rattle.esr_desk.specs.Evidence.{Evidence};
ghost use Rattle.esr_desk.specs.Restore.Targets.{AreTargetsOf};
ghost use Rattle.esr_desk.specs.declared.target.RestoredTarget.{RestoredTarget};
ghost use Rattle.esr_targets.specs.Lines.{AreNumbered, ops_of_lines};
ghost use Rattle.esr_targets.specs.Listed.{target_first, listed};
ghost use Rattle.esr_targets.specs.Targets.{AreTargetsOfLines};

/// Each listed target is that of a shard which a line restored, with the files that the shelf had of it when the line was
/// asked; each restored shard has one, and none has two.
pub fn each_target_is_of_its_line<S, F, H, T>()
    ensures { (e : Evidence S F H T) (s : Start) (moment : ℕ) (lines : List ScriptLine) (log : List Moment) (rest : List Step) (restored : List (RestoredTarget T)) → Tracked s.world → ReadTracked s.world → Legal s log
        → AreNumbered lines → asked_steps log ++ rest ≡ steps_of moment lines → AreTargetsOf e s log restored
        → AreTargetsOfLines e s moment lines log (sorted_by target_first (listed (ops_of_lines lines (entries_of log)) restored)) }
{
    esr_readers::readers_stay_as_given();
    esr_readers::readers_are_of_their_ask();
    esr_readers::no_shard_is_restored_twice();
    esr_core::answers_tell_their_steps();
    esr_core::restores_give_the_shelf_of_their_ask();
    esr_core::asked_snapshots_are_on_the_shelf();
    esr_core::opening_is_lawful();
    esr_core::opened_restores_are_lawful();
    esr_core::each_history_is_lawful();
    esr_core::each_history_is_tracked();
    esr_core::each_history_tracks_restores();
}
