//! The law of completeness.
ghost use Rattle.std.specs.Prelude.{ℕ, List};
ghost use Rattle.esr_core.specs.Entry.{Moment};
ghost use Rattle.esr_script.specs.declared.item.ScriptLine.{ScriptLine};
ghost use Rattle.esr_report.specs.Replies.{replies};
ghost use Rattle.esr_desk.specs.Start.{Start};
ghost use Rattle.esr_complete.specs.Lines.{entries_of};
ghost use Rattle.esr_complete.specs.Answers.{AreAnswered, EndsWell};
ghost use Rattle.esr_complete.specs.FaultFree.{IsFaultFreeRun};

/// Over quiet objects that tell, where what was asked is what the lines ask for, as many masters were elected as these ask for, and
/// the units were worked until none was ready, each snapshot and each clone was made, or aborted by a delete, each delete was
/// carried out, each restore gave back its shards and each cleanup came to its end, or a rule refused it, each failover began a
/// term, each wait and list was answered, and each check and verification ended well.
pub fn smooth_runs_are_answered()
    ensures answered { (s : Start) (log : List Moment) (lines : List ScriptLine) (moment : ℕ) → IsFaultFreeRun s log lines moment → AreAnswered lines (replies lines (entries_of log)) }
    ensures ends { (s : Start) (log : List Moment) (lines : List ScriptLine) (moment : ℕ) → IsFaultFreeRun s log lines moment → EndsWell lines (entries_of log) }
{
    esr_core::each_history_is_lawful();
    esr_core::some_unit_is_ready();
    esr_core::opening_is_lawful();
    esr_core::opened_restores_are_lawful();
    esr_core::each_history_keeps_restores();
    esr_core::opened_worlds_are_tracked();
    esr_core::opened_worlds_track_restores();
    esr_core::each_history_tracks_restores();
}
