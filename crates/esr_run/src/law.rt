//! The laws on which a run rests.
ghost use Rattle.std.specs.Prelude.{◌≡◌, Some};
ghost use Rattle.esr_depot.specs.Image.{Image};
ghost use Rattle.esr_depot.specs.Look.{now};
ghost use Rattle.esr_run.specs.Laws.{Laws, StepsStay, WorkLeaves, Refusals, KeptLaws, QuietLaws};
ghost use Rattle.esr_run.specs.Tidy.{TidyLaws};

use esr_depot::Depot;

/// The laws of the core on tidy images, and on what deletes doom.
fn tidy_laws()
    ensures { TidyLaws }
{
    esr_core::opened_worlds_are_tidy();
    esr_core::each_left_image_is_tidy();
    esr_core::each_delete_dooms_exactly_what_it_leaves();
}

/// The laws of the core.
pub(crate) fn laws()
    ensures { Laws }
{
    esr_core::opened_worlds_track_restores();
    esr_core::opening_is_lawful();
    esr_core::lawful_image_is_kept();
    esr_core::shelf_is_determined();
    esr_core::each_left_image_is_kept();
    esr_law::kept_images_are_whole_by_digests();
    esr_core::snapshots_are_of_their_sources();
    esr_core::counted_snapshots_are_of_their_sources();
    esr_law::no_snapshot_asks_nothing_of_sources();
    esr_core::answered_settles_stay();
    tidy_laws();
    esr_law::a_cleanup_leaves_exactly_the_reach();
}

/// What steps leave of tickets.
pub(crate) fn steps_stay()
    ensures { StepsStay }
{
    esr_quiet::other_tickets_stay();
    esr_quiet::tickets_are_numbered();
    esr_core::each_history_is_tracked();
    esr_readers::lines_leave_readers();
}

/// What the work of units leaves of verifications.
pub(crate) fn work_leaves()
    ensures { WorkLeaves }
{
    esr_quiet::work_leaves_the_caller();
}

/// Why steps may be refused, and that only a record swap that failed deposes.
pub(crate) fn refusals()
    ensures { Refusals }
{
    esr_core::refusals_are_of_their_steps();
    esr_core::only_failed_swaps_depose();
}

/// The laws of histories over a kept container that tells, for the objects of a run.
pub(crate) fn kept_laws<S, F, H, T>()
    ensures { KeptLaws S F H T }
{
    esr_quiet::no_unit_finds_damage::<S, F, H, T>();
    esr_quiet::no_restore_finds_damage::<S, F, H, T>();
    esr_quiet::no_delete_finds_damage::<S, F, H, T>();
    esr_quiet::no_check_finds_damage::<S, F, H, T>();
    esr_quiet::no_name_is_taken();
}

/// The laws of histories in which nothing fails, for the objects of a run.
pub(crate) fn quiet_laws<S, F, H, T>()
    ensures { QuietLaws S F H T }
{
    esr_quiet::no_unit_fails::<S, F, H, T>();
    esr_quiet::no_delete_fails::<S, F, H, T>();
    esr_quiet::no_restore_fails::<S, F, H, T>();
    esr_quiet::no_unasked_restore_fails();
    esr_quiet::no_check_fails::<S, F, H, T>();
    esr_quiet::only_rules_refuse();
    esr_complete::each_command_is_asked();
    esr_complete::smooth_runs_lose_nothing();
    esr_complete::smooth_runs_restore_few();
    esr_complete::smooth_runs_clone_few();
    esr_complete::smooth_runs_are_short();
    esr_complete::smooth_runs_ask_for_few_ids();
    esr_complete::smooth_runs_are_answered();
    esr_law::only_spent_numbers_refuse();
    esr_core::answers_tell_their_steps();
    work_leaves();
}

/// Since now a crash leaves no image but that of now.
pub(crate) fn only_now<D: Depot>(depot: &D)
    ensures { (i : Image) → (D.look depot.now).since (D.look depot.now).clock i → now (D.look depot.now) ≡ Some i }
{
    let _ = depot;
}
