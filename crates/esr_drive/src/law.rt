//! The laws on which the work rests.
ghost use Rattle.esr_drive.specs.Laws.{Laws};

/// What steps change, what they leave of tickets, how they may be refused, which units were given, and that each world has its
/// tickets in order.
pub(crate) fn laws()
    ensures { Laws }
{
    esr_core::refusals_are_of_their_steps();
    esr_core::each_step_is_one_change();
    esr_core::each_step_leaves_the_others();
    esr_core::answers_tell_their_steps();
    esr_core::each_history_is_tracked();
    esr_core::each_history_tracks_restores();
}
