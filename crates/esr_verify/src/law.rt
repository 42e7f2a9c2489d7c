//! The laws on which a verification rests.
ghost use Rattle.esr_unit.specs.Refusals.{RefusesSo};
ghost use Rattle.esr_verify.specs.Law.{DeposesSo};

/// How steps may be refused, and that a world is deposed only after a record swap that failed.
pub(crate) fn laws()
    ensures refuses { RefusesSo }
    ensures deposes { DeposesSo }
{
    esr_core::refusals_are_of_their_steps();
    esr_core::only_failed_swaps_depose();
}
