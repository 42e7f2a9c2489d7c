//! The law on which a check rests.
ghost use Rattle.esr_unit.specs.Refusals.{RefusesSo};

/// How steps may be refused.
pub(crate) fn laws()
    ensures { RefusesSo }
{
    esr_core::refusals_are_of_their_steps();
}
