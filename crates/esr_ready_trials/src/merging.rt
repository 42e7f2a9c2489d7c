//! Worked cases of deletes that are asked for: one is a new op, goes into a delete that waits, or joins one that runs.
ghost use Rattle.std.specs.Prelude.{◌≡◌, [], ◌∷◌};
ghost use Rattle.esr_core.specs.Deletes.{delete_number, asked_delete};
ghost use Rattle.esr_ready_trials.specs.Scene.{s1, s2, s3, begun, deleting, aborted, running, queued};

/// Where no delete is open, a delete is a new op.
pub fn the_first_delete_is_a_new_op()
    ensures number { delete_number begun (s1 ∷ []) ≡ 2 }
    ensures world { asked_delete begun (s1 ∷ []) ≡ deleting (1 ∷ []) }
{}

/// The next goes into it while that waits, and is answered by its number.
pub fn a_delete_goes_into_one_that_waits()
    ensures number { delete_number (deleting (1 ∷ [])) (s2 ∷ []) ≡ 2 }
    ensures world { asked_delete (deleting (1 ∷ [])) (s2 ∷ []) ≡ deleting (1 ∷ 2 ∷ []) }
{}

/// A snapshot that is being made is aborted by the delete that names it.
pub fn a_delete_aborts_what_is_being_made()
    ensures number { delete_number (deleting (1 ∷ 2 ∷ [])) (s3 ∷ []) ≡ 2 }
    ensures world { asked_delete (deleting (1 ∷ 2 ∷ [])) (s3 ∷ []) ≡ aborted }
{}

/// A delete of all that a running one names and the root lists joins it: nothing changes.
pub fn a_delete_joins_one_that_runs()
    ensures number { delete_number running (s1 ∷ s2 ∷ []) ≡ 2 }
    ensures world { asked_delete running (s1 ∷ s2 ∷ []) ≡ running }
{}

/// A delete of less is a new op behind it.
pub fn a_delete_of_less_is_a_new_op()
    ensures number { delete_number running (s1 ∷ []) ≡ 3 }
    ensures world { asked_delete running (s1 ∷ []) ≡ queued }
{}
