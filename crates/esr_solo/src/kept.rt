//! The objects that a desk keeps: those that failed, and the targets of restores.
ghost use Rattle.std.specs.Prelude.{◌≡◌, ◌++◌, ◌<◌, IfErr, vec_len, vec_capacity};
ghost use Rattle.esr_desk.specs.Restore.Targets.{refused_of};
ghost use Rattle.esr_solo.specs.Kept.{kept_by, targets_by};

use esr_desk::{By, Fault, RestoredTarget, StepRefusal, Unended};

/// Keeps the object that shows a failure with the place of the entry that tells the failure, where there is that object and
/// that entry.
pub(crate) fn keep<S: Drop, F: Drop, H: Drop, T: Drop>(
    faults: &mut Vec<Fault<S, F, H, T>>,
    place: u64,
    by: By<S, F, H, T>,
    answer: &Result<(), StepRefusal>,
)
    requires { vec_len faults.old < vec_capacity faults.old }
    ensures { faults.new.items ≡ faults.old.items ++ kept_by place by answer.now }
{
    if let (Ok(()), By::Object { object }) = (answer, by) {
        faults.push_reserved(Fault {
            entry: Some(place),
            object,
        });
    }
}

/// Lists the target of a shard that was restored, or gives it back where the step was refused.
pub(crate) fn list<T: Drop>(
    targets: &mut Vec<RestoredTarget<T>>,
    target: RestoredTarget<T>,
    answer: Result<(), StepRefusal>,
) -> Result<(), Unended<T>>
    requires { vec_len targets.old < vec_capacity targets.old }
    ensures items { targets.new.items ≡ targets.old.items ++ targets_by target answer }
    ensures answer { refused_of result ≡ answer }
    ensures target { IfErr result (λ u. u.target ≡ target) }
{
    match answer {
        Ok(()) => {
            targets.push_reserved(target);
            Ok(())
        }
        Err(refusal) => Err(Unended { refusal, target }),
    }
}
