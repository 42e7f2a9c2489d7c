//! What the steps of a desk are answered, in words.
use esr_depot::Commit;
use esr_desk::{EntryRefusal, StepRefusal};
use esr_scenes::{say, say_number};

/// Says the term of a step, which is over, and the one that it is now.
fn tell_stale(told: &mut String, own: u64, now: u64) {
    say(told, " stale ");
    say_number(told, own);
    say(told, " ");
    say_number(told, now);
}

/// Adds a step, and how it was refused where it was: one of a term that is over with its own term and the one that it is now.
pub(crate) fn tell<T: Drop>(told: &mut String, step: &str, answer: &Result<T, StepRefusal>) {
    say(told, ", ");
    say(told, step);
    match answer {
        Ok(_) => {}
        Err(StepRefusal::Refused(EntryRefusal::StaleTerm { own, now })) => {
            tell_stale(told, *own, *now);
        }
        Err(StepRefusal::TurnsSpent) => say(told, " spent"),
        Err(_) => say(told, " refused"),
    }
}

/// Adds a step that was refused, and how.
pub(crate) fn tell_refused<T: Drop>(
    told: &mut String,
    step: &str,
    answer: &Result<T, StepRefusal>,
) {
    if answer.is_err() {
        tell(told, step, answer);
    }
}

/// Adds a step that answers a number, with the number.
pub(crate) fn tell_number(told: &mut String, step: &str, answer: &Result<u64, StepRefusal>) {
    tell(told, step, answer);
    if let Ok(number) = answer {
        say(told, " ");
        say_number(told, *number);
    }
}

/// Adds a commit, which says whether the blob was there.
pub(crate) fn tell_commit(told: &mut String, answer: &Result<Commit, StepRefusal>) {
    match answer {
        Ok(Commit::Exists) => say(told, ", there"),
        _ => tell(told, "commit", answer),
    }
}
