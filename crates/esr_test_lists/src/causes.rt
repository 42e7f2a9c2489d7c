//! Why a unit failed, and how a step is refused, in words.
use crate::words::{blob_of, id_of};
use esr_desk::{EntryRefusal, Why};
use esr_hash::Print;
use esr_json::Reason;
use esr_scenes::Words;

/// What was read of a file, where it doesn't matter what.
const PRINT: Print = Print {
    len: 0,
    sha256: [0; 32],
};

/// Why a unit failed: of a blob, or of numbers that are spent, where it isn't one of the outside.
pub(crate) fn why_of(words: &mut Words) -> Why {
    match words.word() {
        "depot" => Why::Depot,
        "source" => Why::Source,
        "target" => Why::Target,
        "changed" => Why::Changed {
            first: PRINT,
            second: PRINT,
        },
        "ids-spent" => Why::IdsSpent { next: id_of(words) },
        "generations-spent" => Why::GenerationsSpent { number: i64::MAX },
        kind => blob_why(kind, words),
    }
}

/// What was wrong with a blob.
fn blob_why(kind: &str, words: &mut Words) -> Why {
    let name = blob_of(words);
    match kind {
        "absent" => Why::Absent { name },
        "no-json" => Why::Unreadable {
            name,
            reason: Reason::Json,
        },
        "unlisted" => Why::Unreadable {
            name,
            reason: Reason::Unlisted,
        },
        "ahead" => Why::Ahead {
            name,
            id: id_of(words),
        },
        "name-taken" => Why::NameTaken { name },
        "misprinted" => Why::Misprinted {
            name,
            stated: PRINT,
            found: PRINT,
        },
        "disagreeing" => Why::Disagreeing {
            name,
            other: blob_of(words),
        },
        _ => words.refuse("no such cause", Why::Depot),
    }
}

/// How a step is refused.
pub(crate) fn refusal_of(words: &mut Words) -> EntryRefusal {
    match words.word() {
        "name-in-use" => EntryRefusal::NameInUse { uuid: id_of(words) },
        "ids-spent" => EntryRefusal::IdsSpent { next: id_of(words) },
        "name-taken" => EntryRefusal::NameTaken {
            name: blob_of(words),
        },
        "generations-spent" => EntryRefusal::GenerationsSpent { number: i64::MAX },
        "depot" => EntryRefusal::DepotFault,
        "stale-term" => EntryRefusal::StaleTerm {
            own: words.number(),
            now: words.number(),
        },
        kind => numbered_refusal(kind, words),
    }
}

/// A refusal that names an op, a place or another number.
fn numbered_refusal(kind: &str, words: &mut Words) -> EntryRefusal {
    let number = words.number();
    match kind {
        "no-snapshot" => EntryRefusal::NoSnapshot { place: number },
        "no-index" => EntryRefusal::NoIndex { place: number },
        "being-deleted" => EntryRefusal::BeingDeleted { op: number },
        "cleanup-running" => EntryRefusal::CleanupRunning { op: number },
        "clone-running" => EntryRefusal::CloneRunning { op: number },
        "restore-running" => EntryRefusal::RestoreRunning { op: number },
        "too-many" => EntryRefusal::TooMany { limit: number },
        "aborted" => EntryRefusal::Aborted { by: number },
        "deposed" => EntryRefusal::Deposed { entry: number },
        "terms-spent" => EntryRefusal::TermsSpent { number },
        "busy-op" => EntryRefusal::BusyOp { op: number },
        "busy-ticket" => EntryRefusal::BusyTicket { ticket: number },
        _ => words.refuse("no such refusal", EntryRefusal::DepotFault),
    }
}
