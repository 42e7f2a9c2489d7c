//! The words of plans: which call fails, and what it leaves.
use esr_memdepot::{Call, Failing, Leaves, Plan};
use esr_scenes::cut;
use esr_seq::Seq;
use std::alloc::{AllocError, Global};

/// The number in a word.
pub(crate) fn number_of(word: &str) -> Option<u64> {
    word.parse::<u64>().ok()
}

/// The kind of call of that verb. `of` is the number of the begin whose stage is written to, or of the fetch that is read.
fn call_of(verb: &str, of: u64) -> Option<Call> {
    match verb {
        "begin" => Some(Call::Begin),
        "commit" => Some(Call::Commit),
        "replace" => Some(Call::Replace),
        "fetch" => Some(Call::Fetch),
        "list" => Some(Call::List),
        "remove" => Some(Call::Remove),
        "read-record" => Some(Call::ReadRecord),
        "swap-record" => Some(Call::SwapRecord),
        "write-of-begin" => Some(Call::StageWrite { begin: of }),
        "read-of-fetch" => Some(Call::FetchRead { fetch: of }),
        _ => None,
    }
}

/// What is left: the old state, the new one, or the first name of a removal gone.
pub(crate) fn leaves_of(word: &str) -> Option<Leaves> {
    match word {
        "old" => Some(Leaves::Old),
        "first" => Some(Leaves::First(1)),
        "new" => Some(Leaves::New),
        _ => None,
    }
}

fn failing(call: Call, nth: &str, leaves: Option<Leaves>) -> Option<Failing> {
    let (nth, leaves) = number_of(nth).zip(leaves)?;
    Some(Failing { call, nth, leaves })
}

/// The failure that is planned by `VERB NTH leaving LEAVES`, or by `write-of-begin N NTH` and `read-of-fetch N NTH`.
pub(crate) fn failing_of(words: &str) -> Option<Failing> {
    let (verb, rest) = cut(words);
    let (first, rest) = cut(rest);
    let (second, last) = cut(rest);
    let call = call_of(verb, number_of(first)?)?;
    match second {
        "leaving" => failing(call, first, leaves_of(last)),
        _ => failing(call, second, Some(Leaves::Old)),
    }
}

/// The failures that the lines `fails ..` of a scene plan.
pub(crate) fn plan_of(alloc: Global, lines: &str) -> Result<Plan, AllocError> {
    let mut plan = Seq::new(alloc);
    for line in lines.lines() {
        if let Some(words) = line.trim().strip_prefix("fails ")
            && let Some(failing) = failing_of(words)
        {
            plan.push(failing)?;
        }
    }
    Ok(plan)
}
