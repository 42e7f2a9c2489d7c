//! The container of a case, and what opening it answers.
use crate::trouble::{Done, Trouble};
use esr_depot::{Depot, Stage};
use esr_memdepot::{Call, Failing, Leaves, MemDepot, Plan};
use esr_opening::OpenRefusal;
use esr_scenes::{Words, say, say_bytes};
use std::alloc::Global;
use std::fmt::Write;

/// The call of a container that has that name.
fn call_of(words: &mut Words) -> Call {
    match words.word() {
        "read-record" => Call::ReadRecord,
        "list" => Call::List,
        "fetch" => Call::Fetch,
        "read" => Call::FetchRead { fetch: 1 },
        "swap-record" => Call::SwapRecord,
        _ => words.refuse("no such call of a container", Call::List),
    }
}

/// An empty container of which a call fails, and leaves the old state.
pub(crate) fn failing(alloc: Global, words: &mut Words) -> Result<MemDepot, Trouble> {
    let failing = Failing {
        call: call_of(words),
        nth: words.number(),
        leaves: Leaves::Old,
    };
    let plan = Plan::from_slice(alloc, &[words.end(failing)?])?;
    Ok(MemDepot::new(alloc, plan))
}

/// Puts a blob.
pub(crate) fn put(alloc: Global, depot: &mut MemDepot, name: &str, bytes: &[u8]) -> Done {
    let mut stage = depot.begin(alloc, name, bytes.len())?;
    if stage.write(bytes).is_err() {
        return Err(Trouble::Unread("the container failed"));
    }
    Ok(depot.replace(alloc, stage)?)
}

/// Says the text of the record, if there is one.
pub(crate) fn say_record(alloc: Global, depot: &mut MemDepot, said: &mut String) -> Done {
    if let Some(record) = depot.read_record(alloc)? {
        say_bytes(said, record.as_slice());
    }
    Ok(())
}

/// Says why a container isn't opened.
pub(crate) fn say_refused<F>(said: &mut String, refusal: &OpenRefusal<F>) {
    match refusal {
        OpenRefusal::Damaged { name, why } => {
            let _ = write!(said, "damaged {} {why:?}", name.as_str());
        }
        OpenRefusal::TermsSpent { term } => {
            let _ = write!(said, "terms spent {term}");
        }
        OpenRefusal::DepotFault { fetch: Some(_) } => say(said, "failed read"),
        OpenRefusal::DepotFault { fetch: None } => say(said, "failed call"),
        OpenRefusal::Memory => say(said, "out of memory"),
    }
}
