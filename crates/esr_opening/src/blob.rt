//! A blob of the container, read whole.
ghost use Rattle.std.specs.Prelude.{◌≡◌, ◌+◌, ◌≤◌, Ok};
ghost use Rattle.std.specs.FinMap as fin;
ghost use Rattle.esr_depot.specs.Look.{now};
ghost use Rattle.esr_opening.specs.Looked.{Looked, Answers};
ghost use Rattle.esr_opening.specs.Refusals.{unread};
ghost use Rattle.esr_opening.specs.Spent.{has_fault, Spends};

use crate::{OpenRefusal, Why};
use esr_depot::{CallError, Depot, read_whole};
use esr_json::ReadRefusal;
use esr_seq::{Bytes, Text};
use std::alloc::Global;

/// The bytes of the blob of that name, if it is there.
#[tactic(auto, using(crate::proofs::Looking::call_counts))]
pub(crate) fn fetch_blob<D: Depot>(
    alloc: Global,
    depot: &mut D,
    name: &Text,
) -> Result<Option<Bytes>, OpenRefusal<D::Fetch>>
    ensures looked { Looked (D.look depot.old) (D.look depot.new) (D.faults depot.old) (D.faults depot.new) }
    ensures answer { Answers D.Fetch.faults (now (D.look depot.old)) (D.faults depot.old) (D.faults depot.new)
        (λ i. Ok (fin.get i.blobs name.now)) result }
    ensures spends { Spends (D.look depot.old).sure (D.look depot.new).sure 1 (has_fault result) }
    ensures calls { (D.look depot.new).clock ≤ (D.look depot.old).clock + 1 }
{
    let Some(mut fetch) = depot.fetch(alloc, name.as_str())? else {
        return Ok(None);
    };
    match read_whole(alloc, &mut fetch) {
        Ok(bytes) => Ok(Some(bytes)),
        Err(CallError::Memory) => Err(OpenRefusal::Memory),
        Err(CallError::Failed) => Err(OpenRefusal::DepotFault { fetch: Some(fetch) }),
    }
}

/// Why a text of this name wasn't read.
pub(crate) fn unread<F>(name: Text, refusal: ReadRefusal) -> OpenRefusal<F>
    ensures { result ≡ unread name refusal }
{
    match refusal {
        ReadRefusal::Memory => OpenRefusal::Memory,
        ReadRefusal::Damaged { why: reason } => OpenRefusal::Damaged {
            name,
            why: Why::Unreadable { reason },
        },
    }
}
