//! What the record and the root say of themselves: ids and the term.
ghost use Rattle.std.specs.Prelude.{◌≡◌, ◌<◌, ◌^◌, OnOk};
ghost use Rattle.esr_opening.specs.Found.{known_ids, has_term};
ghost use Rattle.esr_opening.specs.Looked.{Says};
ghost use Rattle.esr_opening.specs.Terms.{own_checks, IsFit};

use crate::ids::foreign_id;
use crate::root::safe_place;
use crate::{OpenRefusal, Why};
use esr_formats::write_name;
use esr_names::{BlobName, Id};
use esr_record::ClusterRecord;
use esr_root::RootData;
use std::alloc::Global;

/// Refuses a root, by its number, with an id of a later term.
#[tactic(auto, unfolding(esr_names::specs::Layout::IsName))]
fn check_ids<F>(
    alloc: Global,
    root: &RootData,
    number: u64,
    term: u64,
) -> Result<(), OpenRefusal<F>>
    requires number { number < 2 ^ 63 }
    requires term { term < 2 ^ 63 }
    ensures { Says (known_ids root.now number term) result }
{
    let Some(id) = foreign_id(root, Id::new(term + 1, 0)) else {
        return Ok(());
    };
    let name = write_name(alloc, &BlobName::Root(number))?;
    Err(OpenRefusal::Damaged {
        name,
        why: Why::ForeignId { id },
    })
}

/// Refuses the last term.
fn check_term<F>(term: u64) -> Result<(), OpenRefusal<F>>
    ensures { Says (has_term term) result }
{
    if term == i64::MAX as u64 {
        return Err(OpenRefusal::TermsSpent { term });
    }
    Ok(())
}

/// Refuses ids of later terms, then the last term.
pub(crate) fn check_own<F>(
    alloc: Global,
    cluster: &ClusterRecord,
    root: &RootData,
) -> Result<(), OpenRefusal<F>>
    ensures says { Says (own_checks cluster.now root.now) result }
    ensures fit { OnOk result (IsFit cluster.now root.now) }
{
    let _ = &root.snapshots;
    let number = safe_place(cluster.safe).unwrap_or(0);
    check_ids(alloc, root, number, cluster.term)?;
    check_term(cluster.term)
}
