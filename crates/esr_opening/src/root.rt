//! The safe root is read.
ghost use Rattle.std.specs.Prelude.{◌≡◌, ◌+◌, ◌<◌, ◌≤◌, ◌^◌, length, Ok, IfOk, IfSome};
ghost use Rattle.esr_root.specs.Reading.{root_from};
ghost use Rattle.esr_depot.specs.Look.{now};
ghost use Rattle.esr_opening.specs.Found.{read_as, root_in};
ghost use Rattle.esr_opening.specs.Listed.{AreInfosIn};
ghost use Rattle.esr_opening.specs.Looked.{Looked, Answers, Says};
ghost use Rattle.esr_opening.specs.Part.{part};
ghost use Rattle.esr_opening.specs.Spent.{has_fault, Spends};
ghost use Rattle.esr_opening.specs.Terms.{safe_place, whole_root_in};

use crate::blob::{fetch_blob, unread};
use crate::infos::check_infos;
use crate::{OpenRefusal, Why};
use esr_depot::Depot;
use esr_formats::{read_root, write_name};
use esr_names::BlobName;
use esr_progress::SnapInfos;
use esr_root::RootData;
use esr_seq::{Bytes, Text};
use std::alloc::Global;

/// The number of the safe root, or none.
pub(crate) fn safe_place(safe: i64) -> Option<u64>
    ensures place { result ≡ safe_place safe }
    ensures few { IfSome result (λ n. n < 2 ^ 63) }
{
    if safe < 0 { None } else { Some(safe as u64) }
}

/// The root of these bytes.
fn parse_root<F>(
    alloc: Global,
    name: Text,
    bytes: Option<Bytes>,
) -> Result<RootData, OpenRefusal<F>>
    ensures { Says (read_as root_from name bytes) result }
{
    let Some(bytes) = bytes else {
        return Err(OpenRefusal::Damaged {
            name,
            why: Why::Absent,
        });
    };
    match read_root(alloc, bytes.as_slice()) {
        Ok(root) => Ok(root),
        Err(refusal) => Err(unread(name, refusal)),
    }
}

/// The safe root.
#[tactic(auto, unfolding(esr_names::specs::Layout::IsName))]
fn find_root<D: Depot>(
    alloc: Global,
    depot: &mut D,
    safe: i64,
) -> Result<RootData, OpenRefusal<D::Fetch>>
    ensures looked { Looked (D.look depot.old) (D.look depot.new) (D.faults depot.old) (D.faults depot.new) }
    ensures answer { Answers D.Fetch.faults (now (D.look depot.old)) (D.faults depot.old) (D.faults depot.new)
        (λ i. root_in i.blobs safe) result }
    ensures spends { Spends (D.look depot.old).sure (D.look depot.new).sure 1 (has_fault result) }
    ensures calls { (D.look depot.new).clock ≤ (D.look depot.old).clock + 1 }
{
    let Some(number) = safe_place(safe) else {
        return Ok(RootData::new(alloc));
    };
    let name = write_name(alloc, &BlobName::Root(number))?;
    let bytes = fetch_blob(alloc, depot, &name)?;
    parse_root(alloc, name, bytes)
}

/// The safe root and the infos of the snapshots that it lists, each of which is to agree with it.
pub(crate) fn find_whole_root<D: Depot>(
    alloc: Global,
    depot: &mut D,
    safe: i64,
) -> Result<(RootData, SnapInfos), OpenRefusal<D::Fetch>>
    ensures looked { Looked (D.look depot.old) (D.look depot.new) (D.faults depot.old) (D.faults depot.new) }
    ensures answer { Answers D.Fetch.faults (now (D.look depot.old)) (D.faults depot.old) (D.faults depot.new)
        (λ i. whole_root_in i.blobs safe) (part (λ o. o.0) result) }
    ensures infos { IfOk result (λ o. AreInfosIn (now (D.look depot.old)) o.0 o.0.snapshots o.1) }
    ensures spends { Spends (D.look depot.old).sure (D.look depot.new).sure (2 ^ 60) (has_fault result) }
    ensures calls { IfOk result (λ o. (D.look depot.new).clock ≤ (D.look depot.old).clock + (1 + length o.0.snapshots)) }
{
    let root = find_root(alloc, depot, safe)?;
    let number = safe_place(safe).unwrap_or(0);
    let infos = check_infos(alloc, depot, &root, number, root.snapshots.as_slice())?;
    Ok((root, infos))
}
