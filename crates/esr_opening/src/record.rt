//! The record is read.
ghost use Rattle.std.specs.Prelude.{◌+◌, ◌≤◌, codes, map};
ghost use Rattle.esr_record.specs.Reading.{record_from};
ghost use Rattle.esr_depot.specs.Look.{now};
ghost use Rattle.esr_depot.specs.Listing.{size_of};
ghost use Rattle.esr_opening.specs.Found.{readable, without_record, record_in};
ghost use Rattle.esr_opening.specs.Looked.{Looked, Answers, Says};
ghost use Rattle.esr_opening.specs.Spent.{has_fault, Spends};

use crate::blob::unread;
use crate::{OpenRefusal, Why};
use esr_depot::{Depot, Listed};
use esr_formats::read_cluster;
use esr_record::ClusterRecord;
use esr_seq::{Bytes, Text, TryClone};
use std::alloc::Global;

/// The record of this text.
fn parse_record<F>(alloc: Global, text: &Bytes) -> Result<ClusterRecord, OpenRefusal<F>>
    ensures { Says (readable (codes "record") (record_from text.now)) result }
{
    match read_cluster(alloc, text.as_slice()) {
        Ok(cluster) => Ok(cluster),
        Err(refusal) => {
            let name = Text::from_str(alloc, "record")?;
            Err(unread(name, refusal))
        }
    }
}

/// What stands for the record where there is none, by the first page of the blobs. There is to be no blob then.
fn absent_record<F>(alloc: Global, page: &[Listed]) -> Result<ClusterRecord, OpenRefusal<F>>
    ensures { Says (without_record (map size_of page.now)) result }
{
    match page.first() {
        None => Ok(ClusterRecord::new(alloc)),
        Some(listed) => {
            let name = listed.name.try_clone(alloc)?;
            Err(OpenRefusal::Damaged {
                name,
                why: Why::NoRecord,
            })
        }
    }
}

/// The record, or what stands for it where nothing was written.
#[tactic(auto, using(crate::proofs::Looking::call_counts))]
pub(crate) fn find_record<D: Depot>(
    alloc: Global,
    depot: &mut D,
) -> Result<ClusterRecord, OpenRefusal<D::Fetch>>
    ensures looked { Looked (D.look depot.old) (D.look depot.new) (D.faults depot.old) (D.faults depot.new) }
    ensures answer { Answers D.Fetch.faults (now (D.look depot.old)) (D.faults depot.old) (D.faults depot.new)
        (λ i. record_in i.blobs i.text) result }
    ensures spends { Spends (D.look depot.old).sure (D.look depot.new).sure 2 (has_fault result) }
    ensures calls { (D.look depot.new).clock ≤ (D.look depot.old).clock + 2 }
{
    match depot.read_record(alloc)? {
        Some(text) => parse_record(alloc, &text),
        None => {
            let pages = depot.list(alloc, None)?;
            absent_record(alloc, pages.page.as_slice())
        }
    }
}
