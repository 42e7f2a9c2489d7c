//! A container is opened.
ghost use Rattle.std.specs.Prelude.{◌≡◌, ◌+◌, ◌^◌, ◌≤◌, length, Option, IfOk, IfErr};
ghost use Rattle.esr_model.specs.Kept.{first_id};
ghost use Rattle.esr_depot.specs.Look.{now};
ghost use Rattle.esr_formats.specs.Roots.{root_of};
ghost use Rattle.esr_opening.specs.Found.{found};
ghost use Rattle.esr_opening.specs.Opening.{IsOpening, IsOpenRefused};
ghost use Rattle.esr_opening.specs.Listed.{AreListed, AreInfosIn};
ghost use Rattle.esr_opening.specs.Looked.{Looked, Answers};
ghost use Rattle.esr_opening.specs.Part.{part};
ghost use Rattle.esr_opening.specs.Spent.{has_fault, Spends};
ghost use Rattle.esr_opening.specs.Terms.{IsFit};
ghost use Rattle.esr_opening.specs.declared.refusal.OpenRefusal.TheVariants.{DepotFault};

use crate::OpenRefusal;
use crate::laws::opened_worlds_are_in_order;
use crate::own::check_own;
use crate::record::find_record;
use crate::root::find_whole_root;
use crate::term::{begin_term, next_of};
use esr_depot::Depot;
use esr_names::Id;
use esr_progress::{Opening, Progress, SnapInfos};
use esr_record::ClusterRecord;
use esr_root::RootData;
use std::alloc::Global;

/// Opens a container: one into which nothing was written, or one that an earlier run left. It reads the record, the safe
/// root and the info of each snapshot that it lists, and refuses the first that is damaged; then one swap of the record
/// begins the next term. Of the ops that were open the deletes alone stay, numbered from 1 on.
pub fn open_container<D: Depot>(
    alloc: Global,
    mut depot: D,
) -> Result<Opening<D>, (D, OpenRefusal<D::Fetch>)>
    ensures opened { IfOk result (λ o. IsOpening (D.look depot) (D.look o.depot) (record { cluster = o.cluster; root = o.root; infos = o.infos; plan = o.progress; next = o.next.number })) }
    ensures listed { IfOk result (λ o. AreListed (root_of o.root) o.infos) }
    ensures infos { IfOk result (λ o. AreInfosIn (now (D.look depot)) o.root o.root.snapshots o.infos) }
    ensures refused { IfErr result (λ e. IsOpenRefused D.Fetch.faults (D.look depot) (D.look e.0) (D.faults depot) (D.faults e.0) e.1) }
    ensures counted { IfOk result (λ o. D.faults depot ≤ D.faults o.depot) }
    ensures recounted { IfErr result (λ e. D.faults depot ≤ D.faults e.0) }
    ensures spent { IfOk result (λ o. (D.look depot).sure ≤ (D.look o.depot).sure + 2 ^ 61) }
    ensures sure { IfErr result (λ e. 2 ^ 61 ≤ (D.look depot).sure → (fetch : Option D.Fetch) → e.1 ≡ DepotFault fetch → ⊥) }
{
    match open_in_place(alloc, &mut depot) {
        Ok((cluster, root, infos, progress)) => {
            let next = Id::new(cluster.term, 0);
            Ok(Opening {
                depot,
                cluster,
                root,
                infos,
                progress,
                next,
            })
        }
        Err(refusal) => Err((depot, refusal)),
    }
}

/// The record, the safe root and the infos of its snapshots, where nothing is wrong with them.
fn find<D: Depot>(
    alloc: Global,
    depot: &mut D,
) -> Result<(ClusterRecord, RootData, SnapInfos), OpenRefusal<D::Fetch>>
    ensures looked { Looked (D.look depot.old) (D.look depot.new) (D.faults depot.old) (D.faults depot.new) }
    ensures answer { Answers D.Fetch.faults (now (D.look depot.old)) (D.faults depot.old) (D.faults depot.new) found (part (λ o. (o.0, o.1)) result) }
    ensures fit { IfOk result (λ o. IsFit o.0 o.1) }
    ensures infos { IfOk result (λ o. AreInfosIn (now (D.look depot.old)) o.1 o.1.snapshots o.2) }
    ensures spends { Spends (D.look depot.old).sure (D.look depot.new).sure (2 + 2 ^ 60) (has_fault result) }
    ensures calls { IfOk result (λ o. (D.look depot.new).clock ≤ (D.look depot.old).clock + (3 + length o.1.snapshots)) }
{
    let cluster = find_record(alloc, depot)?;
    let (root, infos) = find_whole_root(alloc, depot, cluster.safe)?;
    check_own(alloc, &cluster, &root)?;
    Ok((cluster, root, infos))
}

/// Finds the record, the safe root and the infos of its snapshots, and begins the next term.
fn open_in_place<D: Depot>(
    alloc: Global,
    depot: &mut D,
) -> Result<(ClusterRecord, RootData, SnapInfos, Progress), OpenRefusal<D::Fetch>>
    ensures opened { IfOk result (λ o. IsOpening (D.look depot.old) (D.look depot.new) (record { cluster = o.0; root = o.1; infos = o.2; plan = o.3; next = first_id o.0.term })) }
    ensures listed { IfOk result (λ o. AreListed (root_of o.1) o.2) }
    ensures infos { IfOk result (λ o. AreInfosIn (now (D.look depot.old)) o.1 o.1.snapshots o.2) }
    ensures refused { IfErr result (λ e. IsOpenRefused D.Fetch.faults (D.look depot.old) (D.look depot.new) (D.faults depot.old) (D.faults depot.new) e) }
    ensures counted { D.faults depot.old ≤ D.faults depot.new }
    ensures spends { Spends (D.look depot.old).sure (D.look depot.new).sure (2 ^ 61) (has_fault result) }
{
    opened_worlds_are_in_order();
    let (cluster, root, infos) = find(alloc, depot)?;
    let (next, progress) = next_of(alloc, &cluster)?;
    begin_term(alloc, depot, &next)?;
    Ok((next, root, infos, progress))
}
