//! The new root, and the names that it dooms.
ghost use Rattle.std.specs.Prelude.{◌≡◌, ◌<◌, ◌^◌, ◌↔◌, List, Option, true, false, map, IfErr, IfOk, IfSome};
ghost use Rattle.std.specs.BTreeSet.{contains};
ghost use Rattle.esr_names.specs.declared.blob.BlobName.{BlobName as CodeName};
ghost use Rattle.esr_model.specs.Values.{Has};
ghost use Rattle.esr_model.specs.Delete.{uuids_of};
ghost use Rattle.esr_core.specs.World.{Deleting, Swap};
ghost use Rattle.esr_core.specs.Allowed.{HasPutLatest};
ghost use Rattle.esr_formats.specs.Clusters.{count_of};
ghost use Rattle.esr_formats.specs.Ids.{number_of};
ghost use Rattle.esr_formats.specs.Names.{name_of};
ghost use Rattle.esr_formats.specs.Roots.{root_of};
ghost use Rattle.esr_results.specs.Pruned.{pruned_of};
ghost use Rattle.esr_reach.specs.Held.{HeldShard};
ghost use Rattle.esr_reach.specs.Listing.{root_names};
ghost use Rattle.esr_reach.specs.Names.{AreOnce};
ghost use Rattle.esr_reach.specs.Reading.{HasEach};
ghost use Rattle.esr_dooming.specs.Reading.{AreHeldSome};
ghost use Rattle.esr_dooming.specs.Unreached.{place_of, Renewed};
ghost use Rattle.esr_desk.specs.Calls.{HasTaken};
ghost use Rattle.esr_desk.specs.Start.{ticket_of, world_of};
ghost use Rattle.esr_desk.specs.Told.{TellsAll};
ghost use Rattle.esr_desk.specs.declared.hand.Hand.TheVariants.{Delete};
ghost use Rattle.esr_desk.specs.Evidence.{evidence};
ghost use Rattle.esr_unit.specs.Shown.{Shown};
ghost use Rattle.esr_delete.specs.Work.{last_root};
ghost use Rattle.esr_delete.specs.Planned.{IsIndexed};
ghost use Rattle.esr_delete.specs.Ticket.{IsReady};
ghost use Rattle.esr_delete.specs.Went.{Went};

use crate::indices::uuids_of;
use crate::list::list_unreached;
use crate::plan::Draft;
use crate::root::write_root;
use esr_desk::Desk;
use esr_dooming::{DoomedNames, doomed, reach_set, renew, without_root};
use esr_names::{BlobName, Ids};
use esr_ops::Copied;
use esr_reach::ShardIndices;
use esr_root::RootData;
use esr_unit::Trouble;
use std::alloc::{AllocError, Global};
use std::collections::BTreeSet;

/// What is at hand for the settle: the root that was written, and the names that are doomed.
#[derive(Drop)]
pub struct Written {
    pub root: RootData,
    pub names: DoomedNames,
}

/// The generation of the safe root, or none.
fn last_root(safe: i64) -> Option<u64>
    ensures place { result ≡ last_root safe }
    ensures few { IfSome result (λ n. n < 2 ^ 63) }
{
    if safe < 0 { None } else { Some(safe as u64) }
}

/// The names that the root of a plan reaches, its own aside, by what is left of the shards of the old root.
fn reached_by(
    alloc: Global,
    held: ShardIndices,
    draft: &Draft,
) -> Result<BTreeSet<BlobName>, AllocError>
    requires some { AreHeldSome held (map pruned_of draft.now.shards) }
    requires once { AreOnce (map place_of (map pruned_of draft.now.shards)) }
    requires each { (now : List HeldShard) → Renewed held now (map pruned_of draft.now.shards) (uuids_of (root_of draft.now.root)) → HasEach (root_of draft.now.root) now }
    ensures { IfOk result (λ set. (now : List HeldShard) × Renewed held now (map pruned_of draft.now.shards) (uuids_of (root_of draft.now.root))
        × ((name : CodeName) → (contains ⟦<BlobName as Ord>⟧.cmp set name ≡ true) ↔ Has (root_names (root_of draft.now.root) now) (name_of name))) }
{
    let mut held = held;
    let left = uuids_of(alloc, &draft.root)?;
    renew(alloc, &mut held, draft.shards.as_slice(), &left)?;
    reach_set(alloc, &draft.root, &held)
}

/// Lists the container, and writes the root of a cleanup.
pub fn write_cleanup<Q: Desk>(
    alloc: Global,
    desk: &mut Q,
    ticket: u64,
    held: ShardIndices,
    draft: Draft,
) -> Result<Written, Trouble<Q::Stage, Q::Fetch>>
    requires mine { HasTaken (Q.calls desk.old) ticket }
    requires may { IsIndexed Q.start (ticket_of Q.start (Q.seen desk.old) ticket) held (map pruned_of draft.shards) draft.first.number (root_of draft.root) }
    requires mode { (ticket_of Q.start (Q.seen desk.old) ticket).clean ≡ true }
    requires tells { TellsAll Q.start (Q.seen desk.old) ticket }
    ensures ok { IfOk result (λ w. IsReady Q.start (ticket_of Q.start (Q.seen desk.old) ticket) (ticket_of Q.start (Q.seen desk.new) ticket) (root_of w.root) (map name_of w.names)) }
    ensures root { IfOk result (λ w. root_of w.root ≡ root_of draft.root) }
    ensures put { IfOk result (λ w. HasPutLatest (world_of Q.start (Q.seen desk.new)) ticket) }
    ensures tells { IfOk result (λ w. TellsAll Q.start (Q.seen desk.new) ticket) }
    ensures trouble { IfErr result (Shown Delete (evidence Q.Stage.faults Q.Fetch.faults Q.Shard.faults Q.Target.faults Q.Shard.told Q.Target.told) ⊥ Q.start (Q.seen desk.new) ticket) }
    ensures went { Went Q.start (Q.seen desk.old) (Q.seen desk.new) ticket }
    ensures calls { Q.calls desk.new ≡ Q.calls desk.old }
{
    let reached = reached_by(alloc, held, &draft)?;
    let listed = list_unreached(alloc, desk, ticket, &reached)?;
    let generation = write_root(alloc, desk, ticket, true, &draft.root)?;
    let names = without_root(alloc, &listed, generation)?;
    Ok(Written {
        root: draft.into_root(),
        names,
    })
}

/// Writes the root of a delete.
pub fn write_delete<Q: Desk>(
    alloc: Global,
    desk: &mut Q,
    ticket: u64,
    uuids: &Ids,
    copy: &Copied,
    held: &ShardIndices,
    draft: Draft,
) -> Result<Written, Trouble<Q::Stage, Q::Fetch>>
    requires mine { HasTaken (Q.calls desk.old) ticket }
    requires may { IsIndexed Q.start (ticket_of Q.start (Q.seen desk.old) ticket) held.now (map pruned_of draft.shards) draft.first.number (root_of draft.root) }
    requires named { (plan : Option Swap) × ((ticket_of Q.start (Q.seen desk.old) ticket).work ≡ Deleting (map number_of uuids.now) plan) }
    requires mode { (ticket_of Q.start (Q.seen desk.old) ticket).clean ≡ false }
    requires copied { root_of copy.now.root ≡ (ticket_of Q.start (Q.seen desk.old) ticket).root }
    requires safe { (ticket_of Q.start (Q.seen desk.old) ticket).safe ≡ count_of copy.now.safe }
    requires tells { TellsAll Q.start (Q.seen desk.old) ticket }
    ensures ok { IfOk result (λ w. IsReady Q.start (ticket_of Q.start (Q.seen desk.old) ticket) (ticket_of Q.start (Q.seen desk.new) ticket) (root_of w.root) (map name_of w.names)) }
    ensures root { IfOk result (λ w. root_of w.root ≡ root_of draft.root) }
    ensures tells { IfOk result (λ w. TellsAll Q.start (Q.seen desk.new) ticket) }
    ensures trouble { IfErr result (Shown Delete (evidence Q.Stage.faults Q.Fetch.faults Q.Shard.faults Q.Target.faults Q.Shard.told Q.Target.told) ⊥ Q.start (Q.seen desk.new) ticket) }
    ensures went { Went Q.start (Q.seen desk.old) (Q.seen desk.new) ticket }
    ensures calls { Q.calls desk.new ≡ Q.calls desk.old }
{
    write_root(alloc, desk, ticket, false, &draft.root)?;
    let number = last_root(copy.safe);
    let names = doomed(alloc, number, &copy.root, &draft.root, uuids, held)?;
    Ok(Written {
        root: draft.into_root(),
        names,
    })
}
