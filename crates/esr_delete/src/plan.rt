//! The plan of a delete or cleanup.
ghost use Rattle.std.specs.Prelude.{◌≡◌, map, IfErr, IfOk, OnErr};
ghost use Rattle.esr_formats.specs.Ids.{number_of};
ghost use Rattle.esr_formats.specs.Roots.{root_of};
ghost use Rattle.esr_results.specs.Pruned.{pruned_of};
ghost use Rattle.esr_dooming.specs.Reading.{AreFew};
ghost use Rattle.esr_desk.specs.Calls.{HasTaken};
ghost use Rattle.esr_desk.specs.Start.{ticket_of};
ghost use Rattle.esr_desk.specs.Told.{TellsAll};
ghost use Rattle.esr_desk.specs.Grew.{GrewBy};
ghost use Rattle.esr_desk.specs.declared.hand.Hand.TheVariants.{Delete};
ghost use Rattle.esr_desk.specs.Evidence.{evidence};
ghost use Rattle.esr_unit.specs.Shown.{Shown};
ghost use Rattle.esr_delete.specs.Gathered.{IsUnplanned, HasMadeFetches, IsGathered};
ghost use Rattle.esr_delete.specs.Planned.{HasPlanned};

use esr_desk::{Basis, Desk, Planned};
use esr_dooming::pruned;
use esr_names::{Id, Ids};
use esr_reach::ShardIndices;
use esr_results::PrunedShards;
use esr_root::RootData;
use esr_unit::Trouble;
use std::alloc::Global;

/// What is to be written: an index for each of these shards of which something is left, under ids from the first one on,
/// and the root.
pub struct Draft {
    pub shards: PrunedShards,
    pub first: Id,
    pub root: RootData,
}

impl Draft {
    /// The root that is to be written.
    pub fn into_root(self) -> RootData
        ensures { result ≡ self.root }
    {
        let Draft {
            shards: _shards,
            first: _,
            root,
        } = self;
        root
    }
}

impl Drop for Draft {
    // Not derived, so that it is one call at each early exit.
    fn drop(self) {
        let Draft {
            shards: _shards,
            first: _,
            root: _root,
        } = self;
    }
}

/// Plans over what was gathered.
pub fn plan<Q: Desk>(
    alloc: Global,
    desk: &mut Q,
    ticket: u64,
    clean: bool,
    root: &RootData,
    uuids: &Ids,
    held: &ShardIndices,
) -> Result<Draft, Trouble<Q::Stage, Q::Fetch>>
    requires mine { HasTaken (Q.calls desk.old) ticket }
    requires may { IsUnplanned (ticket_of Q.start (Q.seen desk.old) ticket) clean (root_of root.now) (map number_of uuids.now) }
    requires gathered { IsGathered Q.start (ticket_of Q.start (Q.seen desk.old) ticket) (map number_of uuids.now) held.now }
    requires made { HasMadeFetches Q.start (Q.seen desk.old) ticket }
    ensures ok { IfOk result (λ d. HasPlanned Q.start (ticket_of Q.start (Q.seen desk.old) ticket) (ticket_of Q.start (Q.seen desk.new) ticket) (map number_of uuids.now) held.now (map pruned_of d.shards) d.first.number (root_of d.root)) }
    ensures few { IfOk result (λ d. AreFew (map pruned_of d.shards)) }
    ensures tells { IfOk result (λ d. TellsAll Q.start (Q.seen desk.new) ticket) }
    ensures trouble { IfErr result (Shown Delete (evidence Q.Stage.faults Q.Fetch.faults Q.Shard.faults Q.Target.faults Q.Shard.told Q.Target.told) ⊥ Q.start (Q.seen desk.new) ticket) }
    ensures kept { OnErr result (ticket_of Q.start (Q.seen desk.new) ticket ≡ ticket_of Q.start (Q.seen desk.old) ticket) }
    ensures grew { GrewBy Q.start ticket (Q.seen desk.old) (Q.seen desk.new) }
    ensures calls { Q.calls desk.new ≡ Q.calls desk.old }
{
    esr_core::refusals_are_of_their_steps();
    let shards = pruned(alloc, clean, root, uuids, held)?;
    let basis = Basis {
        root,
        uuids,
        shards: &shards,
    };
    let planned = desk.plan(alloc, ticket, &basis)?;
    let Planned { first, root } = planned;
    Ok(Draft {
        shards,
        first,
        root,
    })
}
