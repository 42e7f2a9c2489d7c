//! What is kept of the world, as the steps read it.
ghost use Rattle.std.specs.Prelude.{◌≡◌, ◌+◌, ◌^◌, ◌<◌, ◌≤◌, ◌≤ℤ◌, negsuc, suc, true, ℕ, [], length, MatchOption};
ghost use Rattle.esr_model.specs.Kept.{first_id};
ghost use Rattle.esr_core.specs.World.{record_of};
ghost use Rattle.esr_core.specs.Entry.{Step, Refused as RefusedAs};
ghost use Rattle.esr_core.specs.Tracked.{Tracked};
ghost use Rattle.esr_core.specs.Ranked.{Ranked};
ghost use Rattle.esr_core.specs.ReadTracked.{ReadTracked};
ghost use Rattle.esr_formats.specs.Roots.{root_of};
ghost use Rattle.esr_formats.specs.Clusters.{count_of, cluster_of};
ghost use Rattle.esr_record.specs.Record.{AreNumbers};
ghost use Rattle.esr_ops.specs.Plan.{IsPlanOf, seat_of, seat_of_code};
ghost use Rattle.esr_desk.specs.Numbered.{Numbered};
ghost use Rattle.esr_desk.specs.Outcome.{Grounds};
ghost use Rattle.esr_desk.specs.Last.{IsLast};
ghost use Rattle.esr_desk.specs.Refusals.{refusal_of};
ghost use Rattle.esr_desk.specs.declared.refusal.EntryRefusal.{EntryRefusal};
ghost use Rattle.esr_desk.specs.declared.refusal.StepRefusal.TheVariants.{Refused};
ghost use Rattle.esr_desk.specs.Evidence.{NeverFailed};
ghost use Rattle.esr_desk.specs.Start.{world_of, ticket_of};
ghost use Rattle.esr_repo.specs.Repo.{OwnIndices, Gone, AreTests, HasInfos};
ghost use Rattle.esr_repo.specs.Client.{TellsClient};
ghost use Rattle.esr_repo.specs.Tickets.{AreStale, AreOfOps};
ghost use Rattle.esr_repo.specs.InfosAfter.{InfosAfter};
ghost use Rattle.esr_repo.specs.Next.{IsLive};

use crate::{Repo, Told};
use esr_depot::Depot;
use esr_meta::SnapInfo;
use esr_names::Id;
use esr_ops::Seat;
use esr_progress::Progress;
use esr_record::ClusterRecord;
use esr_root::RootData;

impl<D: Depot, K: Told> Repo<D, K> {
    /// The rules that the world keeps.
    pub fn rules(&self)
        ensures tracked { Tracked (world_of K.start self.now) }
        ensures ranked { Ranked (world_of K.start self.now) }
        ensures pruning { OwnIndices (world_of K.start self.now) }
        ensures gone { Gone (world_of K.start self.now) }
        ensures read_tracked { ReadTracked (world_of K.start self.now) }
        ensures tests { AreTests (world_of K.start self.now).caller }
        ensures client { TellsClient (world_of K.start self.now) }
        ensures stale { AreStale (world_of K.start self.now) }
        ensures of_ops { AreOfOps (world_of K.start self.now) }
        ensures few_ops { length self.now < 2 ^ 41 → (world_of K.start self.now).next_op < 2 ^ 62 }
        ensures infos { InfosAfter K.start self.now }
        ensures few_tickets { length self.now < 2 ^ 41 → (world_of K.start self.now).next_ticket < 2 ^ 62 }
    {
        let _next = self.next;
    }

    /// Each ticket's number is below the next one, and before the history nothing was made.
    pub fn numbers(&self)
        ensures numbers { Numbered 1 (world_of K.start self.now) }
        ensures none { K.start.world.entries ≡ [] }
    {
        let _next = self.next;
        self.rules();
    }

    /// The last step, if it was refused, was so on its grounds: the container fails only where it isn't quiet, and a delete aborts
    /// no unit but those of snapshots and clones.
    pub fn grounds(&self)
        ensures { (who : ℕ) (step : Step) (refusal : EntryRefusal) → length self.now ≤ 2 ^ 41 → IsLast self.now who step (RefusedAs (refusal_of refusal))
            → Grounds K.start self.now who (Refused refusal) }
    {
        esr_core::refusals_are_of_their_steps();
        self.is_legal();
        self.never_fails();
        self.rules();
    }

    /// A container that is taken for quiet has failed in none of the first 2^41 entries.
    pub fn never_fails(&self)
        ensures { K.start.quiet ≡ true → length self.now ≤ 2 ^ 41 → NeverFailed self.now }
    {
        let _next = self.next;
    }

    /// The list of ops.
    pub fn plan(&self) -> &Progress
        requires live { IsLive K.start self.now }
        ensures { IsPlanOf (world_of K.start self.now) result.now }
    {
        &self.progress
    }

    /// The safe root.
    pub fn safe_root(&self) -> &RootData
        requires live { IsLive K.start self.now }
        ensures { root_of result.now ≡ (world_of K.start self.now).root }
    {
        &self.root
    }

    /// The infos of the listed snapshots.
    pub fn infos(&self) -> &[SnapInfo]
        requires live { IsLive K.start self.now }
        ensures { HasInfos K.start (world_of K.start self.now) result.now }
    {
        &self.infos
    }

    /// The cluster record.
    pub fn record(&self) -> &ClusterRecord
        requires live { IsLive K.start self.now }
        ensures record { cluster_of result.now ≡ record_of (world_of K.start self.now) }
        ensures numbers { AreNumbers result.now.pending result.now.safe result.now.term }
    {
        let _term = self.cluster.term;
        &self.cluster
    }

    /// The generation of the safe root, -1 where there is none.
    pub fn safe(&self) -> i64
        requires live { IsLive K.start self.now }
        ensures count { count_of result ≡ (world_of K.start self.now).safe }
        ensures least { negsuc 0 ≤ℤ result }
    {
        self.record().safe
    }

    /// The term.
    pub fn term(&self) -> u64
        requires live { IsLive K.start self.now }
        ensures term { result ≡ (world_of K.start self.now).term }
        ensures most { result < 2 ^ 63 }
    {
        self.record().term
    }

    /// What is kept of a ticket that is out.
    pub fn seat(&self, ticket: u64) -> Seat
        requires live { IsLive K.start self.now }
        requires out { (ticket_of K.start self.now ticket).out ≡ true }
        ensures { seat_of_code result ≡ seat_of (ticket_of K.start self.now ticket) }
    {
        let Some(seat) = self.plan().seat(ticket) else {
            unreachable!();
        };
        seat
    }

    /// The next id.
    pub fn next_id(&self) -> Id
        requires live { IsLive K.start self.now }
        ensures number { result.number ≡ (world_of K.start self.now).next_id }
        ensures below { result.number < first_id (suc (world_of K.start self.now).term) }
    {
        self.next
    }

    /// The number of the next op.
    pub fn next_op(&self) -> u64
        requires live { IsLive K.start self.now }
        ensures { result ≡ (world_of K.start self.now).next_op }
    {
        self.plan().next_op()
    }

    /// The next id after so many are drawn, or `None` where the term has too few.
    pub fn id_after(&self, count: u64) -> Option<Id>
        requires live { IsLive K.start self.now }
        ensures next { MatchOption result
            (first_id (suc (world_of K.start self.now).term) ≤ (world_of K.start self.now).next_id + count)
            (λ id. (id.number ≡ (world_of K.start self.now).next_id + count) × (id.number < first_id (suc (world_of K.start self.now).term)) × (id.number < 2 ^ 128)) }
    {
        let limit = Id::new(self.term() + 1, 0);
        let after = Id {
            number: self.next_id().number + u128::from(count),
        };
        (after.number < limit.number).then_some(after)
    }
}
