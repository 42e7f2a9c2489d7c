//! The steps that a line of a script asks for: each is that of the repository, while turns are left.
use crate::Solo;
use crate::solo::spend;
use esr_depot::Depot;
use esr_desk::{AcceptedRestore, Attempt, Client, CloneAsk, Look, Named, NewBlob, StepRefusal};
use esr_names::{BlobName, Id, SnapName};
use esr_ops::Command;
use esr_repo::Told;
use esr_seq::{Seq, Text};
use esr_source::{Shard, Target};
use std::alloc::Global;

impl<D: Depot, K: Told, H: Shard, T: Target> Client for Solo<D, K, H, T> {
    fn ask(&mut self, alloc: Global, command: &Command) -> Attempt<u64> {
        if self.left == 0 {
            return Err(StepRefusal::TurnsSpent);
        }
        let answer = esr_client::ask(&mut self.repo, alloc, command);
        spend(&mut self.left, &self.repo, &answer);
        answer
    }

    fn clone_snapshot(&mut self, alloc: Global, ask: &CloneAsk<'_>) -> Attempt<u64> {
        if self.left == 0 {
            return Err(StepRefusal::TurnsSpent);
        }
        let answer = esr_client::clone_snapshot(&mut self.repo, alloc, ask);
        spend(&mut self.left, &self.repo, &answer);
        answer
    }

    fn restore(
        &mut self,
        alloc: Global,
        name: &SnapName,
        place: &Text,
    ) -> Attempt<AcceptedRestore> {
        if self.left == 0 {
            return Err(StepRefusal::TurnsSpent);
        }
        let answer = esr_client::restore(&mut self.repo, alloc, name, place);
        spend(&mut self.left, &self.repo, &answer);
        answer
    }

    fn look(&mut self, alloc: Global) -> Attempt<Look> {
        if self.left == 0 {
            return Err(StepRefusal::TurnsSpent);
        }
        let answer = esr_client::look(&mut self.repo, alloc);
        spend(&mut self.left, &self.repo, &answer);
        answer
    }

    fn end_check(&mut self, alloc: Global, snapshots: u64, blobs: u64) -> Attempt {
        if self.left == 0 {
            return Err(StepRefusal::TurnsSpent);
        }
        let answer = esr_client::end_check(&mut self.repo, alloc, snapshots, blobs);
        spend(&mut self.left, &self.repo, &answer);
        answer
    }

    fn draw_test(&mut self, alloc: Global) -> Attempt<Id> {
        if self.left == 0 {
            return Err(StepRefusal::TurnsSpent);
        }
        let answer = esr_client::draw_test(&mut self.repo, alloc);
        spend(&mut self.left, &self.repo, &answer);
        answer
    }

    fn begin_test(&mut self, alloc: Global, blob: NewBlob) -> Attempt<Named<D::Stage>> {
        if self.left == 0 {
            return Err(StepRefusal::TurnsSpent);
        }
        let answer = esr_client::begin_test(&mut self.repo, alloc, blob.name, blob.room);
        spend(&mut self.left, &self.repo, &answer);
        answer
    }

    fn commit_test(&mut self, alloc: Global, name: BlobName, stage: D::Stage) -> Attempt {
        if self.left == 0 {
            return Err(StepRefusal::TurnsSpent);
        }
        let answer = esr_client::commit_test(&mut self.repo, alloc, Named { name, stage });
        spend(&mut self.left, &self.repo, &answer);
        answer
    }

    fn remove_tests(&mut self, alloc: Global, names: &Seq<BlobName>) -> Attempt {
        if self.left == 0 {
            return Err(StepRefusal::TurnsSpent);
        }
        let answer = esr_client::remove_tests(&mut self.repo, alloc, names);
        spend(&mut self.left, &self.repo, &answer);
        answer
    }

    fn end_verification(&mut self, alloc: Global) -> Attempt {
        if self.left == 0 {
            return Err(StepRefusal::TurnsSpent);
        }
        let answer = esr_client::end_verification(&mut self.repo, alloc);
        spend(&mut self.left, &self.repo, &answer);
        answer
    }
}
