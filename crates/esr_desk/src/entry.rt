//! The history of a repository's steps.
use crate::EntryRefusal;
use esr_depot::Listing;
use esr_hash::Print;
use esr_json::Reason;
use esr_meta::SnapInfo;
use esr_names::{BlobName, Id, Ids, IndexNames, IndexRefs, ShardId, SnapName};
use esr_ops::Command;
use esr_results::{PrunedShards, ShardResult, ShardResults};
use esr_root::RootSnaps;
use esr_seq::{Seq, Text};
use std::marker::Model;

/// Why a unit failed.
#[derive(Clone, Copy, Debug)]
pub enum Why {
    /// A call of the container, a stage or a fetch failed.
    Depot,
    /// A call of the shard's source failed.
    Source,
    /// A file had these two prints, one after the other.
    Changed {
        first: Print,
        second: Print,
    },
    /// A blob of this name was absent.
    Absent {
        name: BlobName,
    },
    /// What was fetched of this blob doesn't read, for this reason.
    Unreadable {
        name: BlobName,
        reason: Reason,
    },
    /// The index on which a shard builds reads, but has this id, which it can't have yet.
    Ahead {
        name: BlobName,
        id: Id,
    },
    /// A blob of this name, which the unit was to commit, was there already.
    NameTaken {
        name: BlobName,
    },
    /// This delete aborted the op of the unit.
    Aborted {
        by: u64,
    },
    /// The term has too few ids left from this one on.
    IdsSpent {
        next: Id,
    },
    /// The last generation, 2^63 - 1, was given out.
    GenerationsSpent {
        number: i64,
    },
    /// A call of a restore's target failed.
    Target,
    /// A file, of which this blob is a part, has another print than is stated.
    Misprinted {
        name: BlobName,
        stated: Print,
        found: Print,
    },
    /// These two blobs read, but don't agree.
    Disagreeing {
        name: BlobName,
        other: BlobName,
    },
}

/// Names of blobs.
pub type BlobNames = Seq<BlobName>;

/// A step of a restore's ticket, or of a caller that checks the repository or verifies the container.
#[derive(Drop)]
pub enum Read {
    Blob { name: BlobName },
    /// A shard is restored: so many files, of so many bytes.
    Restored { files: u64, bytes: u64 },
    /// A check has read all: so many snapshots and blobs.
    Checked { snapshots: u64, blobs: u64 },
    /// A verification draws an id, commits test blobs under it, fetches and removes them.
    DrawTest,
    BeginTest { name: BlobName },
    CommitTest { name: BlobName },
    RemoveTests { names: BlobNames },
    Verified,
    Failed { why: Why },
}

/// A step of the ticket of a delete or cleanup, its writing and listing aside.
#[derive(Drop)]
pub enum Prune {
    /// The index of a shard is fetched.
    Shard { name: BlobName },
    /// These are the shards whose generation goes.
    Plan { shards: PrunedShards },
    Settle,
    Remove { names: BlobNames },
    End,
    Failed { why: Why },
}

/// A clone that is asked for: of the snapshot `source` under a name, of these indices, or of all where none is named.
#[derive(Clone, Copy)]
pub struct CloneAsk<'a> {
    pub source: &'a SnapName,
    pub name: &'a SnapName,
    pub indices: &'a IndexNames,
    pub moment: u64,
}

/// What a clone takes: the snapshot that it copies, and these of its indices.
#[derive(Drop)]
pub struct CloneOf {
    pub source: Id,
    pub indices: IndexRefs,
}

/// What was asked.
pub enum Step {
    Ask {
        command: Command,
    },
    /// A clone that no rule refuses, with what it takes.
    AskClone {
        source: SnapName,
        name: SnapName,
        indices: IndexNames,
        moment: u64,
        taken: CloneOf,
    },
    Take,
    Draw {
        count: u64,
    },
    Begin {
        name: BlobName,
    },
    Commit {
        name: BlobName,
    },
    Latest,
    Fetch {
        name: BlobName,
    },
    /// A page of the container's blobs is listed: those after this name, or from the first one on.
    List {
        after: Option<Text>,
    },
    Raise,
    Settle,
    Done {
        result: ShardResult,
    },
    Failed {
        why: Why,
    },
    Finish,
    Dropped,
    Elect,
    Look,
    Read {
        read: Read,
    },
    Prune {
        prune: Prune,
    },
}

impl Drop for Step {
    // Not derived: each crate above would prove a derived one again.
    fn drop(self) {
        match self {
            Step::Ask { command: _command } => {}
            Step::AskClone {
                source: _source,
                name: _name,
                indices: _indices,
                moment: _,
                taken: _taken,
            } => {}
            Step::Draw { count: _ } => {}
            Step::Begin { name: _ } | Step::Commit { name: _ } | Step::Fetch { name: _ } => {}
            Step::List { after: _after } => {}
            Step::Done { result: _ } => {}
            Step::Failed { why: _ } => {}
            Step::Read { read: _read } => {}
            Step::Prune { prune: _prune } => {}
            Step::Take | Step::Latest | Step::Raise | Step::Settle => {}
            Step::Finish | Step::Dropped | Step::Elect | Step::Look => {}
        }
    }
}

/// The unit that a ticket was given.
#[derive(Drop)]
pub enum Given {
    /// A shard, with the largest live generation.
    Shard {
        shard: ShardId,
        base: Option<Id>,
    },
    Finalize {
        info: SnapInfo,
        shards: ShardResults,
    },
    Drop,
    /// A shard of a restore of the snapshot `uuid`.
    RestoreShard {
        shard: ShardId,
        uuid: Id,
    },
    /// A shard of a clone of the snapshot `source`, with the largest live generation.
    CloneShard {
        shard: ShardId,
        source: Id,
        base: Option<Id>,
    },
    Delete {
        uuids: Ids,
    },
    Cleanup,
}

/// What was answered.
pub enum Answer {
    Accepted {
        op: u64,
    },
    /// A restore of the snapshot `uuid`, which has these indices.
    AcceptedRestore {
        op: u64,
        uuid: Id,
        indices: IndexRefs,
    },
    NothingReady,
    Gave {
        ticket: u64,
        op: u64,
        unit: Given,
    },
    Drawn {
        first: Id,
    },
    Begun,
    /// The blob was added.
    Done,
    /// A blob of the name was there.
    Exists,
    Replaced,
    Fetched,
    Absent,
    Listed {
        page: Listing,
    },
    /// The test blobs are gone.
    Removed,
    Raised {
        generation: u64,
    },
    Settled,
    Ended,
    Elected {
        term: u64,
    },
    Looked {
        snapshots: RootSnaps,
        safe: i64,
    },
    Refused {
        refusal: EntryRefusal,
    },
}

impl Drop for Answer {
    // Not derived: each crate above would prove a derived one again.
    fn drop(self) {
        match self {
            Answer::Accepted { op: _ } => {}
            Answer::AcceptedRestore {
                op: _,
                uuid: _,
                indices: _indices,
            } => {}
            Answer::Gave {
                ticket: _,
                op: _,
                unit: _unit,
            } => {}
            Answer::Drawn { first: _ } => {}
            Answer::Listed { page: _page } => {}
            Answer::Raised { generation: _ } => {}
            Answer::Elected { term: _ } => {}
            Answer::Looked {
                snapshots: _snapshots,
                safe: _,
            } => {}
            Answer::Refused { refusal: _ } => {}
            Answer::NothingReady | Answer::Begun | Answer::Done | Answer::Exists => {}
            Answer::Replaced | Answer::Fetched | Answer::Absent | Answer::Removed => {}
            Answer::Settled | Answer::Ended => {}
        }
    }
}

/// A step with its answer. `who` is the ticket from 1 on that made it, or 0: a caller at a line of the script, or a take.
pub struct Entry {
    pub who: u64,
    pub step: Step,
    pub answer: Answer,
}

impl Drop for Entry {
    // Not derived: each crate above would prove a derived one again.
    fn drop(self) {
        let Entry {
            who: _,
            step: _step,
            answer: _answer,
        } = self;
    }
}

impl Model for Entry {
    ghost use Rattle.esr_core.specs.Entry.{Entry as Told};

    ghost Value = { Told };

    ghost use Rattle.esr_desk.specs.Entries.{step_of, answer_of};

    ghost view = { λ e. record { who = e.who; step = step_of e.step; reply = answer_of e.answer } };
}

/// The entries in order.
pub type History = Seq<Entry>;
