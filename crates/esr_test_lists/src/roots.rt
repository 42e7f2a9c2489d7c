//! Cases of kind `root`: the root that finalizations make, one after another, of an empty one.
//!
//! - `finalize NAME ID GENERATION` finalizes a snapshot of that name and uuid, of one index `logs` of one shard, which was done at that
//!   generation, and is answered by the text of the root;
//! - `length` is answered by how many bytes that text has.
ghost use Rattle.std.specs.Prelude.{◌≡◌, ◌∷◌, [], ◌+◌, ◌^◌, codes, IfOk};
ghost use Rattle.std.specs.List.{list_any};
ghost use Rattle.esr_test_lists.specs.Free.{takes_one, is_other};

use crate::trouble::{Done, Trouble};
use crate::words::id_of;
use esr_meta::SnapInfo;
use esr_names::{Id, IndexName, IndexRef, IndexRefs, ShardId, SnapName};
use esr_newroot::finalized;
use esr_results::{ShardResult, ShardResults};
use esr_root::{RootData, RootIndex, RootSnap, root_text};
use esr_scenes::{Words, one, say_bytes, say_number};
use std::alloc::{AllocError, Global};

/// One index `logs` of so many shards.
pub(crate) fn indices_of(alloc: Global, shards: u32) -> Result<IndexRefs, Trouble>
    ensures { IfOk result (λ r. r ≡ record { id = record { number = 2 ^ 64 + 1 }; name = codes "logs"; shards = shards } ∷ []) }
{
    let index = IndexRef {
        id: Id::new(1, 1),
        name: IndexName::new(alloc, "logs")?,
        shards,
    };
    Ok(one(alloc, index)?)
}

/// The info of a snapshot.
fn info_of(alloc: Global, name: &str, uuid: Id) -> Result<SnapInfo, Trouble>
    ensures { IfOk result (λ i. i ≡ record {
      bytes = 0;
      files = 0;
      moment = 0;
      name = name.now;
      state = 1;
      uuid = uuid;
      indices = record { id = record { number = 2 ^ 64 + 1 }; name = codes "logs"; shards = 1 } ∷ [];
    }) }
{
    Ok(SnapInfo {
        bytes: 0,
        files: 0,
        indices: indices_of(alloc, 1)?,
        moment: 0,
        name: SnapName::new(alloc, name)?,
        state: 1,
        uuid,
    })
}

/// What its shard reports.
fn results_of(alloc: Global, generation: Id) -> Result<ShardResults, AllocError>
    ensures { IfOk result (λ r. r ≡ record {
      shard = record { index = record { number = 2 ^ 64 + 1 }; number = 0 };
      generation = generation;
      files = 0;
      bytes = 0;
    } ∷ []) }
{
    let shard = ShardId {
        index: Id::new(1, 1),
        number: 0,
    };
    one(
        alloc,
        ShardResult {
            shard,
            generation,
            files: 0,
            bytes: 0,
        },
    )
}

/// Whether a snapshot has the name or the uuid.
fn takes_one(snap: &RootSnap, name: &str, uuid: Id) -> bool
    ensures { result ≡ takes_one name.now uuid.number snap.now }
{
    snap.name.as_str() == name || snap.uuid.number == uuid.number
}

fn any_takes(snaps: &[RootSnap], name: &str, uuid: Id) -> bool
    ensures { result ≡ list_any (takes_one name.now uuid.number) snaps.now }
{
    snaps.iter().any(|snap| takes_one(snap, name, uuid))
}

/// Whether an index has either the name or the id of `logs`.
fn is_other(index: &RootIndex) -> bool
    ensures { result ≡ is_other index.now }
{
    if index.name.as_str() == "logs" {
        index.id.number != (1 << 64) + 1
    } else {
        index.id.number == (1 << 64) + 1
    }
}

fn any_other(indices: &[RootIndex]) -> bool
    ensures { result ≡ list_any is_other indices.now }
{
    indices.iter().any(|index| is_other(index))
}

/// The root with a snapshot more.
fn with_snapshot(
    alloc: Global,
    root: &RootData,
    name: &str,
    uuid: Id,
    generation: Id,
) -> Result<RootData, Trouble> {
    if any_takes(root.snapshots.as_slice(), name, uuid) {
        return Err(Trouble::Unread("the root has its name or its uuid"));
    }
    if any_other(root.indices.as_slice()) {
        return Err(Trouble::Unread("the root has another index"));
    }
    let info = info_of(alloc, name, uuid)?;
    let results = results_of(alloc, generation)?;
    Ok(finalized(alloc, root, &info, &results)?)
}

/// The root of a case.
#[derive(Drop)]
pub(crate) struct Growing {
    root: RootData,
}

impl Growing {
    pub(crate) fn new(alloc: Global) -> Growing {
        Growing {
            root: RootData::new(alloc),
        }
    }

    /// Says its text.
    fn say_text(&self, alloc: Global, said: &mut String) -> Result<(), AllocError> {
        say_bytes(said, root_text(alloc, &self.root)?.as_slice());
        Ok(())
    }

    /// Adds a snapshot, and says the text of the root then.
    fn finalize(&mut self, alloc: Global, words: &mut Words, said: &mut String) -> Done {
        let name = words.word();
        let (uuid, generation) = (id_of(words), id_of(words));
        let generation = words.end(generation)?;
        self.root = with_snapshot(alloc, &self.root, name, uuid, generation)?;
        Ok(self.say_text(alloc, said)?)
    }

    /// Says what a line of a case is answered.
    pub(crate) fn say_answer(&mut self, alloc: Global, line: &str, said: &mut String) -> Done {
        let mut words = Words::new(line);
        match words.word() {
            "finalize" => self.finalize(alloc, &mut words, said),
            "length" => {
                say_number(said, root_text(alloc, &self.root)?.len() as u64);
                Ok(())
            }
            _ => Err(Trouble::Unread("no such line of a root")),
        }
    }
}
