//! A container in memory that tells contracts nothing of what it holds.
ghost use Rattle.std.specs.Prelude.{◌≡◌, ◌≤◌};
ghost use Rattle.esr_depot.specs.Calls.{up};
ghost use Rattle.esr_depot.specs.Untold.{untold};

use crate::blob::{NewBlob, OpenBlob};
use esr_depot::{CallError, Commit, Counted, Depot, Failed, Names, Pages, page_of};
use esr_seq::{Bytes, Text, TryClone};
use std::alloc::Global;
use std::collections::BTreeMap;

#[derive(Drop)]
struct Blob {
    name: Text,
    bytes: Bytes,
}

/// Blobs by name, and the text of the record. No call fails but for want of memory.
#[derive(Drop)]
pub struct Store {
    blobs: Vec<Blob>,
    record: Option<Bytes>,
    /// How many calls were made.
    clock: u64,
}

impl Store {
    pub fn new(alloc: Global) -> Store {
        Store {
            blobs: Vec::new(alloc),
            record: None,
            clock: 0,
        }
    }

    fn find(&self, name: &str) -> Option<&Bytes> {
        for blob in &self.blobs {
            if blob.name.as_str() == name {
                return Some(&blob.bytes);
            }
        }
        None
    }

    /// A call was made.
    fn pass(&mut self)
        ensures clock { self.new.clock ≡ up self.old.clock }
        ensures later { self.old.clock ≤ self.new.clock }
    {
        self.clock = self.clock.saturating_add(1);
    }
}

impl Counted for Store {
    ghost faults = { λ _. 0 };

    fn fault_count(&self) -> u64 {
        0
    }
}

#[tactic(auto, using(esr_depot::specs::Untold::untold_called))]
impl Depot for Store {
    type Stage = NewBlob;

    type Fetch = OpenBlob;

    ghost look = { λ s. untold s.clock };

    ghost counts_now = { λ s t i le is. absurd Prim.cc };

    ghost only_now = { λ s i left. absurd left };

    fn begin(&mut self, alloc: Global, name: &str, room: usize) -> Result<NewBlob, CallError> {
        let name = Text::from_str(alloc, name)?;
        self.pass();
        Ok(NewBlob::new(name, Bytes::new(alloc), room))
    }

    fn commit(&mut self, _alloc: Global, stage: NewBlob) -> Result<Commit, CallError> {
        if self.find(stage.name.as_str()).is_some() {
            self.pass();
            return Ok(Commit::Exists);
        }
        let NewBlob { name, bytes, .. } = stage;
        self.blobs.push(Blob { name, bytes })?;
        self.pass();
        Ok(Commit::Done)
    }

    fn replace(&mut self, _alloc: Global, stage: NewBlob) -> Result<(), CallError> {
        let NewBlob { name, bytes, .. } = stage;
        self.blobs.reserve(1)?;
        self.blobs.retain(|blob| blob.name != name);
        self.blobs.push(Blob { name, bytes })?;
        self.pass();
        Ok(())
    }

    fn fetch(&mut self, alloc: Global, name: &str) -> Result<Option<OpenBlob>, CallError> {
        let found = match self.find(name) {
            Some(bytes) => Some(OpenBlob::new(bytes.try_clone(alloc)?)),
            None => None,
        };
        self.pass();
        Ok(found)
    }

    fn list(&mut self, alloc: Global, after: Option<&str>) -> Result<Pages, CallError> {
        let mut lengths = BTreeMap::new(alloc);
        for blob in &self.blobs {
            lengths.insert(blob.name.try_clone(alloc)?, blob.bytes.len() as u64)?;
        }
        let pages = page_of(alloc, after, lengths)?;
        self.pass();
        Ok(pages)
    }

    fn remove(&mut self, names: &Names) -> Result<(), Failed> {
        self.blobs
            .retain(|blob| !names.as_slice().contains(&blob.name));
        self.pass();
        Ok(())
    }

    fn read_record(&mut self, alloc: Global) -> Result<Option<Bytes>, CallError> {
        let text = match &self.record {
            Some(text) => Some(text.try_clone(alloc)?),
            None => None,
        };
        self.pass();
        Ok(text)
    }

    fn swap_record(&mut self, alloc: Global, text: &[u8]) -> Result<(), CallError> {
        self.record = Some(Bytes::from_slice(alloc, text)?);
        self.pass();
        Ok(())
    }
}
