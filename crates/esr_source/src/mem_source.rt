//! Sources in memory.
ghost use Rattle.std.specs.Prelude.{◌≡◌, ◌&&◌, Some, None, true, IfOk, option_map, is_some, if◌then◌else◌};
ghost use Rattle.std.specs.Option.{option_copied};
ghost use Rattle.esr_source.specs.MemSources.{may_list, listing, told_files, source_at, files_at, files_at-listing};
ghost use Rattle.esr_source.specs.Plan.{is_unplanned};
ghost use Rattle.esr_source.specs.Address.{address};

use crate::address::Address;
use crate::files::{Files, MemFile, is_listing, listing_of};
use crate::plan::{Call, FailingAt, Meter, plan_at};
use crate::source::{New, Shard, Sources};
use crate::unread::Unread;
use esr_depot::{CallError, Counted, Failed};
use esr_seq::{Bytes, Seq, TryClone, copies_of};
use std::alloc::{AllocError, Global};

/// The files of one shard in memory.
#[derive(Debug, Drop)]
pub struct MemSource {
    pub address: Address,
    pub files: Seq<MemFile>,
}

/// Sources in memory. Of several with one address the first counts. The place of a shard exists where one has its
/// address and files that may be listed.
#[derive(Drop)]
pub struct MemSources {
    pub sources: Seq<MemSource>,
    pub plan: Seq<FailingAt>,
}

/// A copy of a shard's files that is being read. It has none where the place doesn't exist.
#[derive(Drop)]
pub struct MemShard {
    address: Address,
    files: Option<Seq<MemFile>>,
    is_listed: bool,
    unread: Unread,
    meter: Meter,
    ghost ordered: { may_list files ≡ true },
}

impl MemSources {
    pub fn new(sources: Seq<MemSource>, plan: Seq<FailingAt>) -> MemSources
        ensures { result ≡ record { sources = sources; plan = plan } }
    {
        MemSources { sources, plan }
    }

    /// A copy of the files at that address, where its place exists.
    fn files_at(&self, alloc: Global, address: &Address) -> Result<Option<Seq<MemFile>>, AllocError>
        ensures { IfOk result (λ files. files ≡ files_at address.now self.now.sources) }
    {
        let Some(files) = source_at(self.sources.as_slice(), address) else {
            return Ok(None);
        };
        let listing = listing_of(alloc, files)?;
        if !is_listing(listing.as_slice()) {
            return Ok(None);
        }
        Ok(Some(Seq::from_vec(copies_of(alloc, files)?)))
    }
}

/// The files of the first source of that address.
fn source_at<'a>(sources: &'a [MemSource], address: &Address) -> Option<&'a [MemFile]>
    ensures { option_copied result ≡ source_at address.now sources.now }
{
    for source in sources {
        if source.address == *address {
            return Some(source.files.as_slice());
        }
    }
    None
}

impl Counted for MemShard {
    ghost faults = { λ s. s.meter.faults };

    fn fault_count(&self) -> u64 {
        self.meter.faults
    }
}

impl MemShard {
    /// What it lists, where its place exists.
    fn listed(&self, alloc: Global) -> Result<Option<Files>, AllocError>
        ensures { IfOk result (λ listed. listed ≡ option_map listing self.now.files) }
    {
        match &self.files {
            None => Ok(None),
            Some(files) => Ok(Some(listing_of(alloc, files.as_slice())?)),
        }
    }
}

impl Shard for MemShard {
    ghost told = { λ s. record {
      address = s.address;
      files = told_files s.files;
      is_there = Some (is_some s.files);
      is_sure = is_some s.files && is_unplanned s.meter.failing.items;
      listed = if s.is_listed then option_map listing s.files else None;
      left = Some s.unread;
    } };

    fn list(&mut self, alloc: Global) -> Result<Files, CallError> {
        let listed = self.listed(alloc)?;
        if self.meter.fails(Call::List) {
            return Err(CallError::Failed);
        }
        let Some(listed) = listed else {
            self.meter.fault();
            return Err(CallError::Failed);
        };
        self.is_listed = true;
        Ok(listed)
    }

    fn start(&mut self, alloc: Global, file: usize) -> Result<(), CallError> {
        let bytes = match &self.files {
            None => Bytes::new(alloc),
            Some(files) => files.as_slice()[file].bytes.try_clone(alloc)?,
        };
        if self.meter.fails(Call::Start) {
            return Err(CallError::Failed);
        }
        self.unread = Unread::new(bytes);
        Ok(())
    }

    fn read(&mut self, buf: &mut [u8]) -> Result<usize, Failed> {
        if self.meter.fails(Call::Read) {
            return Err(Failed);
        }
        Ok(self.unread.read(buf))
    }
}

impl Sources for MemSources {
    type Shard = MemShard;

    ghost told = { λ s. record {
      files = λ place index number. told_files (files_at (address place index number) s.sources);
      is_there = λ place index number. Some (is_some (files_at (address place index number) s.sources));
      is_quiet = is_unplanned s.plan;
    } };

    ghost may_be_listed = { λ s place index number. files_at-listing (address place index number) s.sources };

    fn shard(&self, alloc: Global, place: &str, index: &str, number: u32) -> New<Self::Shard> {
        let address = Address::new(alloc, place, index, number)?;
        let files = self.files_at(alloc, &address)?;
        let plan = plan_at(alloc, self.plan.as_slice(), &address)?;
        Ok(MemShard {
            address,
            files,
            is_listed: false,
            unread: Unread::new(Bytes::new(alloc)),
            meter: Meter::new(plan),
        })
    }
}
