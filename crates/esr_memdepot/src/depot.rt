//! A container in memory.
ghost use Rattle.std.specs.Prelude.{◌≡◌, ◌+◌, ◌-◌, ◌^◌, ◌≤◌, ℕ, List, Option, Some, None, [], true, false, map, drop, length, take, option_copied, option_map, IfOk, IfSome};
ghost use Rattle.esr_memdepot.specs.Past.{all_dated};

use crate::blob::{KeptBlob, copy_left, find, keep, remove_left};
use crate::fetch::MemFetch;
use crate::listing::listing;
use crate::meter::{Meter, Turn};
use crate::plan::{Call, Leaves, Plan, failing_numbers};
use crate::stage::MemStage;
use crate::text::{KeptText, copy_texts, keep_text, text_now};
use esr_depot::{CallError, Commit, Counted, Depot, Failed, Names, Pages};
use esr_seq::{Bytes, Seq, Text};
use std::alloc::{AllocError, Global};

/// A container in memory. It keeps all that it ever had, with the moments when it came and went, so it tells its image at
/// each moment and what a crash would have left. At the last value of its clock each call fails and leaves all as it was.
#[derive(Drop)]
pub struct MemDepot {
    meter: Meter,
    blobs: Vec<KeptBlob>,
    texts: Vec<KeptText>,
    ghost dated: { all_dated meter.clock blobs.items texts.items ≡ true },
}

impl Counted for MemDepot {
    ghost faults = { λ d. d.meter.faults };

    fn fault_count(&self) -> u64 {
        self.meter.faults
    }
}

impl MemDepot {
    ghost use Rattle.esr_depot.specs.Image.{Image, with_blob, with_text, without};
    ghost use Rattle.esr_depot.specs.Look.{now};
    ghost use Rattle.esr_depot.specs.Calls.{up, HasCause, Serves, Called, SameImage, is_wanting, has_failed, without_memory};
    ghost use Rattle.esr_depot.specs.Changes.{Replaced, ReplaceMay, Swapped, SwapMay};
    ghost use Rattle.esr_memdepot.specs.Meter.{sure_calls};
    ghost use Rattle.esr_memdepot.specs.Past.{no_image, found, is_there, last_text};
    ghost use Rattle.esr_memdepot.specs.Plan.{numbers_of};
    ghost use Rattle.esr_memdepot.specs.MemDepot.{memory_look, memory_image, memory_left, next_turn, left_by, Went, IsFresh};

    /// An empty container at moment 0. The calls of the plan fail.
    pub fn new(alloc: Global, plan: Plan) -> MemDepot
        ensures image { now (memory_look result) ≡ Some no_image }
        ensures fresh { IsFresh plan result }
        ensures sure { plan ≡ [] → (memory_look result).sure ≡ 2 ^ 64 - 1 }
    {
        MemDepot {
            meter: Meter::new(plan),
            blobs: Vec::new(alloc),
            texts: Vec::new(alloc),
        }
    }

    /// The container after a crash in the call that was made when the clock stood at that moment, or at that moment where
    /// no call was made then. No call of it is to fail, and its clock begins anew.
    pub fn cut(&self, alloc: Global, moment: u64, leaves: Leaves) -> Result<MemDepot, AllocError>
        ensures image { IfOk result (λ d. now (memory_look d) ≡ Some (memory_left moment leaves self.now)) }
        ensures left { IfOk result (λ d. (i : Image) → now (memory_look d) ≡ Some i → (memory_look self.now).since moment i) }
        ensures fresh { IfOk result (λ d. IsFresh [] d) }
        ensures sure { IfOk result (λ d. (memory_look d).sure ≡ 2 ^ 64 - 1) }
    {
        let blobs = copy_left(alloc, &self.blobs, moment, leaves)?;
        let texts = copy_texts(alloc, &self.texts, moment, leaves)?;
        Ok(MemDepot {
            meter: Meter::new(Seq::new(alloc)),
            blobs,
            texts,
        })
    }

    /// A call that leaves the image, whatever it answers.
    fn look(&mut self, call: Call) -> Result<(), CallError>
        ensures went { Went self.old.meter self.new.meter call result (memory_image self.old) (memory_image self.new) }
        ensures memory { is_wanting result ≡ false }
        ensures call { Called (memory_look self.old) (memory_look self.new) (λ _. SameImage) SameImage result }
        ensures cause { HasCause self.old.meter.faults self.new.meter.faults (has_failed result) }
        ensures sure { Serves (sure_calls self.old.meter) (sure_calls self.new.meter) (has_failed result) }
    {
        match self.meter.turn(call) {
            Turn::Over => Err(CallError::Failed),
            Turn::Served => Ok(()),
            Turn::Fails(_) => Err(CallError::Failed),
        }
    }

    /// Puts a blob. Where it fails, the old state stands or the new one.
    fn land(&mut self, call: Call, name: Text, bytes: Bytes) -> Result<(), CallError>
        ensures went { Went self.old.meter self.new.meter call result
            (left_by (next_turn self.old.meter call) (memory_image self.old) (with_blob (memory_image self.old) name bytes))
            (memory_image self.new) }
        ensures call { Called (memory_look self.old) (memory_look self.new)
            (λ _. Replaced name (Some bytes)) (ReplaceMay name (Some bytes)) result }
        ensures memory { is_wanting result ≡ true → self.new.meter ≡ self.old.meter }
        ensures cause { HasCause self.old.meter.faults self.new.meter.faults (has_failed result) }
        ensures sure { Serves (sure_calls self.old.meter) (sure_calls self.new.meter) (has_failed result) }
    {
        self.blobs.reserve(1)?;
        match self.meter.turn(call) {
            Turn::Over => Err(CallError::Failed),
            Turn::Served => {
                keep(&mut self.blobs, name, bytes, self.meter.clock, true);
                Ok(())
            }
            Turn::Fails(leaves) => {
                keep(
                    &mut self.blobs,
                    name,
                    bytes,
                    self.meter.clock,
                    leaves.is_new(),
                );
                Err(CallError::Failed)
            }
        }
    }

    /// Puts a text of the record. Where it fails, the old one stands or the new one.
    fn land_text(&mut self, bytes: Bytes) -> Result<(), CallError>
        ensures went { Went self.old.meter self.new.meter Call.SwapRecord result
            (left_by (next_turn self.old.meter Call.SwapRecord) (memory_image self.old) (with_text (memory_image self.old) bytes))
            (memory_image self.new) }
        ensures call { Called (memory_look self.old) (memory_look self.new) (λ _. Swapped bytes) (SwapMay bytes) result }
        ensures memory { is_wanting result ≡ true → self.new.meter ≡ self.old.meter }
        ensures cause { HasCause self.old.meter.faults self.new.meter.faults (has_failed result) }
        ensures sure { Serves (sure_calls self.old.meter) (sure_calls self.new.meter) (has_failed result) }
    {
        self.texts.reserve(1)?;
        match self.meter.turn(Call::SwapRecord) {
            Turn::Over => Err(CallError::Failed),
            Turn::Served => {
                let came = self.meter.clock;
                keep_text(
                    &mut self.texts,
                    KeptText {
                        bytes,
                        came,
                        stands: true,
                    },
                );
                Ok(())
            }
            Turn::Fails(leaves) => {
                let came = self.meter.clock;
                let stands = leaves.is_new();
                keep_text(
                    &mut self.texts,
                    KeptText {
                        bytes,
                        came,
                        stands,
                    },
                );
                Err(CallError::Failed)
            }
        }
    }

    /// What the next begin gives.
    fn new_stage(&self, alloc: Global, name: &str, room: usize) -> Result<MemStage, AllocError>
        ensures name { IfOk result (λ s. s.name ≡ name.now) }
        ensures bytes { IfOk result (λ s. s.bytes.items ≡ []) }
        ensures room { IfOk result (λ s. s.room ≡ room) }
        ensures mishaps { let begin = up self.now.meter.counts.begins in IfOk result (λ s. s.mishaps
            ≡ record { calls = 0; faults = 0; failing = numbers_of self.now.meter.plan (Call.StageWrite begin) }) }
    {
        let begin = self.meter.counts.begins.saturating_add(1);
        let failing = failing_numbers(alloc, &self.meter.plan, Call::StageWrite { begin })?;
        MemStage::new(alloc, name, room, failing)
    }

    /// What the next fetch gives.
    fn copy_of(&self, alloc: Global, name: &str) -> Result<Option<MemFetch>, AllocError>
        ensures bytes { IfOk result (λ o. option_map (λ f. drop f.at f.bytes) o
            ≡ found is_there name.now self.now.blobs.items None) }
        ensures mishaps { let fetch = up self.now.meter.counts.fetches in IfOk result (λ o. IfSome o (λ f. f.mishaps
            ≡ record { calls = 0; faults = 0; failing = numbers_of self.now.meter.plan (Call.FetchRead fetch) })) }
    {
        let fetch = self.meter.counts.fetches.saturating_add(1);
        let failing = failing_numbers(alloc, &self.meter.plan, Call::FetchRead { fetch })?;
        match find(&self.blobs, name) {
            None => Ok(None),
            Some(bytes) => Ok(Some(MemFetch::new(alloc, bytes, failing)?)),
        }
    }

    /// A copy of the record's text.
    fn record_text(&self, alloc: Global) -> Result<Option<Bytes>, AllocError>
        ensures { IfOk result (λ o. o ≡ last_text (λ x. x.stands) self.now.texts.items None) }
    {
        match text_now(&self.texts) {
            None => Ok(None),
            Some(bytes) => Ok(Some(Bytes::from_slice(alloc, bytes)?)),
        }
    }
}

// Each call has the trait's clauses, and `went`: how it goes by the plan.
impl Depot for MemDepot {
    type Stage = MemStage;

    type Fetch = MemFetch;

    ghost use Rattle.std.specs.Prelude.{◌<◌, IsTrue};
    ghost use Rattle.esr_depot.specs.Image.{Image, with_blob, with_text, without, blob_known, sizes_of, IsFree, IsTaken};
    ghost use Rattle.esr_depot.specs.Listing.{size_of, page_from, IsPage};
    ghost use Rattle.esr_depot.specs.Look.{now};
    ghost use Rattle.esr_depot.specs.Calls.{up, HasCause, Serves, Called, SameImage, is_wanting, has_failed, without_memory};
    ghost use Rattle.esr_depot.specs.Changes.{Committed, CommitMay, Replaced, ReplaceMay, Swapped, SwapMay, Removed, RemoveMay};
    ghost use Rattle.esr_memdepot.specs.Meter.{sure_calls};
    ghost use Rattle.esr_memdepot.specs.Plan.{numbers_of};
    ghost use Rattle.esr_memdepot.specs.Stages.{is_none_planned};
    ghost use Rattle.esr_memdepot.specs.MemDepot.{memory_look, memory_image, next_turn, left_by, taken_by, committed_image, Went};
    ghost use Rattle.esr_memdepot.specs.Laws.{counts_now as counts_now_law, only_now as only_now_law};

    ghost look = { memory_look };

    ghost counts_now = { λ d t i le is. counts_now_law d.meter.clock d.blobs.items d.texts.items t i is };

    ghost only_now = { λ d i left. only_now_law d.meter.clock d.blobs.items d.texts.items i left };

    fn begin(&mut self, alloc: Global, name: &str, room: usize) -> Result<MemStage, CallError>
        ensures name { IfOk result (λ s. s.name ≡ name.now) }
        ensures room { IfOk result (λ s. s.room ≡ room) }
        ensures contents { IfOk result (λ s. Some s.bytes.items ≡ option_map (λ _. []) (now (memory_look self.old))) }
        ensures count { IfOk result (λ s. s.mishaps.faults ≡ 0) }
        ensures sure_stage { IfOk result (λ s. 0 < (memory_look self.old).sure → IsTrue (is_none_planned s.mishaps.failing)) }
        ensures call { Called (memory_look self.old) (memory_look self.new)
            (λ _. SameImage) SameImage result }
        ensures memory { is_wanting result ≡ true → self.new.meter.faults ≡ self.old.meter.faults }
        ensures cause { HasCause self.old.meter.faults self.new.meter.faults (has_failed result) }
        ensures sure { Serves (sure_calls self.old.meter) (sure_calls self.new.meter) (has_failed result) }
        ensures went { Went self.old.meter self.new.meter Call.Begin result
            (memory_image self.old) (memory_image self.new) }
        ensures writes { let begin = up self.old.meter.counts.begins in IfOk result (λ s.
            s.mishaps.failing ≡ numbers_of self.old.meter.plan (Call.StageWrite begin)) }
    {
        let stage = self.new_stage(alloc, name, room)?;
        self.look(Call::Begin)?;
        Ok(stage)
    }

    fn commit(&mut self, alloc: Global, stage: MemStage) -> Result<Commit, CallError>
        ensures call { Called (memory_look self.old) (memory_look self.new)
            (Committed stage.name (Some stage.bytes.items)) (CommitMay stage.name (Some stage.bytes.items)) result }
        ensures memory { is_wanting result ≡ true → self.new.meter.faults ≡ self.old.meter.faults }
        ensures cause { HasCause self.old.meter.faults self.new.meter.faults (has_failed result) }
        ensures sure { Serves (sure_calls self.old.meter) (sure_calls self.new.meter) (has_failed result) }
        ensures went { Went self.old.meter self.new.meter Call.Commit result
            (left_by (next_turn self.old.meter Call.Commit) (memory_image self.old)
            (committed_image (memory_image self.old) stage.name stage.bytes.items)) (memory_image self.new) }
    {
        if find(&self.blobs, stage.name.as_str()).is_some() {
            self.look(Call::Commit)?;
            return Ok(Commit::Exists);
        }
        self.land(Call::Commit, stage.name, Bytes::from_vec(stage.bytes))?;
        Ok(Commit::Done)
    }

    fn replace(&mut self, alloc: Global, stage: MemStage) -> Result<(), CallError>
        ensures call { Called (memory_look self.old) (memory_look self.new)
            (λ _. Replaced stage.name (Some stage.bytes.items)) (ReplaceMay stage.name (Some stage.bytes.items)) result }
        ensures memory { is_wanting result ≡ true → self.new.meter.faults ≡ self.old.meter.faults }
        ensures cause { HasCause self.old.meter.faults self.new.meter.faults (has_failed result) }
        ensures sure { Serves (sure_calls self.old.meter) (sure_calls self.new.meter) (has_failed result) }
        ensures went { Went self.old.meter self.new.meter Call.Replace result
            (left_by (next_turn self.old.meter Call.Replace) (memory_image self.old)
            (with_blob (memory_image self.old) stage.name stage.bytes.items)) (memory_image self.new) }
    {
        self.land(Call::Replace, stage.name, Bytes::from_vec(stage.bytes))
    }

    fn fetch(&mut self, alloc: Global, name: &str) -> Result<Option<MemFetch>, CallError>
        ensures absent { result ≡ Ok None → IsFree (now (memory_look self.old)) name.now }
        ensures present { IfOk result (λ o. IfSome o (λ _. IsTaken (now (memory_look self.old)) name.now)) }
        ensures left { IfOk result (λ o. IfSome o (λ f.
            Some (drop f.at f.bytes) ≡ blob_known (now (memory_look self.old)) name.now)) }
        ensures count { IfOk result (λ o. IfSome o (λ f. f.mishaps.faults ≡ 0)) }
        ensures sure_fetch { IfOk result (λ o. IfSome o (λ f.
            0 < (memory_look self.old).sure → IsTrue (is_none_planned f.mishaps.failing))) }
        ensures call { Called (memory_look self.old) (memory_look self.new)
            (λ _. SameImage) SameImage result }
        ensures memory { is_wanting result ≡ true → self.new.meter.faults ≡ self.old.meter.faults }
        ensures cause { HasCause self.old.meter.faults self.new.meter.faults (has_failed result) }
        ensures sure { Serves (sure_calls self.old.meter) (sure_calls self.new.meter) (has_failed result) }
        ensures went { Went self.old.meter self.new.meter Call.Fetch result
            (memory_image self.old) (memory_image self.new) }
        ensures reads { let fetch = up self.old.meter.counts.fetches in IfOk result (λ o. IfSome o (λ f.
            f.mishaps.failing ≡ numbers_of self.old.meter.plan (Call.FetchRead fetch))) }
    {
        let found = self.copy_of(alloc, name)?;
        self.look(Call::Fetch)?;
        Ok(found)
    }

    fn list(&mut self, alloc: Global, after: Option<&str>) -> Result<Pages, CallError>
        ensures page { IfOk result (λ p. IsPage (option_copied after.entry) (map size_of p.page)) }
        ensures copy { IfOk result (λ p. p.copy ≡ p.page) }
        ensures listing { IfOk result (λ p. (i : Image) → now (memory_look self.old) ≡ Some i
            → map size_of p.page ≡ page_from (option_copied after.entry) (sizes_of i.blobs)) }
        ensures call { Called (memory_look self.old) (memory_look self.new)
            (λ _. SameImage) SameImage result }
        ensures memory { is_wanting result ≡ true → self.new.meter.faults ≡ self.old.meter.faults }
        ensures cause { HasCause self.old.meter.faults self.new.meter.faults (has_failed result) }
        ensures sure { Serves (sure_calls self.old.meter) (sure_calls self.new.meter) (has_failed result) }
        ensures went { Went self.old.meter self.new.meter Call.List result
            (memory_image self.old) (memory_image self.new) }
    {
        let pages = listing(alloc, &self.blobs, after)?;
        self.look(Call::List)?;
        Ok(pages)
    }

    fn remove(&mut self, names: &Names) -> Result<(), Failed>
        ensures call { Called (memory_look self.old) (memory_look self.new)
            (λ _. Removed names.now) (RemoveMay names.now) (without_memory result) }
        ensures cause { HasCause self.old.meter.faults self.new.meter.faults (has_failed (without_memory result)) }
        ensures sure { Serves (sure_calls self.old.meter) (sure_calls self.new.meter) (has_failed (without_memory result)) }
        ensures went { Went self.old.meter self.new.meter Call.Remove (without_memory result)
            (without (memory_image self.old)
            (take (taken_by (next_turn self.old.meter Call.Remove) (length names.now)) names.now)) (memory_image self.new) }
    {
        match self.meter.turn(Call::Remove) {
            Turn::Over => Err(Failed),
            Turn::Served => {
                remove_left(&mut self.blobs, names, Leaves::New, self.meter.clock);
                Ok(())
            }
            Turn::Fails(leaves) => {
                remove_left(&mut self.blobs, names, leaves, self.meter.clock);
                Err(Failed)
            }
        }
    }

    fn read_record(&mut self, alloc: Global) -> Result<Option<Bytes>, CallError>
        ensures text { IfOk result (λ o. (i : Image) → now (memory_look self.old) ≡ Some i → o ≡ i.text) }
        ensures call { Called (memory_look self.old) (memory_look self.new)
            (λ _. SameImage) SameImage result }
        ensures memory { is_wanting result ≡ true → self.new.meter.faults ≡ self.old.meter.faults }
        ensures cause { HasCause self.old.meter.faults self.new.meter.faults (has_failed result) }
        ensures sure { Serves (sure_calls self.old.meter) (sure_calls self.new.meter) (has_failed result) }
        ensures went { Went self.old.meter self.new.meter Call.ReadRecord result
            (memory_image self.old) (memory_image self.new) }
    {
        let text = self.record_text(alloc)?;
        self.look(Call::ReadRecord)?;
        Ok(text)
    }

    fn swap_record(&mut self, alloc: Global, text: &[u8]) -> Result<(), CallError>
        ensures call { Called (memory_look self.old) (memory_look self.new)
            (λ _. Swapped text.now) (SwapMay text.now) result }
        ensures memory { is_wanting result ≡ true → self.new.meter.faults ≡ self.old.meter.faults }
        ensures cause { HasCause self.old.meter.faults self.new.meter.faults (has_failed result) }
        ensures sure { Serves (sure_calls self.old.meter) (sure_calls self.new.meter) (has_failed result) }
        ensures went { Went self.old.meter self.new.meter Call.SwapRecord result
            (left_by (next_turn self.old.meter Call.SwapRecord) (memory_image self.old)
            (with_text (memory_image self.old) text.now)) (memory_image self.new) }
    {
        let bytes = Bytes::from_slice(alloc, text)?;
        self.land_text(bytes)
    }
}
