//! The container of a repository.
ghost use Rattle.std.specs.Prelude.{◌≡◌, ◌≤◌, ◌<◌, ℕ, IsTrue, true, [], Option, Some, None, length, map, option_copied, option_map, IfOk, IfSome};
ghost use Rattle.esr_depot.specs.Image.{Image, blob_known, sizes_of, IsFree, IsTaken};
ghost use Rattle.esr_depot.specs.Listing.{size_of, page_from, IsPage};
ghost use Rattle.esr_depot.specs.Look.{Look, now};
ghost use Rattle.esr_depot.specs.Calls.{HasCause, Serves, Called, SameImage, is_wanting, has_failed, without_memory};
ghost use Rattle.esr_depot.specs.Changes.{Committed, CommitMay, Replaced, ReplaceMay, Removed, RemoveMay, Swapped, SwapMay};

use crate::counted::Counted;
use crate::error::{CallError, Failed};
use crate::fetch::Fetch;
use crate::listing::Pages;
use crate::stage::Stage;
use esr_seq::{Bytes, Seq, Text};
use std::alloc::Global;

/// What a commit found: the name was free and has the blob now, or it was taken.
#[derive(Clone, Copy, Debug, PartialEq, Eq)]
pub enum Commit {
    Done,
    Exists,
}

/// Names of blobs.
pub type Names = Seq<Text>;

/// Blobs by name, and one record. A call that doesn't want memory counts as a moment.
pub trait Depot: Counted + Drop {
    type Stage: Stage;

    type Fetch: Fetch;

    /// What it shows to proofs: its moments with their images, what a crash might leave, how many calls are sure.
    ghost look: { Self → Look };

    /// A new stage for a blob of that name, into which at most `room` bytes are to be written.
    fn begin(&mut self, alloc: Global, name: &str, room: usize) -> Result<Self::Stage, CallError>
        ensures name { IfOk result (λ s. Self.Stage.name s ≡ name.now) }
        ensures room { IfOk result (λ s. Self.Stage.room s ≡ room) }
        ensures contents { IfOk result (λ s. Self.Stage.contents s ≡ option_map (λ _. []) (now (look self.old))) }
        ensures count { IfOk result (λ s. Self.Stage.faults s ≡ 0) }
        ensures sure_stage { IfOk result (λ s. 0 < (look self.old).sure → IsTrue (Self.Stage.is_sure s)) }
        ensures call { Called (look self.old) (look self.new) (λ _. SameImage) SameImage result }
        ensures memory { is_wanting result ≡ true → Self.faults self.new ≡ Self.faults self.old }
        ensures cause { HasCause (Self.faults self.old) (Self.faults self.new) (has_failed result) }
        ensures sure { Serves (look self.old).sure (look self.new).sure (has_failed result) };

    /// Adds the whole blob where its name is free, and leaves the one that has the name. The stage is gone in each case.
    /// A failed commit, or one that a crash cuts off, adds the whole blob or nothing.
    fn commit(&mut self, alloc: Global, stage: Self::Stage) -> Result<Commit, CallError>
        ensures call { Called (look self.old) (look self.new)
            (Committed (Self.Stage.name stage) (Self.Stage.contents stage))
            (CommitMay (Self.Stage.name stage) (Self.Stage.contents stage)) result }
        ensures memory { is_wanting result ≡ true → Self.faults self.new ≡ Self.faults self.old }
        ensures cause { HasCause (Self.faults self.old) (Self.faults self.new) (has_failed result) }
        ensures sure { Serves (look self.old).sure (look self.new).sure (has_failed result) };

    /// Puts the whole blob, whether its name is free or taken. It is there for `index.latest` alone: every other blob is
    /// committed, so that none is ever written over. A failed replace, or one that a crash cuts off, leaves the old state
    /// or the new one. The stage is gone in each case.
    fn replace(&mut self, alloc: Global, stage: Self::Stage) -> Result<(), CallError>
        ensures call { Called (look self.old) (look self.new)
            (λ _. Replaced (Self.Stage.name stage) (Self.Stage.contents stage))
            (ReplaceMay (Self.Stage.name stage) (Self.Stage.contents stage)) result }
        ensures memory { is_wanting result ≡ true → Self.faults self.new ≡ Self.faults self.old }
        ensures cause { HasCause (Self.faults self.old) (Self.faults self.new) (has_failed result) }
        ensures sure { Serves (look self.old).sure (look self.new).sure (has_failed result) };

    /// The blob of that name, to be read from its first byte, or `None` exactly where there is none.
    fn fetch(&mut self, alloc: Global, name: &str) -> Result<Option<Self::Fetch>, CallError>
        ensures absent { result ≡ Ok None → IsFree (now (look self.old)) name.now }
        ensures present { IfOk result (λ o. IfSome o (λ _. IsTaken (now (look self.old)) name.now)) }
        ensures left { IfOk result (λ o. IfSome o (λ f. Self.Fetch.left f ≡ blob_known (now (look self.old)) name.now)) }
        ensures count { IfOk result (λ o. IfSome o (λ f. Self.Fetch.faults f ≡ 0)) }
        ensures sure_fetch { IfOk result (λ o. IfSome o (λ f. 0 < (look self.old).sure → IsTrue (Self.Fetch.is_sure f))) }
        ensures call { Called (look self.old) (look self.new) (λ _. SameImage) SameImage result }
        ensures memory { is_wanting result ≡ true → Self.faults self.new ≡ Self.faults self.old }
        ensures cause { HasCause (Self.faults self.old) (Self.faults self.new) (has_failed result) }
        ensures sure { Serves (look self.old).sure (look self.new).sure (has_failed result) };

    /// A page of the names with the lengths of their blobs, in the byte order of names: the first 1,000 after this name, or
    /// of all names. One of fewer ends the listing. The page is given twice.
    fn list(&mut self, alloc: Global, after: Option<&str>) -> Result<Pages, CallError>
        ensures page { IfOk result (λ p. IsPage (option_copied after.entry) (map size_of p.page)) }
        ensures listing { IfOk result (λ p. (i : Image) → now (look self.old) ≡ Some i
            → map size_of p.page ≡ page_from (option_copied after.entry) (sizes_of i.blobs)) }
        ensures copy { IfOk result (λ p. p.copy ≡ p.page) }
        ensures call { Called (look self.old) (look self.new) (λ _. SameImage) SameImage result }
        ensures memory { is_wanting result ≡ true → Self.faults self.new ≡ Self.faults self.old }
        ensures cause { HasCause (Self.faults self.old) (Self.faults self.new) (has_failed result) }
        ensures sure { Serves (look self.old).sure (look self.new).sure (has_failed result) };

    /// Takes away those of the names that are there. It takes no memory. Of a failed removal, or of one that a crash cuts
    /// off, any of the names may be gone.
    fn remove(&mut self, names: &Names) -> Result<(), Failed>
        requires { length names.now ≤ 1000 }
        ensures call { Called (look self.old) (look self.new)
            (λ _. Removed names.now) (RemoveMay names.now) (without_memory result) }
        ensures cause { HasCause (Self.faults self.old) (Self.faults self.new) (has_failed (without_memory result)) }
        ensures sure { Serves (look self.old).sure (look self.new).sure (has_failed (without_memory result)) };

    /// The text of the record, or `None` where there is no record yet.
    fn read_record(&mut self, alloc: Global) -> Result<Option<Bytes>, CallError>
        ensures text { IfOk result (λ o. (i : Image) → now (look self.old) ≡ Some i → o ≡ i.text) }
        ensures call { Called (look self.old) (look self.new) (λ _. SameImage) SameImage result }
        ensures memory { is_wanting result ≡ true → Self.faults self.new ≡ Self.faults self.old }
        ensures cause { HasCause (Self.faults self.old) (Self.faults self.new) (has_failed result) }
        ensures sure { Serves (look self.old).sure (look self.new).sure (has_failed result) };

    /// Puts a whole new text in place of the record's. A failed swap, or one that a crash cuts off, leaves the old text or
    /// the new one.
    fn swap_record(&mut self, alloc: Global, text: &[u8]) -> Result<(), CallError>
        ensures call { Called (look self.old) (look self.new) (λ _. Swapped text.now) (SwapMay text.now) result }
        ensures memory { is_wanting result ≡ true → Self.faults self.new ≡ Self.faults self.old }
        ensures cause { HasCause (Self.faults self.old) (Self.faults self.new) (has_failed result) }
        ensures sure { Serves (look self.old).sure (look self.new).sure (has_failed result) };

    /// The image of now is one of those since each earlier moment.
    ghost counts_now: { (d : Self) (t : ℕ) (i : Image) → t ≤ (look d).clock → now (look d) ≡ Some i
        → (look d).since t i };

    /// Since this moment there is no image but that of now.
    ghost only_now: { (d : Self) (i : Image) → (look d).since (look d).clock i → now (look d) ≡ Some i };
}
