//! Laws of histories that follow from the core's, over definitions alone.
#![tactic(auto)]

ghost use Rattle.std.specs.Prelude.{◌≡◌, ℕ, Bool, List, [], ◌∷◌, ◌++◌, Option};
ghost use Rattle.esr_model.specs.Values.{Bytes, Has, ReadsBack, Formats};
ghost use Rattle.esr_model.specs.Image.{Image};
ghost use Rattle.esr_model.specs.Shelf.{Shelved};
ghost use Rattle.esr_model.specs.Kept.{first_id, Kept};
ghost use Rattle.esr_core.specs.World.{World, record_of, Opened};
ghost use Rattle.esr_core.specs.Entry.{Refusal, Refused, Moment};
ghost use Rattle.esr_core.specs.History.{world_from, IsLegal, TellsHandedOut, AreTold};
ghost use Rattle.esr_core.specs.Left.{Leaves};
ghost use Rattle.esr_core.specs.Sources.{HonestUploads};
ghost use Rattle.esr_core.specs.Ids.{Law};
ghost use Rattle.esr_core.specs.Tracked.{Tracked};
ghost use Rattle.esr_core.specs.Cleaned.{IsTestCommit, ChangesBlobs, NoneOf};
ghost use Rattle.esr_law.specs.Digests.{AskNoSnapshot, AreClones, IsWholeByDigests, retold};
ghost use Rattle.esr_law.specs.Cleanups.{HasFirstPage, IsEndedCleanup};
ghost use Rattle.esr_law.specs.Latest.{HasLatest};
ghost use Rattle.esr_law.specs.Reach.{RefusesUnlisted, HoldsListedReach, HoldsReach};
ghost use Rattle.esr_law.specs.Exact.{HoldsExactly};
ghost use Rattle.esr_law.specs.Spent.{SpentSo};

// ---- digests

/// A history that asks for no snapshot, from a world in which each open op is a clone, asks nothing of the sources, and of
/// digests nothing either.
pub fn no_snapshot_asks_nothing_of_sources()
    ensures told { (f : Formats) (part_size : ℕ) (w : World) (log : List Moment) → Tracked w → AreClones w.ops → IsLegal f part_size w log → AskNoSnapshot log → TellsHandedOut f w log }
    ensures honest { (f : Formats) (part_size : ℕ) (w : World) (log : List Moment) → Tracked w → AreClones w.ops → IsLegal f part_size w log → AskNoSnapshot log → HonestUploads f w log }
{
    esr_core::each_step_is_tracked();
    esr_core::each_step_has_its_maker();
    esr_core::only_asks_open_uploads();
}

/// The safe root of a kept image is whole by its digests.
pub fn kept_images_are_whole_by_digests()
    ensures { (f : Formats) (image : Image) (shelf : List Shelved) → Kept f image shelf → IsWholeByDigests f image }
{}

/// The safe root of each image that a crash might leave over a legal history is whole by its digests, whatever the sources tell and
/// whatever the digests are. The record of the opened world can be written.
pub fn each_image_is_whole_by_digests()
    ensures { (f : Formats) (part_size : ℕ) (image : Image) (shelf : List Shelved) (w : World) (log : List Moment) (i : Image) → Kept f image shelf → Opened f image w → ReadsBack f.cluster (record_of w) → IsLegal f part_size w log
        → AreTold log → Leaves f part_size w log i → IsWholeByDigests f i }
{
    esr_core::each_left_image_is_kept();
    kept_images_are_whole_by_digests();
}

/// A kept image is kept for the shelf whatever the sources tell: so what one run leaves another with other sources may begin with.
pub fn kept_images_are_kept_whatever_is_told()
    ensures { (f : Formats) (known : Bytes → Bytes → ℕ → Bool) (told : Bytes → Bytes → ℕ → Option (List (Bytes × Bytes))) (image : Image) (shelf : List Shelved) → Kept f image shelf → Kept (retold f known told) image shelf }
{}

// ---- cleanups

/// In a lawful world all that the safe root reaches is there, the root itself among it, but what its indices have of snapshots that
/// it doesn't list; and all of it where what reads as a root has no such indices.
pub fn the_reach_is_there()
    ensures listed { (f : Formats) (w : World) (shelf : List Shelved) → Law f w shelf → HoldsListedReach f w }
    ensures all { (f : Formats) (w : World) (shelf : List Shelved) → Law f w shelf → RefusesUnlisted f → HoldsReach f w }
{}

/// A cleanup that came to its end was told a first page, whatever the container tells.
pub fn each_cleanup_lists_first()
    ensures { (f : Formats) (part_size : ℕ) (image : Image) (w : World) (before rest : List Moment) (last : Moment) (k : ℕ) → Opened f image w → Tracked w → IsLegal f part_size w (before ++ last ∷ rest) → IsEndedCleanup before last k
        → HasFirstPage before k }
{
    esr_core::opened_worlds_track_restores();
    esr_core::each_step_is_tracked();
    esr_core::each_step_tracks_restores();
    esr_core::each_step_leaves_the_others();
    esr_core::each_step_has_its_maker();
    esr_core::answers_tell_their_steps();
}

/// Where a cleanup comes to its end, `index.latest` is there and holds the number of the safe root.
pub fn a_cleanup_leaves_latest()
    ensures { (f : Formats) (part_size : ℕ) (image : Image) (shelf : List Shelved) (w : World) (before : List Moment) (last : Moment) (k : ℕ) → Kept f image shelf → Opened f image w → Tracked w
        → IsLegal f part_size w (before ++ last ∷ []) → AreTold (before ++ last ∷ []) → IsEndedCleanup before last k → HasLatest f (world_from f w (before ++ last ∷ [])) }
{
    esr_core::opened_worlds_track_restores();
    esr_core::each_history_is_lawful();
    esr_core::each_step_is_tracked();
    esr_core::each_step_tracks_restores();
    esr_core::each_step_is_one_change();
    esr_core::each_step_leaves_the_others();
    esr_core::each_step_has_its_maker();
    esr_core::each_step_changes_blobs_so();
    esr_core::answers_tell_their_steps();
}

/// A cleanup that came to its end was told a first page. Where no test blob was committed from then on until its end, it leaves
/// exactly what the safe root reaches, and `index.latest`; so it stays until a blob is committed, replaced or removed.
pub fn a_cleanup_leaves_exactly_the_reach()
    ensures { (f : Formats) (part_size : ℕ) (image : Image) (shelf : List Shelved) (w : World) (before rest : List Moment) (last : Moment) (k : ℕ) → Kept f image shelf → Opened f image w → Tracked w
        → IsLegal f part_size w (before ++ last ∷ rest) → AreTold (before ++ last ∷ rest) → IsEndedCleanup before last k
        → (page : HasFirstPage before k) × (NoneOf IsTestCommit page.back → NoneOf ChangesBlobs rest → HoldsExactly f (world_from f w (before ++ last ∷ rest))) }
{
    esr_core::each_history_is_lawful();
    esr_core::a_cleanup_leaves_the_reach_alone();
    esr_core::each_step_changes_blobs_so();
    the_reach_is_there();
    each_cleanup_lists_first();
    a_cleanup_leaves_latest();
}

// ---- numbers

/// A step is refused since a number is spent only where the history asks for so many: its elections take the term of the world past
/// the last one, its raises the generation, or it asks for all the ids of a term. The world is one whose term has just begun.
pub fn only_spent_numbers_refuse()
    ensures { (f : Formats) (part_size : ℕ) (w : World) (log : List Moment) (m : Moment) (refusal : Refusal) → w.next_id ≡ first_id w.term → IsLegal f part_size w log → Has log m → m.entry.reply ≡ Refused refusal
        → SpentSo w log refusal }
{
    esr_core::each_step_has_its_maker();
    esr_core::each_refusal_has_its_cause();
    esr_core::asks_draw_few();
}
