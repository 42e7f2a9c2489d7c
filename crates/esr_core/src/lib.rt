//! The core's law, over definitions alone: each function's contract is a law, and its body is empty.
#![tactic(auto)]

ghost use Rattle.std.specs.Prelude.{◌≡◌, ◌≢◌, Bool, true, false, Option, Some, None, ℕ, suc, ◌<◌, ◌≤◌, List, [], ◌∷◌, ◌++◌, ◌⊎◌};
ghost use Rattle.esr_model.specs.Values.{Bytes, IndexRef, RootIndex, RootData, FileEntry, ShardResult, ClusterRecord, ReadsBack, Formats};
ghost use Rattle.esr_model.specs.Names.{BlobName, Root, ShardSnap, ShardIndex};
ghost use Rattle.esr_model.specs.Image.{Has, Blobs, Image, KeptBy, Present};
ghost use Rattle.esr_model.specs.Reach.{Reached};
ghost use Rattle.esr_model.specs.Kept.{Kept, RootIds, first_id};
ghost use Rattle.esr_model.specs.Shelf.{ShelfShard, Shelved, Command, shelved_at, shelf_after};
ghost use Rattle.esr_core.specs.World.{World, Op, ShardWork, Restoring, Reader, Shard, Deleting, Ticket, Swap, HeldIn, ledger_of, image_of, record_of, opened, Opened};
ghost use Rattle.esr_core.specs.Swaps.{TicketLaw};
ghost use Rattle.esr_core.specs.Generations.{Carried};
ghost use Rattle.esr_core.specs.Written.{Written};
ghost use Rattle.esr_core.specs.Texts.{Texted};
ghost use Rattle.esr_core.specs.Pruning.{dooms};
ghost use Rattle.esr_core.specs.Tidy.{TidyRoot, TidyIn, TidyImage, DoomsExactly};
ghost use Rattle.esr_core.specs.Steps.{IsOut, Raise, Remove};
ghost use Rattle.esr_core.specs.Sound.{Sound};
ghost use Rattle.esr_core.specs.Queue.{Lists, Sole, QueueIn};
ghost use Rattle.esr_core.specs.Ids.{Law, DoomedIds, IdsIn, InTerm};
ghost use Rattle.esr_core.specs.Tracked.{IsOneIndex, Tracked};
ghost use Rattle.esr_core.specs.Ranked.{Ranked};
ghost use Rattle.esr_core.specs.ReadTracked.{ReadTracked};
ghost use Rattle.esr_core.specs.ReadEnds.{NoFetchFailed, CanEnd};
ghost use Rattle.esr_core.specs.ReadLaw.{ReadLaw, ReadsShelved, IsOnShelf};
ghost use Rattle.esr_core.specs.Restored.{IsServed, IsShelvedAs};
ghost use Rattle.esr_core.specs.Restores.{IsReading};
ghost use Rattle.esr_core.specs.Ready.{IsOpen, HasRestore, NoTicketOut, SameWork, LeavesWork, AnyReady, Barrier, Idle, SwapIsOut};
ghost use Rattle.std.specs.FinMap as fin;
ghost use Rattle.std.specs.FinMap.{FinMap};
ghost use Rattle.std.specs.Ordering.{nat_cmp};
ghost use Rattle.esr_core.specs.Turns.{Turn, Turns, commands_of};
ghost use Rattle.esr_core.specs.Doomed.{Dooms};
ghost use Rattle.esr_core.specs.Entry.{Moment, Asked, AsksNoClone, AsksNoSnapshot, Restore, AskStep, SettleStep, SettlePruned, PruneStep, WasSettled, Refusal, Refused, StaleTerm, AcceptedRestore, Given, Gave, Step, Reply, Entry};
ghost use Rattle.esr_core.specs.After.{swaps_record, done_step, answered, after};
ghost use Rattle.esr_core.specs.Numbers.{DrawsFew};
ghost use Rattle.esr_core.specs.Past.{is_counted, with_entry, begins_anew, entries_by};
ghost use Rattle.esr_core.specs.Changes.{StepChange, StepFrame, BlobsChange, Maker};
ghost use Rattle.esr_core.specs.Example.{CanWrite, HasSnapshot};
ghost use Rattle.esr_core.specs.Allowed.{SameBlobs, SettlesDeletion, ClonedBy, Allowed, RestoredBy, Blocks, IsBlocked};
ghost use Rattle.esr_core.specs.Causes.{RefusalCause, TakeGave, SettleDid, RestoreBegan};
ghost use Rattle.esr_core.specs.History.{world_from, IsLegal, TellsHandedOut, AreTold, committed, counts, Lasts};
ghost use Rattle.esr_core.specs.Cleaned.{HoldsReachAlone, ListsListedAlone, IsTestCommit, ChangesBlobs, NoneOf, IsFirstPage, IsLastDrop};
ghost use Rattle.esr_core.specs.Left.{cut_off, Leaves, safe_in};
ghost use Rattle.esr_core.specs.Sources.{AreOfSources, AreOfOps, HonestUploads};
ghost use Rattle.esr_core.specs.Refusing.{RefusedSo, SwapFailed};

/// A raise keeps the law, and the generation that it begins is that of no root that is there.
pub fn raise_is_sound()
    ensures law { (f : Formats) (w new : World) (shelf : List Shelved) (k : ℕ) → Sound f w shelf → Raise f w k new → Sound f new shelf }
    ensures fresh { (f : Formats) (w new : World) (shelf : List Shelved) (k : ℕ) → Sound f w shelf → Raise f w k new → Present f w.blobs (Root w.pending) → ⊥ }
{}

/// A removal of doomed names keeps the law, also one that is cut short.
pub fn remove_is_sound()
    ensures { (f : Formats) (w new : World) (shelf : List Shelved) (k : ℕ) (names : List BlobName) → Sound f w shelf → Remove f w k names new → Sound f new shelf }
{}

/// The opened world of a kept image is lawful.
pub fn opening_is_lawful()
    ensures { (f : Formats) (image : Image) (shelf : List Shelved) (w : World) → Kept f image shelf → Opened f image w → Law f w shelf }
{}

/// What a delete or cleanup dooms after its settle nothing that stands needs.
pub fn dooming_is_sound()
    ensures { (f : Formats) (w new : World) (shelf : List Shelved) (names : List BlobName) → Sound f w shelf → Dooms f w names new → Sound f new shelf }
{}

/// A kept image determines its shelf.
pub fn shelf_is_determined()
    ensures { (f : Formats) (image : Image) (a b : List Shelved) → Kept f image a → Kept f image b → a ≡ b }
{}

/// Each turn from a lawful world leads to a lawful one, for the shelf with the commands of the settles that stand.
pub fn each_turn_is_lawful()
    ensures { (f : Formats) (w new : World) (shelf : List Shelved) → Law f w shelf → w.deposed ≡ false → (turn : Turn f w new) → Law f new (shelf_after shelf (commands_of f w new turn)) }
{}

/// Where an op or a restore is open and no ticket is out, some unit is ready.
pub fn some_unit_is_ready()
    ensures { (f : Formats) (w : World) (shelf : List Shelved) (o : ℕ) → Law f w shelf → ReadTracked w → IsOpen w o ⊎ HasRestore w o → NoTicketOut w → AnyReady w }
{}

/// The image of a lawful world is kept, where its record can be written.
pub fn lawful_image_is_kept()
    ensures { (f : Formats) (w : World) (shelf : List Shelved) → Law f w shelf → ReadsBack f.cluster (record_of w) → Kept f (image_of f w) shelf }
{}

/// Over each list of turns the law holds, for the shelf with the commands of the settles that stand.
pub fn each_list_is_lawful()
    ensures { (f : Formats) (w last : World) (shelf : List Shelved) (cs : List Command) → Law f w shelf → Turns f w last cs → Law f last (shelf_after shelf cs) }
{}

/// At most one ticket is out for a shard; each shard of a snapshot behind an open delete or cleanup is pending or given up;
/// the source of an open clone is listed; while a ticket of a cleanup is out no other is.
pub fn the_queue_is_apart()
    ensures one { (f : Formats) (w : World) (shelf : List Shelved) (j k : ℕ) (t u : Ticket) (index shard : ℕ) → Law f w shelf → fin.get w.tickets j ≡ Some t → fin.get w.tickets k ≡ Some u → t.out ≡ true → u.out ≡ true
        → t.work ≡ Shard index shard → u.work ≡ Shard index shard → j ≡ k }
    ensures behind { (f : Formats) (w : World) (shelf : List Shelved) (o : ℕ) (op : Op) (s : ShardWork) → Law f w shelf → fin.get w.ops o ≡ Some op → Barrier w.deletes o → Has op.shards s → Idle s.state }
    ensures source { (f : Formats) (w : World) (shelf : List Shelved) (o u : ℕ) (op : Op) → Law f w shelf → fin.get w.ops o ≡ Some op → op.source ≡ Some u → Lists w.root u }
    ensures sole { (f : Formats) (w : World) (shelf : List Shelved) → Law f w shelf → Sole w.term w.deletes w.tickets }
{}

/// Over each legal history the law holds, for the shelf with the commands that count in its last image.
pub fn each_history_is_lawful()
    ensures { (f : Formats) (part_size : ℕ) (image : Image) (shelf : List Shelved) (w : World) (log : List Moment) → Kept f image shelf → Opened f image w → IsLegal f part_size w log → AreTold log
        → Law f (world_from f w log) (shelf_after shelf (committed f (world_from f w log).safe w log)) }
{}

/// A step is refused only as it may be, or since a record swap has failed or a delete has aborted the op of its ticket.
pub fn refusals_are_of_their_steps()
    ensures { (f : Formats) (part_size : ℕ) (w : World) (m : Moment) (refusal : Refusal) → Allowed f part_size w m → m.entry.reply ≡ Refused refusal → RefusedSo w m.entry.who m.entry.step refusal }
{}

/// Each refusal has its cause: a rule of accepting, a name that is taken, a term that is over, numbers that are spent, or a call that failed; or the step was not looked at.
pub fn each_refusal_has_its_cause()
    ensures { (f : Formats) (part_size : ℕ) (w : World) (m : Moment) (refusal : Refusal) → Allowed f part_size w m → m.entry.reply ≡ Refused refusal
        → Blocks w m.entry.who m.entry.step refusal ⊎ RefusalCause f part_size w m.entry.who m.entry.step m.image refusal }
{}

/// An asked command takes neither the term nor the next generation on, and draws no more ids than it asks for.
pub fn asks_draw_few()
    ensures { (f : Formats) (w : World) (k : ℕ) (command : Asked) (reply : Reply) (image : Option Image) → DrawsFew w (AskStep command) (done_step f w k (AskStep command) reply image) }
{}

/// A unit that was given is the ready one of the lowest op; what was settled was so by an unsettled swap of the present term; a restore
/// that was accepted was asked, and no rule stood against it.
pub fn answers_tell_their_steps()
    ensures gave { (f : Formats) (part_size : ℕ) (w : World) (m : Moment) (k o : ℕ) (unit : Given) → Allowed f part_size w m → m.entry.reply ≡ Gave k o unit → TakeGave f w m.entry.who m.entry.step k o unit }
    ensures settled { (f : Formats) (part_size : ℕ) (w : World) (m : Moment) → Allowed f part_size w m → m.entry.reply ≡ WasSettled → SettleDid f w m.entry.who m.entry.step }
    ensures began { (f : Formats) (part_size : ℕ) (w : World) (m : Moment) (o uuid : ℕ) (indices : List IndexRef) → Allowed f part_size w m → m.entry.reply ≡ AcceptedRestore o uuid indices
        → RestoreBegan f w m.entry.who m.entry.step o uuid indices m.image }
{}

/// A world is deposed only after a record swap that failed.
pub fn only_failed_swaps_depose()
    ensures { (f : Formats) (w : World) (log : List Moment) → w.deposed ≡ false → (world_from f w log).deposed ≡ true → SwapFailed log }
{}

/// From any lawful world of a history on `safe` never falls, and from one on in which a record swap failed it stays.
pub fn safe_never_falls()
    ensures { (f : Formats) (part_size : ℕ) (shelf : List Shelved) (w : World) (log : List Moment) → Law f w shelf → IsLegal f part_size w log → AreTold log → Lasts f w (world_from f w log) }
{}

/// Each image of a legal history is kept for the commands of the whole history that count in it: also one that a failed call leaves, and so one that a crash in that call leaves.
pub fn each_image_is_kept()
    ensures { (f : Formats) (part_size : ℕ) (image : Image) (shelf : List Shelved) (w : World) (log rest : List Moment) (m : Moment) (i : Image) → Kept f image shelf → Opened f image w → m.image ≡ Some i
        → IsLegal f part_size w (log ++ m ∷ rest) → AreTold (log ++ m ∷ rest) → Kept f i (shelf_after shelf (committed f (world_from f w (log ++ m ∷ [])).safe w (log ++ m ∷ rest))) }
{}

/// Each image that a crash might leave over a legal history is kept for the commands of the whole history that count in it, also one that stands nowhere in the history:
/// what a call would have left that failed, where it was answered Ok or failed otherwise. The record of the opened world can be written, as opening writes it.
pub fn each_left_image_is_kept()
    ensures { (f : Formats) (part_size : ℕ) (image : Image) (shelf : List Shelved) (w : World) (log : List Moment) (i : Image) → Kept f image shelf → Opened f image w → ReadsBack f.cluster (record_of w) → IsLegal f part_size w log
        → AreTold log → Leaves f part_size w log i → Kept f i (shelf_after shelf (committed f (safe_in f i) w log)) }
{}

/// Where the sources tell each shard that a legal history hands out, and digests are honest while one is out whose files come from a source, each finalization that is given makes a snapshot of the files that the sources tell.
pub fn snapshots_are_of_their_sources()
    ensures { (f : Formats) (part_size : ℕ) (image : Image) (shelf : List Shelved) (w : World) (log : List Moment) → TellsHandedOut f w log → HonestUploads f w log → Kept f image shelf → Opened f image w → IsLegal f part_size w log
        → AreTold log → AreOfSources f w log }
{}

/// Where the sources tell each shard that a legal history hands out, and digests are honest while one is out whose files come from a source, each snapshot among the commands that count, in whatever image,
/// is that of an op which was open in the history, with exactly the files that the sources tell.
pub fn counted_snapshots_are_of_their_sources()
    ensures { (f : Formats) (part_size : ℕ) (image : Image) (shelf : List Shelved) (w : World) (log : List Moment) → TellsHandedOut f w log → HonestUploads f w log → Kept f image shelf → Opened f image w → IsLegal f part_size w log
        → AreTold log → AreOfOps f w log }
{}

/// From any lawful world of a history on, whose record can be written, no image that a crash might leave has an older safe root.
pub fn left_images_are_no_older()
    ensures { (f : Formats) (part_size : ℕ) (shelf : List Shelved) (w : World) (log : List Moment) (i : Image) → Law f w shelf → ReadsBack f.cluster (record_of w) → IsLegal f part_size w log
        → AreTold log → Leaves f part_size w log i → w.safe ≤ safe_in f i }
{}

/// A settle that was answered, of a finalization or of a delete, stays: in each image that a crash might leave after it its root
/// is the safe one or lies below it, whatever the container and the sources tell.
pub fn answered_settles_stay()
    ensures { (f : Formats) (part_size : ℕ) (w : World) (before rest : List Moment) (m : Moment) (t : Ticket) (n : ℕ) (i : Image) → Tracked w → Ranked w → IsLegal f part_size w (before ++ m ∷ rest) → (m.entry.step ≡ SettleStep)
        ⊎ (m.entry.step ≡ PruneStep SettlePruned)
        → m.entry.reply ≡ WasSettled → fin.get (world_from f w before).tickets m.entry.who ≡ Some t → t.raised ≡ Some n → Leaves f part_size (after f (world_from f w before) m) rest i → suc n ≤ safe_in f i }
{}

/// What a crash might leave over a history it might leave over a longer one; so the image of each world that a history passes, what a call there leaves that fails, and each image that the history tells.
pub fn leaves_go_on()
    ensures longer { (f : Formats) (part_size : ℕ) (w : World) (log rest : List Moment) (i : Image) → Leaves f part_size w log i → Leaves f part_size w (log ++ rest) i }
    ensures later { (f : Formats) (part_size : ℕ) (w : World) (before rest : List Moment) (i : Image) → Leaves f part_size (world_from f w before) rest i → Leaves f part_size w (before ++ rest) i }
    ensures now { (f : Formats) (part_size : ℕ) (w : World) (log rest : List Moment) (i : Image) → i ≡ image_of f (world_from f w log) → Leaves f part_size w (log ++ rest) i }
    ensures by_call { (f : Formats) (part_size : ℕ) (w : World) (log rest : List Moment) (m : Moment) (i : Image) → Allowed f part_size (world_from f w log) (cut_off m i) → Leaves f part_size w (log ++ m ∷ rest) i }
    ensures told { (f : Formats) (part_size : ℕ) (w : World) (log rest : List Moment) (m : Moment) (i : Image) → IsLegal f part_size w (log ++ m ∷ rest) → m.image ≡ Some i → Leaves f part_size w (log ++ m ∷ rest) i }
{}

/// A raise, settle or drop of an older term changes nothing, but that it was made.
pub fn stale_steps_change_nothing()
    ensures { (f : Formats) (w : World) (m : Moment) (own now : ℕ) → m.entry.reply ≡ Refused (StaleTerm own now) → SameBlobs w m.image → after f w m ≡ record w { entries = m.entry ∷ w.entries } }
{}

/// What stands in the container goes on standing: the safe root for the shelf with the commands that count, and each root above it for some shelf.
pub fn kept_stays()
    ensures { (f : Formats) (w new : World) (shelf : List Shelved) → Law f w shelf → w.deposed ≡ false → (turn : Turn f w new) → KeptBy f (HeldIn f new) new.blobs (ledger_of new) (shelf_after shelf (commands_of f w new turn)) }
{}

/// Each live generation, and each base of a shard that is out, serves the open ops that are done at none above it and, where it is not below the root's, each listed snapshot.
pub fn generations_stay()
    ensures { (f : Formats) (w new : World) (shelf : List Shelved) → Law f w shelf → w.deposed ≡ false → (turn : Turn f w new) → Carried f (HeldIn f new) new.safe new.term new.root new.ops new.tickets }
{}

/// What an unsettled ticket has committed is there while it counts.
pub fn committed_blobs_stay()
    ensures { (f : Formats) (w new : World) (shelf : List Shelved) → Law f w shelf → w.deposed ≡ false → (turn : Turn f w new) → (k : ℕ) (t : Ticket) → fin.get new.tickets k ≡ Some t
        → TicketLaw f (HeldIn f new) new.doomed (ledger_of new) (shelf_after shelf (commands_of f w new turn)) t }
{}

/// So is what the ticket of a shard has committed, and its base.
pub fn shard_blobs_stay()
    ensures { (f : Formats) (w new : World) (shelf : List Shelved) → Law f w shelf → w.deposed ≡ false → (turn : Turn f w new) → Written f new.blobs new.tickets }
{}

/// A metadata name of a finalization is absent, or holds the text that its op gives.
pub fn metadata_stays()
    ensures { (f : Formats) (w new : World) (shelf : List Shelved) → Law f w shelf → w.deposed ≡ false → (turn : Turn f w new) → Texted f new.blobs new.ops new.tickets }
{}

/// No doomed name has the uuid of an open op, or an id that a shard's ticket out has drawn.
pub fn doomed_stay_apart()
    ensures { (f : Formats) (w new : World) (shelf : List Shelved) → Law f w shelf → w.deposed ≡ false → (turn : Turn f w new) → (name : BlobName) → Has new.doomed name → DoomedIds new.next_id new.ops new.tickets name }
{}

/// What a delete dooms with its settle the safe root reached, or it is that root's name; and the new root doesn't reach it.
/// What a cleanup dooms it had to list alone, and no new root reaches it.
pub fn a_delete_dooms_what_it_leaves()
    ensures was { (f : Formats) (w : World) (shelf : List Shelved) (k : ℕ) (s : SettlesDeletion f w k) → Law f w shelf → s.t.term ≡ w.term → s.t.clean ≡ false → (name : BlobName) → Has (dooms f s.t) name
        → Reached f (HeldIn f w) w.root name
        ⊎ ((m : ℕ) × (name ≡ Root m) × (w.safe ≡ suc m)) }
    ensures left { (f : Formats) (w : World) (shelf : List Shelved) (k : ℕ) (s : SettlesDeletion f w k) → Law f w shelf → s.t.term ≡ w.term → (name : BlobName) → Has (dooms f s.t) name → Reached f (HeldIn f w) s.s.root name → ⊥ }
{}

/// Where the safe root is tidy a delete dooms all that it leaves behind: each name that the safe root reached and the new root doesn't, and the safe root's own name.
pub fn a_delete_dooms_all_that_it_leaves()
    ensures reached { (f : Formats) (w : World) (shelf : List Shelved) (k : ℕ) (s : SettlesDeletion f w k) → Law f w shelf → s.t.term ≡ w.term → s.t.clean ≡ false → TidyRoot f (HeldIn f w) w.root
        → (name : BlobName) → Reached f (HeldIn f w) w.root name → (Reached f (HeldIn f w) s.s.root name → ⊥) → Has (dooms f s.t) name }
    ensures root { (f : Formats) (w : World) (shelf : List Shelved) (k : ℕ) (s : SettlesDeletion f w k) → Law f w shelf → s.t.term ≡ w.term → s.t.clean ≡ false → (m : ℕ) → w.safe ≡ suc m → Has (dooms f s.t) (Root m) }
{}

/// Each turn from a lawful and tidy world leads to a tidy one.
pub fn each_turn_stays_tidy()
    ensures { (f : Formats) (w new : World) (shelf : List Shelved) → Law f w shelf → TidyIn f w → Turn f w new → TidyIn f new }
{}

/// An image without a record is tidy.
pub fn empty_images_are_tidy()
    ensures { (f : Formats) (image : Image) → image.text ≡ None → TidyImage f image }
{}

/// The opened world of a tidy image is tidy.
pub fn opened_worlds_are_tidy()
    ensures { (f : Formats) (image : Image) (w : World) → TidyImage f image → Opened f image w → TidyIn f w }
{}

/// Each legal history from a lawful and tidy world leads to a tidy one.
pub fn each_history_stays_tidy()
    ensures { (f : Formats) (part_size : ℕ) (shelf : List Shelved) (w : World) (log : List Moment) → Law f w shelf → TidyIn f w → IsLegal f part_size w log → AreTold log → TidyIn f (world_from f w log) }
{}

/// Each image that a crash might leave over a legal history from a lawful and tidy world is tidy.
pub fn each_left_image_is_tidy()
    ensures { (f : Formats) (part_size : ℕ) (shelf : List Shelved) (w : World) (log : List Moment) (i : Image) → Law f w shelf → TidyIn f w → ReadsBack f.cluster (record_of w) → IsLegal f part_size w log
        → AreTold log → Leaves f part_size w log i → TidyImage f i }
{}

/// Over a legal history from a kept and tidy image each delete that may settle dooms exactly what it leaves behind: what the safe root reaches and its new root doesn't, and the safe root's name.
/// So does each whose settle was answered, or failed in the container.
pub fn each_delete_dooms_exactly_what_it_leaves()
    ensures may { (f : Formats) (part_size : ℕ) (image : Image) (shelf : List Shelved) (w : World) (log : List Moment) (k : ℕ) → Kept f image shelf → TidyImage f image → Opened f image w → IsLegal f part_size w log
        → AreTold log → (s : SettlesDeletion f (world_from f w log) k) → s.t.term ≡ (world_from f w log).term → s.t.clean ≡ false → DoomsExactly f (world_from f w log) k s }
    ensures settled { (f : Formats) (part_size : ℕ) (image : Image) (shelf : List Shelved) (w : World) (before rest : List Moment) (m : Moment) → Kept f image shelf → TidyImage f image → Opened f image w
        → IsLegal f part_size w (before ++ m ∷ rest) → AreTold (before ++ m ∷ rest) → m.entry.step ≡ PruneStep SettlePruned → counts m.entry.reply ≡ true
        → (s : SettlesDeletion f (world_from f w before) m.entry.who) × (s.t.clean ≡ false → DoomsExactly f (world_from f w before) m.entry.who s) }
{}

/// A cleanup that came to its end left nothing but the safe root, what it reaches, and `index.latest`, where no test blob was committed between its first page and its end; and the indices of the root's shards list listed snapshots alone.
/// So it stays until a blob is committed, replaced or removed.
pub fn a_cleanup_leaves_the_reach_alone()
    ensures { (f : Formats) (part_size : ℕ) (image : Image) (shelf : List Shelved) (w : World) (before between rest : List Moment) (first last : Moment) (k : ℕ) → Kept f image shelf → Opened f image w → Tracked w
        → IsLegal f part_size w (before ++ first ∷ (between ++ last ∷ rest)) → AreTold (before ++ first ∷ (between ++ last ∷ rest))
        → IsFirstPage first k → IsLastDrop last k → NoneOf IsTestCommit between → NoneOf ChangesBlobs rest → HoldsReachAlone f (world_from f w (before ++ first ∷ (between ++ last ∷ rest)))
        × ListsListedAlone f (world_from f w (before ++ first ∷ (between ++ last ∷ rest))) }
{}

/// What a delete's settled ticket doomed stays doomed.
pub fn what_a_delete_dooms_stays_doomed()
    ensures { (f : Formats) (w : World) (shelf : List Shelved) (k : ℕ) (t : Ticket) (uuids : List ℕ) (s : Swap) → Law f w shelf → fin.get w.tickets k ≡ Some t → t.settled ≡ true → t.work ≡ Deleting uuids (Some s)
        → (name : BlobName) → Has (dooms f t) name → Has w.doomed name }
{}

/// At most one ticket of the present term has a swap that it has not settled.
pub fn one_swap_stays()
    ensures { (f : Formats) (w new : World) (shelf : List Shelved) → Law f w shelf → w.deposed ≡ false → (turn : Turn f w new) → (j k : ℕ) → SwapIsOut new.tickets new.term j → SwapIsOut new.tickets new.term k → j ≡ k }
{}

/// The list of ops stays in order: queues, barriers, aborts and drops.
pub fn queue_stays()
    ensures { (f : Formats) (w new : World) (shelf : List Shelved) → Law f w shelf → w.deposed ≡ false → (turn : Turn f w new) → QueueIn new }
{}

/// Each id that is there lies below the next one, which is one of the present term.
pub fn ids_stay_below()
    ensures { (f : Formats) (w new : World) (shelf : List Shelved) → Law f w shelf → w.deposed ≡ false → (turn : Turn f w new) → IdsIn f new × InTerm new }
{}

/// The steps admit a whole snapshot: into an empty container one of no index can be asked, finalized and settled, and it is the one command that counts.
pub fn a_snapshot_is_legal()
    ensures { (f : Formats) (part_size : ℕ) (name : Bytes) (moment : ℕ) → CanWrite f name moment → HasSnapshot f part_size name }
{}

/// The opened world is in order over any container: its root's ids are of terms up to the record's.
pub fn opened_worlds_are_tracked()
    ensures { (blobs : Blobs) (cluster : ClusterRecord) (root : RootData) → RootIds root (first_id (suc cluster.ledger.term))
        → ((x y : RootIndex) → Has root.indices x → Has root.indices y → IsOneIndex x.name x.id y.name y.id) → Tracked (opened blobs cluster root) }
{}

/// Each step keeps the order of ops, tickets, names and ids, whatever the container tells.
pub fn each_step_is_tracked()
    ensures { (f : Formats) (part_size : ℕ) (w : World) (m : Moment) → Tracked w → Allowed f part_size w m → Tracked (after f w m) }
{}

/// And so does each legal history.
pub fn each_history_is_tracked()
    ensures { (f : Formats) (part_size : ℕ) (w : World) (log : List Moment) → Tracked w → IsLegal f part_size w log → Tracked (world_from f w log) }
{}

/// In the opened world no restore is open.
pub fn opened_worlds_track_restores()
    ensures { (blobs : Blobs) (cluster : ClusterRecord) (root : RootData) → ReadTracked (opened blobs cluster root) }
{}

/// Each step keeps the order of restores and their tickets, whatever the container tells: each ticket that is out has its
/// restore and its shard, each shard that is being read has its ticket, and none has the number of another op or ticket.
pub fn each_step_tracks_restores()
    ensures { (f : Formats) (part_size : ℕ) (w : World) (m : Moment) → Tracked w → ReadTracked w → Allowed f part_size w m → ReadTracked (after f w m) }
{}

/// And so does each legal history.
pub fn each_history_tracks_restores()
    ensures { (f : Formats) (part_size : ℕ) (w : World) (log : List Moment) → Tracked w → ReadTracked w → IsLegal f part_size w log → ReadTracked (world_from f w log) }
{}

/// Over each turn from a lawful world the snapshot of an open restore stays listed and no open delete names it, and what its
/// tickets have read stays as it is.
pub fn restores_stay()
    ensures { (f : Formats) (w new : World) (shelf : List Shelved) → Law f w shelf → ReadLaw f w → w.deposed ≡ false → Turn f w new → ReadLaw f new }
{}

/// What the ticket of a restore has read of its whole shard are the files of that shard on the shelf, under their names and in their order.
pub fn each_restored_shard_is_on_the_shelf()
    ensures { (f : Formats) (w : World) (shelf : List Shelved) → Law f w shelf → ReadLaw f w → (k : ℕ) (q : Reader) → IsReading w k q → (files bytes : ℕ) (by : RestoredBy f q files bytes) → IsOnShelf f shelf q files bytes by }
{}

/// While a restore is open the snapshot of the shelf that it reads stays there as it was when it was asked.
pub fn each_restored_snapshot_stays()
    ensures { (f : Formats) (part_size : ℕ) (shelf : List Shelved) (w : World) (log : List Moment) (o : ℕ) (x : Shelved) → Law f w shelf → ReadLaw f w → o < w.next_op → ReadsShelved w shelf o x → IsLegal f part_size w log
        → AreTold log → ReadsShelved (world_from f w log) (shelf_after shelf (committed f (world_from f w log).safe w log)) o x }
{}

/// In a lawful world each ticket of a restore that is out, and of which no fetch has failed, can read its whole shard and end it: the conditions of its steps can be met.
pub fn each_reader_can_end()
    ensures { (f : Formats) (part_size : ℕ) (w : World) (shelf : List Shelved) (k : ℕ) (q : Reader) → Law f w shelf → ReadLaw f w → ReadTracked w → w.deposed ≡ false → ReadsBack f.cluster (record_of w) → IsReading w k q
        → NoFetchFailed w k q → CanEnd f part_size w k }
{}

/// Where a restore is open and none of its tickets is out, some unit is ready.
pub fn each_restore_goes_on()
    ensures { (w : World) (o : ℕ) (r : Restoring) → ReadTracked w → fin.get w.restores o ≡ Some r → ((k : ℕ) (q : Reader) → fin.get w.readers k ≡ Some q → q.out ≡ true → q.op ≡ o → ⊥) → AnyReady w }
{}

/// In the opened world no restore is open, whatever its container tells.
pub fn opened_restores_are_lawful()
    ensures { (f : Formats) (blobs : Blobs) (cluster : ClusterRecord) (root : RootData) → ReadLaw f (opened blobs cluster root) }
{}

/// Over each legal history that begins at a lawful world all this holds of restores.
pub fn each_history_keeps_restores()
    ensures { (f : Formats) (part_size : ℕ) (shelf : List Shelved) (w : World) (log : List Moment) → Law f w shelf → ReadLaw f w → IsLegal f part_size w log → AreTold log → ReadLaw f (world_from f w log) }
{}

/// A step that doesn't swap the record leaves it, whatever it answers and whatever the container tells.
pub fn the_record_stays()
    ensures { (f : Formats) (w : World) (m : Moment) → swaps_record m.entry.step ≡ false → record_of (after f w m) ≡ record_of w }
{}

/// In the opened world no ticket has raised a generation.
pub fn opened_worlds_are_ranked()
    ensures { (blobs : Blobs) (cluster : ClusterRecord) (root : RootData) → cluster.ledger.safe ≤ cluster.ledger.pending → Ranked (opened blobs cluster root) }
{}

/// Each step keeps the order of generations: what a ticket raised lies below the next one and, while it can still settle, above the safe one.
pub fn each_step_is_ranked()
    ensures { (f : Formats) (part_size : ℕ) (w : World) (m : Moment) → Tracked w → Ranked w → Allowed f part_size w m → Ranked (after f w m) }
{}

/// And so does each legal history.
pub fn each_history_is_ranked()
    ensures { (f : Formats) (part_size : ℕ) (w : World) (log : List Moment) → Tracked w → Ranked w → IsLegal f part_size w log → Ranked (world_from f w log) }
{}

/// What a ticket has read of its whole shard are the files of that shard on the shelf as it was when its restore was asked,
/// whatever has counted since then.
pub fn restores_give_the_shelf_of_their_ask()
    ensures { (f : Formats) (part_size : ℕ) (shelf : List Shelved) (w : World) (before rest : List Moment) (m : Moment) (name place : Bytes) (o uuid : ℕ) (indices : List IndexRef) (k : ℕ) (q : Reader) (files bytes : ℕ)
        → Law f w shelf → ReadLaw f w → IsLegal f part_size w (before ++ m ∷ rest) → AreTold (before ++ m ∷ rest) → m.entry.step ≡ AskStep (Restore name place) → m.entry.reply ≡ AcceptedRestore o uuid indices
        → IsReading (world_from f w (before ++ m ∷ rest)) k q → q.op ≡ o
        → (by : RestoredBy f q files bytes) → IsOnShelf f (shelf_after shelf (committed f (world_from f w before).safe w before)) q files bytes by }
{}

/// The snapshot of which a restore is asked is on the shelf, under its name, with the shards of the indices that the answer tells.
pub fn asked_snapshots_are_on_the_shelf()
    ensures { (f : Formats) (part_size : ℕ) (w : World) (shelf : List Shelved) (m : Moment) (name place : Bytes) (o uuid : ℕ) (indices : List IndexRef) (image : Image) → Law f w shelf → Allowed f part_size w m → m.image ≡ Some image
        → m.entry.step ≡ AskStep (Restore name place) → m.entry.reply ≡ AcceptedRestore o uuid indices → IsShelvedAs shelf name uuid indices }
{}

/// What the ticket of a restore that is out may read stands: the snapshot of its shard, and each file of it.
pub fn each_reader_is_served()
    ensures { (f : Formats) (w : World) (shelf : List Shelved) (k : ℕ) (q : Reader) → Law f w shelf → ReadLaw f w → IsReading w k q → IsServed f w q }
{}

/// The snapshot that an open clone copies is on the shelf, with each shard of the clone's indices: so its settle puts a snapshot there.
pub fn clones_are_of_shelved()
    ensures { (f : Formats) (w : World) (shelf : List Shelved) (o : ℕ) (op : Op) (u : ℕ) → Law f w shelf → fin.get w.ops o ≡ Some op → op.source ≡ Some u
        → (x : Shelved) × (shelved_at shelf u ≡ Some x) × ((r : IndexRef) (k : ℕ) → Has op.indices r → k < r.shards → (s : ShelfShard) × Has x.shards s × (s.index ≡ r.name) × (s.number ≡ k)) }
{}

/// A shard of a clone is done with files that its base has, and with two texts.
pub fn clones_upload_nothing()
    ensures based { (f : Formats) (w : World) (shelf : List Shelved) (k : ℕ) (t : Ticket) (r : ShardResult) (source : ℕ) → Law f w shelf → IsOut w k t → t.work ≡ Shard r.index r.shard → t.source ≡ Some source
        → (b : ClonedBy f t source r) → (e : FileEntry) → Has b.was.files e → Has b.base.files e }
    ensures wrote { (f : Formats) (t : Ticket) (r : ShardResult) (source : ℕ) → ClonedBy f t source r → (name : BlobName) (bytes : Bytes) → Has t.wrote (name, bytes)
        → (name ≡ ShardSnap r.index r.shard t.uuid) ⊎ (name ≡ ShardIndex r.index r.shard r.generation) }
{}

/// Whoever makes a step and whatever it is answered, it is one change of the world.
pub fn each_step_is_one_change()
    ensures { (f : Formats) (w : World) (who : ℕ) (step : Step) (reply : Reply) (image : Option Image) → StepChange f w who step (answered f w who step reply image) }
{}

/// A step leaves each ticket but its own and the one that it gives; its own stays the same unit. The term changes with an election alone, the safe root with a settle alone. A ticket's step leaves what who 0 has done.
pub fn each_step_leaves_the_others()
    ensures frame { (f : Formats) (w : World) (m : Moment) → StepFrame w (after f w m) m.entry.who m.entry.step }
    ensures caller { (f : Formats) (part_size : ℕ) (w : World) (m : Moment) → Allowed f part_size w m → m.entry.who ≢ 0 → (after f w m).caller ≡ w.caller }
{}

/// What a ticket or who 0 has done no step of another changes; its own step is added to it, unless who 0 begins anew. All of it stands in the history.
pub fn entries_are_of_their_makers()
    ensures others { (entries : List Entry) (e : Entry) (who : ℕ) → who ≢ e.who → entries_by (with_entry entries e) who ≡ entries_by entries who }
    ensures among { (entries : List Entry) (who : ℕ) (e : Entry) → Has (entries_by entries who) e → Has entries e × (e.who ≡ who) }
    ensures from { (f : Formats) (w : World) (log : List Moment) (e : Entry) → Has (world_from f w log).entries e → Has w.entries e ⊎ ((m : Moment) × Has log m × (m.entry ≡ e) × (is_counted e.reply ≡ true)) }
    ensures own { (entries : List Entry) (e : Entry) → is_counted e.reply ≡ true → begins_anew e.who e.step ≡ false → entries_by (with_entry entries e) e.who ≡ e ∷ entries_by entries e.who }
{}

/// A step that was looked at was made by who 0, by the ticket of a restore, or by that of another unit, which is out.
pub fn each_step_has_its_maker()
    ensures { (f : Formats) (part_size : ℕ) (w : World) (m : Moment) → Allowed f part_size w m → Maker w m.entry.who m.entry.step ⊎ IsBlocked w m }
{}

/// Where the container tells, a step adds one blob under a free name, puts `index.latest`, removes some names, or leaves the blobs.
pub fn each_step_changes_blobs_so()
    ensures { (f : Formats) (part_size : ℕ) (w : World) (m : Moment) (i : Image) → m.image ≡ Some i → Allowed f part_size w m → BlobsChange f w m.entry.step i.blobs }
{}

/// While no ticket is out, readiness goes by the open ops, deletes and restores alone: an election, a look and what who 0 reads make no unit ready.
pub fn readiness_goes_by_the_open_ops()
    ensures again { (w v : World) → SameWork w v → NoTicketOut w → AnyReady v → AnyReady w }
    ensures leaves { (f : Formats) (w : World) (m : Moment) → m.entry.who ≡ 0 → LeavesWork m.entry.step → SameWork w (after f w m) }
{}

/// What the law says, part by part: the image is kept, generations serve, what tickets and shards have committed is there, metadata has its text, doomed names are apart, at most one swap is out, and ids lie below the next one.
pub fn the_law_has_these_parts()
    ensures kept { (f : Formats) (w : World) (shelf : List Shelved) → Law f w shelf → KeptBy f (HeldIn f w) w.blobs (ledger_of w) shelf }
    ensures generations { (f : Formats) (w : World) (shelf : List Shelved) → Law f w shelf → Carried f (HeldIn f w) w.safe w.term w.root w.ops w.tickets }
    ensures committed { (f : Formats) (w : World) (shelf : List Shelved) (k : ℕ) (t : Ticket) → Law f w shelf → fin.get w.tickets k ≡ Some t → TicketLaw f (HeldIn f w) w.doomed (ledger_of w) shelf t }
    ensures shards { (f : Formats) (w : World) (shelf : List Shelved) → Law f w shelf → Written f w.blobs w.tickets }
    ensures metadata { (f : Formats) (w : World) (shelf : List Shelved) → Law f w shelf → Texted f w.blobs w.ops w.tickets }
    ensures doomed { (f : Formats) (w : World) (shelf : List Shelved) (name : BlobName) → Law f w shelf → Has w.doomed name → DoomedIds w.next_id w.ops w.tickets name }
    ensures one_swap { (f : Formats) (w : World) (shelf : List Shelved) (j k : ℕ) → Law f w shelf → SwapIsOut w.tickets w.term j → SwapIsOut w.tickets w.term k → j ≡ k }
    ensures queue { (f : Formats) (w : World) (shelf : List Shelved) → Law f w shelf → QueueIn w }
    ensures ids { (f : Formats) (w : World) (shelf : List Shelved) → Law f w shelf → IdsIn f w × InTerm w }
{}

/// Where no open op copies a snapshot none does after a step that asks for no clone.
pub fn only_asks_open_clones()
    ensures { (f : Formats) (w : World) (m : Moment) → AsksNoClone m.entry.step → ((o : ℕ) (op : Op) → fin.get w.ops o ≡ Some op → op.source ≡ None) → (o : ℕ) (op : Op) → fin.get (after f w m).ops o ≡ Some op
        → op.source ≡ None }
{}

/// Where each open op copies a snapshot each does after a step that asks for no snapshot.
pub fn only_asks_open_uploads()
    ensures { (f : Formats) (w : World) (m : Moment) → AsksNoSnapshot m.entry.step → ((o : ℕ) (op : Op) → fin.get w.ops o ≡ Some op → op.source ≡ None → ⊥) → (o : ℕ) (op : Op) → fin.get (after f w m).ops o ≡ Some op
        → op.source ≡ None → ⊥ }
{}
