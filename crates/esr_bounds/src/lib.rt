//! How many steps legal histories make at most: laws over definitions alone.
#![tactic(auto)]

ghost use Rattle.std.specs.Prelude.{◌≡◌, ℕ, suc, ◌+◌, ◌*◌, ◌^◌, ◌≤◌, true, List, [], ◌∷◌, ◌++◌, length, Option, Some};
ghost use Rattle.std.specs.FinMap as fin;
ghost use Rattle.esr_model.specs.Values.{SnapInfo, ShardResult, IsOneEach, Formats};
ghost use Rattle.esr_model.specs.Shelf.{Command, Shelved};
ghost use Rattle.esr_model.specs.Image.{Image};
ghost use Rattle.esr_model.specs.Kept.{Kept};
ghost use Rattle.esr_law.specs.Reach.{RefusesUnlisted};
ghost use Rattle.esr_law.specs.Spent.{ids_in};
ghost use Rattle.esr_core.specs.World.{World, Opened, Reader, Shard, Finalize, Deleting, Drop, Swap, Ticket};
ghost use Rattle.esr_core.specs.Entry.{Moment};
ghost use Rattle.esr_core.specs.Restores.{AreOnce};
ghost use Rattle.esr_core.specs.Past.{entries_by};
ghost use Rattle.esr_core.specs.Tracked.{Tracked};
ghost use Rattle.esr_core.specs.ReadTracked.{ReadTracked};
ghost use Rattle.esr_core.specs.History.{world_from, IsLegal, AllKnown, AreTold};
ghost use Rattle.esr_bounds.specs.Keys.{keys, made_by, IsUntouched, IsHeard};
ghost use Rattle.esr_bounds.specs.Work.{work_of, asks_in, restores_in, idle_in, most_steps};
ghost use Rattle.esr_bounds.specs.Clients.{draws_in, looks_in, ends_in, tests_in, anew_in, fetches_in, most_tests, most_of_client};
ghost use Rattle.esr_bounds.specs.Units.{shards_in, IsFinalize, IsDropped, OneOf};
ghost use Rattle.esr_bounds.specs.Laws.{StepLaws, MasterLaws};
ghost use Rattle.esr_bounds.specs.Most.{IsDelete, most_of_shard, most_of_final, most_of_drop};
ghost use Rattle.esr_bounds.specs.Clones.{bare_steps, indices_by, sum_of, most_asked_shards, most_asked_work};
ghost use Rattle.esr_bounds.specs.Others.{most_of_delete, most_of_restore, most_told, most_asked, most_by_shards, most_shards, most_blobs, most_writes, writes_in, lost_by, most_of_all};

/// The core's laws of a step and of the entries of a ticket.
fn steps_are_lawful()
    ensures { (f : Formats) (part_size : ℕ) → StepLaws f part_size }
{
    esr_core::each_step_is_tracked();
    esr_core::each_step_tracks_restores();
    esr_core::each_step_leaves_the_others();
    esr_core::each_step_has_its_maker();
    esr_core::entries_are_of_their_makers();
}

/// The core's laws of a step and of what it changes.
fn changes_are_lawful()
    ensures { (f : Formats) (part_size : ℕ) → MasterLaws f part_size }
{
    esr_core::each_step_is_tracked();
    esr_core::each_step_tracks_restores();
    esr_core::each_step_is_one_change();
    esr_core::each_step_leaves_the_others();
    esr_core::each_step_has_its_maker();
}

/// No ticket does anything twice, and nothing after its end.
pub fn each_ticket_does_all_once()
    ensures { (f : Formats) (part_size : ℕ) (w : World) (log : List Moment) (k : ℕ) → IsHeard f part_size w log → 1 ≤ k → AreOnce (keys (entries_by (world_from f w log).entries k)) }
{
    steps_are_lawful();
}

/// Where the sources tell all files the ticket of a shard makes no more steps than its files ask for, that of a finalization no
/// more than its indices do, and a drop has few.
pub fn each_ticket_makes_few_steps()
    ensures shard { (f : Formats) (part_size : ℕ) (w : World) (log : List Moment) (k index number : ℕ) (t : Ticket) → IsHeard f part_size w log → AllKnown f → 1 ≤ k → fin.get (world_from f w log).tickets k ≡ Some t
        → t.work ≡ Shard index number → made_by log k ≤ most_of_shard f part_size t.place t.name number t.source }
    ensures finalization { (f : Formats) (part_size : ℕ) (w : World) (log : List Moment) (k : ℕ) (t : Ticket) (info : SnapInfo) (results : List ShardResult) (made : Command) → IsHeard f part_size w log → AllKnown f → 1 ≤ k
        → fin.get (world_from f w log).tickets k ≡ Some t → t.work ≡ Finalize info results made → made_by log k ≤ most_of_final (length info.indices) }
    ensures drop { (f : Formats) (part_size : ℕ) (w : World) (log : List Moment) (k : ℕ) (t : Ticket) → IsHeard f part_size w log → AllKnown f → 1 ≤ k → fin.get (world_from f w log).tickets k ≡ Some t → t.work ≡ Drop
        → made_by log k ≤ most_of_drop }
{
    steps_are_lawful();
}

/// Where the container tells, the ticket of a delete or cleanup makes no more steps than the shards of the root that it copied, the blobs
/// that it listed and the names that it dooms ask for.
pub fn each_delete_makes_few_steps()
    ensures { (f : Formats) (part_size : ℕ) (w : World) (log : List Moment) (k : ℕ) (t : Ticket) (uuids : List ℕ) (plan : Option Swap) → IsHeard f part_size w log → AllKnown f → AreTold log → 1 ≤ k
        → fin.get (world_from f w log).tickets k ≡ Some t → t.work ≡ Deleting uuids plan → made_by log k ≤ most_of_delete f t }
{
    steps_are_lawful();
    changes_are_lawful();
}

/// Where the container tells, the ticket of a restore makes no more steps than its shard has parts of files, by the snapshot that it read.
pub fn each_restore_makes_few_steps()
    ensures { (f : Formats) (part_size : ℕ) (w : World) (log : List Moment) (k : ℕ) (q : Reader) → IsHeard f part_size w log → AreTold log → 1 ≤ k → fin.get (world_from f w log).readers k ≡ Some q
        → made_by log k ≤ most_of_restore f q }
{
    steps_are_lawful();
}

/// No shard of a snapshot or a clone is given to two tickets, nor one of a restore.
pub fn no_shard_is_given_twice()
    ensures shards { (f : Formats) (part_size : ℕ) (w : World) (log : List Moment) (j k index number : ℕ) (t u : Ticket) → Tracked w → IsUntouched w → IsLegal f part_size w log → fin.get (world_from f w log).tickets j ≡ Some t
        → fin.get (world_from f w log).tickets k ≡ Some u → t.work ≡ Shard index number → u.work ≡ Shard index number → t.op ≡ u.op → j ≡ k }
    ensures restores { (f : Formats) (part_size : ℕ) (w : World) (log : List Moment) (j k : ℕ) (p q : Reader) → Tracked w → ReadTracked w → IsUntouched w → IsLegal f part_size w log
        → fin.get (world_from f w log).readers j ≡ Some p → fin.get (world_from f w log).readers k ≡ Some q → p.op ≡ q.op → p.index ≡ q.index → p.number ≡ q.number → j ≡ k }
{
    esr_core::each_step_is_tracked();
    esr_core::each_step_tracks_restores();
    esr_core::each_step_is_one_change();
    esr_core::each_step_leaves_the_others();
}

/// In one term an op has at most one ticket of a finalization, one of a drop, and one of a delete or cleanup.
pub fn each_op_is_worked_once_a_term()
    ensures finals { (f : Formats) (part_size : ℕ) (w : World) (log : List Moment) → Tracked w → ReadTracked w → IsUntouched w → IsLegal f part_size w log → OneOf IsFinalize (world_from f w log).tickets }
    ensures drops { (f : Formats) (part_size : ℕ) (w : World) (log : List Moment) → Tracked w → ReadTracked w → IsUntouched w → IsLegal f part_size w log → OneOf IsDropped (world_from f w log).tickets }
    ensures deletes { (f : Formats) (part_size : ℕ) (w : World) (log : List Moment) → Tracked w → ReadTracked w → IsUntouched w → IsLegal f part_size w log → OneOf IsDelete (world_from f w log).tickets }
{
    changes_are_lawful();
}

/// A history is no longer than what who 0 makes of it, what is asked makes, and what the tickets of deletes, cleanups and restores make: where
/// the sources tell all files each shard that is asked is worked once, and each op finalized once a term.
pub fn no_history_is_longer_than_what_it_asks_for()
    ensures { (f : Formats) (part_size : ℕ) (w : World) (log : List Moment) → IsHeard f part_size w log → AllKnown f → length log ≤ most_steps f part_size w log }
{
    steps_are_lawful();
    changes_are_lawful();
    esr_core::answers_tell_their_steps();
}

/// Where the container tells, too, the steps of the tickets of deletes, cleanups and restores are bounded by the shards of the roots that these
/// copied, the blobs that they listed, the names that they doomed, and the parts of the files that they were to restore.
pub fn no_history_is_longer_than_what_it_reads()
    ensures { (f : Formats) (part_size : ℕ) (w : World) (log : List Moment) → IsHeard f part_size w log → AllKnown f → AreTold log → length log ≤ most_told f part_size w log }
{
    steps_are_lawful();
    changes_are_lawful();
    esr_core::answers_tell_their_steps();
}

/// Who 0 ends no more checks and verifications than it begins.
pub fn no_more_ends_than_begins()
    ensures { (f : Formats) (part_size : ℕ) (w : World) (log : List Moment) → IsHeard f part_size w log → ends_in log ≤ looks_in log + draws_in log }
{
    steps_are_lawful();
    esr_core::each_step_is_one_change();
    esr_core::each_step_leaves_the_others();
}

/// Where the container tells, who 0 begins, commits, fetches and removes few test blobs for each verification that it begins.
pub fn each_verification_makes_few_steps()
    ensures { (f : Formats) (part_size : ℕ) (w : World) (log : List Moment) → IsHeard f part_size w log → AreTold log → tests_in log ≤ most_tests * draws_in log }
{
    steps_are_lawful();
    esr_core::each_step_is_one_change();
    esr_core::each_step_leaves_the_others();
}

/// Where the container tells, who 0 makes few steps besides those that give a unit: the commands that it asks, its looks and verifications
/// make so many each, and its elections, the takes that find no unit ready, and the blobs that its checks fetch count each.
pub fn who_0_makes_few_steps()
    ensures { (f : Formats) (part_size : ℕ) (w : World) (log : List Moment) → IsHeard f part_size w log → AreTold log → idle_in log ≤ most_of_client log }
{
    steps_are_lawful();
    no_more_ends_than_begins();
    each_verification_makes_few_steps();
}

/// Where the container tells, and no ticket of a delete or cleanup makes more than so many steps, and none of a restore, a history is no longer than
/// what it asks for: a delete has one ticket a term, and each shard of a restore has one. No restore is open when it begins.
pub fn no_history_is_longer_than_its_units()
    ensures { (f : Formats) (part_size : ℕ) (w : World) (log : List Moment) (deleting restoring : ℕ) → IsHeard f part_size w log → AllKnown f → AreTold log → w.restores ≡ fin.empty
        → ((k : ℕ) (t : Ticket) (uuids : List ℕ) (plan : Option Swap) → 1 ≤ k → fin.get (world_from f w log).tickets k ≡ Some t → t.work ≡ Deleting uuids plan → made_by log k ≤ deleting)
        → ((k : ℕ) (q : Reader) → 1 ≤ k → fin.get (world_from f w log).readers k ≡ Some q → made_by log k ≤ restoring) → length log ≤ most_asked f part_size w log deleting restoring }
{
    steps_are_lawful();
    changes_are_lawful();
    who_0_makes_few_steps();
    esr_core::answers_tell_their_steps();
}

/// Where the container tells, the ticket of a delete or cleanup makes no more steps than the shards ask for that the first root had, or that the
/// history asks for, and the blobs that it listed and the names that it dooms. The first root lists each index once.
pub fn each_delete_works_on_few_shards()
    ensures { (f : Formats) (part_size : ℕ) (w : World) (log : List Moment) (k : ℕ) (t : Ticket) (uuids : List ℕ) (plan : Option Swap) → IsHeard f part_size w log → AllKnown f → AreTold log → IsOneEach w.root.indices → 1 ≤ k
        → fin.get (world_from f w log).tickets k ≡ Some t → t.work ≡ Deleting uuids plan → made_by log k ≤ most_by_shards f w log t }
{
    steps_are_lawful();
    changes_are_lawful();
}

/// Where the container tells, no ticket of a cleanup lists more blobs than there ever were: those that were there, and those that were written.
pub fn no_ticket_lists_more_than_there_was()
    ensures { (f : Formats) (part_size : ℕ) (w : World) (log : List Moment) (k : ℕ) (t : Ticket) → IsHeard f part_size w log → AllKnown f → AreTold log → fin.get (world_from f w log).tickets k ≡ Some t
        → length t.listed ≤ most_blobs w log }
{
    steps_are_lawful();
    esr_core::each_step_changes_blobs_so();
}

/// So the ticket of a cleanup makes no more steps than the shards and the blobs ask for that there ever were.
pub fn each_cleanup_makes_few_steps()
    ensures { (f : Formats) (part_size : ℕ) (w : World) (log : List Moment) (k : ℕ) (t : Ticket) (uuids : List ℕ) (plan : Option Swap) → IsHeard f part_size w log → AllKnown f → AreTold log → IsOneEach w.root.indices → 1 ≤ k
        → fin.get (world_from f w log).tickets k ≡ Some t → t.work ≡ Deleting uuids plan → t.clean ≡ true → made_by log k ≤ 15 + (3 * most_shards w log + 2 * most_blobs w log) }
{
    each_delete_works_on_few_shards();
    no_ticket_lists_more_than_there_was();
}

/// Where the container tells, the ticket of a restore makes no more steps than there ever were blobs, and fetches of it that found nothing.
pub fn each_restore_finds_few()
    ensures { (f : Formats) (part_size : ℕ) (w : World) (log : List Moment) (k : ℕ) (q : Reader) → IsHeard f part_size w log → AreTold log → 1 ≤ k → fin.get (world_from f w log).readers k ≡ Some q
        → made_by log k ≤ 1 + (most_blobs w log + lost_by log k) }
{
    steps_are_lawful();
    esr_core::each_step_changes_blobs_so();
}

/// Where the container tells, no more blobs are written than what is asked writes: so there never are more than were there, and these. No restore
/// is open at first, and the first root lists each index once.
pub fn no_more_is_written_than_asked()
    ensures { (f : Formats) (part_size : ℕ) (w : World) (log : List Moment) → IsHeard f part_size w log → AllKnown f → AreTold log → IsOneEach w.root.indices → w.restores ≡ fin.empty → writes_in log ≤ most_writes f part_size w log }
{
    steps_are_lawful();
    changes_are_lawful();
    each_verification_makes_few_steps();
    esr_core::answers_tell_their_steps();
}

/// Where the container tells, its checks fetch no more than there ever were blobs each time that who 0 began anew, and fetches that found nothing.
pub fn each_check_finds_few()
    ensures { (f : Formats) (part_size : ℕ) (w : World) (log : List Moment) → IsHeard f part_size w log → AreTold log → fetches_in log ≤ anew_in log * most_blobs w log + (most_blobs w log + lost_by log 0) }
{
    steps_are_lawful();
    esr_core::each_step_is_one_change();
    esr_core::each_step_leaves_the_others();
    esr_core::each_step_changes_blobs_so();
}

/// From a kept container that tells, whose roots list no snapshot in an index alone, the ticket of a delete or cleanup makes no more steps than the
/// shards and the blobs ask for that there ever were.
pub fn each_delete_dooms_few()
    ensures { (f : Formats) (part_size : ℕ) (image : Image) (shelf : List Shelved) (w : World) (log : List Moment) (k : ℕ) (t : Ticket) (uuids : List ℕ) (plan : Option Swap) → Kept f image shelf → Opened f image w
        → RefusesUnlisted f → IsHeard f part_size w log → AllKnown f → AreTold log → 1 ≤ k → fin.get (world_from f w log).tickets k ≡ Some t → t.work ≡ Deleting uuids plan
        → made_by log k ≤ 15 + (3 * most_shards w log + 2 * most_blobs w log) }
{
    steps_are_lawful();
    changes_are_lawful();
    esr_core::each_step_changes_blobs_so();
    esr_core::each_history_is_lawful();
    esr_core::a_delete_dooms_what_it_leaves();
    esr_law::the_reach_is_there();
}

/// From a kept container that tells, whose roots list no snapshot in an index alone, a history is no longer than what it asks for: commands, looks,
/// verifications and elections, the takes that find no unit, and the fetches that find nothing.
pub fn no_history_is_longer_than_asked()
    ensures { (f : Formats) (part_size : ℕ) (image : Image) (shelf : List Shelved) (w : World) (log : List Moment) → Kept f image shelf → Opened f image w → RefusesUnlisted f → IsHeard f part_size w log → AllKnown f
        → AreTold log → length log ≤ most_of_all f part_size w log }
{
    no_more_ends_than_begins();
    no_history_is_longer_than_its_units();
    each_delete_dooms_few();
    each_restore_finds_few();
    each_check_finds_few();
    no_more_is_written_than_asked();
}

/// From a kept container that tells, no restore that is accepted has more shards than there are: those of the first root, and those that the history
/// asks for.
pub fn no_restore_has_more_shards_than_there_are()
    ensures { (f : Formats) (part_size : ℕ) (image : Image) (shelf : List Shelved) (w : World) (log : List Moment) → Kept f image shelf → Opened f image w → IsHeard f part_size w log → AllKnown f → AreTold log
        → restores_in log ≤ asks_in log * most_shards w log }
{
    steps_are_lawful();
    changes_are_lawful();
    esr_core::answers_tell_their_steps();
    esr_core::each_history_is_lawful();
}

/// From a kept container that tells, no clone has more shards and indices than there are: those of the first root, and those of the snapshots that the
/// history asks for. So its commands, as lines ask for them, bound the shards that it asks for, and the steps of its units.
pub fn no_clone_has_more_shards_than_there_are()
    ensures shards { (f : Formats) (part_size : ℕ) (image : Image) (shelf : List Shelved) (w : World) (log : List Moment) → Kept f image shelf → Opened f image w → IsHeard f part_size w log → AllKnown f → AreTold log
        → shards_in log ≤ most_asked_shards (asks_in log) w (bare_steps log) }
    ensures work { (f : Formats) (part_size terms : ℕ) (image : Image) (shelf : List Shelved) (w : World) (log : List Moment) → Kept f image shelf → Opened f image w → IsHeard f part_size w log → AllKnown f → AreTold log
        → work_of f part_size terms log ≤ most_asked_work f part_size terms (asks_in log) w (bare_steps log) }
{
    steps_are_lawful();
    changes_are_lawful();
    esr_core::each_history_is_lawful();
}

/// Where the container tells, a history asks for few ids: each step for no more than 2^32 and one for each shard that there is before the last step, and
/// a snapshot besides for one for each of its indices.
pub fn no_history_asks_for_many_ids()
    ensures { (f : Formats) (part_size : ℕ) (image : Image) (w : World) (log : List Moment) (last : Moment) → Opened f image w → IsHeard f part_size w (log ++ last ∷ []) → AllKnown f → AreTold (log ++ last ∷ [])
        → ids_in (log ++ last ∷ []) ≤ suc (length log) * (2 ^ 32 + most_shards w log) + sum_of indices_by (bare_steps (log ++ last ∷ [])) }
{
    steps_are_lawful();
    changes_are_lawful();
}
