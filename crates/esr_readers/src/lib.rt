//! What the tickets of restores are, over any container: laws over the definitions alone.
#![tactic(auto)]

ghost use Rattle.std.specs.Prelude.{◌≡◌, Some, ℕ, ◌<◌, ◌≤◌, List, [], ◌∷◌, ◌++◌};
ghost use Rattle.std.specs.FinMap as fin;
ghost use Rattle.esr_model.specs.Values.{Bytes, Has, IndexRef, Formats};
ghost use Rattle.esr_core.specs.World.{World, Reader};
ghost use Rattle.esr_core.specs.Entry.{Moment, Asked, Restore, Read, AskStep, LookStep, ReadStep, AcceptedRestore, Gave, GivenRestore};
ghost use Rattle.esr_core.specs.After.{after};
ghost use Rattle.esr_core.specs.Allowed.{Allowed};
ghost use Rattle.esr_core.specs.History.{world_from, IsLegal};
ghost use Rattle.esr_core.specs.Restores.{IsReading};
ghost use Rattle.esr_core.specs.Tracked.{Tracked};
ghost use Rattle.esr_core.specs.ReadTracked.{ReadTracked};
ghost use Rattle.esr_readers.specs.Order.{OrderLaws};
ghost use Rattle.esr_readers.specs.Readers.{RestoresIn, IsThereAs, IsGiven, IsReaderOf};

/// Tickets of restores are given for the shard that the answer tells, over any container, and stay what they are.
pub fn readers_stay_as_given()
    ensures given { (f : Formats) (part_size : ℕ) (w : World) (m : Moment) (k o index number uuid : ℕ) → Allowed f part_size w m → m.entry.reply ≡ Gave k o (GivenRestore index number uuid) → IsGiven (after f w m) k o index number uuid }
    ensures stay { (f : Formats) (part_size : ℕ) (w : World) (log : List Moment) (k : ℕ) (q : Reader) → Tracked w → ReadTracked w → IsLegal f part_size w log → fin.get w.readers k ≡ Some q → IsThereAs (world_from f w log) k q }
{
    esr_core::answers_tell_their_steps();
    steps_keep_order();
}

/// While a restore is open its tickets read the shards of the indices that its answer told, of the snapshot that it told, for
/// the place that was asked. Indices of one name are one, and so are those of one id; the number of the op is the next one, and those never fall.
pub fn readers_are_of_their_ask()
    ensures of { (f : Formats) (part_size : ℕ) (w : World) (before rest : List Moment) (m : Moment) (name place : Bytes) (o uuid : ℕ) (indices : List IndexRef) (k : ℕ) (q : Reader) → Tracked w → ReadTracked w
        → IsLegal f part_size w (before ++ m ∷ rest)
        → m.entry.step ≡ AskStep (Restore name place) → m.entry.reply ≡ AcceptedRestore o uuid indices → IsReading (world_from f w (before ++ m ∷ rest)) k q → q.op ≡ o → IsReaderOf q uuid place indices }
    ensures apart { (f : Formats) (part_size : ℕ) (w : World) (m : Moment) (o uuid : ℕ) (indices : List IndexRef) (r q : IndexRef) → Tracked w → Allowed f part_size w m → m.entry.reply ≡ AcceptedRestore o uuid indices
        → Has indices r → Has indices q → r.name ≡ q.name → r ≡ q }
    ensures one_id { (f : Formats) (part_size : ℕ) (w : World) (m : Moment) (o uuid : ℕ) (indices : List IndexRef) (r q : IndexRef) → Allowed f part_size w m → m.entry.reply ≡ AcceptedRestore o uuid indices
        → Has indices r → Has indices q → r.id ≡ q.id → r ≡ q }
    ensures numbered { (f : Formats) (part_size : ℕ) (w : World) (m : Moment) (o uuid : ℕ) (indices : List IndexRef) → Allowed f part_size w m → m.entry.reply ≡ AcceptedRestore o uuid indices
        → (o ≡ w.next_op) × (o < (after f w m).next_op) }
    ensures rises { (f : Formats) (part_size : ℕ) (w : World) (log : List Moment) → Tracked w → IsLegal f part_size w log → w.next_op ≤ (world_from f w log).next_op }
{
    esr_core::answers_tell_their_steps();
    steps_keep_order();
}

/// No shard of a restore is restored twice, over any container.
pub fn no_shard_is_restored_twice()
    ensures { (f : Formats) (part_size : ℕ) (w : World) (before between : List Moment) (a b : Moment) (j k files bytes more total : ℕ) (p q : Reader) → Tracked w → ReadTracked w → IsLegal f part_size w (before ++ a ∷ between ++ b ∷ [])
        → RestoresIn a j files bytes → RestoresIn b k more total → fin.get (world_from f w before).readers j ≡ Some p → fin.get (world_from f w (before ++ a ∷ between)).readers k ≡ Some q
        → p.op ≡ q.op → p.index ≡ q.index → p.number ≡ q.number → ⊥ }
{
    steps_keep_order();
}

/// What lines ask for leaves the tickets of restores, over any container: a command, a look at the safe root, and the steps of a
/// check or a verification.
pub fn lines_leave_readers()
    ensures asks { (f : Formats) (part_size : ℕ) (w : World) (m : Moment) (command : Asked) → Tracked w → Allowed f part_size w m → m.entry.step ≡ AskStep command → (after f w m).readers ≡ w.readers }
    ensures looks { (f : Formats) (part_size : ℕ) (w : World) (m : Moment) → Tracked w → Allowed f part_size w m → m.entry.step ≡ LookStep → (after f w m).readers ≡ w.readers }
    ensures reads { (f : Formats) (w : World) (m : Moment) (read : Read) → m.entry.who ≡ 0 → m.entry.step ≡ ReadStep read → (after f w m).readers ≡ w.readers }
{}

/// Each step, and each legal history, keeps the order of ops and of restores, whatever the container tells.
pub(crate) fn steps_keep_order()
    ensures { OrderLaws }
{
    esr_core::each_step_is_tracked();
    esr_core::each_step_tracks_restores();
    esr_core::each_history_is_tracked();
    esr_core::each_history_tracks_restores();
}
