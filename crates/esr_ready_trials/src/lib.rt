//! Worked cases of which units are ready: what the law of soundness doesn't need, and the definitions say all the same.
//! Each is proved; the bodies are empty.
#![tactic(auto)]

mod merging;

ghost use Rattle.std.specs.Prelude.{◌≡◌, ℕ, [], ◌∷◌, List, Some};
ghost use Rattle.std.specs.FinMap as fin;
ghost use Rattle.esr_model.specs.Values.{ShardResult};
ghost use Rattle.esr_core.specs.World.{World, Op};
ghost use Rattle.esr_core.specs.Ready.{SwapIsOut, ReadyFinalize, ReadyDelete, ReadyCleanup};
ghost use Rattle.esr_core.specs.Turns.{AskDelete, MergeDelete};
ghost use Rattle.esr_ready_trials.specs.Rows.{bare, delete, cleanup, one, two, with_open};

pub use merging::{
    a_delete_aborts_what_is_being_made, a_delete_goes_into_one_that_waits,
    a_delete_joins_one_that_runs, a_delete_of_less_is_a_new_op, the_first_delete_is_a_new_op,
};

/// A snapshot without shards isn't finalized behind an open delete, but before one, and where none is open.
pub fn a_snapshot_without_shards_waits_for_a_delete()
    ensures behind { (results : List ShardResult) → ReadyFinalize (with_open (one 2 bare) (one 1 delete) (2 ∷ [])) 2 bare results → ⊥ }
    ensures before { ReadyFinalize (with_open (one 2 bare) (one 3 delete) (2 ∷ [])) 2 bare [] }
    ensures alone { ReadyFinalize (with_open (one 2 bare) fin.empty (2 ∷ [])) 2 bare [] }
{}

/// Of two snapshots whose shards are done, the one that completed first is finalized first, whichever was asked first.
pub fn snapshots_are_finalized_as_they_completed()
    ensures first { ReadyFinalize (with_open (two 1 bare 2 bare) fin.empty (2 ∷ 1 ∷ [])) 2 bare [] }
    ensures second { (results : List ShardResult) → ReadyFinalize (with_open (two 1 bare 2 bare) fin.empty (2 ∷ 1 ∷ [])) 1 bare results → ⊥ }
{}

/// Of two deletes the first goes, and the second waits for it.
pub fn deletes_go_one_after_another()
    ensures first { ReadyDelete (with_open fin.empty (two 1 delete 2 delete) []) 1 delete }
    ensures second { ReadyDelete (with_open fin.empty (two 1 delete 2 delete) []) 2 delete → ⊥ }
{}

/// A cleanup goes where no delete is open beside it, before it or after.
pub fn a_cleanup_goes_alone()
    ensures alone { ReadyCleanup (with_open fin.empty (one 2 cleanup) []) 2 cleanup }
    ensures behind { ReadyCleanup (with_open fin.empty (two 1 delete 2 cleanup) []) 2 cleanup → ⊥ }
    ensures before { ReadyCleanup (with_open fin.empty (two 2 cleanup 3 delete) []) 2 cleanup → ⊥ }
{}

/// A delete that is asked for, or merged into one that waits, leaves a snapshot that an earlier delete aborted as that did.
pub fn a_snapshot_keeps_the_delete_that_aborted_it_first()
    ensures asked { (w new : World) (uuids : List ℕ) → AskDelete w uuids new → (o by : ℕ) (op : Op) → fin.get w.ops o ≡ Some op → op.aborted ≡ Some by → fin.get new.ops o ≡ Some op }
    ensures merged { (w new : World) (uuids : List ℕ) (d : ℕ) → MergeDelete w uuids d new → (o by : ℕ) (op : Op) → fin.get w.ops o ≡ Some op → op.aborted ≡ Some by → fin.get new.ops o ≡ Some op }
{}

/// Nor does it abort a snapshot whose finalization is out.
pub fn a_snapshot_that_is_being_finalized_is_not_aborted()
    ensures asked { (w new : World) (uuids : List ℕ) → AskDelete w uuids new → (k : ℕ) (swap : SwapIsOut w.tickets w.term k) → fin.get new.ops swap.t.op ≡ fin.get w.ops swap.t.op }
    ensures merged { (w new : World) (uuids : List ℕ) (d : ℕ) → MergeDelete w uuids d new → (k : ℕ) (swap : SwapIsOut w.tickets w.term k) → fin.get new.ops swap.t.op ≡ fin.get w.ops swap.t.op }
{}
