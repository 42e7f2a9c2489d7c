//! A client of any container, which shows that the trait says enough: a blob of two pieces, and then the record.
ghost use Rattle.std.specs.Prelude.{◌≡◌, ◌+◌, ◌^◌, ◌<◌, ◌≤◌, ◌++◌, ℕ, Some, None, length, IsErrOf};
ghost use Rattle.esr_depot.specs.Image.{Image, with_blob, with_text, IsTaken};
ghost use Rattle.esr_depot.specs.Look.{now};
ghost use Rattle.esr_depot.specs.Calls.{up};
ghost use Rattle.esr_depot.specs.Moments.{LeavesOnly};
ghost use Rattle.esr_test_outside.specs.Put.{IsPutOf, IfStage, put_error};

use esr_depot::{CallError, Commit, Depot, Stage};
use std::alloc::Global;

/// Why a put stopped.
#[derive(Drop)]
pub enum PutError<S> {
    Memory,
    Depot,
    Stage(S),
}

impl<S> From<CallError> for PutError<S> {
    ghost from_gives = { λ e p. p ≡ put_error e };

    fn from(error: CallError) -> Self {
        match error {
            CallError::Memory => PutError::Memory,
            CallError::Failed => PutError::Depot,
        }
    }
}

/// Commits a blob of two pieces, and then puts the record. Where the name is taken it leaves all as it was.
pub fn put_and_record<D: Depot>(
    alloc: Global,
    depot: &mut D,
    name: &str,
    first: &[u8],
    second: &[u8],
    text: &[u8],
) -> Result<Commit, PutError<D::Stage>>
    requires { length first.now + length second.now < 2 ^ 64 }
    ensures done { (i : Image) → now (D.look depot.old) ≡ Some i → result ≡ Ok Commit.Done
        → now (D.look depot.new) ≡ Some (with_text (with_blob i name.now (first.now ++ second.now)) text.now) }
    ensures exists { result ≡ Ok Commit.Exists → now (D.look depot.new) ≡ now (D.look depot.old) }
    ensures taken { result ≡ Ok Commit.Exists → IsTaken (now (D.look depot.old)) name.now }
    ensures any_moment { LeavesOnly (D.look depot.old) (D.look depot.new)
        (λ c. (i : Image) → now (D.look depot.old) ≡ Some i → IsPutOf i name.now (first.now ++ second.now) text.now c) }
    ensures depot_fault { IsErrOf result PutError.Depot → up (D.faults depot.old) ≤ D.faults depot.new }
    ensures stage_fault { IfStage result (λ s. 0 < D.Stage.faults s) }
    ensures untold { now (D.look depot.old) ≡ None → now (D.look depot.new) ≡ None }
    ensures sure_stage { 3 ≤ (D.look depot.old).sure → IfStage result (λ _. ⊥) }
    ensures sure { 3 ≤ (D.look depot.old).sure → IsErrOf result PutError.Depot → ⊥ }
{
    let mut stage = depot.begin(alloc, name, first.len() + second.len())?;
    if stage.write(first).is_err() || stage.write(second).is_err() {
        return Err(PutError::Stage(stage));
    }
    let answer = depot.commit(alloc, stage)?;
    if answer == Commit::Done {
        depot.swap_record(alloc, text)?;
    }
    Ok(answer)
}
