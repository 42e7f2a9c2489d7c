//! The steps that call the container for a blob.
ghost use Rattle.std.specs.Prelude.{◌≡◌, true, false, ◌⊎◌, ◌<◌, ◌^◌, [], length, IsTrue, Option, Some, None, IfOk, IfErr, IfSome, OnOk, vec_len, vec_capacity};
ghost use Rattle.esr_model.specs.Names.{Latest};
ghost use Rattle.esr_core.specs.Entry.{LatestStep, WasBegun, WasReplaced};
ghost use Rattle.esr_desk.specs.Entries.{step_of};
ghost use Rattle.esr_core.specs.Allowed.{IsMetadata};
ghost use Rattle.esr_names.specs.Layout.{IsName};
ghost use Rattle.esr_model.specs.Values.{ReadsBack};
ghost use Rattle.esr_formats.specs.Names.{name_of, name_kind};
ghost use Rattle.esr_desk.specs.Conditions.{Holds};
ghost use Rattle.esr_desk.specs.declared.refusal.StepRefusal.TheVariants.{Memory, Refused};
ghost use Rattle.esr_desk.specs.declared.refusal.EntryRefusal.TheVariants.{DepotFault, NameTaken};
ghost use Rattle.esr_depot.specs.declared.depot.Commit.TheVariants.{Exists};
ghost use Rattle.esr_repo.specs.Next.{IsLive, GoesOn, Did};
ghost use Rattle.esr_repo.specs.May.{MayBegin, MayCommit, MayReplace, MayFetch};
ghost use Rattle.esr_repo.specs.Calls.{with_error, refusal_of_error, CommitDid, FetchDid};

use crate::{Repo, Told};
use esr_depot::{CallError, Commit, Depot};
use esr_desk::{Answer, Entry, EntryRefusal, Named, Step, StepRefusal};
use esr_formats::write_name;
use esr_names::{BlobName, print_name};
use esr_seq::Text;
use std::alloc::{AllocError, Global};

/// A name of the layout reads back from its text.
fn reads_back(name: &BlobName)
    requires { IsName name.now }
    ensures { ReadsBack name_kind (name_of name.now) }
{
    let mut text = [0; 128];
    print_name(name, &mut text);
}

/// Whether the name is of a finalization's metadata.
fn is_metadata(name: BlobName) -> bool
    ensures yes_it_is { result ≡ true → IsMetadata (name_of name) }
    ensures it_is_not { result ≡ false → IsMetadata (name_of name) → ⊥ }
{
    match name {
        BlobName::Snap(_) | BlobName::Meta(_) | BlobName::IndexMeta(_, _) => true,
        _ => false,
    }
}

/// The text of a name, and room for one more entry.
fn prepare(history: &mut Vec<Entry>, alloc: Global, name: &BlobName) -> Result<Text, AllocError>
    requires { IsName name.now }
    ensures entries { history.new.items ≡ history.old.items }
    ensures room { OnOk result (vec_len history.new < vec_capacity history.new) }
    ensures text { IfOk result (λ text. text ≡ name_kind.text (name_of name.now)) }
    ensures reads { ReadsBack name_kind (name_of name.now) }
{
    let text = write_name(alloc, name)?;
    history.reserve(1)?;
    Ok(text)
}

/// Why a step is refused whose call gave this error. Where the container failed the history tells it.
pub(crate) fn refuse_call(
    history: &mut Vec<Entry>,
    who: u64,
    step: Step,
    error: CallError,
) -> StepRefusal
    requires { vec_len history.old < vec_capacity history.old }
    ensures entries { history.new.items ≡ with_error history.old.items who (step_of step) error }
    ensures is { result ≡ refusal_of_error error }
    ensures why { (result ≡ Memory) ⊎ (result ≡ Refused DepotFault) }
{
    match error {
        CallError::Memory => {
            drop(step);
            StepRefusal::Memory
        }
        CallError::Failed => {
            let refusal = EntryRefusal::DepotFault;
            let answer = Answer::Refused { refusal };
            history.push_reserved(Entry { who, step, answer });
            StepRefusal::Refused(refusal)
        }
    }
}

impl<D: Depot, K: Told> Repo<D, K> {
    /// A new stage, by this step.
    pub fn call_begin(
        &mut self,
        alloc: Global,
        who: u64,
        step: Step,
        name: BlobName,
        room: usize,
    ) -> Result<Named<D::Stage>, StepRefusal>
        requires live { IsLive K.start self.old }
        requires layout { IsName name }
        requires goes { GoesOn K.start self.old who (step_of step) }
        requires may { MayBegin K.start self.old who (step_of step) (name_of name) }
        ensures step { Did K.start self.old self.new who (step_of step) (λ stage. WasBegun) result }
        ensures name { IfOk result (λ s. s.name ≡ name) }
        ensures room { IfOk result (λ s. D.Stage.room s.stage ≡ room) }
        ensures contents { IfOk result (λ s. Holds K.start (D.Stage.contents s.stage) []) }
        ensures count { IfOk result (λ s. D.Stage.faults s.stage ≡ 0) }
        ensures sure { IfOk result (λ s. K.start.quiet ≡ true → length self.old < 2 ^ 41 → IsTrue (D.Stage.is_sure s.stage)) }
        ensures why { IfErr result (λ e. (e ≡ Memory) ⊎ (e ≡ Refused DepotFault)) }
    {
        Self::laws();
        let Ok(text) = prepare(&mut self.history, alloc, &name) else {
            drop(step);
            return Err(StepRefusal::Memory);
        };
        match self.depot.begin(alloc, text.as_str(), room) {
            Ok(stage) => {
                let answer = Answer::Begun;
                self.history.push_reserved(Entry { who, step, answer });
                Ok(Named { name, stage })
            }
            Err(error) => Err(refuse_call(&mut self.history, who, step, error)),
        }
    }

    /// A blob is committed by this step. One that is there counts where it is of a finalization's metadata, and is refused
    /// else.
    pub fn call_commit(
        &mut self,
        alloc: Global,
        who: u64,
        step: Step,
        stage: Named<D::Stage>,
    ) -> Result<Commit, StepRefusal>
        requires live { IsLive K.start self.old }
        requires layout { IsName stage.name }
        requires goes { GoesOn K.start self.old who (step_of step) }
        requires may { (bytes : _) × Holds K.start (D.Stage.contents stage.stage) bytes × MayCommit K.start self.old who (step_of step) (name_of stage.name) bytes }
        ensures step { CommitDid K.start self.old self.new who (step_of step) (name_of stage.name) (D.Stage.contents stage.stage) result }
        ensures why { IfErr result (λ e. (e ≡ Memory) ⊎ ((e ≡ Refused DepotFault) ⊎ ((e ≡ Refused (NameTaken stage.name)) × (IsMetadata (name_of stage.name) → ⊥)))) }
    {
        Self::laws();
        let Named { name, stage } = stage;
        reads_back(&name);
        if self.history.reserve(1).is_err() {
            drop(step);
            drop(stage);
            return Err(StepRefusal::Memory);
        }
        match self.depot.commit(alloc, stage) {
            Ok(Commit::Done) => {
                let answer = Answer::Done;
                self.history.push_reserved(Entry { who, step, answer });
                Ok(Commit::Done)
            }
            Ok(Commit::Exists) => {
                if is_metadata(name) {
                    let answer = Answer::Exists;
                    self.history.push_reserved(Entry { who, step, answer });
                    return Ok(Commit::Exists);
                }
                let refusal = EntryRefusal::NameTaken { name };
                let answer = Answer::Refused { refusal };
                self.history.push_reserved(Entry { who, step, answer });
                Err(StepRefusal::Refused(refusal))
            }
            Err(error) => Err(refuse_call(&mut self.history, who, step, error)),
        }
    }

    /// `index.latest` is replaced.
    pub fn call_replace(
        &mut self,
        alloc: Global,
        who: u64,
        stage: Named<D::Stage>,
    ) -> Result<(), StepRefusal>
        requires live { IsLive K.start self.old }
        requires name { name_of stage.name ≡ Latest }
        requires goes { GoesOn K.start self.old who LatestStep }
        requires may { (bytes : _) × Holds K.start (D.Stage.contents stage.stage) bytes × MayReplace K.start self.old who bytes }
        ensures step { Did K.start self.old self.new who LatestStep (λ _. WasReplaced) result }
        ensures why { IfErr result (λ e. (e ≡ Memory) ⊎ (e ≡ Refused DepotFault)) }
    {
        Self::laws();
        if self.history.reserve(1).is_err() {
            return Err(StepRefusal::Memory);
        }
        match self.depot.replace(alloc, stage.stage) {
            Ok(()) => {
                let step = Step::Latest;
                let answer = Answer::Replaced;
                self.history.push_reserved(Entry { who, step, answer });
                Ok(())
            }
            Err(error) => Err(refuse_call(&mut self.history, who, Step::Latest, error)),
        }
    }

    /// A blob is fetched by this step.
    pub fn call_fetch(
        &mut self,
        alloc: Global,
        who: u64,
        step: Step,
        name: BlobName,
    ) -> Result<Option<D::Fetch>, StepRefusal>
        requires live { IsLive K.start self.old }
        requires layout { IsName name }
        requires goes { GoesOn K.start self.old who (step_of step) }
        requires may { MayFetch K.start self.old who (step_of step) (name_of name) }
        ensures step { FetchDid D.Fetch.left K.start self.old self.new who (step_of step) (name_of name) result }
        ensures count { IfOk result (λ o. IfSome o (λ f. D.Fetch.faults f ≡ 0)) }
        ensures sure { IfOk result (λ o. IfSome o (λ f. K.start.quiet ≡ true → length self.old < 2 ^ 41 → IsTrue (D.Fetch.is_sure f))) }
        ensures why { IfErr result (λ e. (e ≡ Memory) ⊎ (e ≡ Refused DepotFault)) }
    {
        Self::laws();
        let Ok(text) = prepare(&mut self.history, alloc, &name) else {
            drop(step);
            return Err(StepRefusal::Memory);
        };
        match self.depot.fetch(alloc, text.as_str()) {
            Ok(Some(fetch)) => {
                let answer = Answer::Fetched;
                self.history.push_reserved(Entry { who, step, answer });
                Ok(Some(fetch))
            }
            Ok(None) => {
                let answer = Answer::Absent;
                self.history.push_reserved(Entry { who, step, answer });
                Ok(None)
            }
            Err(error) => Err(refuse_call(&mut self.history, who, step, error)),
        }
    }
}
