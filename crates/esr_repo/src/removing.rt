//! The step that takes blobs away.
ghost use Rattle.std.specs.Prelude.{◌≡◌, ◌⊎◌, ◌≤◌, length, map, IfOk, IfErr};
ghost use Rattle.esr_model.specs.Values.{Has, ReadsBack};
ghost use Rattle.esr_core.specs.Entry.{WasRemoved};
ghost use Rattle.esr_names.specs.Layout.{IsName};
ghost use Rattle.esr_formats.specs.Names.{name_of, name_kind};
ghost use Rattle.esr_desk.specs.Entries.{step_of};
ghost use Rattle.esr_desk.specs.declared.refusal.StepRefusal.TheVariants.{Memory, Refused};
ghost use Rattle.esr_desk.specs.declared.refusal.EntryRefusal.TheVariants.{DepotFault};
ghost use Rattle.esr_repo.specs.Next.{IsLive, GoesOn, Did};
ghost use Rattle.esr_repo.specs.May.{MayRemove};

use crate::calls::refuse_call;
use crate::{Repo, Told};
use esr_depot::{CallError, Depot, Names};
use esr_desk::{Answer, Entry, Step, StepRefusal};
use esr_formats::write_name;
use esr_names::BlobName;
use std::alloc::{AllocError, Global};

/// The texts of names.
fn texts_of(alloc: Global, names: &[BlobName]) -> Result<Names, AllocError>
    requires { (name : BlobName) → Has names.now name → IsName name }
    ensures texts { IfOk result (λ texts. texts ≡ map (λ name. name_kind.text (name_of name)) names.now) }
    ensures reads { IfOk result (λ texts. (name : BlobName) → Has names.now name → ReadsBack name_kind (name_of name)) }
{
    let mut texts = Names::with_capacity(alloc, names.len())?;
    for name in names {
        texts.push(write_name(alloc, name)?)?;
    }
    Ok(texts)
}

impl<D: Depot, K: Told> Repo<D, K> {
    /// Blobs are taken away by this step.
    pub fn call_remove(
        &mut self,
        alloc: Global,
        who: u64,
        step: Step,
        names: &[BlobName],
    ) -> Result<(), StepRefusal>
        requires live { IsLive K.start self.old }
        requires layout { (name : BlobName) → Has names.now name → IsName name }
        requires few { length names.now ≤ 1000 }
        requires goes { GoesOn K.start self.old who (step_of step) }
        requires may { MayRemove K.start self.old who (step_of step) (map name_of names.now) }
        ensures step { Did K.start self.old self.new who (step_of step) (λ _. WasRemoved) result }
        ensures why { IfErr result (λ e. (e ≡ Memory) ⊎ (e ≡ Refused DepotFault)) }
    {
        Self::laws();
        let Ok(texts) = texts_of(alloc, names) else {
            drop(step);
            return Err(StepRefusal::Memory);
        };
        if self.history.reserve(1).is_err() {
            drop(step);
            return Err(StepRefusal::Memory);
        }
        match self.depot.remove(&texts) {
            Ok(()) => {
                let answer = Answer::Removed;
                self.history.push_reserved(Entry { who, step, answer });
                Ok(())
            }
            Err(_) => {
                let error = CallError::Failed;
                Err(refuse_call(&mut self.history, who, step, error))
            }
        }
    }
}
