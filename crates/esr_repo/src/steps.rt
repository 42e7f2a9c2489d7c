//! The steps through which every step of a repository goes: each adds one entry to the history, or none.
ghost use Rattle.std.specs.Prelude.{◌≡◌, ◌⊎◌, ℕ, IfErr, OnOk};
ghost use Rattle.std.specs.Option.{unwrap_or};
ghost use Rattle.esr_desk.specs.Entries.{step_of, answer_of};
ghost use Rattle.esr_desk.specs.Refusals.{refusal_of};
ghost use Rattle.esr_desk.specs.Own.{reader_of, caller_of, own_of};
ghost use Rattle.esr_desk.specs.Once.{IsFresh};
ghost use Rattle.esr_desk.specs.Start.{ticket_of};
ghost use Rattle.esr_desk.specs.declared.refusal.StepRefusal.TheVariants.{Memory, Refused};
ghost use Rattle.esr_repo.specs.Blocks.{block_of};
ghost use Rattle.esr_repo.specs.Client.{ReadsOwn};
ghost use Rattle.esr_repo.specs.Next.{IsLive, GoesOn, Checked, Did, AddedOr};
ghost use Rattle.esr_repo.specs.May.{MayNote, MayRefuse};

use crate::{Repo, Told};
use esr_depot::Depot;
use esr_desk::{Answer, Entry, EntryRefusal, Step, StepRefusal};
use esr_names::Id;
use esr_progress::Progress;

/// Puts a value where one is given.
pub(crate) fn renew<T: Drop>(place: &mut T, value: Option<T>)
    ensures { place.new ≡ unwrap_or value place.old }
{
    if let Some(new) = value {
        *place = new;
    }
}

/// Why a step is refused before it is looked at, if it is.
fn block(deposed: Option<u64>, list: &Progress, who: u64, step: &Step) -> Option<EntryRefusal>
    ensures { result ≡ block_of deposed list.now who (step_of step.now) }
{
    if let Some(entry) = deposed {
        return Some(EntryRefusal::Deposed { entry });
    }
    if matches!(step, Step::Failed { .. }) {
        return None;
    }
    match list.aborter(who) {
        Some(by) => Some(EntryRefusal::Aborted { by }),
        None => None,
    }
}

impl<D: Depot, K: Told> Repo<D, K> {
    /// Whether a step may go on. It is refused where a record swap failed before, and where a delete has aborted the op of the
    /// ticket, unless it tells that the unit failed.
    pub fn check(&mut self, who: u64, step: Step) -> Result<(), StepRefusal>
        requires fresh { IsFresh K.start self.old who (step_of step) }
        requires own { ReadsOwn (caller_of K.start self.old) who (step_of step) }
        ensures step { Checked K.start self.old self.new who (step_of step) result }
        ensures goes { OnOk result (GoesOn K.start self.new who (step_of step)) }
        ensures own { (k : ℕ) → own_of K.start self.new k ≡ own_of K.start self.old k }
        ensures kept { (k : ℕ) → ticket_of K.start self.new k ≡ ticket_of K.start self.old k }
        ensures readers { (k : ℕ) → reader_of K.start self.new k ≡ reader_of K.start self.old k }
        ensures caller { caller_of K.start self.new ≡ caller_of K.start self.old }
    {
        Self::laws();
        let Some(refusal) = block(self.deposed, &self.progress, who, &step) else {
            drop(step);
            return Ok(());
        };
        if self.history.reserve(1).is_err() {
            drop(step);
            return Err(StepRefusal::Memory);
        }
        let answer = Answer::Refused { refusal };
        self.history.push_reserved(Entry { who, step, answer });
        Err(StepRefusal::Refused(refusal))
    }

    /// A step without a call of the container. Where no list of ops is given, the one that is kept stays.
    pub fn note(
        &mut self,
        who: u64,
        step: Step,
        answer: Answer,
        progress: Option<Progress>,
        next: Id,
    ) -> Result<(), StepRefusal>
        requires live { IsLive K.start self.old }
        requires goes { GoesOn K.start self.old who (step_of step) }
        requires may { MayNote K.start self.old who (step_of step) (answer_of answer) progress next.number }
        ensures step { Did K.start self.old self.new who (step_of step) (λ _. answer_of answer) result }
        ensures why { IfErr result (λ e. e ≡ Memory) }
    {
        Self::laws();
        if self.history.reserve(1).is_err() {
            drop(step);
            drop(answer);
            drop(progress);
            return Err(StepRefusal::Memory);
        }
        self.history.push_reserved(Entry { who, step, answer });
        renew(&mut self.progress, progress);
        self.next = next;
        Ok(())
    }

    /// A refusal by rule, which changes nothing, or want of memory, where the history doesn't tell it.
    pub fn refuse(&mut self, who: u64, step: Step, refusal: EntryRefusal) -> StepRefusal
        requires live { IsLive K.start self.old }
        requires goes { GoesOn K.start self.old who (step_of step) }
        requires may { MayRefuse K.start self.old who (step_of step) (refusal_of refusal) }
        ensures step { AddedOr K.start self.old self.new who (step_of step) result }
        ensures kept { (k : ℕ) → ticket_of K.start self.new k ≡ ticket_of K.start self.old k }
        ensures why { (result ≡ Memory) ⊎ (result ≡ Refused refusal) }
    {
        let next = self.next;
        let answer = Answer::Refused { refusal };
        match self.note(who, step, answer, None, next) {
            Ok(()) => StepRefusal::Refused(refusal),
            Err(other) => other,
        }
    }
}
