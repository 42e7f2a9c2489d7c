//! A container of which a call fails, or each from one on.
ghost use Rattle.std.specs.Prelude.{◌≡◌, ◌≤◌, length, map, option_copied, IfOk, IfSome};
ghost use Rattle.esr_depot.specs.Calls.{up};
ghost use Rattle.esr_depot.specs.Listing.{size_of, IsPage};
ghost use Rattle.esr_depot.specs.Untold.{untold};
ghost use Rattle.esr_faulty.specs.Counts.{clock_after, faults_after};

use crate::faults::{Fault, Kind, Turn};
use crate::pieces::{FaultyFetch, FaultyStage};
use esr_depot::{CallError, Commit, Counted, Depot, Failed, Names, Pages};
use esr_seq::{Bytes, Text};
use std::alloc::Global;

/// A container that makes the calls of another one, but for that of the fault and, where it is stopped, the later ones. A swap to
/// the text `last` stops it; with no text none does.
#[derive(Drop)]
pub struct Faulty<D> {
    pub depot: D,
    alloc: Global,
    fault: Fault,
    last: Text,
    /// Whether the call of the fault, or the swap to `last`, was reached.
    pub was_hit: bool,
    is_stopped: bool,
    clock: u64,
    faults: u64,
}

impl<D> Faulty<D> {
    /// A container of which no call was made yet.
    pub fn new(alloc: Global, depot: D, fault: Fault, last: Text) -> Faulty<D> {
        Faulty {
            depot,
            alloc,
            fault,
            last,
            was_hit: false,
            is_stopped: false,
            clock: 0,
            faults: 0,
        }
    }

    /// A call answers.
    fn pass(&mut self)
        ensures clock { self.new.clock ≡ up self.old.clock }
        ensures later { self.old.clock ≤ self.new.clock }
        ensures faults { self.new.faults ≡ self.old.faults }
    {
        self.clock = self.clock.saturating_add(1);
    }

    /// A call fails.
    fn fail(&mut self)
        ensures clock { self.new.clock ≡ up self.old.clock }
        ensures later { self.old.clock ≤ self.new.clock }
        ensures faults { self.new.faults ≡ up self.old.faults }
        ensures more { self.old.faults ≤ self.new.faults }
    {
        self.pass();
        self.faults = self.faults.saturating_add(1);
    }

    /// How the next call goes, which is of that kind.
    fn next_turn(&mut self, kind: Kind) -> Turn
        ensures clock { self.new.clock ≡ self.old.clock }
        ensures faults { self.new.faults ≡ self.old.faults }
    {
        if self.is_stopped {
            return Turn::Unmade;
        }
        if self.fault.nth == 0 || !self.fault.kind.has(kind) {
            return Turn::Made;
        }
        self.fault.nth -= 1;
        if self.fault.nth > 0 {
            return Turn::Made;
        }
        self.was_hit = true;
        self.is_stopped = self.fault.stops;
        self.fault.turn
    }

    /// Counts a call, by its answer.
    fn count<T>(&mut self, answer: &Result<T, CallError>)
        ensures clock { self.new.clock ≡ clock_after answer.now self.old.clock }
        ensures later { self.old.clock ≤ self.new.clock }
        ensures faults { self.new.faults ≡ faults_after answer.now self.old.faults }
        ensures more { self.old.faults ≤ self.new.faults }
    {
        match answer {
            Ok(_) => self.pass(),
            Err(CallError::Memory) => {}
            Err(CallError::Failed) => self.fail(),
        }
    }

    /// Stops it where that is the last text.
    fn note(&mut self, text: &[u8])
        ensures clock { self.new.clock ≡ self.old.clock }
        ensures faults { self.new.faults ≡ self.old.faults }
    {
        if !self.is_stopped && !text.is_empty() && self.last.as_str().as_bytes() == text {
            self.was_hit = true;
            self.is_stopped = true;
        }
    }
}

/// What is heard of a call that was made: its answer, unless that gets lost.
fn heard<T: Drop>(turn: Turn, answer: Result<T, CallError>) -> Result<T, CallError> {
    if turn == Turn::Lost && answer.is_ok() {
        return Err(CallError::Failed);
    }
    answer
}

/// A new stage, as the turn goes.
fn begin_in<D: Depot>(
    alloc: Global,
    depot: &mut D,
    turn: Turn,
    name: &str,
    room: usize,
) -> Result<FaultyStage<D::Stage>, CallError>
    ensures name { IfOk result (λ s. D.Stage.name s.stage ≡ name.now) }
    ensures room { IfOk result (λ s. D.Stage.room s.stage ≡ room) }
    ensures count { IfOk result (λ s. s.faults ≡ 0) }
{
    if !turn.gives() {
        return Err(CallError::Failed);
    }
    let stage = depot.begin(alloc, name, room)?;
    Ok(FaultyStage {
        stage,
        is_broken: turn == Turn::Broken,
        faults: 0,
    })
}

/// What is fetched, as the turn goes.
fn fetch_in<D: Depot>(
    alloc: Global,
    depot: &mut D,
    turn: Turn,
    name: &str,
) -> Result<Option<FaultyFetch<D::Fetch>>, CallError>
    ensures { IfOk result (λ o. IfSome o (λ f. f.faults ≡ 0)) }
{
    if !turn.gives() {
        return Err(CallError::Failed);
    }
    let Some(fetch) = depot.fetch(alloc, name)? else {
        return Ok(None);
    };
    Ok(Some(FaultyFetch {
        fetch,
        is_broken: turn == Turn::Broken,
        faults: 0,
    }))
}

/// A page, as the turn goes.
fn list_in<D: Depot>(
    alloc: Global,
    depot: &mut D,
    turn: Turn,
    after: Option<&str>,
) -> Result<Pages, CallError>
    ensures page { IfOk result (λ p. IsPage (option_copied after.entry) (map size_of p.page)) }
    ensures copy { IfOk result (λ p. p.copy ≡ p.page) }
{
    if turn != Turn::Made {
        return Err(CallError::Failed);
    }
    depot.list(alloc, after)
}

/// The text of the record, as the turn goes.
fn read_in<D: Depot>(alloc: Global, depot: &mut D, turn: Turn) -> Result<Option<Bytes>, CallError> {
    if turn != Turn::Made {
        return Err(CallError::Failed);
    }
    depot.read_record(alloc)
}

/// A commit, as the turn goes.
fn commit_in<D: Depot>(
    alloc: Global,
    depot: &mut D,
    turn: Turn,
    stage: D::Stage,
) -> Result<Commit, CallError> {
    if !turn.is_made() {
        return Err(CallError::Failed);
    }
    heard(turn, depot.commit(alloc, stage))
}

/// A replace, as the turn goes.
fn replace_in<D: Depot>(
    alloc: Global,
    depot: &mut D,
    turn: Turn,
    stage: D::Stage,
) -> Result<(), CallError> {
    if !turn.is_made() {
        return Err(CallError::Failed);
    }
    heard(turn, depot.replace(alloc, stage))
}

/// A swap of the record, as the turn goes.
fn swap_in<D: Depot>(
    alloc: Global,
    depot: &mut D,
    turn: Turn,
    text: &[u8],
) -> Result<(), CallError> {
    if !turn.is_made() {
        return Err(CallError::Failed);
    }
    heard(turn, depot.swap_record(alloc, text))
}

/// Takes the blob of that name away.
fn remove_one<D: Depot>(alloc: Global, depot: &mut D, name: &str) -> Result<(), CallError> {
    let mut names = Names::new(alloc);
    names.push(Text::from_str(alloc, name)?)?;
    depot.remove(&names)?;
    Ok(())
}

/// Takes the blobs of the first so many names away.
fn remove_first<D: Depot>(alloc: Global, depot: &mut D, names: &Names, count: u64) {
    for name in names.as_slice().iter().take(count as usize) {
        let _ = remove_one(alloc, depot, name.as_str());
    }
}

/// A removal, as the turn goes: of all names, or of the first so many.
fn remove_in<D: Depot>(
    alloc: Global,
    depot: &mut D,
    turn: Turn,
    names: &Names,
) -> Result<(), Failed>
    requires { length names.now ≤ 1000 }
{
    if let Turn::First(count) = turn {
        remove_first(alloc, depot, names, count);
    }
    if !turn.is_made() {
        return Err(Failed);
    }
    depot.remove(names)?;
    if turn == Turn::Lost {
        return Err(Failed);
    }
    Ok(())
}

impl<D: Counted> Counted for Faulty<D> {
    ghost faults = { λ d. d.faults };

    fn fault_count(&self) -> u64 {
        self.faults
    }
}

#[tactic(auto, using(esr_depot::specs::Untold::untold_called))]
impl<D: Depot> Depot for Faulty<D> {
    type Stage = FaultyStage<D::Stage>;

    type Fetch = FaultyFetch<D::Fetch>;

    ghost look = { λ d. untold d.clock };

    ghost counts_now = { λ d t i le is. absurd Prim.cc };

    ghost only_now = { λ d i left. absurd left };

    fn begin(
        &mut self,
        alloc: Global,
        name: &str,
        room: usize,
    ) -> Result<FaultyStage<D::Stage>, CallError> {
        let turn = self.next_turn(Kind::Begin);
        let answer = begin_in(alloc, &mut self.depot, turn, name, room);
        self.count(&answer);
        answer
    }

    fn commit(&mut self, alloc: Global, stage: FaultyStage<D::Stage>) -> Result<Commit, CallError> {
        let turn = self.next_turn(Kind::Commit);
        let answer = commit_in(alloc, &mut self.depot, turn, stage.stage);
        self.count(&answer);
        answer
    }

    fn replace(&mut self, alloc: Global, stage: FaultyStage<D::Stage>) -> Result<(), CallError> {
        let turn = self.next_turn(Kind::Replace);
        let answer = replace_in(alloc, &mut self.depot, turn, stage.stage);
        self.count(&answer);
        answer
    }

    fn fetch(
        &mut self,
        alloc: Global,
        name: &str,
    ) -> Result<Option<FaultyFetch<D::Fetch>>, CallError> {
        let turn = self.next_turn(Kind::Fetch);
        let answer = fetch_in(alloc, &mut self.depot, turn, name);
        self.count(&answer);
        answer
    }

    fn list(&mut self, alloc: Global, after: Option<&str>) -> Result<Pages, CallError> {
        let turn = self.next_turn(Kind::List);
        let answer = list_in(alloc, &mut self.depot, turn, after);
        self.count(&answer);
        answer
    }

    fn remove(&mut self, names: &Names) -> Result<(), Failed> {
        let turn = self.next_turn(Kind::Remove);
        match remove_in(self.alloc, &mut self.depot, turn, names) {
            Ok(()) => {
                self.pass();
                Ok(())
            }
            Err(Failed) => {
                self.fail();
                Err(Failed)
            }
        }
    }

    fn read_record(&mut self, alloc: Global) -> Result<Option<Bytes>, CallError> {
        let turn = self.next_turn(Kind::ReadRecord);
        let answer = read_in(alloc, &mut self.depot, turn);
        self.count(&answer);
        answer
    }

    fn swap_record(&mut self, alloc: Global, text: &[u8]) -> Result<(), CallError> {
        self.note(text);
        let turn = self.next_turn(Kind::SwapRecord);
        let answer = swap_in(alloc, &mut self.depot, turn, text);
        self.count(&answer);
        answer
    }
}
