//! A container that tells nothing and holds nothing: that it meets the traits shows that they ask for no contents.
ghost use Rattle.std.specs.Prelude.{◌≡◌, None, false};
ghost use Rattle.esr_depot.specs.Untold.{untold};

use crate::calls::say_call;
use esr_depot::{CallError, Commit, Counted, Depot, Failed, Fetch, Names, Pages, Stage};
use esr_scenes::{Subject, say_number};
use esr_seq::{Bytes, Text};
use std::alloc::Global;

/// Its swaps of the record fail.
#[derive(Drop)]
pub(crate) struct Mute {
    clock: u64,
    faults: u64,
}

#[derive(Drop)]
pub(crate) struct MuteStage {
    name: Text,
    room: usize,
}

#[derive(Drop)]
pub(crate) struct MuteFetch;

impl Counted for Mute {
    ghost faults = { λ d. d.faults };

    fn fault_count(&self) -> u64 {
        self.faults
    }
}

impl Counted for MuteStage {
    ghost faults = { λ _. 0 };

    fn fault_count(&self) -> u64 {
        0
    }
}

impl Counted for MuteFetch {
    ghost faults = { λ _. 0 };

    fn fault_count(&self) -> u64 {
        0
    }
}

impl Stage for MuteStage {
    ghost name = { λ s. s.name };

    ghost contents = { λ _. None };

    ghost room = { λ s. s.room };

    ghost is_sure = { λ _. false };

    fn write(&mut self, piece: &[u8]) -> Result<(), Failed> {
        self.room -= piece.len();
        Ok(())
    }
}

impl Fetch for MuteFetch {
    ghost left = { λ _. None };

    ghost is_sure = { λ _. false };

    fn read(&mut self, _buf: &mut [u8]) -> Result<usize, Failed> {
        Ok(0)
    }
}

impl Mute {
    ghost use Rattle.std.specs.Prelude.{◌≤◌};
    ghost use Rattle.esr_depot.specs.Calls.{up};

    pub fn new() -> Mute {
        Mute {
            clock: 0,
            faults: 0,
        }
    }

    fn pass(&mut self)
        ensures clock { self.new.clock ≡ up self.old.clock }
        ensures later { self.old.clock ≤ self.new.clock }
        ensures faults { self.new.faults ≡ self.old.faults }
    {
        self.clock = self.clock.saturating_add(1);
    }
}

#[tactic(auto, using(esr_depot::specs::Untold::untold_called))]
impl Depot for Mute {
    type Stage = MuteStage;

    type Fetch = MuteFetch;

    ghost look = { λ d. untold d.clock };

    ghost counts_now = { λ d t i le is. absurd Prim.cc };

    ghost only_now = { λ d i left. absurd left };

    fn begin(&mut self, alloc: Global, name: &str, room: usize) -> Result<MuteStage, CallError> {
        let name = Text::from_str(alloc, name)?;
        self.pass();
        Ok(MuteStage { name, room })
    }

    fn commit(&mut self, _alloc: Global, _stage: MuteStage) -> Result<Commit, CallError> {
        self.pass();
        Ok(Commit::Done)
    }

    fn replace(&mut self, _alloc: Global, _stage: MuteStage) -> Result<(), CallError> {
        self.pass();
        Ok(())
    }

    fn fetch(&mut self, _alloc: Global, _name: &str) -> Result<Option<MuteFetch>, CallError> {
        self.pass();
        Ok(Some(MuteFetch))
    }

    fn list(&mut self, alloc: Global, _after: Option<&str>) -> Result<Pages, CallError> {
        self.pass();
        Ok(Pages::new(alloc))
    }

    fn remove(&mut self, _names: &Names) -> Result<(), Failed> {
        self.pass();
        Ok(())
    }

    fn read_record(&mut self, _alloc: Global) -> Result<Option<Bytes>, CallError> {
        self.pass();
        Ok(None)
    }

    fn swap_record(&mut self, _alloc: Global, _text: &[u8]) -> Result<(), CallError> {
        self.pass();
        self.faults = self.faults.saturating_add(1);
        Err(CallError::Failed)
    }
}

impl Subject for Mute {
    /// The call `calls` answers how many calls were made.
    fn call(&mut self, alloc: Global, call: &str, line: &mut String) {
        if call == "calls" {
            say_number(line, self.clock);
        } else {
            say_call(alloc, self, call, line);
        }
    }
}
