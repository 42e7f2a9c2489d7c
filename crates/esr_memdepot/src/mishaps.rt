//! The calls of a stage or of a fetch in memory that are to fail.
ghost use Rattle.std.specs.Prelude.{◌≡◌, ◌==◌, is_err};
ghost use Rattle.std.specs.List.{list_any};
ghost use Rattle.esr_depot.specs.Calls.{up, HasCause};

use esr_depot::Failed;
use esr_seq::Seq;

/// How many calls were made and how many of them failed, and the numbers, from 1, of those that are to fail.
#[derive(Drop)]
pub struct Mishaps {
    pub calls: u64,
    pub faults: u64,
    pub failing: Seq<u64>,
}

impl Mishaps {
    pub fn new(failing: Seq<u64>) -> Mishaps
        ensures { result ≡ record { calls = 0; faults = 0; failing = failing } }
    {
        Mishaps {
            calls: 0,
            faults: 0,
            failing,
        }
    }

    /// One more call: it fails exactly where its number is among those.
    pub fn turn(&mut self) -> Result<(), Failed>
        ensures fails { is_err result ≡ list_any (λ n. n == up self.old.calls) self.old.failing }
        ensures calls { self.new.calls ≡ up self.old.calls }
        ensures failing { self.new.failing ≡ self.old.failing }
        ensures cause { HasCause self.old.faults self.new.faults (is_err result) }
    {
        self.calls = self.calls.saturating_add(1);
        if self.failing.as_slice().contains(&self.calls) {
            self.faults = self.faults.saturating_add(1);
            return Err(Failed);
        }
        Ok(())
    }
}
