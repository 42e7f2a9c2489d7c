// A counter that remembers who counted.
ghost use Rattle.std.specs.Prelude.{◌≡◌, ℕ, ◌+◌, List, [], ◌∷◌, ◌++◌, length, IfOk, OnErr, None};

use esr_turns::Logged;
use std::alloc::{AllocError, Global};
use std::marker::Model;

/// Contracts see it as its log: who counted, and the count then.
#[derive(Drop)]
pub struct Counter {
    log: Vec<(u64, u64)>,
}

impl Model for Counter {
    ghost Value = { List (ℕ × ℕ) };

    ghost view = { λ c. c.log.items };
}

impl Logged for Counter {
    type Event = (u64, u64);

    ghost history = { λ c. c };

    ghost of = { λ e. None };

    ghost gave = { λ e. None };

    fn entries(&self) -> u64 {
        self.log.len() as u64
    }
}

impl Counter {
    pub fn new(alloc: Global) -> Counter
        ensures { result ≡ [] }
    {
        Counter {
            log: Vec::new(alloc),
        }
    }

    /// Counts one.
    pub fn add(&mut self, by: u64) -> Result<(), AllocError>
        ensures ok { IfOk result (λ _. self.new ≡ self.old ++ (by, length self.old + 1) ∷ []) }
        ensures err { OnErr result (self.new ≡ self.old) }
    {
        let count = self.log.len() as u64 + 1;
        self.log.push((by, count))?;
        Ok(())
    }

    /// How often this one counted.
    pub fn counted_by(&self, by: u64) -> usize {
        self.log.iter().filter(|entry| entry.0 == by).count()
    }

    /// Each entry has the count of its place.
    pub fn is_in_order(&self) -> bool {
        for (place, entry) in self.log.iter().enumerate() {
            if entry.1 != place as u64 + 1 {
                return false;
            }
        }
        true
    }
}
