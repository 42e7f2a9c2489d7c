// A value whose history has images, which exist in proofs alone.
ghost use Rattle.std.specs.Prelude.{◌≡◌, ℕ, List, [], ◌∷◌, ◌++◌, Option, Some, None, map, IfOk, OnErr};

use esr_turns::Logged;
use std::alloc::{AllocError, Global};
use std::marker::Model;

/// An amount, and where it is told, the image after it: names with their bytes. No value of it is made.
pub struct Moment {
    amount: u64,
}

impl Model for Moment {
    ghost use Rattle.std.specs.Prelude.{ℕ, List, Option, None};

    ghost Value = { ℕ × Option (List (List ℕ × List ℕ)) };

    ghost view = { λ m. (m.amount, None) };
}

/// Contracts see it as the amounts.
#[derive(Drop)]
pub struct Tally {
    amounts: Vec<u64>,
}

impl Model for Tally {
    ghost Value = { List ℕ };

    ghost view = { λ t. t.amounts.items };
}

impl Logged for Tally {
    type Event = Moment;

    ghost history = { λ t. map (λ n. (n, Some ((n ∷ [], n ∷ n ∷ []) ∷ []))) t };

    ghost of = { λ e. None };

    ghost gave = { λ e. None };

    fn entries(&self) -> u64 {
        self.amounts.len() as u64
    }
}

impl Tally {
    pub fn new(alloc: Global) -> Tally
        ensures { result ≡ [] }
    {
        Tally {
            amounts: Vec::new(alloc),
        }
    }

    pub fn add(&mut self, amount: u64) -> Result<(), AllocError>
        ensures ok { IfOk result (λ _. self.new ≡ self.old ++ amount ∷ []) }
        ensures err { OnErr result (self.new ≡ self.old) }
    {
        self.amounts.push(amount)?;
        Ok(())
    }

    pub fn len(&self) -> usize {
        self.amounts.len()
    }
}
