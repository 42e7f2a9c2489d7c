//! What workers share beside the desk, and how many there are.
ghost use Rattle.std.specs.Prelude.{◌≡◌, ◌+◌, ◌≤◌};
ghost use Rattle.esr_drive.specs.Members.{members};

use esr_source::{Gate, Sources, Targets};
use std::alloc::AllocError;

/// The objects outside the repository.
pub struct Outside<'a, S: Sources, T: Targets, G: Gate> {
    pub sources: &'a S,
    pub targets: &'a T,
    pub gate: &'a G,
    /// How many bytes a part has at most.
    pub part_size: u64,
}

impl<'a, S: Sources, T: Targets, G: Gate> Clone for Outside<'a, S, T, G> {
    fn clone(&self) -> Result<Outside<'a, S, T, G>, AllocError> {
        Ok(*self)
    }
}

impl<'a, S: Sources, T: Targets, G: Gate> Copy for Outside<'a, S, T, G> {}

/// How many workers do the units, and how often a master is elected meanwhile.
#[derive(Clone, Copy, Debug)]
pub struct Crew {
    pub workers: u32,
    pub elections: u64,
}

impl Crew {
    /// How many threads it takes: one for each worker, and one that elects.
    pub(crate) fn members(self) -> u64
        ensures { result ≡ members self.workers self.elections }
    {
        let workers = self.workers as u64;
        if self.elections == 0 {
            workers
        } else {
            workers + 1
        }
    }

    /// Its first member, which elects where there are elections, and the others.
    pub(crate) fn split(self) -> (Crew, Crew)
        requires { 1 ≤ members self.workers self.elections }
        ensures workers { result.0.workers + result.1.workers ≡ self.workers }
        ensures elections { result.0.elections + result.1.elections ≡ self.elections }
        ensures first { members result.0.workers result.0.elections ≡ 1 }
        ensures others { members result.1.workers result.1.elections + 1 ≡ members self.workers self.elections }
    {
        let first = if self.elections == 0 {
            Crew {
                workers: 1,
                elections: 0,
            }
        } else {
            Crew {
                workers: 0,
                elections: self.elections,
            }
        };
        let others = Crew {
            workers: self.workers - first.workers,
            elections: self.elections - first.elections,
        };
        (first, others)
    }
}
