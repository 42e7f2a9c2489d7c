//! Stages and fetches of a container of which a call fails.
ghost use Rattle.std.specs.Prelude.{None, false};

use esr_depot::{Counted, Failed, Fetch, Stage};

/// A stage of such a container.
#[derive(Drop)]
pub struct FaultyStage<S> {
    pub(crate) stage: S,
    pub(crate) is_broken: bool,
    pub(crate) faults: u64,
}

/// What such a container fetched.
#[derive(Drop)]
pub struct FaultyFetch<F> {
    pub(crate) fetch: F,
    pub(crate) is_broken: bool,
    pub(crate) faults: u64,
}

impl<S> Counted for FaultyStage<S> {
    ghost faults = { λ s. s.faults };

    fn fault_count(&self) -> u64 {
        self.faults
    }
}

impl<S: Stage> Stage for FaultyStage<S> {
    ghost name = { λ s. S.name s.stage };

    ghost contents = { λ _. None };

    ghost room = { λ s. S.room s.stage };

    ghost is_sure = { λ _. false };

    fn write(&mut self, piece: &[u8]) -> Result<(), Failed> {
        if self.is_broken {
            self.faults = self.faults.saturating_add(1);
            return Err(Failed);
        }
        match self.stage.write(piece) {
            Ok(()) => Ok(()),
            Err(Failed) => {
                self.faults = self.faults.saturating_add(1);
                Err(Failed)
            }
        }
    }
}

impl<F> Counted for FaultyFetch<F> {
    ghost faults = { λ f. f.faults };

    fn fault_count(&self) -> u64 {
        self.faults
    }
}

impl<F: Fetch> Fetch for FaultyFetch<F> {
    ghost left = { λ _. None };

    ghost is_sure = { λ _. false };

    fn read(&mut self, buf: &mut [u8]) -> Result<usize, Failed> {
        if self.is_broken {
            self.faults = self.faults.saturating_add(1);
            return Err(Failed);
        }
        match self.fetch.read(buf) {
            Ok(count) => Ok(count),
            Err(Failed) => {
                self.faults = self.faults.saturating_add(1);
                Err(Failed)
            }
        }
    }
}
