//! Targets whose writes are counted.
ghost use Rattle.std.specs.Prelude.{◌≡◌};

use crate::meter::Meter;
use crate::way::{Way, Work};
use esr_depot::{CallError, Counted, Failed};
use esr_source::{New, Target, Targets};
use std::alloc::Global;
use std::rt::Clock;

/// Targets that pass each call on, and count what is written to them.
#[derive(Drop)]
pub struct MeterTargets<'a, R, T> {
    meter: &'a Meter<'a, R>,
    targets: T,
}

impl<'a, R, T> MeterTargets<'a, R, T> {
    pub fn new(meter: &'a Meter<'a, R>, targets: T) -> MeterTargets<'a, R, T>
        ensures { result.targets ≡ targets }
    {
        MeterTargets { meter, targets }
    }
}

/// A target that passes each call on, and counts what is written to it.
#[derive(Drop)]
pub struct MeterTarget<'a, R, T> {
    meter: &'a Meter<'a, R>,
    target: T,
    way: Way,
}

impl<'a, R, T: Counted> Counted for MeterTarget<'a, R, T> {
    ghost faults = { λ t. T.faults t.target };

    fn fault_count(&self) -> u64 {
        self.target.fault_count()
    }
}

impl<'a, R: Eprint + Clock + Sync, T: Target> Target for MeterTarget<'a, R, T> {
    ghost told = { λ t. T.told t.target };

    fn create(&mut self, alloc: Global, name: &str, room: u64) -> Result<(), CallError> {
        let created = self.target.create(alloc, name, room);
        if created.is_ok() {
            self.way.create();
        }
        created
    }

    fn write(&mut self, bytes: &[u8]) -> Result<(), Failed> {
        let written = self.target.write(bytes);
        if written.is_ok() {
            self.meter.pass(&mut self.way, bytes.len());
        }
        written
    }

    fn end(&mut self) -> Result<(), Failed> {
        self.target.end()
    }
}

impl<'a, R: Eprint + Clock + Sync, T: Targets> Targets for MeterTargets<'a, R, T> {
    type Target = MeterTarget<'a, R, T::Target>;

    ghost told = { λ t. T.told t.targets };

    fn target(&self, alloc: Global, place: &str, index: &str, number: u32) -> New<Self::Target> {
        let way = Way::new(alloc, Work::Restore, index, number)?;
        let target = self.targets.target(alloc, place, index, number)?;
        Ok(MeterTarget {
            meter: self.meter,
            target,
            way,
        })
    }
}
