//! Sources whose reads are counted.
ghost use Rattle.std.specs.Prelude.{◌≡◌};

use crate::meter::Meter;
use crate::way::{Way, Work};
use esr_depot::{CallError, Counted, Failed};
use esr_source::{Files, New, Shard, Sources};
use std::alloc::Global;
use std::rt::Clock;

/// Sources that pass each call on, and count what is read of their shards.
#[derive(Drop)]
pub struct MeterSources<'a, R, S> {
    meter: &'a Meter<'a, R>,
    sources: S,
}

impl<'a, R, S> MeterSources<'a, R, S> {
    pub fn new(meter: &'a Meter<'a, R>, sources: S) -> MeterSources<'a, R, S>
        ensures { result.sources ≡ sources }
    {
        MeterSources { meter, sources }
    }
}

/// A shard that passes each call on, and counts what is read of it.
#[derive(Drop)]
pub struct MeterShard<'a, R, S> {
    meter: &'a Meter<'a, R>,
    shard: S,
    way: Way,
}

impl<'a, R, S: Counted> Counted for MeterShard<'a, R, S> {
    ghost faults = { λ s. S.faults s.shard };

    fn fault_count(&self) -> u64 {
        self.shard.fault_count()
    }
}

impl<'a, R: Eprint + Clock + Sync, S: Shard> Shard for MeterShard<'a, R, S> {
    ghost told = { λ s. S.told s.shard };

    fn list(&mut self, alloc: Global) -> Result<Files, CallError> {
        let listed = self.shard.list(alloc);
        if let Ok(files) = &listed {
            self.way.list(files.as_slice());
        }
        listed
    }

    fn start(&mut self, alloc: Global, file: usize) -> Result<(), CallError> {
        let started = self.shard.start(alloc, file);
        if started.is_ok() {
            self.way.start(file);
        }
        started
    }

    fn read(&mut self, buf: &mut [u8]) -> Result<usize, Failed> {
        let read = self.shard.read(buf);
        if let Ok(count) = &read {
            self.meter.pass(&mut self.way, *count);
        }
        read
    }
}

impl<'a, R: Eprint + Clock + Sync, S: Sources> Sources for MeterSources<'a, R, S> {
    type Shard = MeterShard<'a, R, S::Shard>;

    ghost told = { λ s. S.told s.sources };

    ghost may_be_listed = { λ s place index number. S.may_be_listed s.sources place index number };

    fn shard(&self, alloc: Global, place: &str, index: &str, number: u32) -> New<Self::Shard> {
        let way = Way::new(alloc, Work::Read, index, number)?;
        let shard = self.sources.shard(alloc, place, index, number)?;
        Ok(MeterShard {
            meter: self.meter,
            shard,
            way,
        })
    }
}
