//! An output before which the line of a meter goes.
ghost use Rattle.std.specs.Prelude.{◌≡◌};

use crate::meter::Meter;
use esr_depot::{Counted, Failed};
use esr_source::Out;
use std::rt::Clock;

/// An output that passes each call on, and takes the line of a meter away before it.
#[derive(Drop)]
pub struct MeterOut<'a, R, O> {
    meter: &'a Meter<'a, R>,
    out: O,
}

impl<'a, R, O> MeterOut<'a, R, O> {
    pub fn new(meter: &'a Meter<'a, R>, out: O) -> MeterOut<'a, R, O>
        ensures { result.out ≡ out }
    {
        MeterOut { meter, out }
    }
}

impl<'a, R, O: Counted> Counted for MeterOut<'a, R, O> {
    ghost faults = { λ o. O.faults o.out };

    fn fault_count(&self) -> u64 {
        self.out.fault_count()
    }
}

impl<'a, R: Eprint + Clock, O: Out> Out for MeterOut<'a, R, O> {
    ghost contents = { λ o. O.contents o.out };

    ghost sure = { λ o. O.sure o.out };

    fn write(&mut self, bytes: &[u8]) -> Result<usize, Failed> {
        self.meter.clear();
        self.out.write(bytes)
    }
}
