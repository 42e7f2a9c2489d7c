//! How often an object has failed.
ghost use Rattle.std.specs.Prelude.{◌≡◌, true};
ghost use Rattle.esr_depot.specs.Calls.{HasCause};

/// How often an object has failed. The count stays once it is at `u64::MAX`.
#[derive(Drop)]
pub(crate) struct Faults {
    pub count: u64,
}

impl Faults {
    pub fn new() -> Faults
        ensures { result.count ≡ 0 }
    {
        Faults { count: 0 }
    }

    /// Counts a failure.
    pub fn add(&mut self)
        ensures { HasCause self.old.count self.new.count true }
    {
        self.count = self.count.saturating_add(1);
    }
}
