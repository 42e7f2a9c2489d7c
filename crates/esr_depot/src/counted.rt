//! Objects that count their failures.
ghost use Rattle.std.specs.Prelude.{◌≡◌, ℕ};

/// An object of the outside that counts its failures. The count never falls, and stays once it is at `u64::MAX`.
pub trait Counted {
    /// How often it has failed.
    ghost faults: { Self → ℕ };

    fn fault_count(&self) -> u64
        ensures { result ≡ faults self.now };
}
