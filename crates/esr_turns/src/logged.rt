// What a lock asks of its value.
ghost use Rattle.std.specs.Prelude.{◌≡◌, ℕ, List, length, Option};

/// A value with a history, which contracts see as a list of entries.
pub trait Logged {
    /// An entry. No value of it need ever be made, and its `Model` may show any record.
    type Event;

    ghost history: { Self → List Self.Event };

    // The ticket that an entry is of.
    ghost of: { Self.Event → Option ℕ };

    // The ticket that it gave.
    ghost gave: { Self.Event → Option ℕ };

    /// How many entries the history has.
    fn entries(&self) -> u64
        ensures { result ≡ length (history self.now) };
}
