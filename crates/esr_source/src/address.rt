//! Which shard is meant.
ghost use Rattle.std.specs.Prelude.{◌≡◌, IfOk};

use esr_seq::Text;
use std::alloc::{AllocError, Global};

/// Which shard is meant: the place that a command names, the name of the index, and the shard's number.
#[derive(Debug, PartialEq, Eq, Drop)]
pub struct Address {
    pub place: Text,
    pub index: Text,
    pub number: u32,
}

impl Address {
    ghost use Rattle.esr_source.specs.Address.{address};

    /// An address of copies of these names.
    pub fn new(alloc: Global, place: &str, index: &str, number: u32) -> Result<Address, AllocError>
        ensures { IfOk result (λ a. a ≡ address place.now index.now number) }
    {
        Ok(Address {
            place: Text::from_str(alloc, place)?,
            index: Text::from_str(alloc, index)?,
            number,
        })
    }
}
