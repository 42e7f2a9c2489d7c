//! Lists of one value.
ghost use Rattle.std.specs.Prelude.{◌≡◌, ◌∷◌, [], IfOk};

use esr_seq::Seq;
use std::alloc::{AllocError, Global};

/// A list of one value.
pub fn one<T: Drop>(alloc: Global, value: T) -> Result<Seq<T>, AllocError>
    ensures { IfOk result (λ r. r ≡ value ∷ []) }
{
    let mut list = Seq::new(alloc);
    list.push(value)?;
    Ok(list)
}
