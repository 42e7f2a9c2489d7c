//! The root.
ghost use Rattle.std.specs.Prelude.{◌≡◌, IfOk};
ghost use Rattle.esr_root.specs.Reading.{root_from};
ghost use Rattle.esr_json.specs.Steps.{Gives};
ghost use Rattle.esr_model.specs.Values.{ReadsBack};
ghost use Rattle.esr_formats.specs.Kinds.{IsRead};
ghost use Rattle.esr_formats.specs.Roots.{root_of, root_kind};

use esr_json::ReadRefusal;
use esr_root::{RootData, root_read, root_text};
use esr_seq::Bytes;
use std::alloc::{AllocError, Global};

/// The text of a root, which reads as it.
pub fn write_root(alloc: Global, root: &RootData) -> Result<Bytes, AllocError>
    ensures text { IfOk result (λ b. b ≡ root_kind.text (root_of root.now)) }
    ensures reads { ReadsBack root_kind (root_of root.now) }
{
    let _ = &root.snapshots;
    root_text(alloc, root)
}

/// The root that the bytes are the text of, else the first reason why they are none.
pub fn read_root(alloc: Global, bytes: &[u8]) -> Result<RootData, ReadRefusal>
    ensures read { IsRead root_kind root_of bytes.now result }
    ensures reason { Gives (λ r. r) result (root_from bytes.now) }
{
    root_read(alloc, bytes)
}
