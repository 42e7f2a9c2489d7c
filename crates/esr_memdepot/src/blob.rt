//! The blobs that a container in memory has had, with the moments at which they came and went. Of two that are there under
//! one name the later counts.
ghost use Rattle.std.specs.Prelude.{◌≡◌, ◌&&◌, ◌++◌, ◌∷◌, ◌<◌, [], None, Some, true, vec_len, vec_capacity, length, map, take, option_copied, IfOk};
ghost use Rattle.std.specs.FinMap.{empty};
ghost use Rattle.std.specs.List.{list_all};
ghost use Rattle.esr_memdepot.specs.Past.{kept, held, found, marked, mark_each, taken_count, is_there, is_dated, left_blob};

use crate::plan::Leaves;
use esr_depot::Names;
use esr_seq::{Bytes, Text, TryClone};
use std::alloc::{AllocError, Global};

/// The call that took a blob away, by the clock after it, and the blob's place among the names of that call.
#[derive(Clone, Copy)]
pub struct Gone {
    pub at: u64,
    pub place: u64,
}

/// A blob, and the clock after the call that brought it. One that a failed call didn't leave is gone at that moment.
#[derive(Drop)]
pub struct KeptBlob {
    pub name: Text,
    pub bytes: Bytes,
    pub came: u64,
    pub gone: Option<Gone>,
}

impl Gone {
    ghost use Rattle.esr_memdepot.specs.Past.{gone_later};

    /// It isn't gone yet after a crash in the call that was made at that moment.
    fn is_after(self, moment: u64, leaves: Leaves) -> bool
        ensures { result ≡ gone_later moment leaves (Some self) }
    {
        let calls = self.at.saturating_sub(moment);
        match leaves {
            Leaves::Old => calls > 0,
            Leaves::New => calls > 1,
            Leaves::First(count) => calls > 1 || calls == 1 && count <= self.place,
        }
    }
}

impl KeptBlob {
    ghost use Rattle.esr_memdepot.specs.Past.{is_named};

    /// It is there now under that name.
    fn has_name(&self, name: &str) -> bool
        ensures { result ≡ (is_there self.now && is_named name.now self.now) }
    {
        self.gone.is_none() && name == self.name.as_str()
    }

    /// A crash in the call that was made at that moment leaves it.
    fn is_left(&self, moment: u64, leaves: Leaves) -> bool
        ensures { result ≡ left_blob moment leaves self.now }
    {
        if self.came > moment {
            return leaves == Leaves::New && self.came - moment == 1;
        }
        match self.gone {
            None => true,
            Some(gone) => gone.is_after(moment, leaves),
        }
    }

    fn take_away(&mut self, name: &str, gone: Gone)
        ensures { self.new ≡ marked name.now gone self.old }
    {
        if self.has_name(name) {
            self.gone = Some(gone);
        }
    }
}

/// The bytes of the blob that has the name now.
pub fn find<'a>(blobs: &'a [KeptBlob], name: &str) -> Option<&'a [u8]>
    ensures { option_copied result ≡ found is_there name.now blobs.now None }
{
    let mut bytes = None;
    for kept in blobs {
        if kept.has_name(name) {
            bytes = Some(kept.bytes.as_slice());
        }
    }
    bytes
}

/// Adds a blob, that stands or is gone at once. Room for it is reserved.
pub fn keep(blobs: &mut Vec<KeptBlob>, name: Text, bytes: Bytes, came: u64, stands: bool)
    requires { vec_len blobs.old < vec_capacity blobs.old }
    ensures { blobs.new.items ≡ blobs.old.items ++ kept name bytes came stands ∷ [] }
{
    let gone = if stands {
        None
    } else {
        Some(Gone { at: came, place: 0 })
    };
    match blobs.push(KeptBlob {
        name,
        bytes,
        came,
        gone,
    }) {
        Ok(()) => {}
        Err(_) => unreachable!(),
    }
}

/// Takes the blob of that name away.
fn mark(blobs: &mut [KeptBlob], name: &str, gone: Gone)
    ensures { blobs.new ≡ map (marked name.now gone) blobs.old }
{
    for kept in blobs.iter_mut() {
        kept.take_away(name, gone);
    }
}

/// Takes the blobs of these names away, in the call after which the clock stands at `at`.
fn mark_all(blobs: &mut Vec<KeptBlob>, names: &[Text], at: u64)
    ensures { blobs.new.items ≡ mark_each names.now at 0 blobs.old.items }
{
    for (place, name) in names.iter().enumerate() {
        mark(
            blobs,
            name.as_str(),
            Gone {
                at,
                place: place as u64,
            },
        );
    }
}

/// The names that a removal takes away where it leaves this.
fn taken_first(names: &[Text], leaves: Leaves) -> &[Text]
    ensures { result.now ≡ take (taken_count leaves (length names.now)) names.now }
{
    match leaves {
        Leaves::Old => &names[..0],
        Leaves::New => names,
        Leaves::First(count) => &names[..names.len().min(count as usize)],
    }
}

/// Takes away those of the names that the removal leaves gone.
pub fn remove_left(blobs: &mut Vec<KeptBlob>, names: &Names, leaves: Leaves, at: u64)
    ensures { blobs.new.items ≡ mark_each (take (taken_count leaves (length names.now)) names.now) at 0 blobs.old.items }
{
    mark_all(blobs, taken_first(names.as_slice(), leaves), at);
}

/// Copies of the blobs that a crash in the call made at that moment leaves, as those of a new container.
pub fn copy_left(
    alloc: Global,
    blobs: &[KeptBlob],
    moment: u64,
    leaves: Leaves,
) -> Result<Vec<KeptBlob>, AllocError>
    ensures held { IfOk result (λ v. held is_there v.items empty ≡ held (left_blob moment leaves) blobs.now empty) }
    ensures dated { IfOk result (λ v. list_all (is_dated 0) v.items ≡ true) }
{
    let mut copies = Vec::new(alloc);
    for kept in blobs {
        if kept.is_left(moment, leaves) {
            copies.push(KeptBlob {
                name: kept.name.try_clone(alloc)?,
                bytes: kept.bytes.try_clone(alloc)?,
                came: 0,
                gone: None,
            })?;
        }
    }
    Ok(copies)
}
