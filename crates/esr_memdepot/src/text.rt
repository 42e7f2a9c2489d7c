//! The texts that the record of a container in memory has had, with the moments at which they came. The last that stands
//! counts.
ghost use Rattle.std.specs.Prelude.{◌≡◌, ◌++◌, ◌∷◌, ◌<◌, [], None, true, leb, vec_len, vec_capacity, option_copied, IfOk};
ghost use Rattle.std.specs.List.{list_all};
ghost use Rattle.esr_memdepot.specs.Past.{last_text, left_text, is_text_dated};

use crate::plan::Leaves;
use esr_seq::{Bytes, TryClone};
use std::alloc::{AllocError, Global};

/// A text of the record, and the clock after the call that brought it. One that a failed call didn't leave doesn't stand.
#[derive(Drop)]
pub struct KeptText {
    pub bytes: Bytes,
    pub came: u64,
    pub stands: bool,
}

impl KeptText {
    /// A crash in the call that was made at that moment leaves it.
    fn is_left(&self, moment: u64, leaves: Leaves) -> bool
        ensures { result ≡ left_text moment leaves self.now }
    {
        if self.came > moment {
            leaves == Leaves::New && self.came - moment == 1
        } else {
            self.stands
        }
    }
}

/// The text of the record now.
pub fn text_now(texts: &[KeptText]) -> Option<&[u8]>
    ensures { option_copied result ≡ last_text (λ x. x.stands) texts.now None }
{
    let mut bytes = None;
    for text in texts {
        if text.stands {
            bytes = Some(text.bytes.as_slice());
        }
    }
    bytes
}

/// Adds a text. Room for it is reserved.
pub fn keep_text(texts: &mut Vec<KeptText>, text: KeptText)
    requires { vec_len texts.old < vec_capacity texts.old }
    ensures { texts.new.items ≡ texts.old.items ++ text ∷ [] }
{
    match texts.push(text) {
        Ok(()) => {}
        Err(_) => unreachable!(),
    }
}

/// Copies of the texts that a crash in the call made at that moment leaves, as those of a new container.
pub fn copy_texts(
    alloc: Global,
    texts: &[KeptText],
    moment: u64,
    leaves: Leaves,
) -> Result<Vec<KeptText>, AllocError>
    ensures last { IfOk result (λ v. last_text (λ x. x.stands) v.items None ≡ last_text (left_text moment leaves) texts.now None) }
    ensures dated { IfOk result (λ v. list_all (is_text_dated 0) v.items ≡ true) }
{
    let mut copies = Vec::new(alloc);
    for text in texts {
        if text.is_left(moment, leaves) {
            copies.push(KeptText {
                bytes: text.bytes.try_clone(alloc)?,
                came: 0,
                stands: true,
            })?;
        }
    }
    Ok(copies)
}
