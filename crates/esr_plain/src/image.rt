//! The blobs of a container.
ghost use Rattle.std.specs.Prelude.{◌≡◌, OnErr, OnOk};
ghost use Rattle.std.specs.Option.{option_copied};
ghost use Rattle.std.specs.FinMap as fin;

use esr_seq::Bytes;
use std::alloc::{AllocError, Global};
use std::marker::Model;

/// A blob, and the text of its name.
#[derive(Drop)]
struct Blob {
    name: Bytes,
    bytes: Bytes,
}

/// The blobs of a container, which a contract sees as the map from the texts of their names to their bytes.
#[derive(Drop)]
pub struct Image {
    blobs: Vec<Blob>,
}

impl Model for Image {
    ghost use Rattle.esr_model.specs.Image.{Blobs};
    ghost use Rattle.esr_plain.specs.Images.{blobs_of, blobs_code};

    ghost Value = { Blobs };

    ghost coded = { blobs_code };

    ghost view = { λ i. blobs_of i.blobs.items };
}

impl Image {
    /// No blobs; asks for no memory.
    pub fn new(alloc: Global) -> Image
        ensures { result ≡ fin.empty }
    {
        Image {
            blobs: Vec::new(alloc),
        }
    }

    /// Puts a blob under a name's text, in place of one that has it. Where memory is wanting the image stays.
    pub fn put(&mut self, name: Bytes, bytes: Bytes) -> Result<(), AllocError>
        ensures ok { OnOk result (self.new ≡ fin.insert self.old name bytes) }
        ensures err { OnErr result (self.new ≡ self.old) }
    {
        self.blobs.insert(0, Blob { name, bytes })?;
        Ok(())
    }

    /// The bytes of the blob whose name has this text.
    pub fn get(&self, name: &[u8]) -> Option<&[u8]>
        ensures { option_copied result ≡ fin.get self.now name.now }
    {
        for blob in &self.blobs {
            if name == blob.name.as_slice() {
                return Some(blob.bytes.as_slice());
            }
        }
        None
    }
}
