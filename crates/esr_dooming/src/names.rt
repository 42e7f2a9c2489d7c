//! Names of the layout.
ghost use Rattle.std.specs.Prelude.{◌≡◌, ◌++◌, ◌∷◌, [], OnErr, OnOk};
ghost use Rattle.std.specs.List.{AllByRecursion};
ghost use Rattle.esr_names.specs.Layout.{IsName};

use esr_names::BlobName;
use esr_seq::Seq;
use std::alloc::{AllocFailed, Global};
use std::marker::Model;

/// Names of blobs, one after another: each is one of the layout.
#[derive(Drop)]
pub struct DoomedNames {
    items: Seq<BlobName>,
}

impl Model for DoomedNames {
    ghost use Rattle.std.specs.Prelude.{List};
    ghost use Rattle.std.specs.List.{AllByRecursion};
    ghost use Rattle.esr_names.specs.Layout.{IsName};
    ghost use Rattle.esr_names.specs.declared.blob.BlobName.{BlobName};

    ghost Value = { List BlobName };

    ghost view = { λ n. n.items };

    ghost invariant = { λ n. AllByRecursion IsName n.items };
}

impl DoomedNames {
    /// None yet; asks for no memory.
    pub fn new(alloc: Global) -> DoomedNames
        ensures { result ≡ [] }
    {
        DoomedNames {
            items: Seq::new(alloc),
        }
    }

    /// Appends a name. Where memory is wanting the list stays.
    pub(crate) fn push(&mut self, name: BlobName) -> Result<(), AllocFailed<BlobName>>
        requires { IsName name }
        ensures ok { OnOk result (self.new ≡ self.old ++ name ∷ []) }
        ensures err { OnErr result (self.new ≡ self.old) }
    {
        self.items.push(name)
    }

    pub fn as_slice(&self) -> &[BlobName]
        ensures items { result.now ≡ self.now }
        ensures laid { AllByRecursion IsName self.now }
    {
        self.items.as_slice()
    }
}
