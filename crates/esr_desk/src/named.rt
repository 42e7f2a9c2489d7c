//! A stage under the name of a blob.
ghost use Rattle.std.specs.Prelude.{◌≡◌};
ghost use Rattle.esr_formats.specs.Names.{name_of, name_kind};

use esr_depot::{Counted, Failed, Stage};
use esr_names::BlobName;

/// A blob that is to be written: its name, and how many bytes it has at most.
#[derive(Clone, Copy)]
pub struct NewBlob {
    pub name: BlobName,
    pub room: usize,
}

/// A blob that is being written, with its name.
#[derive(Drop)]
pub struct Named<S: Stage> {
    pub name: BlobName,
    pub stage: S,
    ghost named: { S.name stage ≡ name_kind.text (name_of name) },
}

impl<S: Stage> Counted for Named<S> {
    ghost faults = { λ n. S.faults n.stage };

    fn fault_count(&self) -> u64 {
        self.stage.fault_count()
    }
}

impl<S: Stage> Stage for Named<S> {
    ghost name = { λ n. S.name n.stage };

    ghost contents = { λ n. S.contents n.stage };

    ghost room = { λ n. S.room n.stage };

    ghost is_sure = { λ n. S.is_sure n.stage };

    fn write(&mut self, piece: &[u8]) -> Result<(), Failed> {
        self.stage.write(piece)
    }
}
