//! The snapshots of a root.
ghost use Rattle.std.specs.Prelude.{◌≡◌, ◌++◌, ◌∷◌, [], false, filter, not, IfOk, OnOk, OnErr};
ghost use Rattle.esr_root.specs.Ids.{has_id};
ghost use Rattle.std.specs.List.{list_any};
ghost use Rattle.esr_root.specs.Snaps.{AreSnaps, IsSnap, clashes, lists};

use crate::read::has_id;
use esr_names::{Id, SnapName};
use esr_seq::{Seq, TryClone};
use std::alloc::{AllocError, AllocFailed, Global};
use std::marker::Model;

/// A snapshot that a root lists.
#[derive(Debug)]
pub struct RootSnap {
    pub name: SnapName,
    pub uuid: Id,
    /// 1 for success, 3 for partial; Elasticsearch has others.
    pub state: u8,
}

impl Drop for RootSnap {
    // Not derived: each crate above would prove a derived one again.
    fn drop(self) {
        let RootSnap {
            name: _name,
            uuid: _,
            state: _,
        } = self;
    }
}

impl RootSnap {
    /// Its name keeps the rules of names, and its numbers fit their types.
    pub(crate) fn rule(&self)
        ensures { IsSnap self.now }
    {
        let _name = self.name.as_str();
        let _uuid = self.uuid.number;
        let _state = self.state;
    }
}

impl TryClone for RootSnap {
    fn try_clone(&self, alloc: Global) -> Result<RootSnap, AllocError> {
        Ok(RootSnap {
            name: self.name.try_clone(alloc)?,
            uuid: self.uuid,
            state: self.state,
        })
    }
}

/// Snapshots in order: no name and no uuid stands twice.
#[derive(Debug, Drop)]
pub struct RootSnaps {
    items: Seq<RootSnap>,
}

impl Model for RootSnaps {
    ghost use Rattle.std.specs.Prelude.{List};
    ghost use Rattle.esr_root.specs.declared.snaps.RootSnap.{RootSnap};
    ghost use Rattle.esr_root.specs.Snaps.{AreSnaps};

    ghost Value = { List RootSnap };

    ghost view = { λ s. s.items };

    ghost invariant = { λ s. AreSnaps s.items };
}

impl RootSnaps {
    /// No snapshots; asks for no memory.
    pub fn new(alloc: Global) -> RootSnaps
        ensures { result ≡ [] }
    {
        RootSnaps {
            items: Seq::new(alloc),
        }
    }

    /// Appends a snapshot. Where memory is wanting the list stays.
    pub fn push(&mut self, snap: RootSnap) -> Result<(), AllocFailed<RootSnap>>
        requires { list_any (λ old. clashes old snap) self.old ≡ false }
        ensures ok { OnOk result (self.new ≡ self.old ++ snap ∷ []) }
        ensures err { OnErr result (self.new ≡ self.old) }
    {
        snap.rule();
        self.items.push(snap)
    }

    pub fn as_slice(&self) -> &[RootSnap]
        ensures items { result.now ≡ self.now }
        ensures rule { AreSnaps self.now }
    {
        self.items.as_slice()
    }

    /// The snapshots whose uuids are none of these.
    pub(crate) fn without(&self, alloc: Global, uuids: &[Id]) -> Result<RootSnaps, AllocError>
        ensures { IfOk result (λ s. s ≡ filter (λ s. not (has_id s.uuid uuids.now)) self.now) }
    {
        let mut items = Seq::new(alloc);
        for snap in self.as_slice() {
            if !has_id(uuids, snap.uuid) {
                items.push(snap.try_clone(alloc)?)?;
            }
        }
        Ok(RootSnaps { items })
    }
}

impl TryClone for RootSnaps {
    fn try_clone(&self, alloc: Global) -> Result<RootSnaps, AllocError> {
        Ok(RootSnaps {
            items: self.items.try_clone(alloc)?,
        })
    }
}
