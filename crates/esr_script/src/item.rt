//! What a line of a script asks for.
ghost use Rattle.std.specs.Prelude.{◌≡◌};

use esr_names::{IndexName, IndexNames, SnapName, SnapNames};
use esr_seq::{Seq, Text};

/// An index that a snapshot is to hold.
#[derive(Debug, Drop)]
pub struct AskedIndex {
    pub name: IndexName,
    /// The count of its shards, 1 to 1,024.
    pub shards: u32,
    /// Where its files are: 1 to 512 bytes of 33 to 126.
    pub place: Text,
}

/// The indices of a snapshot, in the order of the line.
pub type AskedIndices = Seq<AskedIndex>;

/// What a line asks for.
#[derive(Debug, Drop)]
pub enum Item {
    /// No index stands twice.
    Snapshot {
        name: SnapName,
        indices: AskedIndices,
    },
    /// `name` is the new snapshot; each index stands once; no index means all.
    Clone {
        source: SnapName,
        name: SnapName,
        indices: IndexNames,
    },
    /// One name or more, each once.
    Delete {
        names: SnapNames,
    },
    /// The place has 1 to 512 bytes of 33 to 126.
    Restore {
        name: SnapName,
        place: Text,
    },
    Cleanup,
    Failover,
    Wait,
    List,
    Check,
    Verify,
}

/// What a line is to a run, by its verb alone.
#[derive(Clone, Copy)]
pub enum Kind {
    /// It asks for one step, a command's or a look, which answers it.
    Ask,
    /// It asks for the look with which a check begins, whose end answers it.
    Check,
    /// It asks for the draw with which a verification begins, whose end answers it.
    Verify,
    /// It asks for nothing: the next wait makes its election.
    Failover,
    /// It asks for nothing: it works what is ready.
    Wait,
}

impl Item {
    ghost use Rattle.esr_script.specs.Kinds.{kind_of, verb_text};

    /// What the line is to a run.
    pub fn kind(&self) -> Kind
        ensures { result ≡ kind_of self.now }
    {
        match self {
            Item::Snapshot { .. }
            | Item::Clone { .. }
            | Item::Delete { .. }
            | Item::Restore { .. }
            | Item::Cleanup
            | Item::List => Kind::Ask,
            Item::Check => Kind::Check,
            Item::Verify => Kind::Verify,
            Item::Failover => Kind::Failover,
            Item::Wait => Kind::Wait,
        }
    }

    /// Its verb.
    pub fn verb(&self) -> &'static str
        ensures { result.now ≡ verb_text self.now }
    {
        match self {
            Item::Snapshot { .. } => "snapshot",
            Item::Clone { .. } => "clone",
            Item::Delete { .. } => "delete",
            Item::Restore { .. } => "restore",
            Item::Cleanup => "cleanup",
            Item::List => "list",
            Item::Check => "check",
            Item::Verify => "verify",
            Item::Failover => "failover",
            Item::Wait => "wait",
        }
    }
}

/// An item with the number of its line, counted from 1.
#[derive(Debug, Drop)]
pub struct ScriptLine {
    pub number: u32,
    pub item: Item,
}

/// The items of a script, in the order of its lines.
pub type Script = Seq<ScriptLine>;
