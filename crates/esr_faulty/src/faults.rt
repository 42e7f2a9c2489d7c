//! Which call of a container goes wrong, and how.

/// A kind of call of a container.
#[derive(Clone, Copy, PartialEq, Eq)]
pub enum Kind {
    /// Each call.
    Any,
    /// Those that give a stage or a fetch.
    Giving,
    /// Those that change what is held.
    Changing,
    Begin,
    Commit,
    Replace,
    Fetch,
    List,
    Remove,
    ReadRecord,
    SwapRecord,
}

/// How a call goes.
#[derive(Clone, Copy, PartialEq, Eq)]
pub enum Turn {
    /// It is made.
    Made,
    /// It fails, and isn't made.
    Unmade,
    /// It fails, though it is made.
    Lost,
    /// It is made, and what it gives fails at its first write or read.
    Broken,
    /// It fails. A removal takes the first so many names away before.
    First(u64),
}

/// The call of that kind and number, counted from 1, goes so. Where it stops the container, each later call fails, and isn't made.
/// With the number 0 there is no such call.
#[derive(Clone, Copy)]
pub struct Fault {
    pub kind: Kind,
    pub nth: u64,
    pub turn: Turn,
    pub stops: bool,
}

impl Kind {
    /// Whether a call of that kind changes what is held.
    fn changes(self) -> bool {
        matches!(
            self,
            Kind::Commit | Kind::Replace | Kind::Remove | Kind::SwapRecord
        )
    }

    /// Whether a call of that other kind counts.
    pub(crate) fn has(self, other: Kind) -> bool {
        match self {
            Kind::Any => true,
            Kind::Giving => other == Kind::Begin || other == Kind::Fetch,
            Kind::Changing => other.changes(),
            _ => self == other,
        }
    }
}

impl Turn {
    /// Whether a call that gives a stage or a fetch is made.
    pub(crate) fn gives(self) -> bool {
        self == Turn::Made || self == Turn::Broken
    }

    /// Whether the call is made, as it is.
    pub(crate) fn is_made(self) -> bool {
        self == Turn::Made || self == Turn::Lost
    }
}
