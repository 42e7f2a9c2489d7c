//! Why a line of a case has no answer.
use esr_depot::CallError;
use esr_json::ReadRefusal;
use esr_names::NameRefusal;
use esr_ops::Refusal;
use esr_scenes::Unread;
use esr_script::ScriptRefusal;
use std::alloc::{AllocError, AllocFailed};

/// Why a line of a case has no answer.
#[derive(Clone, Copy)]
pub(crate) enum Trouble {
    Memory,
    /// This is wrong with the line.
    Unread(&'static str),
    /// The list of open ops refuses the command.
    Refused(Refusal),
}

impl From<AllocError> for Trouble {
    fn from(_: AllocError) -> Self {
        Trouble::Memory
    }
}

impl<T: Drop> From<AllocFailed<T>> for Trouble {
    fn from(_: AllocFailed<T>) -> Self {
        Trouble::Memory
    }
}

impl From<Unread> for Trouble {
    fn from(unread: Unread) -> Self {
        Trouble::Unread(unread.0)
    }
}

impl From<Refusal> for Trouble {
    fn from(refusal: Refusal) -> Self {
        Trouble::Refused(refusal)
    }
}

impl From<NameRefusal> for Trouble {
    fn from(_: NameRefusal) -> Self {
        Trouble::Unread("not a name")
    }
}

impl From<ScriptRefusal> for Trouble {
    fn from(_: ScriptRefusal) -> Self {
        Trouble::Unread("not a line of a script")
    }
}

impl From<ReadRefusal> for Trouble {
    fn from(_: ReadRefusal) -> Self {
        Trouble::Unread("not a text of its kind")
    }
}

impl From<CallError> for Trouble {
    fn from(_: CallError) -> Self {
        Trouble::Unread("the container failed")
    }
}

/// Nothing, or why a line has no answer.
pub(crate) type Done = Result<(), Trouble>;
