//! Why a scene can't be played on.
use esr_depot::{CallError, Failed};
use std::alloc::AllocError;
use std::io;
use std::num::ParseIntError;

/// Why a scene can't be played on, in words.
#[derive(Clone, Copy)]
pub struct Trouble(pub &'static str);

impl From<AllocError> for Trouble {
    fn from(_: AllocError) -> Trouble {
        Trouble("there is no memory")
    }
}

impl From<Failed> for Trouble {
    fn from(_: Failed) -> Trouble {
        Trouble("the container failed")
    }
}

impl From<CallError> for Trouble {
    fn from(_: CallError) -> Trouble {
        Trouble("the container failed")
    }
}

impl From<ParseIntError> for Trouble {
    fn from(_: ParseIntError) -> Trouble {
        Trouble("here stands no number")
    }
}

impl From<io::Error> for Trouble {
    fn from(_: io::Error) -> Trouble {
        Trouble("the file system failed")
    }
}

/// Nothing, or why a scene can't be played on.
pub type Done = Result<(), Trouble>;
