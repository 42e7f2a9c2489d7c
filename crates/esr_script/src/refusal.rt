//! Why a script or a command line was not read.
use std::alloc::{AllocError, AllocFailed};
use thiserror::Error;

/// What is wrong with a line, in the order in which it is looked for.
#[derive(Clone, Copy, Debug)]
pub enum Why {
    /// A byte that is not from 32 to 126.
    Byte,
    /// The first word is no verb.
    Verb,
    /// The verb takes more words or fewer.
    Count,
    /// The name of a snapshot or an index breaks a rule.
    Name,
    /// A count of shards that is not 1 to 1,024 in plain decimal.
    Number,
    /// A place that is not 1 to 512 bytes of 33 to 126.
    Place,
    /// An index stands twice.
    Repeat,
}

/// Why there is no script.
#[derive(Clone, Copy, Debug, Error)]
pub enum ScriptRefusal {
    #[error("out of memory")]
    Memory,
    /// The script has more than 4,194,304 bytes.
    #[error("the script is too long")]
    TooLong,
    /// The first bad line, counted from 1, and the first thing that is wrong with it.
    #[error("line {number} is bad: {why:?}")]
    BadLine { number: u32, why: Why },
}

/// Why the words of the command line ask for nothing.
#[derive(Clone, Copy, Debug, Error)]
pub enum WordsRefusal {
    #[error("out of memory")]
    Memory,
    /// The command line has no such words.
    #[error("bad words")]
    BadWords,
}

/// Why the words of a line give no item.
#[derive(Clone, Copy)]
pub(crate) enum Fault {
    Memory,
    Bad(Why),
}

impl From<AllocError> for Fault {
    ghost use Rattle.std.specs.Prelude.{◌≡◌};
    ghost use Rattle.esr_script.specs.declared.refusal.Fault.TheVariants.{Memory};

    ghost from_gives = { λ _ e. e ≡ Memory };

    fn from(_: AllocError) -> Fault {
        Fault::Memory
    }
}

impl<T: Drop> From<AllocFailed<T>> for Fault {
    ghost use Rattle.std.specs.Prelude.{◌≡◌};
    ghost use Rattle.esr_script.specs.declared.refusal.Fault.TheVariants.{Memory};

    ghost from_gives = { λ _ e. e ≡ Memory };

    fn from(_: AllocFailed<T>) -> Fault {
        Fault::Memory
    }
}

impl From<AllocError> for ScriptRefusal {
    ghost use Rattle.std.specs.Prelude.{◌≡◌};
    ghost use Rattle.esr_script.specs.declared.refusal.ScriptRefusal.TheVariants.{Memory};

    ghost from_gives = { λ _ e. e ≡ Memory };

    fn from(_: AllocError) -> ScriptRefusal {
        ScriptRefusal::Memory
    }
}

impl<T: Drop> From<AllocFailed<T>> for ScriptRefusal {
    ghost use Rattle.std.specs.Prelude.{◌≡◌};
    ghost use Rattle.esr_script.specs.declared.refusal.ScriptRefusal.TheVariants.{Memory};

    ghost from_gives = { λ _ e. e ≡ Memory };

    fn from(_: AllocFailed<T>) -> ScriptRefusal {
        ScriptRefusal::Memory
    }
}

impl From<AllocError> for WordsRefusal {
    ghost use Rattle.std.specs.Prelude.{◌≡◌};
    ghost use Rattle.esr_script.specs.declared.refusal.WordsRefusal.TheVariants.{Memory};

    ghost from_gives = { λ _ e. e ≡ Memory };

    fn from(_: AllocError) -> WordsRefusal {
        WordsRefusal::Memory
    }
}
