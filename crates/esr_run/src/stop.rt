//! Why a run ends early.
ghost use Rattle.std.specs.Prelude.{◌≡◌, ◌++◌, codes, decimal, IfOk, OnOk};
ghost use Rattle.esr_run.specs.Ends.{exit_at, text_at};
ghost use Rattle.esr_run.specs.Stops.{end_of};

use esr_seq::{Bytes, Text};
use itoa::Buffer;
use std::alloc::{AllocError, Global};

/// Why a run ends before a line of its script is carried out.
#[derive(Drop)]
pub(crate) enum Stop {
    Memory,
    /// The words ask for nothing that can be carried out.
    BadWords,
    /// A read of the script failed.
    Unreadable,
    /// The script is too long.
    BadScript,
    /// The first bad line, counted from 1.
    BadLine { number: u32 },
    /// A call of the container failed as it was opened, or a read of what it gave.
    OpenFault,
    /// What stands in the container can't be opened: a blob of this name, or `record`.
    Damaged { name: Text },
    /// The last term has come.
    NoTerm,
}

impl From<AllocError> for Stop {
    ghost use Rattle.std.specs.Prelude.{◌≡◌};
    ghost use Rattle.esr_run.specs.declared.stop.Stop.TheVariants.{Memory};

    ghost from_gives = { λ _ e. e ≡ Memory };

    fn from(_: AllocError) -> Stop {
        Stop::Memory
    }
}

/// The exit status.
pub(crate) fn stop_status(stop: &Stop) -> u8
    ensures { result ≡ exit_at (end_of stop.now) }
{
    match stop {
        Stop::Memory => 8,
        Stop::BadWords => 2,
        Stop::Unreadable => 6,
        Stop::BadScript => 2,
        Stop::BadLine { number: _ } => 2,
        Stop::OpenFault => 3,
        Stop::Damaged { name: _ } => 4,
        Stop::NoTerm => 7,
    }
}

fn push(text: &mut Bytes, more: &[u8]) -> Result<(), AllocError>
    ensures { OnOk result (text.new ≡ text.old ++ more.now) }
{
    text.extend_from_slice(more)
}

fn push_line(text: &mut Bytes, number: u32) -> Result<(), AllocError>
    ensures { OnOk result (text.new ≡ text.old ++ (codes "bad line " ++ decimal number ++ codes "\n")) }
{
    let mut digits = Buffer::new();
    push(text, b"bad line ")?;
    push(text, digits.format(number).as_bytes())?;
    push(text, b"\n")
}

fn push_damaged(text: &mut Bytes, name: &Text) -> Result<(), AllocError>
    ensures { OnOk result (text.new ≡ text.old ++ (codes "damaged " ++ name.now ++ codes "\n")) }
{
    push(text, b"damaged ")?;
    push(text, name.as_str().as_bytes())?;
    push(text, b"\n")
}

fn push_stop(text: &mut Bytes, stop: &Stop) -> Result<(), AllocError>
    ensures { OnOk result (text.new ≡ text.old ++ text_at (end_of stop.now)) }
{
    match stop {
        Stop::Memory => Ok(()),
        Stop::BadWords => push(text, b"bad words\n"),
        Stop::Unreadable => push(text, b"script unreadable\n"),
        Stop::BadScript => push(text, b"bad script\n"),
        Stop::BadLine { number } => push_line(text, *number),
        Stop::OpenFault => push(text, b"depot fault at opening\n"),
        Stop::Damaged { name } => push_damaged(text, name),
        Stop::NoTerm => push(text, b"numbers spent\n"),
    }
}

/// What is printed.
pub(crate) fn stop_text(alloc: Global, stop: &Stop) -> Result<Bytes, AllocError>
    ensures { IfOk result (λ text. text ≡ text_at (end_of stop.now)) }
{
    let mut text = Bytes::new(alloc);
    push_stop(&mut text, stop)?;
    Ok(text)
}
