//! The bytes of a script.
ghost use Rattle.std.specs.Prelude.{◌≡◌, ◌<◌, ◌≤◌, [], length, true, IfOk, IfErr};
ghost use Rattle.std.specs.Io.KnownBytes.{Consumes, Keeps, IsAtEnd};
ghost use Rattle.esr_run.specs.Causes.{IsReadInPart};
ghost use Rattle.esr_run.specs.Stops.{IsKept, IsNoRead};

use crate::stop::Stop;
use esr_seq::Bytes;
use esr_source::Lines;
use std::alloc::Global;

/// How many bytes are read at most: one more than a script may have.
const MOST: usize = 4_194_305;

/// How many bytes are read at once.
const PIECE: usize = 65_536;

/// The next bytes of a script, at most so many; none at its end.
fn next_piece<I: Lines>(alloc: Global, script: &mut I, room: usize) -> Result<Vec<u8>, Stop>
    requires { 0 < room }
    ensures few { IfOk result (λ piece. length piece.items ≤ room) }
    ensures took { IfOk result (λ piece. Consumes (I.left script.old) (I.left script.new) piece.items) }
    ensures end { IfOk result (λ piece. piece.items ≡ [] → IsAtEnd (I.left script.new)) }
    ensures kept { IfErr result (λ _. Keeps (I.left script.old) (I.left script.new)) }
    ensures cause { IfErr result (IsNoRead (I.faults script.old) (I.faults script.new)) }
    ensures later { I.faults script.old ≤ I.faults script.new }
{
    let mut piece = Vec::new(alloc);
    piece.resize(room, 0)?;
    let Ok(count) = script.read(&mut piece) else {
        return Err(Stop::Unreadable);
    };
    piece.truncate(count);
    Ok(piece)
}

/// Reads a script to its end, or until it has one byte more than a script may have.
pub(crate) fn read_all<I: Lines>(alloc: Global, script: &mut I) -> Result<Bytes, Stop>
    ensures kept { IfOk result (IsKept (I.left script.old)) }
    ensures part { IsReadInPart (I.left script.old) (I.left script.new) }
    ensures cause { IfErr result (IsNoRead (I.faults script.old) (I.faults script.new)) }
{
    let mut kept = Bytes::new(alloc);
    while kept.len() < MOST {
        let room = PIECE.min(MOST - kept.len());
        let piece = next_piece(alloc, script, room)?;
        if piece.is_empty() {
            return Ok(kept);
        }
        kept.extend_from_slice(&piece)?;
    }
    Ok(kept)
}
