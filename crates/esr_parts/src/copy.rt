//! A piece of a file is copied into a stage.
ghost use Rattle.std.specs.Prelude.{◌≡◌, ◌+◌, ◌-◌, ◌<◌, ◌≤◌, ◌^◌, true, false, IsTrue, IfOk, OnOk, IsErr, is_err, length};
ghost use Rattle.std.specs.Io.KnownBytes.{append_known};
ghost use Rattle.esr_depot.specs.Calls.{HasCause};
ghost use Rattle.esr_hash.specs.Fed.{fed_count};
ghost use Rattle.esr_parts.specs.Reads.{Copied, ReadOn, is_of_source, is_of_stage};

use esr_depot::{Failed, Stage};
use esr_hash::Hasher;
use esr_source::{Gate, Point, Shard};

/// What failed.
#[derive(Clone, Copy, Debug)]
pub enum CopyError {
    Source,
    Stage,
}

/// Writes to the stage, and tells the gate before and after.
fn write_at_gate<W: Stage, G: Gate>(
    stage: &mut W,
    gate: &G,
    ticket: u64,
    piece: &[u8],
) -> Result<(), Failed>
    requires { length piece.now ≤ W.room stage.old }
    ensures written { OnOk result (W.contents stage.new ≡ append_known (W.contents stage.old) piece.now) }
    ensures room { OnOk result (W.room stage.new ≡ W.room stage.old - length piece.now) }
    ensures name { W.name stage.new ≡ W.name stage.old }
    ensures cause { HasCause (W.faults stage.old) (W.faults stage.new) (is_err result) }
    ensures sure { W.is_sure stage.new ≡ W.is_sure stage.old }
    ensures sure_ok { IsTrue (W.is_sure stage.old) → IsErr result → ⊥ }
{
    gate.at(Point::Writing { ticket });
    let written = stage.write(piece);
    gate.at(Point::Written { ticket });
    written
}

/// Reads `size` bytes of the file that was started, writes them to the stage and hashes them. It answers whether the
/// file had so many. The gate is told of each write under that ticket.
pub fn copy_part<S: Shard, W: Stage, G: Gate>(
    shard: &mut S,
    stage: &mut W,
    hasher: &mut Hasher,
    size: u64,
    gate: &G,
    ticket: u64,
    buf: &mut [u8],
) -> Result<bool, CopyError>
    requires room { size ≤ W.room stage.old }
    requires bound { fed_count hasher.old + size < 2 ^ 61 }
    requires buffer { 0 < length buf.old }
    ensures kept { ReadOn (S.told shard.old) (S.told shard.new) }
    ensures buffer { length buf.new ≡ length buf.old }
    ensures name { W.name stage.new ≡ W.name stage.old }
    ensures copied { IfOk result (λ full. Copied (S.told shard.old).left (S.told shard.new).left (W.contents stage.old) (W.contents stage.new) hasher.old hasher.new size full) }
    ensures source { HasCause (S.faults shard.old) (S.faults shard.new) (is_of_source result) }
    ensures stage { HasCause (W.faults stage.old) (W.faults stage.new) (is_of_stage result) }
    ensures steady { (S.told shard.old).is_sure ≡ true → S.faults shard.new ≡ S.faults shard.old }
    ensures sure { IsTrue (W.is_sure stage.old) → is_of_stage result ≡ false }
{
    let mut left = size;
    while left > 0 {
        let room = buf.len().min(left as usize);
        let Ok(got) = shard.read(&mut buf[..room]) else {
            return Err(CopyError::Source);
        };
        if got == 0 {
            return Ok(false);
        }
        if write_at_gate(stage, gate, ticket, &buf[..got]).is_err() {
            return Err(CopyError::Stage);
        }
        hasher.feed(&buf[..got]);
        left -= got as u64;
    }
    Ok(true)
}
