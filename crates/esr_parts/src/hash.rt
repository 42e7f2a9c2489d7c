//! A file is read for its print.
ghost use Rattle.std.specs.Prelude.{◌≡◌, ◌<◌, ◌≤◌, ◌^◌, true, IfOk, IfSome, IsSomeAnd, length};
ghost use Rattle.esr_depot.specs.Calls.{HasCause, has_failed};
ghost use Rattle.esr_source.specs.Files.{bytes_at};
ghost use Rattle.esr_parts.specs.Reads.{Hashed, ReadOn};

use esr_depot::CallError;
use esr_hash::{Hasher, Print};
use esr_source::Shard;
use std::alloc::Global;

/// Reads the file at that place of the list as far as it was listed, `len` bytes, for its print.
pub fn hash_file<S: Shard>(
    alloc: Global,
    shard: &mut S,
    file: usize,
    len: u64,
    buf: &mut [u8],
) -> Result<Print, CallError>
    requires listed { IsSomeAnd (S.told shard.old).listed (λ fs. file < length fs) }
    requires told { IfSome (bytes_at (S.told shard.old).files file) (λ b. length b ≡ len) }
    requires bound { len < 2 ^ 60 }
    requires buffer { 0 < length buf.old }
    ensures kept { ReadOn (S.told shard.old) (S.told shard.new) }
    ensures buffer { length buf.new ≡ length buf.old }
    ensures hashed { IfOk result (λ p. Hashed (bytes_at (S.told shard.old).files file) len p) }
    ensures cause { HasCause (S.faults shard.old) (S.faults shard.new) (has_failed result) }
    ensures steady { (S.told shard.old).is_sure ≡ true → S.faults shard.new ≡ S.faults shard.old }
{
    shard.start(alloc, file)?;
    let mut hasher = Hasher::start();
    let mut left = len;
    while left > 0 {
        let room = buf.len().min(left as usize);
        let got = shard.read(&mut buf[..room])?;
        if got == 0 {
            break;
        }
        hasher.feed(&buf[..got]);
        left -= got as u64;
    }
    Ok(hasher.end())
}
