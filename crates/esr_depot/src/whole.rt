//! A fetched blob is read to its end.
ghost use Rattle.std.specs.Prelude.{◌≡◌, false, IsTrue, IfOk};
ghost use Rattle.esr_depot.specs.Calls.{HasCause, has_failed};
ghost use Rattle.esr_depot.specs.Told.{Tells};

use crate::error::CallError;
use crate::fetch::Fetch;
use esr_seq::Bytes;
use std::alloc::Global;

/// The bytes that are left of a fetched blob: all of them, or `Failed`, which its count of faults shows.
pub fn read_whole<F: Fetch>(alloc: Global, fetch: &mut F) -> Result<Bytes, CallError>
    ensures told { IfOk result (λ b. Tells (F.left fetch.old) b) }
    ensures cause { HasCause (F.faults fetch.old) (F.faults fetch.new) (has_failed result) }
    ensures sure { IsTrue (F.is_sure fetch.old) → has_failed result ≡ false }
{
    let mut bytes = Vec::new(alloc);
    let mut buf = [0; 65536];
    loop {
        let got = fetch.read(&mut buf)?;
        if got == 0 {
            return Ok(Bytes::from_vec(bytes));
        }
        bytes.extend_from_slice(&buf[..got])?;
    }
}
