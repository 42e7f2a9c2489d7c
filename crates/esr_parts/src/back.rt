//! A stored file is read back: to its end, or to one byte past its size.
ghost use Rattle.std.specs.Prelude.{◌≡◌, ◌+◌, ◌<◌, ◌≤◌, ◌^◌, [], false, IsTrue, IsErr, IfOk, IsSomeAnd, OnOk, OnErr, is_err, length};
ghost use Rattle.esr_depot.specs.Calls.{HasCause};
ghost use Rattle.esr_hash.specs.Fed.{fed_count};
ghost use Rattle.esr_source.specs.Sure.{ServesAll};
ghost use Rattle.esr_parts.specs.Back.{NextPiece, Taken, HashedBack, ReadBack, Broken, is_of_fetch, is_of_target};

use esr_depot::{Failed, Fetch};
use esr_hash::Hasher;
use esr_source::Target;

/// How much a stored file has of the bytes that it is said to have.
#[derive(Clone, Copy, Debug)]
pub enum Extent {
    /// Exactly these.
    Whole,
    /// Fewer.
    Short,
    /// At least one more.
    Long,
}

/// What failed.
#[derive(Clone, Copy, Debug)]
pub enum BackError {
    Fetch,
    Target,
}

/// How much a file has that ended where so many bytes were missing.
fn extent_at_end(missing: u64) -> Extent
    ensures whole { missing ≡ 0 → result ≡ Extent.Whole }
    ensures short { 0 < missing → result ≡ Extent.Short }
{
    if missing == 0 {
        Extent::Whole
    } else {
        Extent::Short
    }
}

/// Reads the next piece into the front of the buffer, and hashes it: at most one byte more than are missing.
fn next_piece<F: Fetch>(
    fetch: &mut F,
    hasher: &mut Hasher,
    missing: u64,
    buf: &mut [u8],
) -> Result<usize, Failed>
    requires bound { fed_count hasher.old + missing + 1 < 2 ^ 61 }
    requires buffer { 0 < length buf.old }
    ensures next { IfOk result (λ got. NextPiece (F.left fetch.old) (F.left fetch.new) hasher.old hasher.new missing buf.new got) }
    ensures err { OnErr result (Taken (F.left fetch.old) (F.left fetch.new) hasher.old hasher.new []) }
    ensures buffer { length buf.new ≡ length buf.old }
    ensures cause { HasCause (F.faults fetch.old) (F.faults fetch.new) (is_err result) }
    ensures sure { F.is_sure fetch.new ≡ F.is_sure fetch.old }
    ensures sure_ok { IsTrue (F.is_sure fetch.old) → IsErr result → ⊥ }
{
    let room = buf.len().min(missing as usize + 1);
    let got = fetch.read(&mut buf[..room])?;
    hasher.feed(&buf[..got]);
    Ok(got)
}

/// Reads a stored file that is said to have `size` bytes, to at most one byte past them, for its print, which is that of
/// all bytes that were read. It answers how much the file has.
pub fn hash_back<F: Fetch>(
    fetch: &mut F,
    hasher: &mut Hasher,
    size: u64,
    buf: &mut [u8],
) -> Result<Extent, Failed>
    requires bound { fed_count hasher.old + size + 1 < 2 ^ 61 }
    requires buffer { 0 < length buf.old }
    ensures back { IfOk result (λ extent. HashedBack (F.left fetch.old) (F.left fetch.new) hasher.old hasher.new size extent) }
    ensures buffer { length buf.new ≡ length buf.old }
    ensures cause { HasCause (F.faults fetch.old) (F.faults fetch.new) (is_err result) }
    ensures sure { F.is_sure fetch.new ≡ F.is_sure fetch.old }
    ensures sure_ok { IsTrue (F.is_sure fetch.old) → IsErr result → ⊥ }
{
    let mut missing = size;
    loop {
        let got = next_piece(fetch, hasher, missing, buf)?;
        if got == 0 {
            return Ok(extent_at_end(missing));
        }
        if got as u64 > missing {
            return Ok(Extent::Long);
        }
        missing -= got as u64;
    }
}

/// The same, and writes those bytes to the begun file that are within the size.
pub fn read_back<F: Fetch, T: Target>(
    fetch: &mut F,
    target: &mut T,
    hasher: &mut Hasher,
    size: u64,
    buf: &mut [u8],
) -> Result<Extent, BackError>
    requires room { IsSomeAnd (T.told target.old).begun (λ b. size ≤ b.room) }
    requires bound { fed_count hasher.old + size + 1 < 2 ^ 61 }
    requires buffer { 0 < length buf.old }
    ensures back { IfOk result (λ extent. ReadBack (F.left fetch.old) (F.left fetch.new) hasher.old hasher.new (T.told target.old).begun (T.told target.new).begun size extent) }
    ensures broken { OnErr result (Broken (F.left fetch.old) (F.left fetch.new) hasher.old hasher.new (T.told target.old).begun (T.told target.new).begun size) }
    ensures files { (T.told target.new).files ≡ (T.told target.old).files }
    ensures made_for { (T.told target.new).made_for ≡ (T.told target.old).made_for }
    ensures buffer { length buf.new ≡ length buf.old }
    ensures fetch { HasCause (F.faults fetch.old) (F.faults fetch.new) (is_of_fetch result) }
    ensures target { HasCause (T.faults target.old) (T.faults target.new) (is_of_target result) }
    ensures steady { OnOk result (T.faults target.new ≡ T.faults target.old) }
    ensures fetch_sure { F.is_sure fetch.new ≡ F.is_sure fetch.old }
    ensures target_sure { (T.told target.new).is_sure ≡ (T.told target.old).is_sure }
    ensures sure_ok { IsTrue (F.is_sure fetch.old) → is_of_fetch result ≡ false }
    ensures sure { ServesAll (T.told target.old).is_sure (T.faults target.old) (T.faults target.new) (is_of_target result) }
{
    let mut missing = size;
    loop {
        let Ok(got) = next_piece(fetch, hasher, missing, buf) else {
            return Err(BackError::Fetch);
        };
        if got == 0 {
            return Ok(extent_at_end(missing));
        }
        let within = got.min(missing as usize);
        if target.write(&buf[..within]).is_err() {
            return Err(BackError::Target);
        }
        if got > within {
            return Ok(Extent::Long);
        }
        missing -= within as u64;
    }
}
