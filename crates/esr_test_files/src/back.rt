//! Stored files that are read back, as a subject.
ghost use Rattle.std.specs.Prelude.{◌≤◌, ⊤, None, false, IfOk, IsSomeAnd};

use crate::words::say_print;
use esr_depot::{CallError, Counted, Failed, Fetch};
use esr_hash::Hasher;
use esr_parts::{BackError, Extent, hash_back, read_back};
use esr_scenes::{Subject, cut, one, say, say_bytes, say_number};
use esr_source::{Address, Call, FailingAt, MemTarget, MemTargets, Target, Targets};
use std::alloc::Global;

/// A blob that is read two bytes at a time, as a file of that size:
///
/// | Call | What it does | Answers |
/// |---|---|---|
/// | `back BLOB SIZE` | reads it back into a file | how much of the file it has, what is written, and the print |
/// | `hash BLOB SIZE` | reads it without a file | how much of the file it has, and the print |
/// | `back-broken BLOB SIZE`, `hash-broken BLOB SIZE` | the same where the blob fails at its end | what failed, and how often the blob and the target did |
/// | `back-torn BLOB SIZE` | reads it back where the second write fails | |
#[derive(Drop)]
pub(crate) struct Back;

/// A blob of these bytes, which fails where it is broken and they end.
#[derive(Drop)]
struct Blob<'a> {
    bytes: &'a [u8],
    at: usize,
    is_broken: bool,
    faults: u64,
}

impl Counted for Blob<'_> {
    ghost faults = { λ b. b.faults };

    fn fault_count(&self) -> u64 {
        self.faults
    }
}

impl Fetch for Blob<'_> {
    ghost left = { λ _. None };

    ghost is_sure = { λ _. false };

    fn read(&mut self, buf: &mut [u8]) -> Result<usize, Failed> {
        let at = self.at.min(self.bytes.len());
        let got = (self.bytes.len() - at).min(buf.len());
        if got == 0 && self.is_broken {
            self.faults = self.faults.saturating_add(1);
            return Err(Failed);
        }
        buf[..got].copy_from_slice(&self.bytes[at..at + got]);
        self.at = at + got;
        Ok(got)
    }
}

fn blob_of(text: &str, is_broken: bool) -> Blob<'_> {
    Blob {
        bytes: text.as_bytes(),
        at: 0,
        is_broken,
        faults: 0,
    }
}

/// A target in which a file of that many bytes is begun. The second call of that kind fails.
fn target_of(alloc: Global, call: Call, size: u64) -> Result<MemTarget, CallError>
    ensures { IfOk result (λ t. IsSomeAnd (⟦<MemTarget as Target>⟧.told t).begun (λ b. size ≤ b.room)) }
{
    let address = Address::new(alloc, "out", "logs", 0)?;
    let failing = FailingAt {
        address,
        call,
        nth: 2,
    };
    let plan = one(alloc, failing)?;
    let mut target = MemTargets::new(plan).target(alloc, "out", "logs", 0)?;
    target.create(alloc, "a", size)?;
    Ok(target)
}

fn say_extent(line: &mut String, extent: Extent) {
    let word = match extent {
        Extent::Whole => "whole",
        Extent::Short => "short",
        Extent::Long => "long",
    };
    say(line, word);
}

/// Ends the file, and says what its target has.
fn say_written(mut target: MemTarget, line: &mut String)
    requires { IsSomeAnd (⟦<MemTarget as Target>⟧.told target).begun (λ _. ⊤) }
{
    if target.end().is_err() {
        return say(line, " not ended");
    }
    for file in target.files() {
        say(line, " `");
        say_bytes(line, file.bytes.as_slice());
        say(line, "`");
    }
}

/// Says what failed, and how often the blob and the target did.
fn say_failure(line: &mut String, error: BackError, faults: (u64, u64)) {
    let word = match error {
        BackError::Fetch => "blob failed ",
        BackError::Target => "target failed ",
    };
    say(line, word);
    say_number(line, faults.0);
    say(line, " ");
    say_number(line, faults.1);
}

/// Says what reading back answers.
fn say_back(
    alloc: Global,
    mut blob: Blob<'_>,
    fails: Call,
    size: u32,
    line: &mut String,
) -> Result<(), CallError> {
    let size = u64::from(size);
    let mut target = target_of(alloc, fails, size)?;
    let mut hasher = Hasher::start();
    let mut buf = [0u8; 2];
    match read_back(&mut blob, &mut target, &mut hasher, size, &mut buf) {
        Ok(extent) => {
            say_extent(line, extent);
            say_written(target, line);
            say(line, " ");
            say_print(line, &hasher.end());
        }
        Err(error) => {
            let faults = (blob.fault_count(), target.fault_count());
            say_failure(line, error, faults);
        }
    }
    Ok(())
}

/// Says what reading without a file answers.
fn say_hash(mut blob: Blob<'_>, size: u32, line: &mut String) {
    let mut hasher = Hasher::start();
    let mut buf = [0u8; 2];
    match hash_back(&mut blob, &mut hasher, u64::from(size), &mut buf) {
        Ok(extent) => {
            say_extent(line, extent);
            say(line, " ");
            say_print(line, &hasher.end());
        }
        Err(Failed) => {
            say(line, "blob failed ");
            say_number(line, blob.fault_count());
        }
    }
}

impl Subject for Back {
    fn call(&mut self, alloc: Global, call: &str, line: &mut String) {
        let (verb, rest) = cut(call);
        let (text, size) = cut(rest);
        let size = size.parse::<u32>().unwrap_or(u32::MAX);
        let answer = match verb {
            "back" => say_back(alloc, blob_of(text, false), Call::Create, size, line),
            "back-broken" => say_back(alloc, blob_of(text, true), Call::Create, size, line),
            "back-torn" => say_back(alloc, blob_of(text, false), Call::Write, size, line),
            "hash" => {
                say_hash(blob_of(text, false), size, line);
                Ok(())
            }
            "hash-broken" => {
                say_hash(blob_of(text, true), size, line);
                Ok(())
            }
            _ => Err(CallError::Failed),
        };
        if answer.is_err() {
            say(line, "no such call, or no memory");
        }
    }
}
