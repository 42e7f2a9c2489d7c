//! Prints what a meter tells of sources, targets and an output in memory, by a clock of its own.
#![tactic(auto)]

ghost use Rattle.std.specs.Prelude.{◌≡◌, ◌<◌, ◌≤◌, None, length, map, Contains, IfSome, IsSome, IsSomeAnd};

mod screen;

use crate::screen::Screen;
use esr_meter::{Meter, MeterOut, MeterSources, MeterTargets};
use esr_seq::{Bytes, Seq, Text};
use esr_source::{
    Address, MemFile, MemSource, MemSources, MemTargets, Out, Shard, Sources, StdOut, Target,
    Targets,
};
use std::alloc::{AllocError, Global};
use std::process::ExitCode;

/// How many bytes a megabyte has.
const MEGABYTE: usize = 1_000_000;

/// A file of so many megabytes.
fn file_of(alloc: Global, name: &str, megabytes: usize) -> Result<MemFile, AllocError>
    requires { megabytes < 10 }
{
    Ok(MemFile {
        name: Text::from_str(alloc, name)?,
        bytes: Bytes::from_vec(vec![in alloc; 0u8; megabytes * MEGABYTE]?),
    })
}

/// A file of two megabytes and one of one.
fn files_of(alloc: Global) -> Result<Seq<MemFile>, AllocError> {
    let mut files = Seq::new(alloc);
    files.push(file_of(alloc, "a", 2)?)?;
    files.push(file_of(alloc, "b", 1)?)?;
    Ok(files)
}

/// Sources with one shard, of these files.
fn sources_of(alloc: Global) -> Result<MemSources, AllocError> {
    let address = Address::new(alloc, "src", "logs", 0)?;
    let files = files_of(alloc)?;
    let mut sources = Seq::new(alloc);
    sources.push(MemSource { address, files })?;
    Ok(MemSources::new(sources, Seq::new(alloc)))
}

/// Starts a file of the list, and reads three times.
fn read_file<S: Shard>(alloc: Global, shard: &mut S, file: usize, buf: &mut [u8])
    requires { IsSomeAnd (S.told shard.old).listed (λ fs. file < length fs) }
    ensures { (S.told shard.new).listed ≡ (S.told shard.old).listed }
{
    let _ = shard.start(alloc, file);
    let _ = shard.read(buf);
    let _ = shard.read(buf);
    let _ = shard.read(buf);
}

/// Lists the shard, reads both files, and the second one again.
fn read_files<S: Shard>(alloc: Global, shard: &mut S, buf: &mut [u8]) {
    let Ok(files) = shard.list(alloc) else {
        return;
    };
    if files.len() == 2 {
        read_file(alloc, shard, 0, buf);
        read_file(alloc, shard, 1, buf);
        read_file(alloc, shard, 1, buf);
    }
}

/// Reads the shard of the sources.
fn read_shard<S: Sources>(alloc: Global, sources: &S, buf: &mut [u8]) -> Result<(), AllocError> {
    let mut shard = sources.shard(alloc, "src", "logs", 0)?;
    read_files(alloc, &mut shard, buf);
    Ok(())
}

/// Writes the bytes, for which there is room.
fn write<T: Target>(target: &mut T, bytes: &[u8])
    requires { IsSomeAnd (T.told target.old).begun (λ b. length bytes.now ≤ b.room) }
    ensures { IsSome (T.told target.new).begun }
{
    let _ = target.write(bytes);
}

/// Makes a file of the bytes.
fn write_file<T: Target>(alloc: Global, target: &mut T, name: &str, bytes: &[u8])
    requires none_begun { (T.told target.old).begun ≡ None }
    requires free { IfSome (T.told target.old).files (λ fs. Contains (map (λ f. f.0) fs) name.now → ⊥) }
{
    let room = bytes.len() as u64;
    if target.create(alloc, name, room).is_ok() {
        write(target, bytes);
        let _ = target.end();
    }
}

/// Makes a file in each of three targets.
fn write_shards<T: Targets>(alloc: Global, targets: &T, bytes: &[u8]) -> Result<(), AllocError> {
    for number in 0..3 {
        let mut target = targets.target(alloc, "out", "logs", number)?;
        write_file(alloc, &mut target, "a", bytes);
    }
    Ok(())
}

/// Reads under a meter.
fn read(alloc: Global, meter: &Meter<'_, Screen<'_>>, buf: &mut [u8]) -> Result<(), AllocError> {
    let sources = sources_of(alloc)?;
    read_shard(alloc, &MeterSources::new(meter, sources), buf)
}

/// Reads and writes under a meter.
fn work(alloc: Global, meter: &Meter<'_, Screen<'_>>) -> Result<(), AllocError> {
    let mut buf = vec![in alloc; 0u8; MEGABYTE]?;
    read(alloc, meter, buf.as_mut_slice())?;
    let targets = MeterTargets::new(meter, MemTargets::new(Seq::new(alloc)));
    write_shards(alloc, &targets, buf.as_slice())
}

/// Reads, writes and reports under a meter.
fn report(rt: &HostRuntime, is_terminal: bool) -> Result<(), AllocError> {
    let screen = Screen::new(rt);
    let meter = Meter::new(&screen, is_terminal);
    work(rt.alloc(), &meter)?;
    let mut out = MeterOut::new(&meter, StdOut::new(rt.stdout()));
    let _ = out.write(b"report\n");
    let _ = out.write(b"end\n");
    meter.clear();
    Ok(())
}

fn main(rt: HostRuntime) -> ExitCode {
    match (report(&rt, true), report(&rt, false)) {
        (Ok(()), Ok(())) => ExitCode::SUCCESS,
        _ => ExitCode::FAILURE,
    }
}
