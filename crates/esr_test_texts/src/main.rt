//! Plays the cases of the files that its arguments name, and says of each file how many held. A case that doesn't hold is
//! told on standard error, and the status isn't 0 then.
#![tactic(auto)]

mod answers;
mod cases;
mod hash;
mod json;
mod lists;
mod meta;
mod names;
mod notation;
mod record;
mod root;
mod script;
mod shard;
mod shard_files;
mod words;

use crate::cases::play;
use std::io::ErrorKind;
use std::{env, fs, io};

/// Plays the cases of a file, and answers whether all of them held.
fn play_file(rt: &HostRuntime, file: &str) -> io::Result<bool> {
    let text = fs::read_to_string(rt, file)?;
    let tally = play(rt, file, text.as_str())?;
    println!(rt; "{file}: {} cases held", tally.held)?;
    Ok(tally.failed == 0)
}

fn main(rt: HostRuntime) -> io::Result<()> {
    let mut all = true;
    for file in env::args(&rt)?.skip(1) {
        all = play_file(&rt, file.as_str())? && all;
    }
    if all {
        Ok(())
    } else {
        Err(io::Error::from(ErrorKind::InvalidData))
    }
}
