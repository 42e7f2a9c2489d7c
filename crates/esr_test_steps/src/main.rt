//! Plays scenes of a desk's steps, made by hand in an order that no run takes: each argument names a file of scenes.
#![tactic(auto)]

mod between;
mod both;
mod errors;
mod play;
mod setting;
mod steps;
mod told;
mod units;

use crate::errors::Trouble;
use crate::play::play_file;
use esr_scenes::exit_of;
use std::env;
use std::process::ExitCode;
use std::sync::Wait;

/// Plays each file that an argument names, and tells how many scenes failed.
fn tell_all<R: Wait + Sync>(rt: &HostRuntime, host: &R) -> Result<u64, Trouble> {
    let mut failed = 0u64;
    for path in env::args(rt)?.skip(1) {
        failed = failed.saturating_add(play_file(rt, host, path.as_str())?);
    }
    println!(rt; "{failed} scenes failed")?;
    Ok(failed)
}

fn main(rt: HostRuntime) -> ExitCode {
    match tell_all(&rt, &rt) {
        Ok(failed) => exit_of(&rt, Ok(failed)),
        Err(Trouble(why)) => exit_of(&rt, Err(why)),
    }
}
