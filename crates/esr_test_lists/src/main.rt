//! Plays cases: of what is printed for a line, of what a script is answered by a history, of what a container opens to and its list of
//! open ops answers, and of the root that finalizations make.
//!
//! Standard input has the cases (`esr_scenes::play_cases`). The modules `replies`, `histories`, `lists` and `roots` say which lines there
//! are. In the cases of kind `list` the line `as NAME` stands for the lines of that container. Where a line is answered otherwise, what
//! was wanted and what came is printed, and the exit status is 1. At the end it is printed how many cases and answers there were.
#![tactic(auto)]

mod answers;
mod asking;
mod board;
mod cases;
mod causes;
mod containers;
mod entries;
mod histories;
mod lists;
mod replies;
mod roots;
mod told;
mod trouble;
mod words;

use crate::cases::Player;
use esr_scenes::play_cases;
use std::io;
use std::process::ExitCode;

fn main(rt: HostRuntime) -> io::Result<ExitCode> {
    let cases = io::read_to_string(rt.alloc(), rt.stdin())?;
    play_cases(&rt, rt.alloc(), cases.as_str(), &mut Player::Unknown)
}
