//! A whole run: what a command line asks for, a script or one command, carried out on a container.
#![tactic(auto)]

mod asked;
mod carry;
mod command;
mod ended;
mod fault;
mod host;
mod law;
mod line;
mod memory;
mod read;
mod stop;
mod unopened;
mod verdict;
mod whole;

pub use ended::Ended;
pub use host::Host;
pub use memory::sources_in_memory_tell_all;
pub use whole::run;
