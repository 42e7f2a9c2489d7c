//! The unit that stores the files of a shard.
#![tactic(auto)]

mod base;
mod fault;
mod file;
mod files;
mod job;
mod publish;
mod survey;
mod unit;

pub use publish::end_shard;
pub use unit::{base_of, run_unit};
