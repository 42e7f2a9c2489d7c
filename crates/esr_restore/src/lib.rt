//! The unit of a restore's shard: reads what a snapshot has of the shard, and writes its files to a target.
#![tactic(auto)]

mod file;
mod files;
mod job;
mod part;
mod snap;
mod unit;
mod unrestored;

pub use unit::run_unit;
pub use unrestored::Unrestored;
