//! The unit of a clone's shard: the files that another snapshot has of the shard are listed under the clone's uuid.
#![tactic(auto)]

mod copy;
mod snap;
mod unit;

pub use unit::run_unit;
