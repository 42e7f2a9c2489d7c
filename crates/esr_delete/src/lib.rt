//! The unit of a delete or cleanup: it writes the indices of shards that lose a snapshot and the new root, settles on it, and
//! removes what nothing reaches any more. A cleanup finds that by listing the container.
#![tactic(auto)]

mod doom;
mod gather;
mod indices;
mod list;
mod plan;
mod remove;
mod root;
mod settle;
mod unit;

pub use unit::run_unit;
