//! The shards that a run restored, by line, index and number, each with the target that has its files.
#![tactic(auto)]

mod law;
mod list;
mod target;

pub use law::each_target_is_of_its_line;
pub use list::targets_of;
pub use target::{Restored, TargetList};
