//! The names that a root reaches, and those that a delete dooms.
#![tactic(auto)]

mod doomed;
mod held;
mod reached;

pub use doomed::{doomed_by_delete, set_of};
pub use held::ShardIndices;
pub use reached::{Names, listed_uuids, push_parts, reach};
