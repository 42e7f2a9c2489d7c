//! What a delete or cleanup leaves of a shard, the shards that it prunes, and the names that it dooms.
#![tactic(auto)]

mod clean;
mod doom;
mod gone;
mod names;
mod prune;
mod sets;
mod survive;
mod touched;

pub use clean::{push_unreached, reach_set, renew, without_root};
pub use doom::doomed;
pub use names::DoomedNames;
pub use prune::pruned;
pub use survive::left;
pub use touched::to_read;
