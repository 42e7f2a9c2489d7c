//! What units report of shards: the result of one, and those whose generations go with a delete.
#![tactic(auto)]

mod pruned;
mod result;

pub use pruned::{PrunedShard, PrunedShards};
pub use result::{ShardResult, ShardResults};
