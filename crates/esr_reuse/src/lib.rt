//! Which files of a shard its base already has.
#![tactic(auto)]

mod reuse;

pub use reuse::{Planned, Plans, ReadFile, ReadFiles, plan, reusable};
