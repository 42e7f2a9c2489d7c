//! The files of shards in folders: sources that are read, and targets that are written.
#![tactic(auto)]

mod begun;
mod faults;
mod folder;
mod paths;
mod source;
mod target;

pub use source::{DirShard, DirSources};
pub use target::{DirTarget, DirTargets};
