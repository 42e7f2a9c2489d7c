//! The check of a repository: the safe root and each blob that it reaches is read, once, and what was read agrees.
#![tactic(auto)]

mod checking;
mod fetch;
mod file;
mod index;
mod law;
mod lists;
mod part;
mod root;
mod root_shard;
mod root_snap;
mod shard;
mod snap;

pub use checking::{Checked, check};
