//! The root of a repository: which snapshots it lists, and in which indices they are, as JSON.
#![tactic(auto)]

mod change;
mod generations;
mod indices;
mod read;
mod root;
mod snaps;
mod write;

pub use generations::Generations;
pub use indices::{RootIndex, RootIndices};
pub use read::{read_roots_keep_the_rules, root_read};
pub use root::RootData;
pub use snaps::{RootSnap, RootSnaps};
pub use write::{root_text, roots_read_back};
