//! A container in a folder of the file system, which tells nothing of what it holds.
#![tactic(auto)]

mod depot;
mod entries;
mod fetch;
mod folder;
mod hold;
mod name;
mod paths;
mod stage;
mod walk;

pub use depot::DirDepot;
pub use fetch::DirFetch;
pub use stage::DirStage;
