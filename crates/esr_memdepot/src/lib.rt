//! A container in memory, which keeps all that it ever had: so it tells what a crash at any moment would have left.
#![tactic(auto)]

mod blob;
mod depot;
mod fetch;
mod listing;
mod meter;
mod mishaps;
mod plan;
mod stage;
mod text;

pub use depot::MemDepot;
pub use fetch::MemFetch;
pub use plan::{Call, Failing, Leaves, Plan};
pub use stage::MemStage;
