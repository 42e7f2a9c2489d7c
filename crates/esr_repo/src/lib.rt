//! A container beside the history of its steps.
#![tactic(auto)]

mod begun;
mod calls;
mod kept;
mod law;
mod listing;
mod removing;
mod repo;
mod steps;
mod swap;
mod told;
mod units;

pub use law::entries_tell_the_caller;
pub use repo::Repo;
pub use swap::{Renewed, entry_refusal, with_ops};
pub use told::Told;
