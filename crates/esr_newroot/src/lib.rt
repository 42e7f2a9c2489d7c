//! The roots that a finalization and a delete make.
#![tactic(auto)]

mod new_root;
mod pruned_root;

pub use new_root::finalized;
pub use pruned_root::deleted;
