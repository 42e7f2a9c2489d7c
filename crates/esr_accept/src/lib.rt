//! Which commands are accepted, and what they make of the list of open ops.
#![tactic(auto)]

mod cleanup;
mod clone;
mod delete;
mod restore;
mod snapshot;

pub use cleanup::accept_cleanup;
pub use clone::{chosen, clonable, open_clone};
pub use delete::accept_delete;
pub use restore::{open_restore, restorable};
pub use snapshot::accept;
