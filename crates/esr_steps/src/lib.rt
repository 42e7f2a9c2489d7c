//! The steps of tickets, and of hands: each has its conditions, adds one entry or none, and says what it makes of who makes it.
#![tactic(auto)]

mod deleting;
mod ending;
mod hands;
mod listing;
mod renewing;
mod writing;

pub use deleting::{end_delete, plan_delete, remove, settle_delete};
pub use ending::{end_cleanup, end_drop, end_restore, end_shard, finish, raise, settle};
pub use hands::{fail, fetch};
pub use listing::list;
pub use writing::{begin, commit, draw, latest};
