//! The list of open ops: which units are ready, and what the reports of units change.
#![tactic(auto)]

mod additions;
mod changes;
mod cleanup;
mod infos;
mod law;
mod next_delete;
mod opening;
mod progress;
mod ready;
mod reopen;
mod reports;
mod tickets;

pub use cleanup::lowest_open;
pub use infos::SnapInfos;
pub use law::others_leave_the_list;
pub use opening::Opening;
pub use progress::{OpenLists, Progress};
pub use tickets::Tickets;
