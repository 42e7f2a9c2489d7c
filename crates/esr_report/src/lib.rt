//! What each line of a script was answered, and how the run ended, by the history alone.
#![tactic(auto)]

mod aborts;
mod cleaned;
mod ended;
mod history;
mod reply;
mod restores;
mod tickets;
mod told;

pub use ended::{Ending, end_of_run};
pub use history::replies;
pub use reply::{Replies, Reply};
