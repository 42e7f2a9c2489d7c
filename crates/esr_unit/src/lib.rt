//! What the units of a repository share, over any desk: why one ends before its time, a blob that is read to its end, one that is
//! written and committed, and the report that one failed.
#![tactic(auto)]

mod blob;
mod ending;
mod fail;
mod fetch;
mod trouble;

pub use blob::put;
pub use ending::{Ending, ending_of};
pub use fail::give_up;
pub use fetch::fetch_whole;
pub use trouble::{Trouble, unread};
