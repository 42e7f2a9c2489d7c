//! What a repository asks of the container of its blobs: blobs by name, and one record that is swapped whole.
#![tactic(auto)]

mod counted;
mod depot;
mod error;
mod fetch;
mod listing;
mod stage;
mod whole;

pub use counted::Counted;
pub use depot::{Commit, Depot, Names};
pub use error::{CallError, Failed};
pub use fetch::Fetch;
pub use listing::{Listed, Listing, PAGE, Pages, is_after, page_of};
pub use stage::Stage;
pub use whole::read_whole;
