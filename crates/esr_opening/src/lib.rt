//! The opening of a container: what an earlier run left is read, and the record gets the next term.
#![tactic(auto)]

mod blob;
mod ids;
mod infos;
mod laws;
mod opening;
mod own;
mod record;
mod refusal;
mod root;
mod term;

pub use esr_progress::{Opening, SnapInfos};
pub use laws::kept_images_open;
pub use opening::open_container;
pub use refusal::{OpenRefusal, Why};
