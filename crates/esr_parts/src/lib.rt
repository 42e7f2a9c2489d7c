//! Files are read in pieces: for their prints, and part by part into stages.
#![tactic(auto)]

mod back;
mod copy;
mod hash;
mod piece;
mod plan;

pub use back::{BackError, Extent, hash_back, read_back};
pub use copy::{CopyError, copy_part};
pub use hash::hash_file;
pub use piece::buffer;
pub use plan::part_plan;
