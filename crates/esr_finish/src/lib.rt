//! The unit that finalizes a snapshot: it writes the metadata and the new root, and settles on it.
#![tactic(auto)]

mod end;
mod metadata;
mod one_blob;
mod root;
mod unit;

pub use end::{end_early, end_swap, is_fault};
pub use one_blob::put;
pub use root::{put_root, try_latest};
pub use unit::run_unit;
