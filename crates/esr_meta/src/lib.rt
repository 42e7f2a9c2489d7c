//! The metadata texts of a snapshot: its info, the global metadata and each index's metadata.
#![tactic(auto)]

mod global;
mod index;
mod info;

pub use global::{GlobalMeta, global_read, global_text};
pub use index::{IndexMeta, index_meta_read, index_meta_text};
pub use info::{SnapInfo, info_read, info_text};
