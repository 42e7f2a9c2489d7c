//! The files of a shard: the entries of stored files, what a snapshot has of a shard, and a shard's index.
#![tactic(auto)]

mod change;
mod entry;
mod index;
mod laws;
mod marks;
mod parts;
mod physical;
mod reading;
mod snap;
mod trail;
mod writing;

pub use entry::{FileEntries, FileEntry};
pub use index::{ShardIndex, SnapList, SnapLists};
pub use laws::{
    part_names_differ, parts_are_the_file, snap_files_differ, survivors_keep, texts_read_back,
    with_snap_adds,
};
pub use parts::{part_count, part_name};
pub use physical::{PhysicalName, PhysicalRefusal};
pub use reading::{shard_index_read, shard_snap_read};
pub use snap::ShardSnap;
pub use writing::{shard_index_text, shard_snap_text};
