//! The definitions, computed on small images: the shelf after commands, what a root reaches, and what stands.
#![tactic(auto)]

mod files;
mod image;
mod indices;
mod info;
mod listed;
mod places;
mod reached;
mod reading;
mod shard;
mod shelf;
mod snap;
mod stands;

pub use image::Image;
pub use reached::{Names, reach};
pub use shelf::{
    Command, Commands, File, Files, Shelf, ShelfShard, ShelfShards, Shelved, apply, shelf_after,
};
pub use stands::{picked, shelf_is_one, whole};
