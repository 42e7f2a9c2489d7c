//! The real texts, digest and readings as the one value of the definitions' parameter, and the functions that write and read by it.
#![tactic(auto)]

mod cluster;
mod laws;
mod metas;
mod names;
mod roots;
mod shards;

pub use cluster::{read_cluster, write_cluster};
pub use laws::{
    digest_of_print, formats_are, making_can_be_written, name_texts_are_exact, names_differ,
};
pub use metas::{
    read_global, read_index_meta, read_info, write_global, write_index_meta, write_info,
};
pub use names::{append_name, read_name, write_name};
pub use roots::{read_root, write_root};
pub use shards::{read_shard_index, read_shard_snap, write_shard_index, write_shard_snap};
