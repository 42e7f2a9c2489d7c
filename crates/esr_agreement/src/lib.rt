//! Blobs of a root beside each other: whether what was read of two of them agrees.
#![tactic(auto)]

mod agreement;
mod infos;
mod laws;
mod listing;
mod metas;

pub use agreement::agrees;
pub use infos::{has_shard, is_listed, unlisted};
pub use laws::agreement_is;
pub use listing::lists;
pub use metas::{is_global_of, is_meta_of};
