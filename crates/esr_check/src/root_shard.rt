//! Which shard is checked.
use esr_meta::SnapInfo;
use esr_names::{Id, ShardId};
use esr_root::RootData;

/// A shard of the safe root, under its generation, and the infos of the listed snapshots.
#[derive(Clone, Copy)]
pub struct ShardOfRoot<'a> {
    pub root: &'a RootData,
    pub infos: &'a [SnapInfo],
    pub at: ShardId,
    pub generation: Id,
}
