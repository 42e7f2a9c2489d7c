//! Shards that weren't restored.
use esr_desk::UnitRefusal;

/// Why a shard wasn't restored, and the target that was made for it, unless the report of its failure took it, which may have
/// been refused.
#[derive(Drop)]
pub struct Unrestored<T> {
    pub refusal: UnitRefusal,
    pub target: Option<T>,
}
