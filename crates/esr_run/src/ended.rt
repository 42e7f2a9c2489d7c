//! What a run leaves.

use esr_depot::Depot;
use esr_desk::{Faults, History};
use esr_targets::TargetList;

/// What a run leaves: its exit status, the container, the shards that it restored, the history of the steps that were made
/// on the container, and the objects that failed. `H` is the type of the sources' shards, `T` that of the targets.
#[derive(Drop)]
pub struct Ended<D: Depot, H, T> {
    pub status: u8,
    pub depot: D,
    pub targets: TargetList<T>,
    pub history: History,
    pub faults: Faults<D::Stage, D::Fetch, H, T>,
}
