//! A container that was opened, as it is handed to a repository.
use crate::{Progress, SnapInfos};
use esr_depot::Depot;
use esr_names::Id;
use esr_record::ClusterRecord;
use esr_root::RootData;

/// A container that was opened, with what a repository keeps of it at its start: the record of the new term, the safe
/// root and the infos of its snapshots, the list of the deletes that are open, and the first id of the term.
#[derive(Drop)]
pub struct Opening<D: Depot> {
    pub depot: D,
    pub cluster: ClusterRecord,
    pub root: RootData,
    /// The infos of the listed snapshots, in the root's order.
    pub infos: SnapInfos,
    pub progress: Progress,
    pub next: Id,
}
