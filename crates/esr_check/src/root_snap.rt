//! Which snapshot is checked.
use esr_root::{RootData, RootSnap};

/// A snapshot that the safe root lists, and the generation of that root.
#[derive(Clone, Copy)]
pub struct SnapOfRoot<'a> {
    pub root: &'a RootData,
    pub number: u64,
    pub listed: &'a RootSnap,
}
