//! What a run finds outside its container.

use esr_source::{Gate, Sources, Targets};
use std::alloc::AllocError;

/// What a run finds outside its container: where snapshots read, where restores write, and the gate at which workers may be
/// held.
pub struct Host<'a, S: Sources, T: Targets, G: Gate> {
    pub sources: &'a S,
    pub targets: &'a T,
    pub gate: &'a G,
    /// The time of the snapshots, in milliseconds since 1970.
    pub moment: u64,
}

impl<'a, S: Sources, T: Targets, G: Gate> Clone for Host<'a, S, T, G> {
    fn clone(&self) -> Result<Host<'a, S, T, G>, AllocError> {
        Ok(*self)
    }
}

impl<'a, S: Sources, T: Targets, G: Gate> Copy for Host<'a, S, T, G> {}
