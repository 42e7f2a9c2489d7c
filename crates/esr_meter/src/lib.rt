//! Sources, targets and an output that pass each call on to others, and tell in a line on a terminal how far a run is.
#![tactic(auto)]

mod line;
mod meter;
mod out;
mod source;
mod target;
mod way;

pub use meter::Meter;
pub use out::MeterOut;
pub use source::{MeterShard, MeterSources};
pub use target::{MeterTarget, MeterTargets};
