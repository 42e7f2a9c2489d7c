//! The desk of one thread.
#![tactic(auto)]

mod client;
mod desk;
mod kept;
mod solo;

pub use solo::Solo;
