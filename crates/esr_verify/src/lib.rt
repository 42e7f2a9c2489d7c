//! The verification of a container: test blobs are written, read back and removed.
#![tactic(auto)]

mod law;
mod names;
mod read;
mod verification;
mod write;

pub use verification::verify;
