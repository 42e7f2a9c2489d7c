//! A container that makes the calls of another one, of which a call fails, or each from one on: for tests.
#![tactic(auto)]

mod depot;
mod faults;
mod pieces;

pub use depot::Faulty;
pub use faults::{Fault, Kind, Turn};
pub use pieces::{FaultyFetch, FaultyStage};
