//! The steps of who 0, who has no ticket: each has its conditions, adds one entry or none, and says what it makes of who 0.
#![tactic(auto)]

mod accepting;
mod asking;
mod checking;
mod cloning;
mod election;
mod restoring;
mod taking;
mod testing;

pub use asking::{ask, look, take};
pub use checking::end_check;
pub use cloning::clone_snapshot;
pub use election::elect;
pub use restoring::restore;
pub use testing::{begin_test, commit_test, draw_test, end_verification, remove_tests};
