//! The text of a report.
#![tactic(auto)]

mod lines;
mod sorted;
mod text;

pub use lines::{push_line, report};
