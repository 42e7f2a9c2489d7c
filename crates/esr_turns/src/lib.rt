//! A lock whose turns are taken in order, round a value with a history.
#![tactic(auto)]

mod kinds;
mod lock;
mod logged;
mod pass;
mod view;

pub use lock::TurnLock;
pub use logged::Logged;
pub use pass::{Held, Pass, Turn};
