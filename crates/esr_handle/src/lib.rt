//! The desk of a worker: a desk that is alone stands behind a lock, and each worker steps in turns of it.
#![tactic(auto)]

mod event;
mod handle;
mod seat;
mod since;
mod sitting;

pub use event::Event;
pub use handle::Handle;
pub use since::{Share, Since};
pub use sitting::{Lawful, Sitting};
