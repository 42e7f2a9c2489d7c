//! Small containers that a contract sees as lists: values in order, bytes, and texts; and copies.
#![tactic(auto)]

mod bytes;
mod copy;
mod seq;
mod text;

pub use bytes::Bytes;
pub use copy::{TryClone, copies_of};
pub use seq::Seq;
pub use text::Text;
