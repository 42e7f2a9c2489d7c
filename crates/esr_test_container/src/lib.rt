//! The smallest container of one's own that keeps what it gets.
#![tactic(auto)]

mod blob;
mod store;

pub use blob::{NewBlob, OpenBlob};
pub use store::Store;
