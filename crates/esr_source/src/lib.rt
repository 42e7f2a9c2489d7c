//! Where the files of shards come from and go to, and what a run reads and writes: the traits, and objects in memory.
#![tactic(auto)]

mod address;
mod files;
mod gate;
mod mem_source;
mod mem_stream;
mod mem_target;
mod plan;
mod source;
mod std_stream;
mod stream;
mod target;
mod unread;

pub use address::Address;
pub use files::{Files, ListedFile, MemFile, is_listing};
pub use gate::{Gate, NoGate, Point};
pub use mem_source::{MemShard, MemSource, MemSources};
pub use mem_stream::{MemLines, MemOut};
pub use mem_target::{MemTarget, MemTargets};
pub use plan::{Call, Failing, FailingAt, Plan};
pub use source::{New, Shard, Sources};
pub use std_stream::{StdLines, StdOut};
pub use stream::{Lines, Out};
pub use target::{Target, Targets};
