//! The entries of the list of open ops: snapshots, deletes and restores, their shards, units and tickets.
#![tactic(auto)]

mod command;
mod delete;
mod open_op;
mod refusal;
mod restore;
mod seats;
mod shard;
mod unit;

pub use command::{Accepted, AskedIndex, AskedIndices, Command};
pub use delete::{OpenDelete, names, push_between, push_new};
pub use open_op::{OpenOp, later};
pub use refusal::Refusal;
pub use restore::OpenRestore;
pub use shard::{OpenShard, ShardState};
pub use unit::{Copied, ReaderSeat, ReadyUnit, Seat, SeatKind, Work};
