//! Objects of the outside that failed.

use crate::{Who, Why};
use esr_seq::Seq;

/// An object that failed. `S` is the type of stages, `F` that of fetches, `H` that of shards, `T` that of targets.
#[derive(Drop)]
pub enum FailedObject<S, F, H, T> {
    Stage { stage: S },
    Fetch { fetch: F },
    Shard { shard: H },
    Target { target: T },
}

/// An object that failed, with the place of its `failed` entry in the history, counted from 0. A fetch of the opening has
/// none.
#[derive(Drop)]
pub struct Fault<S, F, H, T> {
    pub entry: Option<u64>,
    pub object: FailedObject<S, F, H, T>,
}

/// The objects that failed, in order.
pub type Faults<S, F, H, T> = Seq<Fault<S, F, H, T>>;

/// What shows why a unit failed.
#[derive(Drop)]
pub enum By<S, F, H, T> {
    /// This object of the unit failed.
    Object { object: FailedObject<S, F, H, T> },
    /// A step of the unit's ticket was refused, since the container failed in it.
    Entry,
    /// What the unit read.
    Nothing,
}

/// A failure as it is told: who failed, why, and what shows it.
#[derive(Drop)]
pub struct Failure<S, F, H, T> {
    pub who: Who,
    pub why: Why,
    pub by: By<S, F, H, T>,
}
