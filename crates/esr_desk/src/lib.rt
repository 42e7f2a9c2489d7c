//! The steps of a repository as its units see them: one call for each step, what it answers and what the history keeps of it.
#![tactic(auto)]

mod client;
mod desk;
mod entry;
mod fault;
mod hand;
mod law;
mod named;
mod refusal;
mod sole;
mod target;
mod unit;

pub use client::Client;
pub use desk::Desk;
pub use entry::{
    Answer, BlobNames, CloneAsk, CloneOf, Entry, Given, History, Prune, Read, Step, Why,
};
pub use fault::{By, FailedObject, Failure, Fault, Faults};
pub use hand::{Hand, Who};
pub use law::{each_ticket_is_given_once, each_ticket_is_new, no_step_is_made_twice};
pub use named::{Named, NewBlob};
pub use refusal::{Attempt, EntryRefusal, StepRefusal};
pub use sole::Sole;
pub use target::{RestoreEnd, RestoredTarget, RestoredTargets, Unended};
pub use unit::{AcceptedRestore, Basis, Look, Planned, Unit, UnitRefusal};
