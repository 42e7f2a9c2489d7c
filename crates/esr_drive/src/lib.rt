//! Units are worked, one after another, until none is ready: by one worker, or by several at one desk, each in a thread of its own.
#![tactic(auto)]

mod alone;
mod crew;
mod law;
mod outside;
mod tickets;
mod unit;
mod worker;
mod workers;

pub use alone::work_alone;
pub use crew::sit;
pub use outside::{Crew, Outside};
pub use tickets::ended_tickets_stay;
pub use worker::{work, work_off};
