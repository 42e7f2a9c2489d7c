//! Tests of the lock whose turns are taken in order. There is nothing else here.
#![tactic(auto)]

#[cfg(test)]
mod counter;
#[cfg(test)]
mod counting;
#[cfg(test)]
mod tally;
