// What a seat at the lock's table knows. No value of it is made.
use std::collections::LinkedList;

/// Where a pass stands. The number is its ticket.
pub enum Stage {
    /// It has no ticket.
    Idle,
    /// It has drawn one, and waits for its turn.
    Waits(u64),
    /// Its turn has come, and it has the value.
    Lifted(u64),
    /// What its turn added is counted.
    Counted(u64),
}

/// What a pass knows of a lock round a T, whose history has entries E.
pub struct View<T, E> {
    pub stage: Stage,
    /// The entries that it has seen.
    pub seen: LinkedList<E>,
    /// Those that a pass joined to it had seen.
    pub told: LinkedList<E>,
    /// The places of its own entries, counted from 0.
    pub mine: LinkedList<u64>,
    /// How many turns it has left, and has used.
    pub left: u64,
    pub used: u64,
    /// The value that it put into the lock last, and the number of that. The value of a new lock is number 1, and 0 says
    /// that it has put none.
    pub put: Option<T>,
    pub last: u64,
}
