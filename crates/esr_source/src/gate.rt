//! What is told of a worker while it writes.

/// Where a worker is with the stage of a part.
#[derive(Clone, Copy, Debug)]
pub enum Point {
    /// It is about to write to it.
    Writing { ticket: u64 },
    /// It has written to it.
    Written { ticket: u64 },
}

/// Is told of each write of a part, before and after it, and may hold the worker there for a while.
pub trait Gate: Sync {
    fn at(&self, point: Point);
}

/// A gate that holds nobody.
#[derive(Clone, Copy, Debug, Drop)]
pub struct NoGate;

impl Gate for NoGate {
    fn at(&self, _point: Point) {}
}
