//! A gate at which one worker waits for another.
use esr_source::{Gate, Point};
use std::sync::atomic::{AtomicU64, Ordering};
use std::thread;

/// How often a worker that is held looks for the other one.
const LOOKS: u64 = 10_000_000;

/// Holds the first ticket that comes to a write until another one has written, or until it has looked for that often enough; or
/// holds none.
#[derive(Drop)]
pub struct Meeting {
    /// The ticket that is held, 0 where the next one is to be, or the last number where none is.
    held: AtomicU64,
    /// How often other tickets have written.
    others: AtomicU64,
    /// How often the held one found that another had written.
    met: AtomicU64,
}

impl Meeting {
    /// A gate that holds a ticket, or none.
    pub fn new(holds: bool) -> Meeting {
        let held = if holds { 0 } else { u64::MAX };
        Meeting {
            held: AtomicU64::new(held),
            others: AtomicU64::new(0),
            met: AtomicU64::new(0),
        }
    }

    /// Another ticket wrote while the first one was held.
    pub fn has_met(&self) -> bool {
        self.met.load(Ordering::SeqCst) != 0
    }

    fn hold(&self) {
        for _ in 0..LOOKS {
            if self.others.load(Ordering::SeqCst) != 0 {
                self.met.fetch_add(1, Ordering::SeqCst);
                return;
            }
            thread::yield_now();
        }
    }
}

impl Gate for Meeting {
    fn at(&self, point: Point) {
        match point {
            Point::Writing { ticket } => {
                let first = self
                    .held
                    .compare_exchange(0, ticket, Ordering::SeqCst, Ordering::SeqCst);
                if first.is_ok() {
                    self.hold();
                }
            }
            Point::Written { ticket } => {
                if self.held.load(Ordering::SeqCst) != ticket {
                    self.others.fetch_add(1, Ordering::SeqCst);
                }
            }
        }
    }
}
