//! What passes in a run is counted, and told.
use crate::line::Line;
use crate::way::Way;
use std::rt::Clock;
use std::sync::atomic::{AtomicBool, AtomicU64, Ordering};
use std::time::Instant;

/// How many milliseconds go by at least between two lines; and between two that tell the end of a shard's files. So at most
/// four lines are told in a second.
const PAUSE: u64 = 500;

/// Counts the bytes that pass in a run, and tells on standard error, in one line that is written over, how far it is. A quiet
/// one tells nothing.
#[derive(Drop)]
pub struct Meter<'a, R> {
    rt: &'a R,
    /// When it began to count, unless it is quiet.
    start: Option<Instant>,
    passed: AtomicU64,
    /// In which millisecond the last line was told, and the last one of an end.
    told: AtomicU64,
    told_end: AtomicU64,
    /// A line stands on the terminal.
    is_shown: AtomicBool,
}

impl<'a, R: Eprint + Clock> Meter<'a, R> {
    /// A meter of the run that begins now. Where standard error is no terminal, or the clock can't be read, it is quiet.
    pub fn new(rt: &'a R, is_terminal: bool) -> Meter<'a, R> {
        let start = if is_terminal {
            Instant::now(rt).ok()
        } else {
            None
        };
        Meter {
            rt,
            start,
            passed: AtomicU64::new(0),
            told: AtomicU64::new(0),
            told_end: AtomicU64::new(0),
            is_shown: AtomicBool::new(false),
        }
    }

    /// Counts bytes that passed on that way, and tells how far it is, if that is due.
    pub(crate) fn pass(&self, way: &mut Way, count: usize) {
        let Some(start) = self.start else {
            return;
        };
        let count = count as u64;
        way.pass(count);
        self.passed.fetch_add(count, Ordering::SeqCst);
        if let Ok(elapsed) = start.elapsed(self.rt) {
            self.tell(way, u64::try_from(elapsed.as_millis()).unwrap_or(u64::MAX));
        }
    }

    /// Tells how far it is in that millisecond, if that is due.
    fn tell(&self, way: &Way, millis: u64) {
        if !self.is_due(way.is_end(), millis) {
            return;
        }
        let passed = self.passed.load(Ordering::SeqCst);
        let line = Line {
            way,
            passed,
            millis,
        };
        self.is_shown.store(true, Ordering::SeqCst);
        // A long line is cut at the edge of the terminal, since one that goes on below can't be written over.
        let _ = eprint!(self.rt; "\r\x1b[?7l{line}\x1b[K\x1b[?7h");
    }

    /// Whether a line is due in that millisecond, which is noted then.
    fn is_due(&self, is_end: bool, millis: u64) -> bool {
        let told = if is_end { &self.told_end } else { &self.told };
        let last = told.load(Ordering::SeqCst);
        millis >= last.saturating_add(PAUSE)
            && told
                .compare_exchange(last, millis, Ordering::SeqCst, Ordering::SeqCst)
                .is_ok()
    }

    /// Takes the line away, if one stands there.
    pub fn clear(&self) {
        if self.is_shown.swap(false, Ordering::SeqCst) {
            let _ = eprint!(self.rt; "\r\x1b[K");
        }
    }
}
