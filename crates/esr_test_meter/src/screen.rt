//! A terminal whose text goes to standard output, a line for each, and a clock.
use std::fmt::Display;
use std::io::{self, ErrorKind};
use std::rt::Clock;
use std::sync::atomic::{AtomicU64, Ordering};
use std::time::Duration;

/// How many milliseconds go by from one look at the clock to the next.
const STEP: u64 = 250;

#[derive(Drop)]
pub(crate) struct Screen<'a> {
    rt: &'a HostRuntime,
    millis: AtomicU64,
}

impl<'a> Screen<'a> {
    pub fn new(rt: &'a HostRuntime) -> Screen<'a> {
        Screen {
            rt,
            millis: AtomicU64::new(0),
        }
    }
}

impl<'a> Eprint for Screen<'a> {
    fn eprint<D: Display + Drop>(&self, value: D) -> io::Result<()> {
        self.rt.println(value)
    }

    fn eprintln<D: Display + Drop>(&self, value: D) -> io::Result<()> {
        self.rt.println(value)
    }
}

impl<'a> Clock for Screen<'a> {
    fn monotonic(&self) -> io::Result<Duration> {
        Ok(Duration::from_millis(self.millis.fetch_add(STEP, Ordering::SeqCst)))
    }

    fn since_1970(&self) -> io::Result<Duration> {
        Err(ErrorKind::Unsupported.into())
    }
}
