//! How far a run is, as a line.
use crate::way::{Way, Work};
use std::fmt::{self, Display, Formatter};

/// How far the files of a shard are, and how many bytes passed in how many milliseconds of the run.
#[derive(Drop)]
pub(crate) struct Line<'a> {
    pub way: &'a Way,
    pub passed: u64,
    pub millis: u64,
}

/// The word of what is done.
fn word_of(work: Work) -> &'static str {
    match work {
        Work::Read => "read",
        Work::Store => "store",
        Work::Restore => "restore",
    }
}

/// Megabytes, rounded down.
fn megabytes(bytes: u64) -> u64 {
    bytes / 1_000_000
}

/// The share in percent, rounded down, and at most 100.
fn percent(part: u64, whole: u64) -> u64 {
    if part >= whole {
        return 100;
    }
    u64::try_from(u128::from(part) * 100 / u128::from(whole)).unwrap_or(100)
}

/// Megabytes a second, rounded down.
fn rate(bytes: u64, millis: u64) -> u64 {
    bytes / millis.saturating_mul(1000).max(1)
}

impl<'a> Display for Line<'a> {
    fn fmt<W: fmt::Write>(&self, f: &mut Formatter<W>) -> fmt::Result {
        let way = self.way;
        let (files, done) = (way.files, megabytes(way.bytes));
        write!(
            f,
            "{} {}/{}: ",
            word_of(way.work),
            way.index.as_str(),
            way.shard
        )?;
        match way.whole() {
            Some((count, bytes)) => write!(
                f,
                "file {files} of {count}, {done} of {} MB, {} %",
                megabytes(bytes),
                percent(way.bytes, bytes)
            )?,
            None => write!(f, "file {files}, {done} MB")?,
        }
        write!(f, ", {} MB/s", rate(self.passed, self.millis))
    }
}
