//! What the words of the command line ask for.
use crate::item::Item;

/// How the work is done.
#[derive(Debug, Drop)]
pub struct Options {
    /// How many workers there are, 1 to 64.
    pub workers: u32,
    /// The greatest size of a part in bytes, 1 to 1,073,741,824.
    pub part_size: u64,
}

/// What is done.
#[derive(Debug, Drop)]
pub enum JobWork {
    /// A script is read.
    Run,
    /// The script is this command alone, as its line 1.
    Single(Item),
    /// The generator's job with this seed.
    Generate { seed: u64 },
}

/// What the words of the command line ask for.
#[derive(Debug, Drop)]
pub struct Job {
    pub options: Options,
    pub work: JobWork,
}
