//! What the words and the pages come to, before anything is written of it.

use mari_capacity::Valued;
use mari_io::Fetch;
use mari_remain::Books;
use mari_units::Refusal;

/// How the runs of a day are cleared.
#[derive(Clone, Copy, Debug, PartialEq, Eq)]
pub enum Way {
    /// Each as one market.
    Whole,
    /// Each island by island.
    Islands,
}

/// A day to clear.
#[derive(Drop)]
pub struct Job {
    /// Its books.
    pub books: Books,
    /// How its runs are cleared.
    pub way: Way,
    /// How many nodes the search of each run, or of each island, may make, 1 to `MOST_NODES`.
    pub nodes: u32,
    /// How many workers search, 1 to `MOST_WORKERS`.
    pub workers: u32,
}

/// Quarter hours of a folder to clear as one market.
#[derive(Drop)]
pub struct JointJob {
    /// The folder.
    pub folder: String,
    /// The first quarter hour, from 1.
    pub first: u32,
    /// The last one, up to `MOST_QUARTERS`.
    pub last: u32,
    /// How many nodes the search may make, 1 to `MOST_NODES`.
    pub nodes: u32,
    /// How many workers search, 1 to `MOST_WORKERS`.
    pub workers: u32,
}

/// What the words and the pages come to.
#[derive(Drop)]
pub enum Outcome {
    /// The words are no command.
    NoCommand,
    /// A day is to be cleared.
    Day(Job),
    /// The publication of this folder is to be printed as a feed.
    Feed(String),
    /// These quarter hours are to be cleared as one market.
    Blocks(JointJob),
    /// What the limits of a publication's borders are worth is to be printed, as far as they could be valued.
    Values(Valued),
    /// A text is to be printed.
    Text(Vec<u8>),
    /// The publication isn't valid.
    Invalid {
        /// The first run that has a fault, counted from 1; 0 for the head, and for the totals of a day without runs.
        run: u32,
        /// The number of its least fault.
        fault: u8,
    },
    /// The page of the file of this number can't be had, and why.
    NoPage(u8, Fetch),
    /// A file is refused.
    Refused(Refusal),
    /// Out of memory.
    Memory,
}
