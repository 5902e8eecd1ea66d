//! The books of runs, of demands, and of the limits of borders in each run.
//!
//! They stand on the rows of a page and on the book of zones. A page gives exactly its book, or exactly its first
//! refusal.
#![tactic(auto)]

mod demands;
mod limits;
mod runs;

pub use demands::{Demand, DemandBook, DemandCheck};
pub use limits::{LIMIT_COLUMNS, LimitBook, LimitCheck, Limits};
pub use runs::{Run, RunBook, RunCheck};
