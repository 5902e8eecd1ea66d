//! The check of a printed day against its books, by whoever reads it.
//!
//! The crate stands on the definitions and on plain tests, and on nothing that clears a market: what the tests answer
//! is all that a reader has to trust. Its promise: of each block the least fault is reported, exactly where one is there,
//! whoever printed it; and of a whole publication the first run that has a fault, or that there is none. Of one that
//! is read in pieces it reports the same.
#![tactic(auto)]

mod areas;
mod block;
mod day;
mod ends;
mod fault;
mod laws;
mod ledger;
mod names;
mod pricing;
mod reported;
mod spread;
mod stream;
mod tree;
mod verdict;

pub use block::{BeforeTree, Examined, before_tree, check_run};
pub use day::DayCheck;
pub use fault::Fault;
pub use laws::{free_blocks_show, valid_days_keep};
pub use ledger::reported_ledger;
pub use reported::{activation_of, prices_of};
pub use stream::{StreamFault, check_stream};
pub use verdict::{Verdict, check_day, has_totals};
