//! The check of a day of the second form against its books, block by block or as a text in pieces, by whoever reads it.
//!
//! The crate stands on the definitions and on plain tests, and on nothing that clears a market. Its promise: of each block
//! the least fault is reported, exactly where one is there, whoever printed it; and a block without a fault shows the first
//! activation of its run's market, or that none is better by more than its gap. Of a whole day it reports the first run that
//! has a fault, or that there is none.
#![tactic(auto)]

mod block;
mod day;
mod laws;
mod stream;
mod tree;
mod verdict;

pub use block::examine_block;
pub use day::{Ending, ReachDayCheck};
pub use laws::{free_blocks_show, valid_days_keep, valid_days_pass};
pub use stream::check_reach_stream;
pub use verdict::ReachVerdict;
