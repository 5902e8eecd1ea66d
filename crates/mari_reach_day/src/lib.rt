//! A day of the second form, and its text: every run has an answer.
//!
//! It stands on the books and on the answer of the second form for a market. Its promise: the text is that of a day in which
//! each run has the first activation of its market, or an admissible one that is within a gap of the best, with a tree that
//! shows it (`specs/Reach.antt`, `specs/Lines.antt`).
#![tactic(auto)]

mod block;
mod laws;
mod run;
mod text;
mod writing;

pub use block::ReachBlock;
pub use laws::reach_days_keep;
pub use writing::{ReachEnd, reach_day};
