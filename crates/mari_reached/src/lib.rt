//! The answer of the second form for a market: the first activation, or an admissible one that is within a gap of the best,
//! each with a tree that shows it.
//!
//! What `mari_seek` finds is checked by `check_tree` of `mari_reach` before it is answered.
#![tactic(auto)]

mod answer;
mod checks;

pub use answer::{Answer, Found, answer_of, reach};
