//! A day whose runs are cleared island by island, and its text.
//!
//! It stands on the books, on what clears a market, and on the islands of one, and knows neither solvers nor threads. Its
//! promise: the text is that of a day in which each published run has the first activation of its market, with a
//! certificate tree for each island (`specs/Split.antt`, `specs/Lines.antt`).
#![tactic(auto)]

mod laws;
mod run;
mod split;
mod text;
mod writing;

pub use laws::split_days_keep;
pub use split::{SplitBlock, SplitRun};
pub use writing::split_day;
