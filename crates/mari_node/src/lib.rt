//! What is found of one node of the search: a cut, or its relaxed optimum with an admissible activation or a conflict.
//!
//! It stands on the relaxed optimum of a prefix and on the test of prices. `examine` carries the promise: each finding
//! holds, and at a prefix that decides every gate it settles what that gate word has.
#![tactic(auto)]

mod bounds;
mod gates;
mod node;
mod prices;

pub use node::{examine, examine_from, examine_in, examine_warm};
