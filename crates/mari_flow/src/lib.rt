//! The relaxed optimum of a prefix, by cancelling improving cycles.
//!
//! It stands on networks of slots and borders: it starts from each order's least, and moves energy along one improving
//! chain after another, each searched for from the beginning. `solve` carries the promise: an activation whose welfare
//! is both the relaxed welfare of the prefix and the dual value of its potentials, or a cut that no activation can
//! balance. This is the plain solver, with which a faster one under the same contract is compared.
#![tactic(auto)]

mod optimum;
mod run;
mod start;

pub use mari_network::{SolveFault, Solved};
pub use optimum::solve;
