//! The relaxed optimum of a prefix, by shortest paths from an activation to start with.
//!
//! It stands on networks of slots and borders: what a search finds is pushed along as long as its hops have room, and
//! of the margins only those of the two ends are looked at again. `solve_from` carries the promise: an activation
//! whose welfare is both the relaxed welfare of the prefix and the dual value of its potentials, or a cut that no
//! activation can balance, whatever the start is. `WarmStart` promises the same for all prefixes of a search, each from
//! one start. `optimum_from` and `WarmStart::optimum` give the same optimum with no activation made of it.
#![tactic(auto)]

mod changes;
mod curves;
mod drains;
mod margins;
mod merit;
mod optimum;
mod run;
mod start;
mod warm;

pub use mari_network::{Optimum, Places, SolveFault, Solved};
pub use optimum::{optimum_from, solve_from};
pub use warm::{WarmStart, Workspace, gated_places};
