//! Clearing a market by branch and bound.
//!
//! It stands on the findings of `mari_node`, on the search machine of `mari_core`, on the queue and the pool of
//! `mari_pool`, and on the incumbent of `mari_incumbent`. `search_alone`, on one thread, and `search`, by several
//! workers and if each of them ends, carry the promise: the first activation with a certificate tree within the
//! budget, or a part of the search tree that the budget can't extend.
#![tactic(auto)]

mod alone;
mod bounds;
mod crew;
mod cutting;
mod fate;
mod first;
mod publishing;
mod refining;
mod root;
mod rounding;
mod seats;
mod together;
mod turnstile;
mod worker;

pub use alone::{Alone, search_alone};
pub use crew::Crew;
pub use first::first_of;
pub use mari_paths::Workspace;
pub use refining::refine;
pub use root::Root;
pub use together::search;
pub use turnstile::{FreeTurnstile, Turnstile};
pub use worker::{Worked, work};
