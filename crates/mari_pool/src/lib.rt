//! The tree of nodes that the workers of a search share, under one lock.
//!
//! It stands on the growth of `mari_core` and on the incumbent of `mari_incumbent`. A worker takes a node by a ticket,
//! and settles it or gives it back. The node whose parent has the greatest bound is taken first. Its promise: whenever
//! the lock is free, the journal of all that was done leads by the rules of growth to the tree, at cutoffs that the
//! pool's own seat has seen; so a tree without open leaves holds at what it saw.
#![tactic(auto)]

mod name;
mod pool;
mod queue;
mod ticket;

pub use name::SearchName;
pub use pool::{Pool, PoolFault};
pub use queue::{Queue, child_key};
pub use ticket::{Settled, Ticket, Took};
