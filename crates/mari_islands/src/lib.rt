//! Islands: the parts of a market that nothing joins, each of them cleared as a market of its own.
//!
//! Zones are in one island where a border over which something may flow joins them, or a gate, a group or a parent
//! does, directly or through others. The promise: first activations of the islands are together the first activation of
//! the whole market, and their welfare is its welfare. `specs/Islands.antt` is read first.
#![tactic(auto)]

mod check;
mod clear;
mod firsts;
mod islands;
mod join;
mod part;

pub use check::check_islands;
pub use clear::{IslandsCleared, clear_islands};
pub use islands::{Island, islands_of};
pub use join::Joined;
