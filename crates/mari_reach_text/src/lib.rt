//! What the text of a day of the second form says, with gates and zones by their names, the order of its lines, and which
//! numbers the names have in a run's market.
#![tactic(auto)]

mod claims;
mod kept;
mod laws;
mod named;
mod numbers;
mod order;

pub use claims::one_if_first;
pub use kept::{ReachKept, ReachPart};
pub use laws::{reach_texts_are_whole, reach_texts_follow};
pub use named::{NamedBlock, NamedItem};
pub use numbers::{gated_bids, numbered_tree};
