//! Merit orders: the ladder of a zone's side within bounds, and the plain clearing of one zone without borders and
//! gates.
//!
//! Each is sorted once by std's sort. The clearing walks it once; its answer is optimal, and its certificate is one
//! bound.
#![tactic(auto)]

mod ladder;
mod marginal;
mod plain;
mod quantities;

pub use ladder::{Ladder, Step, ladder_of};
pub use plain::clear_plain;
