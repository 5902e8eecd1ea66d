//! The incumbent: the greatest welfare that any worker of a search has offered so far, as one number that threads
//! share and that only rises.
//!
//! A worker stands at the incumbent with a seat, which knows the greatest welfare that it saw and that it offered.
//! Seats have parts: the first seat has all of them, a seat that splits off takes one along, and a seat that is joined
//! gives its own back. A seat that has all parts may close the incumbent. Every step is one load or one `fetch_max`,
//! and waits for nobody.
//!
//! The crate stands on `atomic_table`. Its promise: in every schedule the incumbent is the greatest of its first value
//! and all numbers offered through its seats, and at least what any of them saw; so at the end it is what the last
//! seat offered.
#![tactic(auto)]

mod incumbent;
mod law;
mod rule;

pub use incumbent::{Incumbent, Seat};
pub use law::rule_is_kept;
