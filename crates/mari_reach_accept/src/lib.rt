//! What is printed of a day of the second form is what its checker accepts.
//!
//! The crate has laws alone. Its promise: no block of a printed day has a fault, the day is valid, its text is a whole one of
//! the form, and a right verdict on it is that it is valid.
#![tactic(auto)]

mod laws;

pub use laws::{printed_blocks_are_free, printed_days_are_valid, printed_texts_are_accepted};
