//! The parts of the second form's text as JSON.
//!
//! A part is written as `mari_feed` writes one of the first form; a block says in addition the gap within which its
//! activation is the best, and its tree names gates and zones. The crate's promise: the text of a part is the compact
//! JSON of its value, on one line; and of a page the lines of the parts before its end or its first fault are printed.
#![tactic(auto)]

mod part;
mod stream;
mod tree;

pub use part::reach_part_text;
pub use stream::print_reach_feed;
