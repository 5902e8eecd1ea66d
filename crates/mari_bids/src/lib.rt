//! The book of bids: who offers how many MW, where, when and at what price.
//!
//! It stands on the rows of a page and on the book of zones. A page gives exactly its book, or exactly its first
//! refusal.
#![tactic(auto)]

mod bids;

pub use bids::{Bid, BidBook, BidCheck};
