//! The book of links: which bids exclude one another, and which bids depend on others.
//!
//! It stands on the rows of a page and on the book of bids. A page gives exactly its book, or exactly its first
//! refusal.
#![tactic(auto)]

mod entries;
mod gates;
mod groups;
mod lines;
mod links;
mod so_far;

pub use links::{BidLinks, LinkBook, LinkCheck};
