//! Some quarter hours of a folder cleared as one market, with its blocks of bids.
//!
//! It stands between the reading of a folder and the joint market: the market files are read as for a day, then
//! blocks.csv is fetched and read, and the scheduled runs of the quarters are cleared together. Its promise: the text is
//! that of the joint market, or the first refusal, or the first page that can't be had, exactly.
#![tactic(auto)]

mod quarters;

pub use quarters::clear_quarters;
