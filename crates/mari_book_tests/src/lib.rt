//! Tests of the books of market files: numbers and names, records, zones, borders, bids, links, runs, demands and
//! limits.
//!
//! They call what is public alone, so they stand apart from what they test, which then is proved once.
#![tactic(auto)]

#[cfg(test)]
mod bids;
#[cfg(test)]
mod demands;
#[cfg(test)]
mod links;
#[cfg(test)]
mod pages;
#[cfg(test)]
mod rows;
#[cfg(test)]
mod same;
#[cfg(test)]
mod units;
#[cfg(test)]
mod zones;
