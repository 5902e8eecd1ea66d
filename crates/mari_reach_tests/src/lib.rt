//! Tests of the second form of certificate: leaves and trees of small markets.
//!
//! They call what is public alone, so they stand apart from what they test, which then is proved once.
#![tactic(auto)]

#[cfg(test)]
mod leaves;
#[cfg(test)]
mod root;
#[cfg(test)]
mod same;
#[cfg(test)]
mod small;
#[cfg(test)]
mod trees;
#[cfg(test)]
mod twins;
