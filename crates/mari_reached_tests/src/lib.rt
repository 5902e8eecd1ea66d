//! Tests of the answer of the second form: of small markets whose first activation is known, of random ones against the
//! first form, and of what a search is only said to have found.
//!
//! They call what is public alone, so they stand apart from what they test, which then is proved once.
#![tactic(auto)]

#[cfg(test)]
mod answers;
#[cfg(test)]
mod equal;
#[cfg(test)]
mod random;
#[cfg(test)]
mod reported;
#[cfg(test)]
mod same;
#[cfg(test)]
mod small;
#[cfg(test)]
mod sought;
