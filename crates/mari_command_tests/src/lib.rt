//! Tests of the program as a whole that need code: sinks that fail, pages that are made, and workers that are held. The
//! others are data, which `mari_cases` reads.
//!
//! They call what is public alone, so they stand apart from what they test, which then is proved once.
#![tactic(auto)]

#[cfg(test)]
mod altered_days;
#[cfg(test)]
mod cases;
#[cfg(test)]
mod checks;
#[cfg(test)]
mod joint_refusals;
#[cfg(test)]
mod joint_sizes;
#[cfg(test)]
mod largest;
#[cfg(test)]
mod pair;
#[cfg(test)]
mod shelf_and_sink;
#[cfg(test)]
mod split_days;
#[cfg(test)]
mod two_leaves;
#[cfg(test)]
mod writes;
