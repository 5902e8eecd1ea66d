//! Tests of the program of the second form that need code: texts that `clear` printed, altered ones, pages and writes that fail.
//!
//! They call what is public alone, so they stand apart from what they test, which then is proved once.
#![tactic(auto)]

#[cfg(test)]
mod cases;
#[cfg(test)]
mod checks;
#[cfg(test)]
mod days;
#[cfg(test)]
mod faults;
#[cfg(test)]
mod feeds;
#[cfg(test)]
mod words;
