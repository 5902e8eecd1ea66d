//! The search of the second form of certificate: branch and bound over states of `mari_reach`, best bound first.
//!
//! Nothing is promised of what it finds: whoever answers by it checks its tree first. The search is safe and ends.
#![tactic(auto)]

mod around;
mod candidates;
mod choosing;
mod diving;
mod gains;
mod lists;
mod nearby;
mod nodes;
mod places;
mod pricing;
mod repeated;
mod rounding;
mod rungs;
mod search;
mod solver;
mod sought;
mod spans;
mod tree;
mod view;
mod words;

pub use sought::{SearchEnd, Sought, seek};
