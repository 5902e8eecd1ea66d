//! Prefixes of gate decisions, and the bounds that they leave to orders.
//!
//! A search decides gates in their order. These calls say which decisions keep the rules of parents and groups, how
//! much each order may run below them, which gate word an activation has, and which of two words comes before the
//! other. All but `bounds_of` take no memory.
#![tactic(auto)]

mod bounds;
mod gate_words;
mod prefixes;
mod preorder;
mod states;

pub use bounds::{bound_of, bounds_of};
pub use gate_words::{comes_before, gate_word};
pub use prefixes::{child_of, empty_prefix, may_branch_up, opens, prefix_feasible};
pub use preorder::next_after;
pub use states::{GateState, GateStates, states_at};
