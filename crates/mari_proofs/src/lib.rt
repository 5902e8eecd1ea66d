//! Certificates: why no admissible activation below a node of the search is better, and the plain tests of them.
//!
//! A certificate is potentials whose dual value is low enough, a cut, or a conflict; a tree of certificates shows that
//! an activation is optimal. The plain tests here are all that a reader of a certificate has to trust, and none of them
//! takes memory. A table, which does, makes the same answers cheap where many bounds of one market are tested. Their
//! promise: they answer exactly whether the certificate holds, and what holds bounds every admissible welfare.
#![tactic(auto)]

mod conflicts;
mod cuts;
mod dual;
mod laws;
mod leaves;
mod table;
mod tightness;
mod trees;

pub use dual::dual_value;
pub use laws::{closed_first, closed_welfare_is_one, one_first, one_gate_word};
pub use leaves::{check_leaf, check_leaf_by};
pub use table::{DualTable, FEW_ITEMS, dual_value_by};
pub use trees::{TreeVerdict, check_tree, check_tree_by};
