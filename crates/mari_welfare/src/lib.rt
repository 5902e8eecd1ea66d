//! Plain tests of an activation: its welfare, whether it is feasible, and whether prices are consistent with it.
//!
//! Each test goes through its definition item by item and takes no memory, so that a checker can rely on it.
#![tactic(auto)]

mod consistency;
mod feasibility;
mod gates;
mod money;

pub use consistency::{borders_agree, is_consistent};
pub use feasibility::is_feasible;
pub use gates::OpenGates;
pub use money::welfare;
