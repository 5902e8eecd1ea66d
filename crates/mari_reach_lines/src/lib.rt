//! One line of the second form's text, both ways.
//!
//! The crate stands on `mari_lines`, whose lines it shares: the lines that the second form has alone are the head, a run's
//! line, and three items of a tree. Its promise: a line whose numbers are in range is spelled in one way, which the calls
//! that write it append, and no other line is spelled so; any other bytes are no line of the second form.
#![tactic(auto)]

mod laws;
mod line;
mod reading;
mod writing;

pub use laws::reach_lines_differ;
pub use line::{Claim, ReachLine};
pub use reading::read_reach_line;
pub use writing::{put_reach_branch, put_reach_head, put_reach_price, put_reach_run, put_void};
