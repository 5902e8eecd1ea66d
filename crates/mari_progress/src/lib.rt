//! What the printed blocks of a day leave to those after them.
//!
//! Whoever prints a day and whoever checks one keep the same between its blocks: what these left, the sums of their
//! ledgers, and the scheduled prices. The crate stands on the books and on the types of a publication, and on nothing
//! that clears a market or tests an activation. Its promise: what is kept stands for the blocks so far, so that the
//! market and the scheduled prices of the next run are those after them.
#![tactic(auto)]

mod ledger;
mod lines;
mod progress;
mod providers;
mod runs;

pub use ledger::ledger_of;
pub use lines::{bid_lines, border_lines, copied_name, demand_mws, zone_lines};
pub use progress::{Progress, Scheduled, SettledRun};
pub use providers::providers_of;
pub use runs::{heading, run_count};
