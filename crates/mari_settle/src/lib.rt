//! The ledger of a run: what its borders earn, and what operators and providers get or pay for the energy that they
//! exchange.
//!
//! It stands on the books of zones and bids and on the market of a run. It promises that the ledger is exactly that of
//! its definition, that no rent is negative, and that the nets of the operators sum to 0.
#![tactic(auto)]

mod addition;
mod ledger;
mod operators;
mod providers;
mod rents;
mod settlement;

pub use ledger::{Ledger, OperatorLine};
pub use rents::write_rents;
pub use settlement::settle_run;
