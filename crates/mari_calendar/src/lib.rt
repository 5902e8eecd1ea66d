//! How many quarter hours a day has, from its date and the rule of its zone's clock.
//!
//! The crate stands on the kit's `jiff`: on its dates, on its reader of POSIX rules, and on the offsets that it gives
//! a civil time. Its promise: the number of quarter hours, or exactly the first of four causes for which there is
//! none.
#![tactic(auto)]

mod date;
mod quarters;

pub use quarters::{CalendarFault, quarters_of};
