//! Tests of a day: its quarter hours, the ledger of a run, what a day's first runs leave to those after them, a day
//! that is cleared, its check, what its limits are worth, a generated one, and several quarter hours as one market.
//!
//! They call what is public alone, so they stand apart from what they test, which then is proved once.
#![tactic(auto)]

#[cfg(test)]
mod blocks;
#[cfg(test)]
mod calendar;
#[cfg(test)]
mod check;
#[cfg(test)]
mod day;
#[cfg(test)]
mod folder;
#[cfg(test)]
mod generated;
#[cfg(test)]
mod joint_text;
#[cfg(test)]
mod remain;
#[cfg(test)]
mod same;
#[cfg(test)]
mod scenario;
#[cfg(test)]
mod settle;
#[cfg(test)]
mod stated_limits;
#[cfg(test)]
mod value;
