//! Networks of slots and borders, on which both solvers work.
//!
//! A slot is what an order, or what stands in for one, may put into a zone at a price. `find_chain` gives an improving
//! chain, or prices that are tight, and `next_chain` does so from the levels before the last chain; `improve` moves
//! energy along a chain; and `answer` carries the promise: where prices are tight it reads the relaxed optimum, or a
//! cut, however the solver came there. An optimum stays as its network has it, and is written as an activation where
//! one is asked for. Where to start and what to push is left to the solvers.
#![tactic(auto)]

mod chain;
mod finish;
mod ladders;
mod margins;
mod network;
mod optimum;
mod renewal;
mod search;
mod slots;

pub use chain::{Chain, Hop, has_room, improve};
pub use ladders::rungs_to;
pub use margins::{Margin, Margins, add_to_margin};
pub use network::{Crossing, Network, Places, Rung, network_of, places_of};
pub use optimum::{Optimum, SolveFault, Solved, answer};
pub use renewal::{margins_of, margins_on_ladders, renew, with_stand_ins};
pub use search::{ChainSearch, find_chain, next_chain, search_of};
pub use slots::{BEYOND, Slot, gain_of, order_slots, slot_from, stand_in, worth_of};
