//! The market of a run: which orders, borders and gates it has.
//!
//! A run of any kind comes after the blocks of all runs before it, of which only what they took is kept. The crate
//! stands on the books of a folder and promises that the market is exactly the one that its definition names, and that
//! it is valid.
//!
//! Limits of borders may be stated once for a day, or for each run. `borders_text` and `limits_text` write the pages
//! that state them for each run, and `migration_keeps_markets` is the law that these are read and change no market.
#![tactic(auto)]

mod adding;
mod books;
mod borders;
mod choice;
mod index;
mod laws;
mod market;
mod migration;
mod remaining;

pub use books::Books;
pub use choice::{group_of, is_gated, parent_of};
pub use laws::{migration_keeps_markets, offers_are_kept, stands_after};
pub use market::{RunMarket, bid_of, bid_order, run_entry};
pub use migration::{borders_text, limits_text};
pub use remaining::Remaining;
