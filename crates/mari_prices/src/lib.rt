//! Prices of zones: the least and the greatest that are consistent with an activation, price areas, and the price
//! nearest to the reference.
#![tactic(auto)]

mod bounds;
mod conflicts;
mod ends;
mod intervals;
mod numbering;
mod published;
mod spread;

pub use bounds::{End, PriceBounds};
pub use conflicts::{contradiction, contradiction_between};
pub use intervals::{Intervals, PriceFault, price_test};
pub use numbering::areas;
pub use published::{Pricing, nearest, published_prices};
