//! Limits of a run's market that no file knows, and numbers above what its prices and quantities come to.

/// The most orders of a market: the bids of a quarter hour and the demands of a run, `MOST_BIDS` and `MOST_DEMANDS`
/// together, with which it changes.
pub const MOST_ORDERS: usize = 4_608;

/// A number above the difference of any two prices, in cents per MWh: the greatest and the least price are 2 * `CAP`
/// apart, which is 19,999,800.
pub const MOST_GAP: u64 = 20_000_000;

/// A number above what an order or a flow is worth at the difference of two prices, in quarter-cents: `MOST_GAP`
/// times 200,000 MW, which is above `MOST_FLOW` and `MOST_MW`.
pub const MOST_WORTH: u64 = 4_000_000_000_000;
