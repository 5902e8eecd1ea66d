//! The limits of the market files, of a run's market and of its search, and of the numbers of generated days: this
//! project's profile.

/// The most bidding zones of a day.
pub const MOST_ZONES: usize = 64;

/// The most borders of a day.
pub const MOST_BORDERS: usize = 256;

/// The most quarter hours of a day: 100 hours, so that any change of the clock fits.
pub const MOST_QUARTERS: u32 = 400;

/// The most runs of a day.
pub const MOST_RUNS: usize = 1_000;

/// The most bids of a quarter hour, and of a joint market.
pub const MOST_BIDS: usize = 4_096;

/// The most providers of a day: one for each bid, `MOST_BIDS` in each of `MOST_QUARTERS` quarter hours.
pub const MOST_PROVIDERS: usize = MOST_BIDS * MOST_QUARTERS as usize;

/// The most gates of a quarter hour, hence of a run's market: 64 for each number of `bits` in a `Prefix` of
/// `mari_market`.
pub const MOST_GATES: usize = 512;

/// The most demands of a run, and of a joint market.
pub const MOST_DEMANDS: usize = 512;

/// The greatest quantity of a bid, in MW.
pub const MOST_BID_MW: u32 = 9_999;

/// The greatest size of a demand, hence the greatest quantity of an order of a market, and the greatest limit of a
/// border in a file, in MW.
pub const MOST_MW: u32 = 99_999;

/// The greatest limit of a border in a run, in MW: its limit in the file and what flowed the other way before.
/// It is twice `MOST_MW`, and changes with it.
pub const MOST_FLOW: u32 = 199_998;

/// The most bytes of a name.
pub const MOST_NAME: usize = 16;

/// The most bytes of a page.
pub const MOST_PAGE: usize = 268_435_456;

/// The most nodes of a search, hence the greatest budget.
pub const MOST_NODES: u32 = 50_000;

/// The most workers that search a run at once, one thread each.
pub const MOST_WORKERS: u32 = 16;

/// The most by which the limit of a border is raised to see what more of it is worth, in MW.
pub const MOST_RAISE: u32 = 1_000;

/// The last number of a generated day.
pub const LAST_NUMBER: u32 = 2_147_483_647;
