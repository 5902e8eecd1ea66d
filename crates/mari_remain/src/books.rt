//! The books of a folder.

use mari_bids::BidBook;
use mari_demands::{DemandBook, LimitBook, RunBook};
use mari_links::LinkBook;
use mari_units::Name;
use mari_zones::{BorderBook, ZoneBook};

/// What the pages of a folder say.
#[derive(Drop)]
pub struct Books {
    /// The date, as ten bytes.
    pub date: Name,
    /// How many quarter hours it has.
    pub quarters: u32,
    /// The zones and operators.
    pub zones: ZoneBook,
    /// The borders.
    pub borders: BorderBook,
    /// The bids and providers.
    pub bids: BidBook,
    /// The links between bids.
    pub links: LinkBook,
    /// The runs.
    pub runs: RunBook,
    /// The demands.
    pub demands: DemandBook,
    /// The limits for each run, where the borders state none.
    pub limits: Option<LimitBook>,
}
