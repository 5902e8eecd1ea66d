//! What a day's text says.

use mari_lines::{AmountLine, BidLine, BorderLine, Heading, MoneyLine, ZoneLine};
use mari_market::TreeItem;
use mari_units::{Items, Name};

/// What is published of a run.
#[derive(Drop)]
pub struct FullBlock {
    /// The run.
    pub heading: Heading,
    /// Its welfare, in quarter-cents.
    pub welfare: u64,
    /// A line for each zone.
    pub zones: Items<ZoneLine>,
    /// A line for each border.
    pub borders: Items<BorderLine>,
    /// A line for each bid of the market.
    pub bids: Items<BidLine>,
    /// How much of each demand is met, in MW.
    pub demands: Items<u32>,
    /// The certificate tree, in preorder.
    pub tree: Items<TreeItem>,
    /// A line for each operator.
    pub operators: Items<MoneyLine>,
    /// A line for each provider of the bids.
    pub providers: Items<AmountLine>,
}

/// The block of a run.
#[derive(Drop)]
pub enum Block {
    /// The run is published.
    Published(FullBlock),
    /// It is not: how many nodes its search made within the budget.
    Unpublished(Heading, u32),
}

/// A day as it is published.
#[derive(Drop)]
pub struct Publication {
    /// The date, as ten bytes.
    pub date: Name,
    /// How many quarter hours it has.
    pub quarters: u32,
    /// The budget of nodes for each run.
    pub budget: u32,
    /// A block for each run.
    pub blocks: Items<Block>,
    /// Each operator's sums over the published blocks.
    pub operators: Items<MoneyLine>,
    /// Each provider's sum over the published blocks.
    pub providers: Items<AmountLine>,
}

/// A part of a publication.
#[derive(Drop)]
pub enum Part {
    /// Its head.
    Head {
        /// The date, as ten bytes.
        date: Name,
        /// How many quarter hours it has.
        quarters: u32,
        /// The budget of nodes for each run.
        budget: u32,
    },
    /// A block of it.
    Block(Block),
    /// Its totals.
    Totals {
        /// Each operator's sums over the published blocks.
        operators: Items<MoneyLine>,
        /// Each provider's sum over the published blocks.
        providers: Items<AmountLine>,
    },
}
