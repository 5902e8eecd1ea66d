//! The blocks of a day whose runs are cleared island by island.

use mari_islands::Island;
use mari_lines::Heading;
use mari_market::Clearing;
use mari_publish::FullBlock;
use mari_units::Items;

/// A run that is published.
#[derive(Drop)]
pub struct SplitRun {
    /// What its block says of the whole market. It has no certificate tree.
    pub block: FullBlock,
    /// The islands of its market, in order.
    pub islands: Items<Island>,
    /// The clearing of each island, with its certificate tree, in which zones and gates have their numbers within the
    /// island.
    pub clearings: Items<Clearing>,
}

/// A run's block.
#[derive(Drop)]
pub enum SplitBlock {
    /// The run is published.
    Published(SplitRun),
    /// The run isn't published: its heading, the number from 1 of the first island that isn't published, since its
    /// search tree is larger than the budget, and the number of nodes that were made of it.
    Unpublished(Heading, u32, u32),
}
