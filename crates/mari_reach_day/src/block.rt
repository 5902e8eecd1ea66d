//! The blocks of a day of the second form.

use mari_publish::FullBlock;
use mari_reach::ReachItem;
use mari_reach_lines::Claim;
use mari_units::Items;

/// A run's block.
#[derive(Drop)]
pub struct ReachBlock {
    /// What it says of the market, as a block of the first form does. It has no certificate tree of that form.
    pub block: FullBlock,
    /// What it says of the activation.
    pub claim: Claim,
    /// The tree that shows it, in which zones and gates have their numbers.
    pub tree: Items<ReachItem>,
    /// The number of the bid of each gate.
    pub gated: Items<u32>,
}
