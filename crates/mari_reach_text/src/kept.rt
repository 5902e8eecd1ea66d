//! The parts of a text, and what is kept of it between two lines.

use crate::named::{NamedBlock, NamedItem};
use mari_publish::{AmountLine, Kept, MoneyLine};
use mari_reach_lines::Claim;
use mari_units::{Items, Name};

/// A part of what a text says.
#[derive(Drop)]
pub enum ReachPart {
    /// Its head.
    Head {
        /// The date, as ten bytes.
        date: Name,
        /// How many quarter hours it has.
        quarters: u32,
        /// The budget of nodes for each run.
        budget: u32,
    },
    /// The block of a run.
    Block(NamedBlock),
    /// Its totals.
    Totals {
        /// Each operator's sums over the blocks.
        operators: Items<MoneyLine>,
        /// Each provider's sum over the blocks.
        providers: Items<AmountLine>,
    },
}

/// What a reader keeps between two lines.
#[derive(Drop)]
pub struct ReachKept {
    /// What a reader of the first form would keep of the lines for which these stand.
    pub kept: Kept,
    /// What the last run's line says of the activation.
    pub claim: Claim,
    /// The items of the tree that is being read.
    pub tree: Items<NamedItem>,
    /// How many runs so far state the first activation.
    pub first: u32,
}

/// What a line says besides the line of the first form for which it stands.
#[derive(Drop)]
pub enum Said {
    /// A run's line: what it says of the activation.
    Claim(Claim),
    /// A line of a tree: the item.
    Item(NamedItem),
    /// The last line: how many runs state the first activation.
    First(u32),
    /// Nothing.
    Nothing,
}
