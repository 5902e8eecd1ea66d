//! A block as its lines say it.

use mari_market::{Cut, Prices};
use mari_publish::FullBlock;
use mari_reach_lines::Claim;
use mari_units::{Cents, Items, Name};

/// An item of a tree, with gates and zones by their names.
#[derive(Drop)]
pub enum NamedItem {
    /// Whether the gate of the bid of this name is closed or open.
    Gate(Name),
    /// Whether the price of the zone of this name is at most this one or above it.
    Price(Name, Cents),
    /// The decisions contradict each other.
    Void,
    /// Potentials whose dual value is low enough.
    Bound(Prices),
    /// Zones that no activation can balance.
    Cut(Cut),
}

/// A run's block.
#[derive(Drop)]
pub struct NamedBlock {
    /// What it says of the market, as a block of the first form does. It has no certificate tree of that form.
    pub block: FullBlock,
    /// What it says of the activation.
    pub claim: Claim,
    /// The tree that shows it.
    pub tree: Items<NamedItem>,
}
