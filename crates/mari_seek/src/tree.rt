//! The tree of a search.

ghost use Rattle.mari_market.specs.Market.{IsValid};

use crate::nodes::{Kind, Node};
use crate::search::Search;
use mari_market::{Market, Prices};
use mari_reach::{ReachItem, ReachLeaf};
use mari_units::{CAP, Cents, Items};
use std::alloc::{AllocError, Global};

/// At what the leaves of a tree are to hold.
#[derive(Clone, Copy, Debug, Drop, PartialEq, Eq)]
pub(crate) enum Cutoff {
    /// At the best welfare, for its word.
    Best,
    /// At this number of quarter-cents.
    Value(i64),
}

/// Potentials as prices within the cap.
pub(crate) fn prices_of(alloc: Global, potentials: &[i64]) -> Result<Prices, AllocError> {
    let mut cents = Vec::with_capacity(alloc, potentials.len())?;
    for potential in potentials {
        cents.push(Cents((*potential).max(-CAP).min(CAP)))?;
    }
    Ok(Prices {
        cents: Items::of(cents),
    })
}

/// The leaf of a node that doesn't branch.
fn leaf_of(alloc: Global, node: &Node) -> Result<ReachLeaf, AllocError> {
    match &node.kind {
        Kind::Void => Ok(ReachLeaf::Void),
        Kind::Cut(cut) => Ok(ReachLeaf::Cut(cut.clone()?)),
        Kind::Waiting | Kind::Bound | Kind::Branch(_, _) => {
            let potentials = node.potentials(alloc)?;
            Ok(ReachLeaf::Bound(prices_of(alloc, &potentials)?))
        }
    }
}

impl Search {
    /// Whether a node's bound holds at a cutoff.
    fn holds_at(
        &self,
        alloc: Global,
        market: &Market,
        number: u32,
        cutoff: Cutoff,
    ) -> Result<bool, AllocError>
        requires { IsValid market.now }
    {
        match cutoff {
            Cutoff::Best => self.bound_holds(alloc, market, number),
            Cutoff::Value(value) => Ok(self.bound_of(number) <= value),
        }
    }

    /// The item of a node; where it is a branch, its children are left, the first of them on top.
    fn item_of(
        &self,
        alloc: Global,
        market: &Market,
        number: u32,
        node: &Node,
        cutoff: Cutoff,
        left: &mut Vec<u32>,
    ) -> Result<ReachItem, AllocError>
        requires { IsValid market.now }
    {
        if let Kind::Branch(choice, first) = &node.kind {
            if !self.holds_at(alloc, market, number, cutoff)? {
                left.push(first.saturating_add(1))?;
                left.push(*first)?;
                return Ok(ReachItem::Branch(*choice));
            }
        }
        Ok(ReachItem::Leaf(leaf_of(alloc, node)?))
    }

    /// The tree in preorder, without the branches that a bound spares.
    pub(crate) fn tree(
        &self,
        alloc: Global,
        market: &Market,
        cutoff: Cutoff,
    ) -> Result<Items<ReachItem>, AllocError>
        requires { IsValid market.now }
    {
        let mut items = Vec::new(alloc);
        let mut left = Vec::new(alloc);
        left.push(0u32)?;
        for _ in 0..self.nodes.len() {
            let Some(number) = left.pop() else {
                break;
            };
            if let Some(node) = self.nodes.get(number as usize) {
                items.push(self.item_of(alloc, market, number, node, cutoff, &mut left)?)?;
            }
        }
        Ok(Items::of(items))
    }

    /// The greatest bound of a node that waits, or the best welfare where that is greater, in quarter-cents.
    pub(crate) fn top(&self) -> i64 {
        let mut top = self.best;
        for node in &self.nodes {
            if matches!(&node.kind, Kind::Waiting) {
                top = top.max(node.bound);
            }
        }
        top
    }
}
