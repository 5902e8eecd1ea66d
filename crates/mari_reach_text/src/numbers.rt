//! The numbers of named gates and zones.

ghost use Rattle.std.specs.Prelude.{◌≡◌, ◌<◌, ◌≤◌, IfOk, IfSome, List, MatchOption, filter, length};
ghost use Rattle.mari_links.specs.Links.{has_gate};
ghost use Rattle.mari_remain.specs.RunMarket.{gate_of as gate_in};
ghost use Rattle.mari_reach_text.specs.Numbers.{IsNumbered, gate_of_name, item_of};
ghost use Rattle.mari_reach.specs.declared.decisions.ReachItem.{ReachItem as TheItem};

use crate::named::NamedItem;
use mari_links::LinkBook;
use mari_reach::{Choice, ReachItem, ReachLeaf};
use mari_remain::{Books, is_gated};
use mari_units::{Items, MOST_BIDS, Memory, Name};
use std::alloc::Global;

/// Those of these bids that have a gate, by their numbers: their gates are numbered in this order.
pub fn gated_bids(alloc: Global, links: &LinkBook, numbers: &[u32]) -> Result<Vec<u32>, Memory>
    ensures { IfOk result (λ gated. gated.items ≡ filter (has_gate links.now) numbers.now) }
{
    let mut gated = Vec::new(alloc);
    for number in numbers {
        if is_gated(links, *number) {
            gated.push(*number)?;
        }
    }
    Ok(gated)
}

/// The place of a bid among these.
fn place_of(gated: &[u32], bid: u32) -> Option<usize>
    ensures place { result ≡ gate_in gated.now bid }
    ensures within { IfSome result (λ place. place < length gated.now) }
{
    gated.iter().position(|number| *number == bid)
}

/// The gate of a bid among these.
fn gate_of(gated: &[u32], bid: u32) -> Option<u32>
    requires { length gated.now ≤ MOST_BIDS }
    ensures { result ≡ gate_in gated.now bid }
{
    match place_of(gated, bid) {
        Some(gate) => Some(gate as u32),
        None => None,
    }
}

/// The gate of a bid of this name.
fn gate_named(books: &Books, gated: &[u32], name: &Name) -> Option<u32>
    requires { length gated.now ≤ MOST_BIDS }
    ensures { result ≡ gate_of_name books.now gated.now name.now }
{
    let bid = books.bids.ids.find(name.bytes())?;
    gate_of(gated, bid)
}

/// The item that a named one stands for, where its gate or its zone is there.
fn item_named(books: &Books, gated: &[u32], item: NamedItem) -> Option<ReachItem>
    requires { length gated.now ≤ MOST_BIDS }
    ensures { result ≡ item_of books.now gated.now item }
{
    match item {
        NamedItem::Gate(name) => {
            let gate = gate_named(books, gated, &name)?;
            Some(ReachItem::Branch(Choice::OfGate(gate)))
        }
        NamedItem::Price(name, price) => {
            let zone = books.zones.zones.find(name.bytes())?;
            Some(ReachItem::Branch(Choice::OfPrice(zone, price)))
        }
        NamedItem::Void => Some(ReachItem::Leaf(ReachLeaf::Void)),
        NamedItem::Bound(potentials) => Some(ReachItem::Leaf(ReachLeaf::Bound(potentials))),
        NamedItem::Cut(cut) => Some(ReachItem::Leaf(ReachLeaf::Cut(cut))),
    }
}

/// The tree that named items stand for, or nothing where one names no gate of these bids, or no zone.
pub fn numbered_tree(
    alloc: Global,
    books: &Books,
    gated: &[u32],
    named: Items<NamedItem>,
) -> Result<Option<Items<ReachItem>>, Memory>
    requires { length gated.now ≤ MOST_BIDS }
    ensures { IfOk result (λ tree. MatchOption tree ((items : List TheItem) → IsNumbered books.now gated.now named items → ⊥)
        (IsNumbered books.now gated.now named)) }
{
    let mut tree = Vec::new(alloc);
    for item in named.into_vec() {
        match item_named(books, gated, item) {
            Some(item) => tree.push(item)?,
            None => return Ok(None),
        }
    }
    Ok(Some(Items::of(tree)))
}
