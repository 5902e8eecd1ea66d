//! The lines of bids that stand first in a text, taken in place.

ghost use Rattle.std.specs.Prelude.{◌≡◌, ◌≤◌, ◌<◌, ◌+◌, [], length};
ghost use Rattle.mari_publish.specs.Bids.{BidsTaken, with_bids};

use super::step::empty;
use crate::held::Listing;
use mari_lines::{BidLine, leading_bid};
use mari_units::{Items, MOST_BIDS};
use std::alloc::Global;
use std::mem;

/// Appends the bids whose lines stand first in a text, and gives what stands after these lines: up to `MOST_BIDS` in
/// all, and as far as there is memory for them.
fn push_bids<'a>(bids: &mut Vec<BidLine>, text: &'a [u8]) -> &'a [u8]
    ensures { BidsTaken bids.old.items bids.new.items text.now result.now }
{
    let mut rest = text;
    for _place in bids.len()..MOST_BIDS {
        let Some((bid, after)) = leading_bid(rest) else {
            return rest;
        };
        if bids.push(bid).is_err() {
            return rest;
        }
        rest = after;
    }
    rest
}

/// Takes the lines of bids that stand first in a text, where they may follow in a block: what stands after them, and
/// how many they are. It stops at any other line, at one that isn't whole, and where there is no memory for a bid; no
/// clause says that it takes as many as it can.
pub fn list_bids<'a>(alloc: Global, block: &mut Listing, text: &'a [u8]) -> (&'a [u8], u32)
    ensures taken { BidsTaken block.old.bids block.new.bids text.now result.0.now }
    ensures place { 0 < result.1 → (0 < length block.old.zones) × (block.old.demands ≡ []) }
    ensures same { block.new ≡ with_bids block.old block.new.bids }
    ensures number { length block.new.bids ≡ length block.old.bids + result.1 }
    ensures few { result.1 ≤ MOST_BIDS }
{
    if block.zones.as_slice().is_empty() || !block.demands.as_slice().is_empty() {
        return (text, 0);
    }
    let mut bids = mem::replace(&mut block.bids, empty(alloc)).into_vec();
    let before = bids.len();
    let rest = push_bids(&mut bids, text);
    let count = bids.len() - before;
    block.bids = Items::of(bids);
    (rest, count as u32)
}
