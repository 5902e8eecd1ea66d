//! The lists of a block are open, before its tree.

ghost use Rattle.std.specs.Prelude.{◌≡◌, ℕ};
ghost use Rattle.mari_publish.specs.Order.{after, after_listing, Steps, Follows};
ghost use Rattle.mari_publish.specs.declared.held.Held.TheVariants as held_as;
ghost use Rattle.mari_publish.specs.declared.held.Listing.{Listing as ListingValue};

use super::step::{FollowFault, empty, go_on, push, refuse};
use crate::held::{Growing, Held, Kept, Listing, Pending};
use crate::publication::Part;
use mari_lines::{BidLine, BorderLine, Line, ZoneLine};
use mari_units::{MOST_BIDS, MOST_BORDERS, MOST_ZONES};
use std::alloc::Global;
use std::mem;

/// A zone's line in a block before its tree.
fn list_zone(alloc: Global, block: &mut Listing, zone: ZoneLine) -> Result<(), FollowFault>
    ensures { Steps (after_listing block.old (Line.Zone zone)) (held_as.Listing block.old) (held_as.Listing block.new) result }
{
    if !block.borders.as_slice().is_empty()
        || !block.bids.as_slice().is_empty()
        || !block.demands.as_slice().is_empty()
        || block.zones.as_slice().len() >= MOST_ZONES
    {
        drop(zone);
        return Err(FollowFault::OutOfOrder);
    }
    Ok(push(alloc, &mut block.zones, zone)?)
}

/// A border's line in a block before its tree.
fn list_border(alloc: Global, block: &mut Listing, border: BorderLine) -> Result<(), FollowFault>
    ensures { Steps (after_listing block.old (Line.Border border)) (held_as.Listing block.old) (held_as.Listing block.new) result }
{
    if block.zones.as_slice().is_empty()
        || !block.bids.as_slice().is_empty()
        || !block.demands.as_slice().is_empty()
        || block.borders.as_slice().len() >= MOST_BORDERS
    {
        drop(border);
        return Err(FollowFault::OutOfOrder);
    }
    Ok(push(alloc, &mut block.borders, border)?)
}

/// A bid's line in a block before its tree.
fn list_bid(alloc: Global, block: &mut Listing, bid: BidLine) -> Result<(), FollowFault>
    ensures { Steps (after_listing block.old (Line.Bid bid)) (held_as.Listing block.old) (held_as.Listing block.new) result }
{
    if block.zones.as_slice().is_empty()
        || !block.demands.as_slice().is_empty()
        || block.bids.as_slice().len() >= MOST_BIDS
    {
        drop(bid);
        return Err(FollowFault::OutOfOrder);
    }
    Ok(push(alloc, &mut block.bids, bid)?)
}

/// A demand's line in a block before its tree.
fn list_demand(alloc: Global, block: &mut Listing, place: u32, mw: u32) -> Result<(), FollowFault>
    ensures { Steps (after_listing block.old (Line.Demand place mw)) (held_as.Listing block.old) (held_as.Listing block.new) result }
{
    if block.zones.as_slice().is_empty() {
        return Err(FollowFault::OutOfOrder);
    }
    if u64::from(place) != block.demands.as_slice().len() as u64 + 1 {
        return Err(FollowFault::OutOfOrder);
    }
    Ok(push(alloc, &mut block.demands, mw)?)
}

/// A line of a block before its tree, but not the tree's first.
pub fn list_line(alloc: Global, block: &mut Listing, line: Line) -> Result<(), FollowFault>
    requires { (count : ℕ) → line ≡ Line.Tree count → ⊥ }
    ensures { Steps (after_listing block.old line) (held_as.Listing block.old) (held_as.Listing block.new) result }
{
    match line {
        Line::Zone(zone) => list_zone(alloc, block, zone),
        Line::Border(border) => list_border(alloc, block, border),
        Line::Bid(bid) => list_bid(alloc, block, bid),
        Line::Demand(place, mw) => list_demand(alloc, block, place, mw),
        line => {
            drop(line);
            Err(FollowFault::OutOfOrder)
        }
    }
}

/// The first line of a block's tree.
pub fn open_tree(alloc: Global, kept: &mut Kept, count: u32) -> Result<Option<Part>, FollowFault>
    ensures { (block : ListingValue) → kept.old.held ≡ held_as.Listing block
        → Follows (after kept.old (held_as.Listing block) (Line.Tree count)) kept.old kept.new result }
{
    match mem::replace(&mut kept.held, Held::Done) {
        Held::Listing(listing) => {
            if listing.zones.as_slice().is_empty() {
                return refuse(kept, Held::Listing(listing));
            }
            let growing = Growing {
                listing,
                count,
                tree: empty(alloc),
                pending: Pending::Nothing,
            };
            go_on(kept, Held::Growing(growing), None)
        }
        held => refuse(kept, held),
    }
}
