//! The joint market of several quarters.
ghost use Rattle.std.specs.Prelude.{◌≡◌, ◌≤◌, ◌||◌, false, length, map, nat_lt, IfOk};
ghost use Rattle.std.specs.List.{All};
ghost use Rattle.mari_market.specs.Market.{IsValid};
ghost use Rattle.mari_remain.specs.Accepted.{IsAccepted};
ghost use Rattle.mari_blocks.specs.Blocks.{IsBlockBook};
ghost use Rattle.mari_blocks.specs.Joint.{AreWhole, GivesJoint, is_too_large, joint_in, joint_of, joint_order as joint_order_of, lacks_run as lacks_run_in};
ghost use Rattle.mari_blocks.specs.Parts.{GivesContent, HoldsContent, IsInQuarters};

use crate::blocks::BlockBook;
use crate::checks::{JointCheck, JointFault};
use crate::choice::kept_bids;
use crate::gates::{JointGate, gate_infos, gates_among, own_gate};
use crate::parts::{JointParts, parts_of, shifted_order};
use crate::runs::{lacks_run, links_across, reference_of};
use mari_market::{Market, Order};
use mari_remain::{Books, bid_of, bid_order};
use mari_units::{
    Items, MOST_BIDS, MOST_BORDERS, MOST_DEMANDS, MOST_GATES, MOST_QUARTERS, MOST_ZONES, Memory,
};
use std::alloc::Global;

/// The market of several quarters, and what its orders are made of.
#[derive(Drop)]
pub struct Joint {
    /// The market.
    pub market: Market,
    /// The numbers of the bids that are its first orders, from 0.
    pub bids: Items<u32>,
    /// How many demands follow as orders.
    pub demands: u32,
}

/// What a joint market is made of, which is not too large.
#[derive(Drop)]
struct Content {
    parts: JointParts,
    numbers: Vec<u32>,
    gates: Vec<JointGate>,
}

/// The order of a bid among these gates, in the zone of its quarter.
fn joint_order(
    books: &Books,
    blocks: &BlockBook,
    first: u32,
    gates: &[JointGate],
    number: u32,
) -> Order
    requires accepted { IsAccepted books.now }
    requires gates { length gates.now ≤ MOST_GATES }
    requires bid { IsInQuarters books.now first number }
    ensures { result ≡ joint_order_of books.now blocks.now first gates.now number }
{
    let bid = bid_of(books.bids.bids.as_slice(), number);
    let gate = match own_gate(books, blocks, number) {
        Some(gate) => gate.place_in(gates),
        None => None,
    };
    let zones = (bid.quarter - first) * books.zones.zones.len();
    shifted_order(zones, bid_order(bid, gate, 0))
}

/// The orders of these bids.
fn joint_orders(
    alloc: Global,
    books: &Books,
    blocks: &BlockBook,
    first: u32,
    gates: &[JointGate],
    numbers: &[u32],
) -> Result<Vec<Order>, Memory>
    requires accepted { IsAccepted books.now }
    requires gates { length gates.now ≤ MOST_GATES }
    requires bids { All (IsInQuarters books.now first) numbers.now }
    ensures { IfOk result (λ orders. orders.items ≡ map (joint_order_of books.now blocks.now first gates.now) numbers.now) }
{
    let mut orders = Vec::new(alloc);
    for number in numbers {
        orders.push(joint_order(books, blocks, first, gates, *number))?;
    }
    Ok(orders)
}

/// Whether there are more borders, bids or demands than a run's market may have.
fn has_too_many(parts: &JointParts, numbers: &[u32]) -> bool
    ensures { result ≡ (nat_lt MOST_BORDERS (length parts.now.borders.items) || nat_lt MOST_BIDS (length numbers.now)
        || nat_lt MOST_DEMANDS (length parts.now.demands.items)) }
{
    parts.borders.len() > MOST_BORDERS
        || numbers.len() > MOST_BIDS
        || parts.demands.len() > MOST_DEMANDS
}

/// What the joint market of quarters that each have a scheduled run is made of, or its refusal where it is too large.
fn content_of(
    alloc: Global,
    books: &Books,
    blocks: &BlockBook,
    first: u32,
    last: u32,
) -> Result<Content, JointFault>
    requires accepted { IsAccepted books.now }
    requires book { IsBlockBook books.now.bids books.now.links first last blocks.now }
    requires in_order { first ≤ last }
    requires last { last ≤ MOST_QUARTERS }
    requires runs { lacks_run_in books.now first last ≡ false }
    ensures { GivesContent books.now blocks.now first last result }
{
    let zones = (last + 1 - first) * books.zones.zones.len();
    if zones as usize > MOST_ZONES {
        return Err(JointCheck::TooLarge.fault());
    }
    let parts = parts_of(alloc, books, first, last)?;
    let numbers = kept_bids(alloc, blocks, &parts.offered)?;
    if has_too_many(&parts, &numbers) {
        return Err(JointCheck::TooLarge.fault());
    }
    let gates = gates_among(alloc, books, blocks, &numbers)?;
    if gates.len() > MOST_GATES {
        return Err(JointCheck::TooLarge.fault());
    }
    Ok(Content {
        parts,
        numbers,
        gates,
    })
}

/// The joint market that is made of this.
fn assemble(
    alloc: Global,
    books: &Books,
    blocks: &BlockBook,
    first: u32,
    last: u32,
    content: Content,
) -> Result<Joint, Memory>
    requires accepted { IsAccepted books.now }
    requires book { IsBlockBook books.now.bids books.now.links first last blocks.now }
    requires in_order { first ≤ last }
    requires last { last ≤ MOST_QUARTERS }
    requires runs { lacks_run_in books.now first last ≡ false }
    requires content { HoldsContent books.now blocks.now first last content }
    requires small { is_too_large books.now blocks.now first last ≡ false }
    ensures { IfOk result (λ joint. joint ≡ joint_of books.now blocks.now first last) }
{
    let Content {
        parts,
        numbers,
        gates,
    } = content;
    let mut orders = joint_orders(alloc, books, blocks, first, &gates, &numbers)?;
    orders.extend_from_slice(&parts.demands)?;
    let infos = gate_infos(alloc, books.links.links.as_slice(), &gates)?;
    let demands = parts.demands.len() as u32;
    Ok(Joint {
        market: Market {
            zones: (last + 1 - first) * books.zones.zones.len(),
            borders: Items::of(parts.borders),
            orders: Items::of(orders),
            gates: Items::of(infos),
            reference: reference_of(books, first),
        },
        bids: Items::of(numbers),
        demands,
    })
}

/// The scheduled runs of the quarters from the first to the last as one market, in which the bids of a block share a
/// gate; or why they can't be one. Quarters count from 1, and the books are those of one folder.
///
/// Its zones are those of the first quarter, then those of the second, and so on, and its borders likewise, with the
/// limits that a run has over no blocks. Its bids are those available over no blocks, by quarter and then in the order
/// of their file, but for those of a block of which one isn't; the demands follow by quarter. Its reference price is
/// that of the first quarter. It takes time of bids times gates.
pub fn joint_market(
    alloc: Global,
    books: &Books,
    blocks: &BlockBook,
    first: u32,
    last: u32,
) -> Result<Joint, JointFault>
    requires accepted { IsAccepted books.now }
    requires book { IsBlockBook books.now.bids books.now.links first last blocks.now }
    requires in_order { first ≤ last }
    requires last { last ≤ MOST_QUARTERS }
    ensures joint { GivesJoint result (joint_in books.now blocks.now first last) }
    ensures valid { IfOk result (λ joint. IsValid joint.market) }
    ensures whole { IfOk result (λ joint. AreWhole blocks.now joint.bids) }
{
    if lacks_run(books, first, last) {
        return Err(JointCheck::NoScheduled.fault());
    }
    if links_across(books, first, last) {
        return Err(JointCheck::AcrossQuarters.fault());
    }
    let content = content_of(alloc, books, blocks, first, last)?;
    let joint = assemble(alloc, books, blocks, first, last, content)?;
    Ok(joint)
}
