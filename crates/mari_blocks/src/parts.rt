//! What the scheduled runs of several quarters bring into their joint market.
ghost use Rattle.std.specs.Prelude.{◌≡◌, ◌≤◌, ◌<◌, ◌*◌, ◌++◌, [], false, drop, length, map, IfOk, OnOk};
ghost use Rattle.std.specs.List.{All};
ghost use Rattle.mari_market.specs.Market.{IsBetween, IsValid};
ghost use Rattle.mari_market.specs.declared.market.Order.{Order as TheOrder};
ghost use Rattle.mari_remain.specs.Accepted.{IsAccepted};
ghost use Rattle.mari_remain.specs.FirstBlocks.{StandsFor};
ghost use Rattle.mari_remain.specs.RunMarket.{run_market_of};
ghost use Rattle.mari_blocks.specs.Parts.{HoldsJointParts};
ghost use Rattle.mari_blocks.specs.Joint.{lacks_run as lacks_run_in, quarters_of, shifted_border as shifted_border_of, shifted_order as shifted_order_of};

use crate::runs::run_of_quarter;
use mari_market::{Border, Order};
use mari_remain::{Books, Remaining, RunMarket};
use mari_units::{MOST_QUARTERS, MOST_ZONES, Memory};
use std::alloc::Global;

/// What the scheduled runs of quarters bring: the numbers of their available bids, their borders, and the orders of
/// their demands, each by quarter.
#[derive(Drop)]
pub(crate) struct JointParts {
    /// The numbers of the available bids, from 0.
    pub offered: Vec<u32>,
    /// The borders.
    pub borders: Vec<Border>,
    /// The orders of the demands.
    pub demands: Vec<Order>,
}

/// An order whose zone is moved on by `zones` places.
pub(crate) fn shifted_order(zones: u32, order: Order) -> Order
    requires zones { zones ≤ MOST_QUARTERS * MOST_ZONES }
    requires zone { order.zone < MOST_ZONES }
    ensures { result ≡ shifted_order_of zones order }
{
    Order {
        zone: zones + order.zone,
        ..order
    }
}

/// A border whose zones are moved on by `zones` places.
fn shifted_border(zones: u32, border: Border) -> Border
    requires zones { zones ≤ MOST_QUARTERS * MOST_ZONES }
    requires from { border.from < MOST_ZONES }
    requires to { border.to < MOST_ZONES }
    ensures { result ≡ shifted_border_of zones border }
{
    Border {
        from: zones + border.from,
        to: zones + border.to,
        ..border
    }
}

/// Appends borders, their zones moved on by `zones` places.
fn put_borders(into: &mut Vec<Border>, borders: &[Border], zones: u32) -> Result<(), Memory>
    requires zones { zones ≤ MOST_QUARTERS * MOST_ZONES }
    requires between { All (IsBetween MOST_ZONES) borders.now }
    ensures { OnOk result (into.new.items ≡ into.old.items ++ map (shifted_border_of zones) borders.now) }
{
    for border in borders {
        into.push(shifted_border(zones, *border))?;
    }
    Ok(())
}

/// Appends orders, their zones moved on by `zones` places.
fn put_orders(into: &mut Vec<Order>, orders: &[Order], zones: u32) -> Result<(), Memory>
    requires zones { zones ≤ MOST_QUARTERS * MOST_ZONES }
    requires there { All (λ (o : TheOrder). o.zone < MOST_ZONES) orders.now }
    ensures { OnOk result (into.new.items ≡ into.old.items ++ map (shifted_order_of zones) orders.now) }
{
    for order in orders {
        into.push(shifted_order(zones, *order))?;
    }
    Ok(())
}

impl JointParts {
    /// Nothing.
    fn new(alloc: Global) -> JointParts
        ensures offered { result.offered.items ≡ [] }
        ensures borders { result.borders.items ≡ [] }
        ensures demands { result.demands.items ≡ [] }
    {
        JointParts {
            offered: Vec::new(alloc),
            borders: Vec::new(alloc),
            demands: Vec::new(alloc),
        }
    }

    /// Adds what the market of a run brings, its zones moved on by `zones` places.
    fn add(&mut self, made: &RunMarket, zones: u32) -> Result<(), Memory>
        requires valid { IsValid made.now.market }
        requires bids { length made.now.bids ≤ length made.now.market.orders }
        requires zones { zones ≤ MOST_QUARTERS * MOST_ZONES }
        ensures offered { OnOk result (self.new.offered.items ≡ self.old.offered.items ++ made.now.bids) }
        ensures borders { OnOk result (self.new.borders.items ≡ self.old.borders.items ++ map (shifted_border_of zones) made.now.market.borders) }
        ensures demands { OnOk result (self.new.demands.items ≡ self.old.demands.items
            ++ map (shifted_order_of zones) (drop (length made.now.bids) made.now.market.orders)) }
    {
        let bids = made.bids.as_slice();
        self.offered.extend_from_slice(bids)?;
        put_borders(&mut self.borders, made.market.borders.as_slice(), zones)?;
        let demands = &made.market.orders.as_slice()[bids.len()..];
        put_orders(&mut self.demands, demands, zones)
    }

    /// Adds what the market of a run brings over no blocks, its zones moved on by `zones` places. Nothing is taken so
    /// far.
    fn add_run(
        &mut self,
        alloc: Global,
        books: &Books,
        remaining: &Remaining,
        run: u32,
        zones: u32,
    ) -> Result<(), Memory>
        requires accepted { IsAccepted books.now }
        requires first { 1 ≤ run }
        requires last { run ≤ length books.now.runs.runs }
        requires nothing { StandsFor books.now [] remaining.now }
        requires zones { zones ≤ MOST_QUARTERS * MOST_ZONES }
        ensures offered { OnOk result (self.new.offered.items ≡ self.old.offered.items ++ (run_market_of books.now [] run).bids) }
        ensures borders { OnOk result (self.new.borders.items ≡ self.old.borders.items
            ++ map (shifted_border_of zones) (run_market_of books.now [] run).market.borders) }
        ensures demands { OnOk result (self.new.demands.items ≡ self.old.demands.items
            ++ map (shifted_order_of zones) (drop (length (run_market_of books.now [] run).bids) (run_market_of books.now [] run).market.orders)) }
    {
        let made = remaining.market_alone(alloc, books, run)?;
        let added = self.add(&made, zones);
        drop(made);
        added
    }
}

/// What the scheduled runs of the quarters bring, each of which has one.
pub(crate) fn parts_of(
    alloc: Global,
    books: &Books,
    first: u32,
    last: u32,
) -> Result<JointParts, Memory>
    requires accepted { IsAccepted books.now }
    requires in_order { first ≤ last }
    requires last { last ≤ MOST_QUARTERS }
    requires runs { lacks_run_in books.now first last ≡ false }
    ensures { IfOk result (HoldsJointParts books.now first (quarters_of first last)) }
{
    let remaining = Remaining::start(alloc, books)?;
    let zones = books.zones.zones.len();
    let mut parts = JointParts::new(alloc);
    for quarter in first..last + 1 {
        let run = run_of_quarter(books, quarter);
        match parts.add_run(alloc, books, &remaining, run, (quarter - first) * zones) {
            Ok(()) => {}
            Err(Memory) => {
                drop(remaining);
                drop(parts);
                return Err(Memory);
            }
        }
    }
    drop(remaining);
    Ok(parts)
}
