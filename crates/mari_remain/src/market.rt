//! The market of a run after earlier blocks.

ghost use Rattle.std.specs.Prelude.{◌≡◌, ◌≤◌, ◌<◌, ◌+◌, ◌==◌, ◌∷◌, ◌++◌, List, [], IfOk, IfSome, position, unsigned_abs, length, map};
ghost use Rattle.std.specs.List.{All, range_with_len};
ghost use Rattle.mari_bids.specs.Bids.{bid_numbered};
ghost use Rattle.mari_market.specs.Market.{IsValid};
ghost use Rattle.mari_market.specs.Optimal.{IsFeasible};
ghost use Rattle.mari_market.specs.Sides.{side_of as side_of_direction};
ghost use Rattle.mari_remain.specs.Accepted.{IsAccepted};
ghost use Rattle.mari_remain.specs.Blocks.{PastBlock};
ghost use Rattle.mari_remain.specs.FirstBlocks.{StandsFor, block_of, taken_in};
ghost use Rattle.mari_remain.specs.Lists.{bids_of_quarter, demand_at, numbers_of_run, run_numbered};
ghost use Rattle.mari_remain.specs.RunMarket.{bid_order as bid_order_of, demand_order as demand_order_of, demands_of_run as demands_in, gate_at, gate_of as gate_in, gates_of as gates_in, inelastic_price as inelastic_price_of, orders_of as orders_in, run_market_left, run_market_of};

use crate::adding::{add_mw, keep_and_add, mark_if};
use crate::books::Books;
use crate::borders::borders_of;
use crate::choice::{choose, group_of, parent_of};
use crate::remaining::Remaining;
use mari_bids::Bid;
use mari_demands::{Demand, Run};
use mari_links::BidLinks;
use mari_market::{Activation, GateInfo, Market, Order, Side};
use mari_units::{CAP, Cents, Items, MOST_GATES, MOST_MW, Memory};
use std::alloc::Global;

/// The market of a run, and what its orders are made of.
#[derive(Drop)]
pub struct RunMarket {
    /// The market.
    pub market: Market,
    /// The numbers of the bids that are its first orders, from 0.
    pub bids: Items<u32>,
    /// How many demands follow as orders.
    pub demands: u32,
}

const NO_BID: Bid = Bid {
    provider: 0,
    zone: 0,
    quarter: 0,
    up: false,
    price: Cents(0),
    least: 0,
    greatest: 0,
    both: false,
};

const NO_DEMAND: Demand = Demand {
    run: 0,
    zone: 0,
    mw: 0,
    price: None,
};

const NO_RUN: Run = Run {
    quarter: 0,
    direct: false,
    reference: Cents(0),
};

/// The gate of a bid: its place among the gated ones, if it is one of them.
fn gate_of(gated: &[u32], number: u32) -> Option<u32>
    requires { length gated.now ≤ MOST_GATES }
    ensures { result ≡ gate_in gated.now number }
{
    match place_among(gated, number) {
        Some(place) => Some(place as u32),
        None => None,
    }
}

/// The place of a number in a list.
fn place_among(numbers: &[u32], number: u32) -> Option<usize>
    ensures place { result ≡ position (λ j. j == number) numbers.now }
    ensures within { IfSome result (λ place. place < length numbers.now) }
{
    numbers.iter().position(|other| *other == number)
}

/// The side of what is upward, which gives energy, or downward, which takes it.
fn side_of(up: bool) -> Side
    ensures { result ≡ side_of_direction up }
{
    if up { Side::Inject } else { Side::Withdraw }
}

/// The order of a bid of which `taken` MW were taken: upward it gives energy and downward it takes it. One with a gate
/// runs at least 1 MW where it runs, and is offered whole.
pub fn bid_order(bid: Bid, gate: Option<u32>, taken: u32) -> Order
    ensures { result ≡ bid_order_of bid gate taken }
{
    Order {
        zone: bid.zone,
        side: side_of(bid.up),
        price: bid.price,
        least: match gate {
            None => 0,
            Some(_) if bid.least == 0 => 1,
            Some(_) => bid.least,
        },
        greatest: match gate {
            None => bid.greatest.saturating_sub(taken),
            Some(_) => bid.greatest,
        },
        gate,
    }
}

/// The price of a demand that states none: it is met at any price within the cap.
fn inelastic_price(mw: i64) -> Cents
    ensures { result ≡ inelastic_price_of mw }
{
    if mw < 0 { Cents(-CAP) } else { Cents(CAP) }
}

/// The order of a demand: below 0 it gives energy, else it takes it.
fn demand_order(demand: &Demand) -> Order
    requires { unsigned_abs demand.now.mw ≤ MOST_MW }
    ensures { result ≡ demand_order_of demand.now }
{
    Order {
        zone: demand.zone,
        side: side_of(demand.mw < 0),
        price: demand.price.unwrap_or(inelastic_price(demand.mw)),
        least: 0,
        greatest: demand.mw.unsigned_abs() as u32,
        gate: None,
    }
}

/// The bid of a number.
pub fn bid_of(bids: &[Bid], number: u32) -> Bid
    ensures { result ≡ bid_numbered bids.now number }
{
    bids.get(number as usize).copied().unwrap_or(NO_BID)
}

/// The demand of a number.
fn demand_numbered(demands: &[Demand], number: u32) -> Demand
    ensures { result ≡ demand_at demands.now number }
{
    demands.get(number as usize).copied().unwrap_or(NO_DEMAND)
}

/// The demands of these numbers.
fn demands_at(alloc: Global, demands: &[Demand], numbers: &[u32]) -> Result<Vec<Demand>, Memory>
    ensures { IfOk result (λ own. own.items ≡ map (demand_at demands.now) numbers.now) }
{
    let mut own = Vec::with_capacity(alloc, numbers.len())?;
    for number in numbers {
        own.push(demand_numbered(demands, *number))?;
    }
    Ok(own)
}

/// The demands of a run.
fn run_demands(
    alloc: Global,
    books: &Books,
    remaining: &Remaining,
    run: u32,
) -> Result<Vec<Demand>, Memory>
    requires last { run ≤ length books.now.runs.runs }
    requires index { remaining.now.of_run ≡ map (numbers_of_run books.now.demands.demands) (range_with_len 0 (length books.now.runs.runs + 1)) }
    ensures { IfOk result (λ own. own.items ≡ demands_in books.now.demands.demands run) }
{
    let numbers = remaining.demands_of(run);
    demands_at(alloc, books.demands.demands.as_slice(), numbers)
}

/// What is known of the gates of the gated bids.
fn gates_of(alloc: Global, links: &[BidLinks], gated: &[u32]) -> Result<Vec<GateInfo>, Memory>
    requires { length gated.now ≤ MOST_GATES }
    ensures { IfOk result (λ gates. gates.items ≡ gates_in links.now gated.now) }
{
    let mut gates = Vec::with_capacity(alloc, gated.len())?;
    for number in gated {
        gates.push(gate_info(links, gated, *number))?;
    }
    Ok(gates)
}

/// What is known of the gate of one bid.
fn gate_info(links: &[BidLinks], gated: &[u32], number: u32) -> GateInfo
    requires { length gated.now ≤ MOST_GATES }
    ensures { result ≡ gate_at links.now gated.now number }
{
    GateInfo {
        group: group_of(links, number),
        parent: match parent_of(links, number) {
            None => None,
            Some(parent) => gate_of(gated, parent),
        },
    }
}

/// The orders of a run's bids, and then those of its demands.
fn with_demands(mut orders: Vec<Order>, demands: &[Demand]) -> Result<Vec<Order>, Memory>
    requires { All (λ d. unsigned_abs d.mw ≤ MOST_MW) demands.now }
    ensures { IfOk result (λ all. all.items ≡ orders.items ++ map demand_order_of demands.now) }
{
    for demand in demands {
        orders.push(demand_order(demand))?;
    }
    Ok(orders)
}

/// What the book of runs says of a run, counted from 1.
pub fn run_entry(books: &Books, run: u32) -> Run
    requires { 1 ≤ run }
    ensures { result ≡ run_numbered books.now run }
{
    let entry = books.runs.runs.as_slice().get(run as usize - 1);
    entry.copied().unwrap_or(NO_RUN)
}

/// The market of a run, from its entry.
fn run_market(
    alloc: Global,
    books: &Books,
    remaining: &Remaining,
    run: u32,
) -> Result<RunMarket, Memory>
    // A run of the folder's books.
    requires accepted { IsAccepted books.now }
    requires first { 1 ≤ run }
    requires last { run ≤ length books.now.runs.runs }

    // What the blocks before it left, and the index of what may run.
    requires small { All (λ flow. unsigned_abs flow ≤ MOST_MW) remaining.now.flow }
    requires mws { length remaining.now.mw ≡ length books.now.bids.bids }
    requires index { remaining.now.of_quarter ≡ map (bids_of_quarter books.now.bids.bids) (range_with_len 0 (books.now.quarters + 1)) }
    requires demands { remaining.now.of_run ≡ map (numbers_of_run books.now.demands.demands) (range_with_len 0 (length books.now.runs.runs + 1)) }

    // The market after these blocks.
    ensures { IfOk result (λ made. made ≡ run_market_left books.now (taken_in books.now remaining.now (run_numbered books.now run).quarter) run) }
{
    let entry = run_entry(books, run);
    let demands = run_demands(alloc, books, remaining, run)?;
    let choice = choose(alloc, books, remaining, entry, demands.len())?;
    let gates = gates_of(alloc, books.links.links.as_slice(), &choice.gated)?;
    let orders = with_demands(choice.orders, &demands)?;
    let borders = borders_of(alloc, books, remaining, run, entry.quarter)?;
    Ok(RunMarket {
        market: Market {
            zones: books.zones.zones.len(),
            borders: Items::of(borders),
            orders: Items::of(orders),
            gates: Items::of(gates),
            reference: entry.reference,
        },
        bids: Items::of(choice.numbers),
        demands: demands.len() as u32,
    })
}

impl Remaining {
    /// The market of a run, counted from 1, after the blocks of all runs before it: its available bids in the order
    /// of their file, then its demands, over the borders with what is left of their limits.
    pub fn market_of(&self, alloc: Global, books: &Books, run: u32) -> Result<RunMarket, Memory>
        requires accepted { IsAccepted books.now }
        requires last { run ≤ length books.now.runs.runs }
        requires stands { (blocks : List PastBlock) × StandsFor books.now blocks self.now × (run ≡ length blocks + 1) }

        // Exactly the market after the blocks, whatever list of them this stands for.
        ensures market { (blocks : List PastBlock) → StandsFor books.now blocks self.now → run ≡ length blocks + 1
            → IfOk result (λ made. made ≡ run_market_of books.now blocks run) }
        ensures valid { IfOk result (λ made. IsValid made.market) }
    {
        run_market(alloc, books, self, run)
    }

    /// The market of a run, counted from 1, over no blocks, as if no run came before it. Nothing is taken so far.
    pub fn market_alone(&self, alloc: Global, books: &Books, run: u32) -> Result<RunMarket, Memory>
        requires accepted { IsAccepted books.now }
        requires first { 1 ≤ run }
        requires last { run ≤ length books.now.runs.runs }
        requires nothing { StandsFor books.now [] self.now }
        ensures market { IfOk result (λ made. made ≡ run_market_of books.now [] run) }
        ensures valid { IfOk result (λ made. IsValid made.market) }
    {
        run_market(alloc, books, self, run)
    }

    /// Adds the published block of a run: the market that was made of it here, and an activation that is feasible in
    /// it.
    pub fn after(&mut self, books: &Books, run: u32, made: &RunMarket, activation: &Activation)
        requires accepted { IsAccepted books.now }
        requires last { run ≤ length books.now.runs.runs }
        requires stands { (blocks : List PastBlock) × StandsFor books.now blocks self.old × (run ≡ length blocks + 1)
            × (made.now ≡ run_market_of books.now blocks run) }
        requires feasible { IsFeasible made.now.market activation.now }

        // Whatever list of blocks this stood for, it then stands for that list followed by this block.
        ensures { (blocks : List PastBlock) → StandsFor books.now blocks self.old → run ≡ length blocks + 1 → made.now ≡ run_market_of books.now blocks run
            → StandsFor books.now (blocks ++ block_of books.now run made.now.bids activation.now ∷ []) self.new }
    {
        let entry = run_entry(books, run);
        let bids = made.bids.as_slice();
        let mw = activation.mw.as_slice();
        add_mw(&mut self.mw, bids, mw);
        mark_if(entry.direct, &mut self.direct, bids, mw);
        let same = self.is_of(entry.quarter);
        keep_and_add(same, &mut self.flow, activation.flow.as_slice());
        self.quarter = Some(entry.quarter);
    }
}
