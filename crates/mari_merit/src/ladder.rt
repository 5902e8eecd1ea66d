//! The ladder of a zone's side: which orders may run more than their least, the best price first.

ghost use Rattle.std.specs.Prelude.{◌≡◌, ◌<◌, IfOk, OnOk, length};
ghost use Rattle.std.specs.List.Sorted.{IsPermutation};
ghost use Rattle.mari_market.specs.Market.{IsValid};
ghost use Rattle.mari_merit.specs.Ladder.{AreBounds, AreInMeritOrder, IsLadder, belongs as belongs_to, step_of as step_at, steps_among};

use mari_market::{Bounds, Market, Side};
use mari_units::{Cents, Items, Memory};
use std::alloc::Global;
use std::cmp::Reverse;

/// A step of a ladder.
#[derive(Clone, Copy, Debug, Drop, PartialEq, Eq)]
pub struct Step {
    /// The number of the order, from 0.
    pub order: u32,
    /// Its price, in cents per MWh.
    pub price: Cents,
    /// How many MW it may run above its least quantity.
    pub room: u32,
}

/// The steps of a zone's side in merit order.
#[derive(Drop)]
pub struct Ladder {
    /// The steps, the best price first.
    pub steps: Items<Step>,
}

/// The step of an order.
fn step_of(market: &Market, bounds: &Bounds, number: usize) -> Step
    requires valid { IsValid market.now }
    requires bounds { AreBounds market.now bounds.now }
    requires there { number < length market.now.orders }
    ensures { result ≡ step_at market.now bounds.now number }
{
    Step {
        order: number as u32,
        price: market.orders.as_slice()[number].price,
        room: bounds.greatest.as_slice()[number] - bounds.least.as_slice()[number],
    }
}

/// Whether a step is one of this zone's side, and has room.
fn belongs(market: &Market, zone: u32, side: Side, step: &Step) -> bool
    requires there { step.now.order < length market.now.orders }
    ensures { result ≡ belongs_to market.now zone side step.now }
{
    let order = &market.orders.as_slice()[step.order as usize];
    order.zone == zone && order.side == side && step.room > 0
}

/// The steps of a zone's side, by the numbers of their orders.
#[tactic(auto, using(crate::proofs::MeritOrder::one_more, crate::proofs::MeritOrder::no_more))]
fn steps(
    alloc: Global,
    market: &Market,
    bounds: &Bounds,
    zone: u32,
    side: Side,
) -> Result<Vec<Step>, Memory>
    requires valid { IsValid market.now }
    requires bounds { AreBounds market.now bounds.now }
    ensures { IfOk result (λ steps. steps.items ≡ steps_among market.now bounds.now zone side (length market.now.orders)) }
{
    let mut steps = Vec::new(alloc);
    for number in 0..market.orders.as_slice().len() {
        let step = step_of(market, bounds, number);
        if belongs(market, zone, side, &step) {
            steps.push(step)?;
        }
    }
    Ok(steps)
}

/// Sorts injections by their price and number, the cheapest first.
fn sort_cheapest_first(steps: &mut Vec<Step>) -> Result<(), Memory>
    ensures same { IsPermutation steps.old.items steps.new.items }
    ensures in_order { OnOk result (AreInMeritOrder Side.Inject steps.new.items) }
{
    Ok(steps.sort_by_key(|step| (step.price.0, step.order))?)
}

/// Sorts withdrawals by their price and number, the dearest first.
fn sort_dearest_first(steps: &mut Vec<Step>) -> Result<(), Memory>
    ensures same { IsPermutation steps.old.items steps.new.items }
    ensures in_order { OnOk result (AreInMeritOrder Side.Withdraw steps.new.items) }
{
    Ok(steps.sort_by_key(|step| (Reverse(step.price.0), step.order))?)
}

/// The ladder of a zone's side within these bounds: its orders with room above their least, the cheapest injection or
/// the dearest withdrawal first, and of one price the lower number. It takes time n log n and memory linear in the
/// number n of orders.
pub fn ladder_of(
    alloc: Global,
    market: &Market,
    bounds: &Bounds,
    zone: u32,
    side: Side,
) -> Result<Ladder, Memory>
    requires valid { IsValid market.now }
    requires bounds { AreBounds market.now bounds.now }
    requires zone { zone < market.now.zones }
    ensures { IfOk result (λ ladder. IsLadder market.now bounds.now zone side ladder.steps) }
{
    let mut steps = steps(alloc, market, bounds, zone, side)?;
    match side {
        Side::Inject => sort_cheapest_first(&mut steps)?,
        Side::Withdraw => sort_dearest_first(&mut steps)?,
    }
    Ok(Ladder {
        steps: Items::of(steps),
    })
}
