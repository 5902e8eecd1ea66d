//! The bounds that an optimum's orders set on prices, read from the ladders of the orders.
//!
//! At the optimum's potentials every order without a gate is tight: one that sets a lower bound of its zone's price
//! costs at most the potential, and one that sets an upper bound costs at least that. So their tightest bounds stand on
//! the ladder next to the potential, and only the orders of gates are looked at one by one.

ghost use Rattle.std.specs.Prelude.{◌≡◌, ◌<◌, ◌≤◌, ◌<ℤ◌, ◌↔◌, ℕ, IfOk, IsTrue, length, slice_index_or};
ghost use Rattle.mari_market.specs.declared.activation.Activation.{Activation as TheActivation};
ghost use Rattle.mari_market.specs.Market.{IsValid};
ghost use Rattle.mari_market.specs.Optimal.{IsFeasible};
ghost use Rattle.mari_market.specs.Price.{ArePrices};
ghost use Rattle.mari_network.specs.declared.network.Rung.{Rung as TheRung};
ghost use Rattle.mari_network.specs.Network.{rung_at, IsRising};
ghost use Rattle.mari_network.specs.Solving.{FitsOrders, IsWritten};
ghost use Rattle.mari_node.specs.Plain.{ArePlainBounds, ArePlainKept, IsPlainBound, SetsPlainly};
ghost use Rattle.mari_paths.specs.Warm.{AreGated, AreOrderLadders, IsOrderLadder};
ghost use Rattle.mari_prices.specs.Ends.{IsBoundedBy};

use crate::gates::quantity;
use mari_market::Market;
use mari_network::{Rung, rungs_to};
use mari_paths::{Optimum, Places};
use mari_prices::{End, PriceBounds};
use mari_units::CAP;
use std::alloc::{AllocError, Global};

/// How many of a ladder's rungs cost less than this, counted down from `end`, from which on none does.
fn rungs_below(ladder: &[Rung], least: i64, end: usize) -> usize
    requires rising { IsRising ladder.now }
    requires end { end ≤ length ladder.now }
    ensures few { result ≤ length ladder.now }
    ensures below { (j : ℕ) (d : TheRung) → j < result → (slice_index_or ladder.now j d).price <ℤ least }
{
    let mut at = end;
    while at > 0 && ladder[at - 1].price >= least {
        at -= 1;
    }
    at
}

/// Whether the order at this place has no gate and sets a bound at this end.
fn sets_plainly(market: &Market, optimum: &Optimum, place: usize, end: End) -> bool
    requires valid { IsValid market.now }
    requires place { place < length market.now.orders }
    requires fits { FitsOrders market.now optimum.now }
    ensures { IsTrue result ↔ SetsPlainly end market.now optimum.now place }
{
    let order = &market.orders.as_slice()[place];
    order.gate.is_none() && end.is_set_by(order, quantity(optimum, place))
}

/// The tightest lower bound that orders without a gate set on a zone's price, of which none stands on the ladder from
/// `end` on.
fn plain_least(market: &Market, optimum: &Optimum, ladder: &[Rung], zone: usize, end: usize) -> i64
    requires valid { IsValid market.now }
    requires fits { FitsOrders market.now optimum.now }
    requires zone { zone < market.now.zones }
    requires ladder { IsOrderLadder market.now zone ladder.now }
    requires end { end ≤ length ladder.now }
    requires none { (j : ℕ) → end ≤ j → j < length ladder.now → SetsPlainly End.Least market.now optimum.now (rung_at ladder.now j).place → ⊥ }
    ensures { IsPlainBound End.Least market.now optimum.now zone result }
{
    let mut at = end;
    while at > 0 {
        at -= 1;
        let Rung { price, place } = ladder[at];
        if sets_plainly(market, optimum, place, End::Least) {
            return price;
        }
    }
    -CAP
}

/// The tightest upper bound that orders without a gate set on a zone's price, with its sign turned, of which none
/// stands on the ladder before `start`.
fn plain_greatest(
    market: &Market,
    optimum: &Optimum,
    ladder: &[Rung],
    zone: usize,
    start: usize,
) -> i64
    requires valid { IsValid market.now }
    requires fits { FitsOrders market.now optimum.now }
    requires zone { zone < market.now.zones }
    requires ladder { IsOrderLadder market.now zone ladder.now }
    requires none { (j : ℕ) → j < start → SetsPlainly End.Greatest market.now optimum.now (rung_at ladder.now j).place → ⊥ }
    ensures { IsPlainBound End.Greatest market.now optimum.now zone result }
{
    for at in start..ladder.len() {
        let Rung { price, place } = ladder[at];
        if sets_plainly(market, optimum, place, End::Greatest) {
            return -price;
        }
    }
    -CAP
}

/// The tightest bounds that orders without a gate set on a zone's price: the lower one, and the upper one with its sign
/// turned.
fn plain_ends(market: &Market, optimum: &Optimum, ladder: &[Rung], zone: usize) -> (i64, i64)
    requires valid { IsValid market.now }
    requires fits { FitsOrders market.now optimum.now }
    requires potentials { ArePrices market.now optimum.now.potentials.cents }
    requires kept { ArePlainKept market.now optimum.now }
    requires zone { zone < market.now.zones }
    requires ladder { IsOrderLadder market.now zone ladder.now }
    ensures least { IsPlainBound End.Least market.now optimum.now zone result.0 }
    ensures greatest { IsPlainBound End.Greatest market.now optimum.now zone result.1 }
{
    let potential = optimum.potentials.cents.as_slice()[zone].0;
    let end = rungs_to(ladder, potential);
    let start = rungs_below(ladder, potential, end);
    (
        plain_least(market, optimum, ladder, zone, end),
        plain_greatest(market, optimum, ladder, zone, start),
    )
}

/// Each zone's tightest bounds at both ends by the orders without a gate.
fn plain_bounds(
    alloc: Global,
    market: &Market,
    places: &Places,
    optimum: &Optimum,
) -> Result<PriceBounds, AllocError>
    requires valid { IsValid market.now }
    requires ladders { AreOrderLadders market.now places.now }
    requires fits { FitsOrders market.now optimum.now }
    requires potentials { ArePrices market.now optimum.now.potentials.cents }
    requires kept { ArePlainKept market.now optimum.now }
    ensures least { IfOk result (λ b. ArePlainBounds End.Least market.now optimum.now b.least.items) }
    ensures greatest { IfOk result (λ b. ArePlainBounds End.Greatest market.now optimum.now b.greatest.items) }
{
    let zones = market.zones as usize;
    let mut least = Vec::with_capacity(alloc, zones)?;
    let mut greatest = Vec::with_capacity(alloc, zones)?;
    for zone in 0..zones {
        let ladder = places.ladders[zone].as_slice();
        let (lower, upper) = plain_ends(market, optimum, ladder, zone);
        least.push(lower)?;
        greatest.push(upper)?;
    }
    Ok(PriceBounds { least, greatest })
}

/// Each zone's tightest bounds at both ends. `gated` has the places of the orders of gates.
pub(crate) fn bounds_from(
    alloc: Global,
    market: &Market,
    places: &Places,
    gated: &[usize],
    optimum: &Optimum,
) -> Result<PriceBounds, AllocError>
    // The market, with its orders by price and those of gates.
    requires valid { IsValid market.now }
    requires ladders { AreOrderLadders market.now places.now }
    requires gated { AreGated market.now gated.now }

    // The optimum, at whose potentials the orders without a gate are kept.
    requires fits { FitsOrders market.now optimum.now }
    requires potentials { ArePrices market.now optimum.now.potentials.cents }
    requires kept { ArePlainKept market.now optimum.now }

    // The bounds of the activation that it is written as.
    ensures { (a : TheActivation) → IsWritten market.now optimum.now a → IsFeasible market.now a
        → IfOk result (λ b. IsBoundedBy market.now optimum.now.flows.items b a) }
{
    let orders = market.orders.as_slice();
    let mut bounds = plain_bounds(alloc, market, places, optimum)?;
    for place in gated {
        bounds.raise(&orders[*place], quantity(optimum, *place));
    }
    Ok(bounds)
}
