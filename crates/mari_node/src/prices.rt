//! Whether some prices are consistent with an optimum whose activation is feasible.
//!
//! The optimum's own potentials mostly are: they are tight, so only an order of a gate that is open could lose at them.
//! Where one does, `mari_prices` decides by the bounds that orders set.

ghost use Rattle.std.specs.Prelude.{◌↔◌, ◌<◌, Bool, IfOk, IfSome, IsTrue, List, MatchOption, length};
ghost use Rattle.std.specs.List.{All};
ghost use Rattle.mari_market.specs.declared.activation.Activation.{Activation as TheActivation};
ghost use Rattle.mari_market.specs.Conflict.{IsContradictoryChain};
ghost use Rattle.mari_market.specs.Market.{IsValid};
ghost use Rattle.mari_market.specs.Optimal.{IsAdmissible, IsFeasible};
ghost use Rattle.mari_market.specs.Price.{ArePrices};
ghost use Rattle.mari_market.specs.Sums.{int_at};
ghost use Rattle.mari_network.specs.Solving.{FitsOrders, IsWritten};
ghost use Rattle.mari_node.specs.Nodes.{IsRelaxedOptimum};
ghost use Rattle.mari_node.specs.Paid.{IsPaid, IsPaidAt};
ghost use Rattle.mari_paths.specs.Warm.{AreGated, AreOrderLadders};

use crate::bounds::bounds_from;
use mari_market::{Market, Order};
use mari_paths::{Optimum, Places};
use mari_prices::{contradiction, contradiction_between};
use mari_units::{Cents, Items};
use std::alloc::{AllocError, Global};

/// Whether an order that puts in this amount doesn't lose at this price: it isn't paid less for what it gives, and
/// doesn't pay more for what it takes.
fn is_paid(order: &Order, amount: i64, price: Cents) -> bool
    ensures { IsTrue result ↔ IsPaid order.now.price.0 price.0 amount }
{
    if amount > 0 {
        order.price.0 <= price.0
    } else {
        amount == 0 || price.0 <= order.price.0
    }
}

/// Whether no order of a gate loses at an optimum's potentials. `gated` has the places of the orders of gates.
fn none_loses(market: &Market, gated: &[usize], optimum: &Optimum) -> bool
    requires valid { IsValid market.now }
    requires gated { AreGated market.now gated.now }
    requires fits { FitsOrders market.now optimum.now }
    requires potentials { ArePrices market.now optimum.now.potentials.cents }
    ensures { IsTrue result ↔ All (IsPaidAt market.now optimum.now) gated.now }
{
    let orders = market.orders.as_slice();
    let amounts = optimum.amounts.as_slice();
    let potentials = optimum.potentials.cents.as_slice();
    for place in gated {
        let order = &orders[*place];
        if !is_paid(order, amounts[*place], potentials[order.zone as usize]) {
            return false;
        }
    }
    true
}

/// The chain of zones that shows that no prices are consistent with the activation that an optimum is written as, where
/// none are.
///
/// `gated` has the places of the orders of gates, and `places` those of all orders by zone and price, where they are at
/// hand. With them no activation is written.
pub(crate) fn contradiction_of(
    alloc: Global,
    market: &Market,
    gated: &[usize],
    places: Option<&Places>,
    optimum: &Optimum,
) -> Result<Option<Items<u32>>, AllocError>
    // The market, and the places of its orders.
    requires valid { IsValid market.now }
    requires gated { AreGated market.now gated.now }
    requires ladders { IfSome places (λ p. AreOrderLadders market.now p.now) }

    // The relaxed optimum of some word, which keeps the gates.
    requires optimum { (word : List Bool) × IsRelaxedOptimum market.now word optimum.now }
    requires feasible { (a : TheActivation) → IsWritten market.now optimum.now a → IsFeasible market.now a }

    // Whether its activation is admissible.
    ensures { (a : TheActivation) → IsWritten market.now optimum.now a
        → IfOk result (λ chain. MatchOption chain (IsAdmissible market.now a) (IsContradictoryChain market.now a)) }
{
    if none_loses(market, gated, optimum) {
        return Ok(None);
    }
    match places {
        Some(places) => {
            let bounds = bounds_from(alloc, market, places, gated, optimum)?;
            contradiction_between(alloc, market, &optimum.flows, &bounds)
        }
        None => {
            let activation = optimum.activation(alloc, market)?;
            contradiction(alloc, market, &activation)
        }
    }
}
