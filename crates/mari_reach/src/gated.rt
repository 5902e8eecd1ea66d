//! The orders of gates, which alone narrow prices and close gates, and the others.

ghost use Rattle.std.specs.Prelude.{◌≡◌, ◌∷◌, ◌++◌, [], IfOk, OnOk};
ghost use Rattle.std.specs.List.{filter};
ghost use Rattle.mari_market.specs.Market.{IsValid};
ghost use Rattle.mari_reach.specs.Tables.{SpeaksFor, has_gate};

use mari_market::{Market, Order};
use mari_units::Memory;
use std::alloc::Global;

/// Adds an order, if it is of a gate.
fn add_gated(gated: &mut Vec<Order>, order: &Order) -> Result<(), Memory>
    ensures { OnOk result (gated.new.items ≡ gated.old.items ++ filter has_gate (order.now ∷ [])) }
{
    if order.gate.is_some() {
        gated.push(*order)?;
    }
    Ok(())
}

/// These orders without those of no gate.
fn gated_among(alloc: Global, orders: &[Order]) -> Result<Vec<Order>, Memory>
    ensures { IfOk result (λ v. v.items ≡ filter has_gate orders.now) }
{
    let mut gated = Vec::new(alloc);
    for order in orders {
        add_gated(&mut gated, order)?;
    }
    Ok(gated)
}

/// The orders of gates.
pub(crate) fn gated_orders(alloc: Global, market: &Market) -> Result<Vec<Order>, Memory>
    requires { IsValid market.now }
    ensures speak { IfOk result (λ v. SpeaksFor market.now v.items) }
    ensures items { IfOk result (λ v. v.items ≡ filter has_gate market.now.orders) }
{
    gated_among(alloc, market.orders.as_slice())
}
