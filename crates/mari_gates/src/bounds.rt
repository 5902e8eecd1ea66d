//! How much each order may run at a prefix.

ghost use Rattle.std.specs.Prelude.{◌≡◌, ◌<◌, ◌≤◌, length, map, slice_get, IfSome, IfOk};
ghost use Rattle.std.specs.List.{AllZip};
ghost use Rattle.mari_market.specs.Market.{IsValid};
ghost use Rattle.mari_market.specs.Prefix.{bounds_at, IsFeasiblePrefix};

use crate::states::states_at;
use mari_market::{Bounds, Market, Prefix};
use mari_units::{Items, MOST_MW, Memory};
use std::alloc::Global;

/// The least and the greatest that an order may run at the prefix, in MW.
pub fn bound_of(market: &Market, prefix: &Prefix, order: u32) -> (u32, u32)
    requires market { IsValid market.now }
    requires prefix { IsFeasiblePrefix market.now prefix.now }
    requires order { order < length market.now.orders }
    ensures least { IfSome (slice_get market.now.orders order) (λ o. result.0 ≡ (bounds_at market.now prefix.now o).lo) }
    ensures greatest { IfSome (slice_get market.now.orders order) (λ o. result.1 ≡ (bounds_at market.now prefix.now o).hi) }
{
    let orders = market.orders.as_slice();
    states_at(market, prefix).span(&orders[order as usize])
}

/// The least and the greatest that each order may run at the prefix, in MW.
pub fn bounds_of(alloc: Global, market: &Market, prefix: &Prefix) -> Result<Bounds, Memory>
    requires market { IsValid market.now }
    requires prefix { IsFeasiblePrefix market.now prefix.now }
    ensures least { IfOk result (λ b. b.least ≡ map (λ o. (bounds_at market.now prefix.now o).lo) market.now.orders) }
    ensures greatest { IfOk result (λ b. b.greatest ≡ map (λ o. (bounds_at market.now prefix.now o).hi) market.now.orders) }
    ensures in_order { IfOk result (λ b. AllZip (λ lo hi. (lo ≤ hi) × (hi ≤ MOST_MW)) b.least b.greatest) }
{
    let states = states_at(market, prefix);
    let orders = market.orders.as_slice();
    let mut least = Vec::with_capacity(alloc, orders.len())?;
    let mut greatest = Vec::with_capacity(alloc, orders.len())?;
    for order in orders {
        let (lo, hi) = states.span(order);
        least.push(lo)?;
        greatest.push(hi)?;
    }
    Ok(Bounds {
        least: Items::of(least),
        greatest: Items::of(greatest),
    })
}
