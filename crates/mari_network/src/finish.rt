//! From amounts back to quantities, and from prices to potentials and cuts.

ghost use Rattle.std.specs.Prelude.{◌≡◌, ◌≢◌, ℕ, pos, ◌<◌, ◌≤◌, ◌≤ℤ◌, ◌*◌, length, unsigned_abs, IfOk, MatchOption, map, take};
ghost use Rattle.std.specs.Int.{int_max};
ghost use Rattle.std.specs.List.{All, AllZip};
ghost use Rattle.mari_market.specs.Sums.{int_at};
ghost use Rattle.mari_market.specs.Price.{IsPrice};
ghost use Rattle.mari_market.specs.Cut.{is_in, IsRising};
ghost use Rattle.mari_network.specs.Orders.{capped_cents, is_inside, CanPut, ArePuts};

use crate::slots::BEYOND;
use mari_market::{CutSide, MOST_ORDERS, MOST_WORTH, Order};
use mari_units::{CAP, Cents, MOST_MW, MOST_ZONES};
use std::alloc::{AllocError, Global};

/// The first amount from a place on that is not 0.
pub fn first_short(amounts: &[i64], from: usize) -> Option<usize>
    ensures { MatchOption result ((k : ℕ) → from ≤ k → k < length amounts.now → int_at amounts.now k ≡ pos 0)
        (λ k. (from ≤ k) × (k < length amounts.now) × (int_at amounts.now k ≢ pos 0)) }
{
    for i in from..amounts.len() {
        if amounts[i] != 0 {
            return Some(i);
        }
    }
    None
}

/// How much energy an amount of an order is, whichever way it goes.
fn quantity(amount: i64) -> u32
    requires { unsigned_abs amount ≤ MOST_MW }
    ensures { result ≡ unsigned_abs amount }
{
    amount.unsigned_abs() as u32
}

/// The nearest price within the cap.
fn cap(price: i64) -> Cents
    ensures value { result ≡ capped_cents price }
    ensures price { IsPrice result.0 }
{
    Cents(price.clamp(-CAP, CAP))
}

/// The nearest prices within the cap.
pub fn cap_all(alloc: Global, prices: &[i64]) -> Result<Vec<Cents>, AllocError>
    ensures { IfOk result (λ v. v.items ≡ map capped_cents prices.now) }
{
    let mut all = Vec::with_capacity(alloc, prices.len())?;
    for price in prices {
        all.push(cap(*price))?;
    }
    Ok(all)
}

/// Whether a zone of this price is in the cut.
fn is_in_cut(side: CutSide, price: i64) -> bool
    ensures { result ≡ is_inside side price }
{
    match side {
        CutSide::Out => price <= -BEYOND,
        CutSide::In => price >= BEYOND,
    }
}

/// The zones of a cut.
pub fn cut_zones(alloc: Global, side: CutSide, prices: &[i64]) -> Result<Vec<u32>, AllocError>
    requires { length prices.now ≤ MOST_ZONES }
    ensures rising { IfOk result (λ v. IsRising 0 (length prices.now) v.items) }
    ensures inside { IfOk result (λ v. (z : ℕ) → z < length prices.now → is_in v.items z ≡ is_inside side (int_at prices.now z)) }
{
    let mut zones = Vec::new(alloc);
    for z in 0..prices.len() {
        if is_in_cut(side, prices[z]) {
            zones.push(z as u32)?;
        }
    }
    Ok(zones)
}

/// How much energy each amount of an order is.
fn sizes(alloc: Global, amounts: &[i64]) -> Result<Vec<u32>, AllocError>
    requires { All (λ x. unsigned_abs x ≤ MOST_MW) amounts.now }
    ensures { IfOk result (λ v. v.items ≡ map unsigned_abs amounts.now) }
{
    amounts
        .iter()
        .map(|amount| quantity(*amount))
        .collect(alloc)
}

/// The quantities of orders that put in these amounts.
pub fn quantities(alloc: Global, orders: &[Order], amounts: &[i64]) -> Result<Vec<u32>, AllocError>
    requires lengths { length orders.now ≤ length amounts.now }
    requires fits { AllZip (λ o x. CanPut o.side x) orders.now (take (length orders.now) amounts.now) }
    ensures { IfOk result (λ v. ArePuts orders.now (take (length orders.now) amounts.now) v.items) }
{
    sizes(alloc, &amounts[..orders.len()])
}

/// A welfare as it is stated: 0 where it is negative.
pub fn stated(welfare: i128) -> u64
    requires { welfare ≤ℤ pos (MOST_ORDERS * MOST_WORTH) }
    ensures { pos result ≡ int_max (pos 0) welfare }
{
    welfare.max(0) as u64
}
