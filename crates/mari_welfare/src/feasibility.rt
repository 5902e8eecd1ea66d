//! Whether an activation is feasible.

ghost use Rattle.std.specs.Prelude.{◌≡◌, ◌==◌, ◌<◌, ◌≤◌, ◌^◌, if◌then◌else◌, length, ℕ, ℤ, pos, ◌+◌, ◌+ℤ◌, ◌-ℤ◌, unsigned_abs, IsTrue, ◌↔◌};
ghost use Rattle.std.specs.List.{All, AllZip};
ghost use Rattle.mari_market.specs.Activation.{HasLengths, IsWithinLimits, carried_out, put_in, put_into};
ghost use Rattle.mari_market.specs.Bounds.{IsWithin, bounds_by};
ghost use Rattle.mari_market.specs.Market.{IsBetween, IsValid};
ghost use Rattle.mari_market.specs.Optimal.{IsFeasible};
ghost use Rattle.mari_market.specs.Sums.{sum_along, int_at};
ghost use Rattle.mari_market.specs.Prefix.{opens_in};
ghost use Rattle.mari_welfare.specs.Parts.{OrdersAndGatesFit, BordersAndZonesFit};

use crate::gates::{OpenGates, keep_gate_rules};
use mari_market::{Activation, Border, MOST_ORDERS, Market, Order, Side};
use mari_units::{MOST_BORDERS, MOST_ZONES};

/// Whether an order runs within its bounds.
fn is_within(opened: &OpenGates, order: &Order, mw: u32) -> bool
    ensures { IsTrue result ↔ IsWithin (bounds_by (opens_in opened.now) order.now) mw }
{
    match order.gate {
        None => mw <= order.greatest,
        Some(gate) if opened.has(gate) => order.least <= mw && mw <= order.greatest,
        Some(_) => mw == 0,
    }
}

/// Whether each order runs within its bounds.
fn orders_fit(opened: &OpenGates, orders: &[Order], mw: &[u32]) -> bool
    requires { length mw.now ≡ length orders.now }
    ensures { IsTrue result ↔ AllZip (λ o q. IsWithin (bounds_by (opens_in opened.now) o) q) orders.now mw.now }
{
    for (i, order) in orders.iter().enumerate() {
        if !is_within(opened, order, mw[i]) {
            return false;
        }
    }
    true
}

/// Whether a flow is within its border's limits.
fn is_within_limits(border: &Border, flow: i64) -> bool
    ensures { IsTrue result ↔ IsWithinLimits border.now flow }
{
    -i64::from(border.back) <= flow && flow <= i64::from(border.limit)
}

/// Whether each flow is within its border's limits.
fn flows_fit(borders: &[Border], flow: &[i64]) -> bool
    requires { length flow.now ≡ length borders.now }
    ensures { IsTrue result ↔ AllZip IsWithinLimits borders.now flow.now }
{
    for (i, border) in borders.iter().enumerate() {
        if !is_within_limits(border, flow[i]) {
            return false;
        }
    }
    true
}

/// Adds to what is left over in a zone.
fn add_to(left: &mut [i128; MOST_ZONES], zone: u32, mw: i128)
    requires zone { zone < MOST_ZONES }
    requires so_far { unsigned_abs (int_at left.old zone) ≤ 2 ^ 80 }
    requires mw { unsigned_abs mw ≤ 2 ^ 64 }
    ensures { (z : ℕ) → int_at left.new z ≡ int_at left.old z +ℤ (if zone == z then mw else pos 0) }
{
    left[zone as usize] += mw;
}

/// What an order puts into its zone.
fn put_in(order: &Order, mw: u32) -> i128
    ensures value { result ≡ put_in order.now.side mw }
    ensures small { unsigned_abs result ≤ 2 ^ 32 }
{
    match order.side {
        Side::Inject => i128::from(mw),
        Side::Withdraw => -i128::from(mw),
    }
}

/// Injections less withdrawals of each zone.
fn net_injections(orders: &[Order], mw: &[u32]) -> [i128; MOST_ZONES]
    requires few { length orders.now ≤ MOST_ORDERS }
    requires lengths { length mw.now ≡ length orders.now }
    requires zones { All (λ o. o.zone < MOST_ZONES) orders.now }
    ensures value { (z : ℕ) → int_at result z ≡ sum_along (put_into z) orders.now mw.now }
    ensures small { (z : ℕ) → unsigned_abs (int_at result z) ≤ 2 ^ 48 }
{
    let mut left = [0; MOST_ZONES];
    for (i, order) in orders.iter().enumerate() {
        add_to(&mut left, order.zone, put_in(order, mw[i]));
    }
    left
}

/// Takes a flow from what is left over in the zone that it leaves, and adds it to the zone that it enters.
fn carry(left: &mut [i128; MOST_ZONES], border: &Border, flow: i64)
    requires from { border.now.from < MOST_ZONES }
    requires to { border.now.to < MOST_ZONES }
    requires so_far { (z : ℕ) → unsigned_abs (int_at left.old z) ≤ 2 ^ 79 }
    ensures carried { (z : ℕ) → int_at left.new z ≡ int_at left.old z -ℤ carried_out z border.now flow }
    ensures small { (z : ℕ) → unsigned_abs (int_at left.new z) ≤ unsigned_abs (int_at left.old z) + 2 ^ 65 }
{
    add_to(left, border.from, -i128::from(flow));
    add_to(left, border.to, i128::from(flow));
}

/// Takes the flows that leave each zone from what is left over there, and adds those that enter it.
fn take_outflows(left: &mut [i128; MOST_ZONES], borders: &[Border], flow: &[i64])
    requires few { length borders.now ≤ MOST_BORDERS }
    requires lengths { length flow.now ≡ length borders.now }
    requires ends { All (IsBetween MOST_ZONES) borders.now }
    requires small { (z : ℕ) → unsigned_abs (int_at left.old z) ≤ 2 ^ 48 }
    ensures { (z : ℕ) → int_at left.new z ≡ int_at left.old z -ℤ sum_along (carried_out z) borders.now flow.now }
{
    for (i, border) in borders.iter().enumerate() {
        carry(left, border, flow[i]);
    }
}

/// Whether nothing is left over in the first zones.
fn is_nothing_left(left: &[i128; MOST_ZONES], zones: u32) -> bool
    requires { zones ≤ MOST_ZONES }
    ensures { IsTrue result ↔ ((z : ℕ) → z < zones → int_at left.now z ≡ pos 0) }
{
    for zone in 0..zones {
        if left[zone as usize] != 0 {
            return false;
        }
    }
    true
}

/// Whether each of the zones is in balance.
fn is_balanced(zones: u32, orders: &[Order], mw: &[u32], borders: &[Border], flow: &[i64]) -> bool
    // No more zones, orders and borders than a market may have.
    requires zones { zones ≤ MOST_ZONES }
    requires few_orders { length orders.now ≤ MOST_ORDERS }
    requires few_borders { length borders.now ≤ MOST_BORDERS }

    // A quantity for each order, and a flow for each border.
    requires orders { length mw.now ≡ length orders.now }
    requires borders { length flow.now ≡ length borders.now }

    // Each order, and each border's ends, lie in zones that there may be.
    requires places { All (λ o. o.zone < MOST_ZONES) orders.now }
    requires ends { All (IsBetween MOST_ZONES) borders.now }

    // Exactly where each zone puts in what it sends out.
    ensures { IsTrue result ↔ ((z : ℕ) → z < zones → sum_along (put_into z) orders.now mw.now ≡ sum_along (carried_out z) borders.now flow.now) }
{
    let mut left = net_injections(orders, mw);
    take_outflows(&mut left, borders, flow);
    is_nothing_left(&left, zones)
}

/// Whether each order runs within its bounds, and the open gates keep the rules.
fn orders_and_gates_fit(market: &Market, activation: &Activation) -> bool
    requires market { IsValid market.now }
    requires lengths { HasLengths market.now activation.now }
    ensures { IsTrue result ↔ OrdersAndGatesFit market.now activation.now }
{
    let (orders, mw) = (market.orders.as_slice(), activation.mw.as_slice());
    let opened = OpenGates::of(market, activation);
    orders_fit(&opened, orders, mw) && keep_gate_rules(market.gates.as_slice(), &opened)
}

/// Whether each flow is within its border's limits, and each zone is in balance.
fn borders_and_zones_fit(market: &Market, activation: &Activation) -> bool
    requires market { IsValid market.now }
    requires lengths { HasLengths market.now activation.now }
    ensures { IsTrue result ↔ BordersAndZonesFit market.now activation.now }
{
    let (orders, mw) = (market.orders.as_slice(), activation.mw.as_slice());
    let (borders, flow) = (market.borders.as_slice(), activation.flow.as_slice());
    flows_fit(borders, flow) && is_balanced(market.zones, orders, mw, borders, flow)
}

/// Whether an activation is feasible in the market.
///
/// It has one quantity for each order and one flow for each border; else the answer is false. Then each order runs
/// within its bounds, the open gates keep the rules of parents and groups, each flow is within its border's limits,
/// and each zone is in balance.
pub fn is_feasible(market: &Market, activation: &Activation) -> bool
    requires { IsValid market.now }
    ensures { IsTrue result ↔ IsFeasible market.now activation.now }
{
    market.has_lengths(activation)
        && orders_and_gates_fit(market, activation)
        && borders_and_zones_fit(market, activation)
}
