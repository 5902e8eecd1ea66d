//! The dual value by the tables of a state: what all orders gain and all borders earn at most, at one potential for each
//! zone.

ghost use Rattle.std.specs.Prelude.{◌≡◌, ℤ, pos, ◌*◌, ◌-ℤ◌, ◌≤ℤ◌, neg_ℤ, ◌≤◌, length};
ghost use Rattle.std.specs.List.{All, filter};
ghost use Rattle.mari_reach.specs.Tables.{flow_in, has_gate, span_in, AreLaddersOf};
ghost use Rattle.mari_reach.specs.Values.{HasLevels, dual_in};
ghost use Rattle.mari_market.specs.Dual.{best_within, best_border, best_flow, best_order};
ghost use Rattle.mari_market.specs.Market.{IsValid, IsValidOrder, IsValidBorder};
ghost use Rattle.mari_market.specs.Price.{IsCapped, IsPrice};
ghost use Rattle.mari_market.specs.Sums.{int_sum};

use crate::levels::{Levels, plain_value};
use crate::sides::Ladders;
use crate::states::State;
use crate::worth::{amount, gap, potential_at};
use mari_market::{Border, MOST_GAP, MOST_ORDERS, MOST_WORTH, Market, Order};
use mari_units::{Cents, MOST_BORDERS, MOST_FLOW, MOST_GATES, MOST_MW, MOST_ZONES};

/// A number that no dual value is above, and whose negative none is below, in quarter-cents.
pub const MOST_VALUE: u64 = (MOST_ORDERS as u64 + MOST_BORDERS as u64) * MOST_WORTH;

/// The most that quantities from the least to the greatest of a span gain, in quarter-cents, at a gain for each MW.
fn best_within(gap: i64, span: (u32, u32)) -> i64
    // A gap of two prices, and quantities in order and within their limit.
    requires low { neg_ℤ (pos MOST_GAP) ≤ℤ gap }
    requires high { gap ≤ℤ pos MOST_GAP }
    requires in_order { span.0 ≤ span.1 }
    requires small { span.1 ≤ MOST_MW }

    // The value, and that it can be summed over all orders.
    ensures value { result ≡ best_within gap (record { lo = span.0; hi = span.1 }) }
    ensures low { neg_ℤ (pos MOST_WORTH) ≤ℤ result }
    ensures high { result ≤ℤ pos MOST_WORTH }
{
    let (least, greatest) = span;
    if gap > 0 {
        amount(gap, greatest)
    } else {
        amount(gap, least)
    }
}

/// The most that an order gains at its zone's potential.
pub(crate) fn best_order(order: &Order, state: &State, potentials: &[Cents]) -> i64
    requires order { IsValidOrder (length potentials.now) MOST_GATES order.now }
    requires few { length potentials.now ≤ MOST_ZONES }
    requires potentials { All IsCapped potentials.now }
    ensures value { result ≡ best_order (span_in state.now) potentials.now order.now }
    ensures low { neg_ℤ (pos MOST_WORTH) ≤ℤ result }
    ensures high { result ≤ℤ pos MOST_WORTH }
{
    let gap = gap(order, potential_at(potentials, order.zone));
    best_within(gap, state.span(order))
}

/// The most that any order gains at its zone's potential.
fn order_value(order: &Order, state: &State, levels: &Levels, potentials: &[Cents]) -> i64
    requires levels { HasLevels state.now potentials.now levels.now }
    requires order { IsValidOrder (length potentials.now) MOST_GATES order.now }
    requires few { length potentials.now ≤ MOST_ZONES }
    requires potentials { All IsCapped potentials.now }
    ensures value { result ≡ best_order (span_in state.now) potentials.now order.now }
    ensures low { neg_ℤ (pos MOST_WORTH) ≤ℤ result }
    ensures high { result ≤ℤ pos MOST_WORTH }
{
    match order.gate {
        None => plain_value(order, levels, potentials),
        Some(_) => best_order(order, state, potentials),
    }
}

/// How much dearer one potential is than another.
fn excess(dear: Cents, cheap: Cents) -> i64
    requires dear { IsPrice dear.0 }
    requires cheap { IsPrice cheap.0 }
    ensures value { result ≡ dear.0 -ℤ cheap.0 }
    ensures low { neg_ℤ (pos MOST_GAP) ≤ℤ result }
    ensures high { result ≤ℤ pos MOST_GAP }
{
    dear.0 - cheap.0
}

/// The most that a border earns by its limits alone.
fn best_border(border: &Border, potentials: &[Cents]) -> i64
    requires border { IsValidBorder (length potentials.now) border.now }
    requires potentials { All IsCapped potentials.now }
    ensures value { result ≡ best_border potentials.now border.now }
    ensures low { neg_ℤ (pos MOST_WORTH) ≤ℤ result }
    ensures high { result ≤ℤ pos MOST_WORTH }
{
    let from = potential_at(potentials, border.from);
    let to = potential_at(potentials, border.to);
    if to.0 > from.0 {
        amount(excess(to, from), border.limit)
    } else {
        amount(excess(from, to), border.back)
    }
}

/// The most that a border earns within its bounds.
fn best_flow(border: &Border, state: &State, potentials: &[Cents]) -> i64
    requires border { IsValidBorder (length potentials.now) border.now }
    requires few { length potentials.now ≤ MOST_ZONES }
    requires potentials { All IsCapped potentials.now }
    ensures value { result ≡ best_flow (flow_in state.now) potentials.now border.now }
    ensures low { neg_ℤ (pos MOST_WORTH) ≤ℤ result }
    ensures high { result ≤ℤ pos MOST_WORTH }
{
    let from = potential_at(potentials, border.from);
    let to = potential_at(potentials, border.to);
    if state.rises(border) {
        amount(excess(to, from), border.limit)
    } else if state.falls(border) {
        amount(excess(from, to), border.back)
    } else {
        best_border(border, potentials)
    }
}

/// The most that all orders gain.
fn orders_value(orders: &[Order], state: &State, levels: &Levels, potentials: &[Cents]) -> i64
    requires levels { HasLevels state.now potentials.now levels.now }
    requires few { length orders.now ≤ MOST_ORDERS }
    requires few_zones { length potentials.now ≤ MOST_ZONES }
    requires orders { All (IsValidOrder (length potentials.now) MOST_GATES) orders.now }
    requires potentials { All IsCapped potentials.now }
    ensures value { result ≡ int_sum (best_order (span_in state.now) potentials.now) orders.now }
    ensures low { neg_ℤ (pos (MOST_ORDERS * MOST_WORTH)) ≤ℤ result }
    ensures high { result ≤ℤ pos (MOST_ORDERS * MOST_WORTH) }
{
    let mut total = 0;
    for order in orders {
        total += order_value(order, state, levels, potentials);
    }
    total
}

/// The most that all borders earn.
fn borders_value(borders: &[Border], state: &State, potentials: &[Cents]) -> i64
    requires few { length borders.now ≤ MOST_BORDERS }
    requires few_zones { length potentials.now ≤ MOST_ZONES }
    requires borders { All (IsValidBorder (length potentials.now)) borders.now }
    requires potentials { All IsCapped potentials.now }
    ensures value { result ≡ int_sum (best_flow (flow_in state.now) potentials.now) borders.now }
    ensures low { neg_ℤ (pos (MOST_BORDERS * MOST_WORTH)) ≤ℤ result }
    ensures high { result ≤ℤ pos (MOST_BORDERS * MOST_WORTH) }
{
    let mut total = 0;
    for border in borders {
        total += best_flow(border, state, potentials);
    }
    total
}

/// The most that all orders gain and all borders earn.
pub(crate) fn total_value(market: &Market, state: &State, potentials: &[Cents]) -> i64
    requires market { IsValid market.now }
    requires one_each { length potentials.now ≡ market.now.zones }
    requires potentials { All IsCapped potentials.now }
    ensures value { result ≡ dual_in market.now state.now potentials.now }
    ensures low { neg_ℤ (pos MOST_VALUE) ≤ℤ result }
    ensures high { result ≤ℤ pos MOST_VALUE }
{
    let levels = Levels::of(state, potentials);
    orders_value(market.orders.as_slice(), state, &levels, potentials)
        + borders_value(market.borders.as_slice(), state, potentials)
}

/// The most that all orders gain and all borders earn, by the orders of gates and the ladders of the others.
pub(crate) fn total_by(
    market: &Market,
    gated: &[Order],
    ladders: &Ladders,
    state: &State,
    potentials: &[Cents],
) -> i64
    requires market { IsValid market.now }
    requires gated { gated.now ≡ filter has_gate market.now.orders }
    requires ladders { AreLaddersOf market.now ladders.now }
    requires one_each { length potentials.now ≡ market.now.zones }
    requires potentials { All IsCapped potentials.now }
    ensures { result ≡ dual_in market.now state.now potentials.now }
{
    let levels = Levels::of(state, potentials);
    ladders.gain(market, &levels, potentials)
        + orders_value(gated, state, &levels, potentials)
        + borders_value(market.borders.as_slice(), state, potentials)
}
