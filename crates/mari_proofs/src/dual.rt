//! The dual value: what all orders gain and all borders earn at most, at one potential for each zone.

ghost use Rattle.std.specs.Prelude.{◌≡◌, ℤ, pos, ◌*◌, ◌-ℤ◌, ◌*ℤ◌, ◌≤ℤ◌, neg_ℤ, ◌≤◌, ◌<◌, length};
ghost use Rattle.std.specs.List.{All};
ghost use Rattle.mari_market.specs.declared.activation.Activation.{Activation};
ghost use Rattle.mari_market.specs.Activation.{welfare_of};
ghost use Rattle.mari_market.specs.Bounds.{span_in};
ghost use Rattle.mari_market.specs.Dual.{gain_per_mw, dual_value_of, IsTight, best_within, best_border, best_order};
ghost use Rattle.mari_market.specs.Market.{IsValid, IsValidOrder, IsValidBorder};
ghost use Rattle.mari_market.specs.Prefix.{bounds_at, IsFeasiblePrefix};
ghost use Rattle.mari_market.specs.Price.{IsCapped, IsPrice, ArePrices, price_at};
ghost use Rattle.mari_market.specs.Relaxation.{IsWithinBounds};
ghost use Rattle.mari_market.specs.Sums.{int_sum};
ghost use Rattle.mari_gates.specs.GateTable.{state_in};

use mari_gates::{GateStates, states_at};
use mari_market::{Border, MOST_GAP, MOST_ORDERS, MOST_WORTH, Market, Order, Prefix, Prices, Side};
use mari_units::{Cents, MOST_BORDERS, MOST_FLOW, MOST_GATES, MOST_MW, Quarters};

/// What a quantity in MW gains, in quarter-cents, at a gain for each MW.
pub(crate) fn amount(gap: i64, mw: u32) -> i64
    requires low { neg_ℤ (pos MOST_GAP) ≤ℤ gap }
    requires high { gap ≤ℤ pos MOST_GAP }
    requires mw { mw ≤ MOST_FLOW }
    ensures value { result ≡ gap *ℤ pos mw }
    ensures low { neg_ℤ (pos MOST_WORTH) ≤ℤ result }
    ensures high { result ≤ℤ pos MOST_WORTH }
{
    gap * i64::from(mw)
}

/// How much an order gains for each MW at a potential.
fn gap(order: &Order, potential: Cents) -> i64
    requires order { IsPrice order.now.price.0 }
    requires potential { IsPrice potential.0 }
    ensures gap { result ≡ gain_per_mw order.now.side order.now.price.0 potential.0 }
    ensures low { neg_ℤ (pos MOST_GAP) ≤ℤ result }
    ensures high { result ≤ℤ pos MOST_GAP }
{
    match order.side {
        Side::Inject => potential.0 - order.price.0,
        Side::Withdraw => order.price.0 - potential.0,
    }
}

/// The most that quantities from the least to the greatest of a span gain, in quarter-cents, at a gain for each MW.
fn best_within(gap: i64, span: (u32, u32)) -> i64
    // A gap of two prices, and quantities in order and within their limit.
    requires low { neg_ℤ (pos MOST_GAP) ≤ℤ gap }
    requires high { gap ≤ℤ pos MOST_GAP }
    requires in_order { span.0 ≤ span.1 }
    requires small { span.1 ≤ MOST_MW }

    // The value, and that it can be summed over all orders.
    ensures value { result ≡ best_within gap (record { lo = span.0; hi = span.1 }) }
    ensures low { neg_ℤ (pos MOST_WORTH) ≤ℤ result }
    ensures high { result ≤ℤ pos MOST_WORTH }
{
    let (least, greatest) = span;
    if gap > 0 {
        amount(gap, greatest)
    } else {
        amount(gap, least)
    }
}

/// The most that an order gains at its zone's potential. One of no gate runs from 0.
fn best_order(order: &Order, states: &GateStates, potentials: &[Cents]) -> i64
    requires order { IsValidOrder (length potentials.now) MOST_GATES order.now }
    requires potentials { All IsCapped potentials.now }
    ensures value { result ≡ best_order (span_in (state_in states.now)) potentials.now order.now }
    ensures low { neg_ℤ (pos MOST_WORTH) ≤ℤ result }
    ensures high { result ≤ℤ pos MOST_WORTH }
{
    let gap = gap(order, potential_at(potentials, order.zone));
    match order.gate {
        None => amount(gap.max(0), order.greatest),
        Some(_) => best_within(gap, states.span(order)),
    }
}

/// A zone's potential.
pub(crate) fn potential_at(potentials: &[Cents], zone: u32) -> Cents
    requires zone { zone < length potentials.now }
    requires potentials { All IsCapped potentials.now }
    ensures value { result.0 ≡ price_at potentials.now zone }
    ensures price { IsPrice result.0 }
{
    potentials[zone as usize]
}

/// How much dearer one potential is than another.
fn excess(dear: Cents, cheap: Cents) -> i64
    requires dear { IsPrice dear.0 }
    requires cheap { IsPrice cheap.0 }
    ensures value { result ≡ dear.0 -ℤ cheap.0 }
    ensures low { neg_ℤ (pos MOST_GAP) ≤ℤ result }
    ensures high { result ≤ℤ pos MOST_GAP }
{
    dear.0 - cheap.0
}

/// The most that a border earns.
fn best_border(border: &Border, potentials: &[Cents]) -> i64
    requires border { IsValidBorder (length potentials.now) border.now }
    requires potentials { All IsCapped potentials.now }
    ensures value { result ≡ best_border potentials.now border.now }
    ensures low { neg_ℤ (pos MOST_WORTH) ≤ℤ result }
    ensures high { result ≤ℤ pos MOST_WORTH }
{
    let from = potential_at(potentials, border.from);
    let to = potential_at(potentials, border.to);
    if to.0 > from.0 {
        amount(excess(to, from), border.limit)
    } else {
        amount(excess(from, to), border.back)
    }
}

/// The most that all orders gain.
pub(crate) fn orders_value(orders: &[Order], states: &GateStates, potentials: &[Cents]) -> i64
    requires few { length orders.now ≤ MOST_ORDERS }
    requires orders { All (IsValidOrder (length potentials.now) MOST_GATES) orders.now }
    requires potentials { All IsCapped potentials.now }
    ensures value { result ≡ int_sum (best_order (span_in (state_in states.now)) potentials.now) orders.now }
    ensures low { neg_ℤ (pos (MOST_ORDERS * MOST_WORTH)) ≤ℤ result }
    ensures high { result ≤ℤ pos (MOST_ORDERS * MOST_WORTH) }
{
    let mut total = 0;
    for order in orders {
        total += best_order(order, states, potentials);
    }
    total
}

/// The most that all borders earn.
pub(crate) fn borders_value(borders: &[Border], potentials: &[Cents]) -> i64
    requires few { length borders.now ≤ MOST_BORDERS }
    requires borders { All (IsValidBorder (length potentials.now)) borders.now }
    requires potentials { All IsCapped potentials.now }
    ensures value { result ≡ int_sum (best_border potentials.now) borders.now }
    ensures low { neg_ℤ (pos (MOST_BORDERS * MOST_WORTH)) ≤ℤ result }
    ensures high { result ≤ℤ pos (MOST_BORDERS * MOST_WORTH) }
{
    let mut total = 0;
    for border in borders {
        total += best_border(border, potentials);
    }
    total
}

/// The most that all orders gain and all borders earn.
fn total_value(market: &Market, states: &GateStates, potentials: &[Cents]) -> i64
    requires market { IsValid market.now }
    requires one_each { length potentials.now ≡ market.now.zones }
    requires potentials { All IsCapped potentials.now }
    ensures { result ≡ dual_value_of (span_in (state_in states.now)) market.now potentials.now }
{
    orders_value(market.orders.as_slice(), states, potentials)
        + borders_value(market.borders.as_slice(), potentials)
}

/// The dual value of potentials at a prefix, in quarter-cents.
///
/// There is one potential for each zone, in cents per MWh. Whatever the potentials, no activation within the prefix's
/// bounds has a greater welfare; one has as great a welfare exactly where each of its orders and borders is tight.
pub fn dual_value(market: &Market, prefix: &Prefix, potentials: &Prices) -> Quarters
    // What the caller knows of the market, the prefix and the potentials.
    requires market { IsValid market.now }
    requires prefix { IsFeasiblePrefix market.now prefix.now }
    requires potentials { ArePrices market.now potentials.now.cents }

    // The value as it is defined.
    ensures value { result.0 ≡ dual_value_of (bounds_at market.now prefix.now) market.now potentials.now.cents }

    // What it shows of activations.
    ensures weak_duality { (a : Activation) → IsWithinBounds (bounds_at market.now prefix.now) market.now a → welfare_of market.now a ≤ℤ result.0 }
    ensures equal_where_tight { (a : Activation) → IsWithinBounds (bounds_at market.now prefix.now) market.now a
        → IsTight (bounds_at market.now prefix.now) market.now a potentials.now.cents → welfare_of market.now a ≡ result.0 }
    ensures tight_where_equal { (a : Activation) → IsWithinBounds (bounds_at market.now prefix.now) market.now a → welfare_of market.now a ≡ result.0
        → IsTight (bounds_at market.now prefix.now) market.now a potentials.now.cents }
{
    let states = states_at(market, prefix);
    let total = total_value(market, &states, potentials.cents.as_slice());
    Quarters(i128::from(total))
}
