//! Whether potentials are tight for an activation: complementary slackness, order by order and border by border.

ghost use Rattle.std.specs.Prelude.{◌≡◌, ◌↔◌, ◌≤ℤ◌, ◌<◌, length, IsTrue};
ghost use Rattle.std.specs.List.{All, AllZip};
ghost use Rattle.mari_market.specs.Bounds.{span_in};
ghost use Rattle.mari_market.specs.Dual.{IsTight, IsTightOrder, IsTightTrade};
ghost use Rattle.mari_market.specs.Market.{IsValid, IsValidOrder};
ghost use Rattle.mari_market.specs.Price.{IsCapped};
ghost use Rattle.mari_gates.specs.GateTable.{state_in};

use crate::dual::potential_at;
use mari_gates::GateStates;
use mari_market::{Activation, Market, Order, Side};
use mari_units::{Cents, MOST_GATES};
use mari_welfare::borders_agree;

/// Whether a quantity above the least has the one price at most the other, and one below the greatest the reverse.
fn is_tight_at(span: (u32, u32), mw: u32, low: i64, high: i64) -> bool
    ensures { IsTrue result ↔ ((span.0 < mw → low ≤ℤ high) × (mw < span.1 → high ≤ℤ low)) }
{
    (mw <= span.0 || low <= high) && (span.1 <= mw || high <= low)
}

/// Whether what an order runs is tight at a potential.
fn is_tight_trade(order: &Order, span: (u32, u32), mw: u32, potential: Cents) -> bool
    ensures { IsTrue result ↔ IsTightTrade order.now.side order.now.price.0 potential.0 (record { lo = span.0; hi = span.1 }) mw }
{
    match order.side {
        Side::Inject => is_tight_at(span, mw, order.price.0, potential.0),
        Side::Withdraw => is_tight_at(span, mw, potential.0, order.price.0),
    }
}

/// Whether what an order runs is tight at its zone's potential.
fn is_tight_order(states: &GateStates, order: &Order, mw: u32, potentials: &[Cents]) -> bool
    requires order { IsValidOrder (length potentials.now) MOST_GATES order.now }
    requires potentials { All IsCapped potentials.now }
    ensures { IsTrue result ↔ IsTightOrder (span_in (state_in states.now)) potentials.now order.now mw }
{
    let potential = potential_at(potentials, order.zone);
    is_tight_trade(order, states.span(order), mw, potential)
}

/// Whether what each order runs is tight.
fn are_tight_orders(states: &GateStates, orders: &[Order], mw: &[u32], potentials: &[Cents]) -> bool
    requires lengths { length mw.now ≡ length orders.now }
    requires orders { All (IsValidOrder (length potentials.now) MOST_GATES) orders.now }
    requires potentials { All IsCapped potentials.now }
    ensures { IsTrue result ↔ AllZip (IsTightOrder (span_in (state_in states.now)) potentials.now) orders.now mw.now }
{
    for (i, order) in orders.iter().enumerate() {
        if !is_tight_order(states, order, mw[i], potentials) {
            return false;
        }
    }
    true
}

/// Whether potentials are tight for an activation, with the bounds that the states of the gates leave.
pub(crate) fn is_tight(
    market: &Market,
    states: &GateStates,
    activation: &Activation,
    potentials: &[Cents],
) -> bool
    requires market { IsValid market.now }
    requires mw { length activation.now.mw ≡ length market.now.orders }
    requires flow { length activation.now.flow ≡ length market.now.borders }
    requires one_each { length potentials.now ≡ market.now.zones }
    requires potentials { All IsCapped potentials.now }
    ensures { IsTrue result ↔ IsTight (span_in (state_in states.now)) market.now activation.now potentials.now }
{
    let (orders, mw) = (market.orders.as_slice(), activation.mw.as_slice());
    let (borders, flow) = (market.borders.as_slice(), activation.flow.as_slice());
    are_tight_orders(states, orders, mw, potentials) && borders_agree(borders, flow, potentials)
}
