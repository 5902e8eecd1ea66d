//! Cuts: sets of zones that have too much energy, or too little, for any activation to balance.

ghost use Rattle.std.specs.Prelude.{◌≡◌, ◌↔◌, ℤ, pos, ◌*◌, ◌≤ℤ◌, neg_ℤ, ◌≤◌, ◌<◌, length, IfSome, IsTrue};
ghost use Rattle.std.specs.List.{All, filter};
ghost use Rattle.mari_reach.specs.Tables.{flow_in, has_gate, span_in, AreLaddersOf, IsSurveyOf, IsZoneSet};
ghost use Rattle.mari_reach.specs.Values.{carried_by};
ghost use Rattle.mari_market.specs.Cut.{CannotBalanceWithin, IsCutWithin};
ghost use Rattle.mari_market.specs.Market.{IsValid, IsValidOrder, IsValidBorder};
ghost use Rattle.mari_market.specs.Sums.{int_sum};
ghost use Rattle.mari_proofs.specs.NetInjections.{net_put, put_of, Exceeds};

use crate::sides::Ladders;
use crate::states::State;
use crate::survey::Survey;
use crate::zones::ZoneSet;
use mari_market::{Border, Cut, CutSide, MOST_ORDERS, Market, Order, Side, are_rising};
use mari_units::{MOST_BORDERS, MOST_FLOW, MOST_GATES, MOST_MW, MOST_ZONES};

/// The least net injection of an order within its bounds, or the greatest.
fn net_put(side: CutSide, order: &Order, span: (u32, u32)) -> i64
    requires least { span.0 ≤ MOST_MW }
    requires greatest { span.1 ≤ MOST_MW }
    ensures value { result ≡ net_put side order.now.side (record { lo = span.0; hi = span.1 }) }
    ensures low { neg_ℤ (pos MOST_MW) ≤ℤ result }
    ensures high { result ≤ℤ pos MOST_MW }
{
    match (side, order.side) {
        (CutSide::Out, Side::Inject) => i64::from(span.0),
        (CutSide::Out, Side::Withdraw) => -i64::from(span.1),
        (CutSide::In, Side::Inject) => i64::from(span.1),
        (CutSide::In, Side::Withdraw) => -i64::from(span.0),
    }
}

/// What an order of the set puts in at least, or at most; and 0 of any other.
fn order_put(side: CutSide, set: &ZoneSet, order: &Order, state: &State) -> i64
    requires set { IsZoneSet set.now }
    requires order { IsValidOrder MOST_ZONES MOST_GATES order.now }
    ensures value { result ≡ put_of side (span_in state.now) set.now.zones.now order.now }
    ensures low { neg_ℤ (pos MOST_MW) ≤ℤ result }
    ensures high { result ≤ℤ pos MOST_MW }
{
    if set.has(order.zone) {
        net_put(side, order, state.span(order))
    } else {
        0
    }
}

/// The most that a border carries out of the set, or into it.
fn border_carries(side: CutSide, set: &ZoneSet, border: &Border, state: &State) -> i64
    requires set { IsZoneSet set.now }
    requires border { IsValidBorder MOST_ZONES border.now }
    ensures value { result ≡ carried_by side (flow_in state.now) set.now.zones.now border.now }
    ensures low { neg_ℤ (pos MOST_FLOW) ≤ℤ result }
    ensures high { result ≤ℤ pos MOST_FLOW }
{
    let is_first_inside = set.has(border.from);
    if is_first_inside == set.has(border.to) {
        return 0;
    }
    let (limit, back) = state.flows(border);
    match (side, is_first_inside) {
        (CutSide::Out, true) | (CutSide::In, false) => limit,
        (CutSide::Out, false) | (CutSide::In, true) => back,
    }
}

/// What the orders of the set put in at least, or at most.
fn orders_put(side: CutSide, set: &ZoneSet, orders: &[Order], state: &State) -> i64
    requires set { IsZoneSet set.now }
    requires few { length orders.now ≤ MOST_ORDERS }
    requires orders { All (IsValidOrder MOST_ZONES MOST_GATES) orders.now }
    ensures value { result ≡ int_sum (put_of side (span_in state.now) set.now.zones.now) orders.now }
    ensures low { neg_ℤ (pos (MOST_ORDERS * MOST_MW)) ≤ℤ result }
    ensures high { result ≤ℤ pos (MOST_ORDERS * MOST_MW) }
{
    let mut total = 0;
    for order in orders {
        total += order_put(side, set, order, state);
    }
    total
}

/// The most that the borders carry out of the set, or into it.
fn borders_carry(side: CutSide, set: &ZoneSet, borders: &[Border], state: &State) -> i64
    requires set { IsZoneSet set.now }
    requires few { length borders.now ≤ MOST_BORDERS }
    requires borders { All (IsValidBorder MOST_ZONES) borders.now }
    ensures value { result ≡ int_sum (carried_by side (flow_in state.now) set.now.zones.now) borders.now }
    ensures low { neg_ℤ (pos (MOST_BORDERS * MOST_FLOW)) ≤ℤ result }
    ensures high { result ≤ℤ pos (MOST_BORDERS * MOST_FLOW) }
{
    let mut total = 0;
    for border in borders {
        total += border_carries(side, set, border, state);
    }
    total
}

/// Whether what is put in is more than what can leave, or less than the negative of what can enter.
fn exceeds(side: CutSide, put: i64, carried: i64) -> bool
    requires low { neg_ℤ (pos (MOST_BORDERS * MOST_FLOW)) ≤ℤ carried }
    requires high { carried ≤ℤ pos (MOST_BORDERS * MOST_FLOW) }
    ensures { IsTrue result ↔ Exceeds side put carried }
{
    match side {
        CutSide::Out => carried < put,
        CutSide::In => put < -carried,
    }
}

/// What all orders of the set put in at least, or at most, by the survey of the market if it has ladders.
fn put_by(
    market: &Market,
    survey: Option<&Survey>,
    state: &State,
    side: CutSide,
    set: &ZoneSet,
) -> i64
    requires market { IsValid market.now }
    requires survey { IfSome survey (λ s. IsSurveyOf market.now s.now) }
    requires set { IsZoneSet set.now }
    ensures { result ≡ int_sum (put_of side (span_in state.now) set.now.zones.now) market.now.orders }
{
    if let Some(survey) = survey
        && let Some(ladders) = &survey.ladders
    {
        return surveyed_put(market, survey.gated.as_slice(), ladders, state, side, set);
    }
    orders_put(side, set, market.orders.as_slice(), state)
}

/// What all orders of the set put in at least, or at most, by the orders of gates and the ladders of the others.
fn surveyed_put(
    market: &Market,
    gated: &[Order],
    ladders: &Ladders,
    state: &State,
    side: CutSide,
    set: &ZoneSet,
) -> i64
    requires market { IsValid market.now }
    requires set { IsZoneSet set.now }
    requires gated { gated.now ≡ filter has_gate market.now.orders }
    requires ladders { AreLaddersOf market.now ladders.now }
    ensures { result ≡ int_sum (put_of side (span_in state.now) set.now.zones.now) market.now.orders }
{
    ladders.put(market, state, side, set) + orders_put(side, set, gated, state)
}

/// Whether the set has more than can leave it, or lacks more than can enter it.
fn cannot_balance(
    market: &Market,
    survey: Option<&Survey>,
    state: &State,
    side: CutSide,
    zones: &[u32],
) -> bool
    requires market { IsValid market.now }
    requires survey { IfSome survey (λ s. IsSurveyOf market.now s.now) }
    ensures { IsTrue result ↔ CannotBalanceWithin (span_in state.now) (flow_in state.now) market.now side zones.now }
{
    let set = ZoneSet::of(zones);
    let put = put_by(market, survey, state, side, &set);
    let carried = borders_carry(side, &set, market.borders.as_slice(), state);
    exceeds(side, put, carried)
}

/// Whether a cut holds by the tables of a state.
pub(crate) fn is_cut(market: &Market, survey: Option<&Survey>, state: &State, cut: &Cut) -> bool
    requires market { IsValid market.now }
    requires survey { IfSome survey (λ s. IsSurveyOf market.now s.now) }
    ensures { IsTrue result ↔ IsCutWithin (span_in state.now) (flow_in state.now) market.now cut.now }
{
    let zones = cut.zones.as_slice();
    are_rising(zones, market.zones) && cannot_balance(market, survey, state, cut.side, zones)
}
