//! What orders and gates gain and lose at potentials.

use crate::lists::at;
use crate::places::Places;
use crate::spans::Spans;
use crate::words::put;
use mari_market::{Market, Order, Prefix, Side};

/// What an order gains at most, within its bounds, in quarter-cents.
fn gain_of_order(order: &Order, spans: &Spans, place: usize, potentials: &[i64]) -> i64 {
    let surplus = at(potentials, order.zone as usize).saturating_sub(order.price.0);
    let amount = if surplus > 0 {
        at(&spans.high, place)
    } else {
        at(&spans.low, place)
    };
    surplus.saturating_mul(amount)
}

/// What the orders of a gate gain at most, in quarter-cents.
pub(crate) fn gain(
    market: &Market,
    places: &Places,
    spans: &Spans,
    gate: u32,
    potentials: &[i64],
) -> i64 {
    let orders = market.orders.as_slice();
    let mut sum = 0i64;
    for place in places.gate(gate) {
        let place = *place as usize;
        if let Some(order) = orders.get(place) {
            sum = sum.saturating_add(gain_of_order(order, spans, place, potentials));
        }
    }
    sum
}

/// What an order loses by a MW at its zone's potential, in cents.
pub(crate) fn loss(order: &Order, potentials: &[i64]) -> i64 {
    let potential = at(potentials, order.zone as usize);
    match order.side {
        Side::Inject => order.price.0.saturating_sub(potential),
        Side::Withdraw => potential.saturating_sub(order.price.0),
    }
}

/// Opens in a word each gate that has an order which runs.
pub(crate) fn open_running(market: &Market, amounts: &[i64], word: &mut Prefix) {
    let mut place = 0usize;
    for order in market.orders.as_slice() {
        if let Some(gate) = order.gate {
            if at(amounts, place) != 0 {
                put(word, gate, true);
            }
        }
        place = place.saturating_add(1);
    }
}

/// The word that opens each gate which the state opens or which has an order that gains.
pub(crate) fn needed_word(
    market: &Market,
    spans: &Spans,
    potentials: &[i64],
    opened: &Prefix,
) -> Prefix {
    let mut word = *opened;
    let mut place = 0usize;
    for order in market.orders.as_slice() {
        if let Some(gate) = order.gate {
            if gain_of_order(order, spans, place, potentials) > 0 {
                put(&mut word, gate, true);
            }
        }
        place = place.saturating_add(1);
    }
    word
}
