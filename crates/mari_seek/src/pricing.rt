//! Prices between the two ends of a contradiction.

use crate::lists::at;
use mari_market::{Market, Side};
use mari_units::CAP;

/// The greatest price that what runs in a zone asks for at least, and the least that it bears at most.
fn bounds_at(market: &Market, amounts: &[i64], zone: u32) -> (i64, i64) {
    let (mut least, mut greatest) = (-CAP, CAP);
    let mut place = 0usize;
    for order in market.orders.as_slice() {
        let mw = at(amounts, place).unsigned_abs();
        if order.zone == zone && (order.gate.is_none() || mw > 0) {
            let runs = order.gate.is_some() || mw > 0;
            let has_room = mw < u64::from(order.greatest);
            let (lower, upper) = match order.side {
                Side::Inject => (runs, has_room),
                Side::Withdraw => (has_room, runs),
            };
            if lower {
                least = least.max(order.price.0);
            }
            if upper {
                greatest = greatest.min(order.price.0);
            }
        }
        place = place.saturating_add(1);
    }
    (least, greatest)
}

/// A price from the upper bound of the last zone of a contradiction's chain to below the lower bound of its first.
pub(crate) fn middle_of(market: &Market, amounts: &[i64], chain: &[u32]) -> i64 {
    let mut least = -CAP;
    let mut greatest = CAP;
    let mut is_first = true;
    for zone in chain {
        let (low, high) = bounds_at(market, amounts, *zone);
        if is_first {
            least = low;
            is_first = false;
        }
        greatest = high;
    }
    let gap = least.saturating_sub(1).saturating_sub(greatest);
    greatest.saturating_add(gap / 2)
}
