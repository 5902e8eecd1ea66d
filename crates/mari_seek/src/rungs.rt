//! Which order of a zone is next to put in more, or less.

use crate::lists::at;
use crate::places::Rung;
use crate::spans::Spans;

/// The room of an order to put in more, or less.
pub(crate) fn room(spans: &Spans, amounts: &[i64], order: u32, raise: bool) -> i64 {
    let place = order as usize;
    let amount = at(amounts, place);
    if raise {
        at(&spans.high, place).saturating_sub(amount)
    } else {
        amount.saturating_sub(at(&spans.low, place))
    }
}

/// How many rungs are below a price, or at most it.
fn rungs_below(ladder: &[Rung], price: i64, or_at: bool) -> usize {
    let (mut low, mut high) = (0usize, ladder.len());
    for _ in 0..64 {
        if low >= high {
            break;
        }
        let middle = low + (high - low) / 2;
        let below = match ladder.get(middle) {
            Some(rung) => rung.price < price || (or_at && rung.price == price),
            None => false,
        };
        if below {
            low = middle.saturating_add(1);
        } else {
            high = middle;
        }
    }
    low
}

/// The zone's order that is best to raise or to lower what it puts in.
pub(crate) fn next_rung(
    ladder: &[Rung],
    spans: &Spans,
    amounts: &[i64],
    potential: i64,
    raise: bool,
) -> Option<Rung> {
    if raise {
        for place in rungs_below(ladder, potential, false)..ladder.len() {
            if let Some(rung) = ladder.get(place) {
                if room(spans, amounts, rung.order, true) > 0 {
                    return Some(*rung);
                }
            }
        }
        return None;
    }
    let count = rungs_below(ladder, potential, true);
    for back in 0..count {
        if let Some(rung) = ladder.get(count.saturating_sub(back).saturating_sub(1)) {
            if room(spans, amounts, rung.order, false) > 0 {
                return Some(*rung);
            }
        }
    }
    None
}

/// A price with its sign turned where what is put in is lowered.
pub(crate) fn signed(price: i64, raise: bool) -> i64 {
    if raise {
        price
    } else {
        0i64.saturating_sub(price)
    }
}
