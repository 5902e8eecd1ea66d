//! Small markets as plain rows, and lists as plain values, so that a test compares what owns no memory.

use mari_market::{Border, GateInfo, Market, Order, Prefix, Prices, Side};
use mari_units::{Cents, Items};
use std::alloc::{AllocError, Global};

/// The side of an order that gives energy.
pub(crate) const UP: Side = Side::Inject;

/// The side of an order that takes it.
pub(crate) const DOWN: Side = Side::Withdraw;

/// An order: its zone, side, least, greatest, price and gate.
pub(crate) type OrderRow = (u32, Side, u32, u32, i64, Option<u32>);

/// A market with the reference 40.00.
pub(crate) struct MarketRow {
    /// The limits there and back of the border between its two zones, in MW, or none where it has one zone.
    pub limits: &'static [(u32, u32)],
    /// The orders.
    pub orders: &'static [OrderRow],
    /// The group and the parent of each gate.
    pub gates: &'static [(Option<u32>, Option<u32>)],
}

/// An indivisible bid of 40 MW, which doesn't fit the demand of 30 MW, and a dearer one of up to 100 MW.
pub(crate) const OVERSIZED: MarketRow = MarketRow {
    limits: &[],
    orders: &[
        (0, UP, 40, 40, 3000, Some(0)),
        (0, UP, 0, 100, 5000, None),
        (0, DOWN, 0, 30, 9_999_900, None),
    ],
    gates: &[(None, None)],
};

/// A bid of up to 40 MW and a dearer indivisible one of 20 MW, for a demand of 50 MW: with both the price is 10.00,
/// which rejects the second.
pub(crate) const PARADOX: MarketRow = MarketRow {
    limits: &[],
    orders: &[
        (0, UP, 0, 40, 1000, None),
        (0, UP, 20, 20, 2000, Some(0)),
        (0, DOWN, 0, 50, 9_999_900, None),
    ],
    gates: &[(None, None)],
};

/// A dear indivisible bid of 10 MW in the first zone, beside a cheap divisible one in the second, where the demand is; and
/// another indivisible one there, a little dearer than the cheap one. The border is wide enough that both zones have one
/// price.
pub(crate) const ONE_PRICE: MarketRow = MarketRow {
    limits: &[(20, 0)],
    orders: &[
        (0, UP, 10, 10, 5000, Some(0)),
        (1, UP, 0, 100, 3000, None),
        (1, DOWN, 0, 15, 100_000, None),
        (1, UP, 5, 5, 4000, Some(1)),
    ],
    gates: &[(None, None), (None, None)],
};

/// The same, but the other indivisible bid is cheaper than the divisible one.
pub(crate) const CHEAPER: MarketRow = MarketRow {
    limits: &[(20, 0)],
    orders: &[
        (0, UP, 10, 10, 5000, Some(0)),
        (1, UP, 0, 100, 3000, None),
        (1, DOWN, 0, 15, 100_000, None),
        (1, UP, 5, 5, 2000, Some(1)),
    ],
    gates: &[(None, None), (None, None)],
};

/// A bid of a gate that would give at 50.00 and take at 40.00, and another gate's.
pub(crate) const TORN: MarketRow = MarketRow {
    limits: &[],
    orders: &[
        (0, UP, 1, 1, 5000, Some(0)),
        (0, DOWN, 1, 1, 4000, Some(0)),
        (0, UP, 1, 1, 6000, Some(1)),
    ],
    gates: &[(None, None), (None, None)],
};

/// Two indivisible bids of one group, the first of which has a child, for a demand.
pub(crate) const FAMILY: MarketRow = MarketRow {
    limits: &[],
    orders: &[
        (0, UP, 10, 10, 1000, Some(0)),
        (0, UP, 10, 10, 1000, Some(1)),
        (0, UP, 10, 10, 1000, Some(2)),
        (0, DOWN, 0, 30, 9000, None),
    ],
    gates: &[(Some(1), None), (Some(1), None), (None, Some(0))],
};

/// Bids of up and down that are indivisible, most of 10 MW, and some of 2 to 8 MW, each of a gate of its own but for the
/// two of the twelfth gate. The fifth gate is in a group, the sixth in the other zone, and the last is below the one
/// before it.
pub(crate) const TWINS: MarketRow = MarketRow {
    limits: &[(100, 100)],
    orders: &[
        (0, UP, 10, 10, 2000, Some(0)),
        (0, UP, 10, 10, 1000, Some(1)),
        (0, UP, 10, 10, 2000, Some(2)),
        (0, UP, 5, 5, 1500, Some(3)),
        (0, UP, 10, 10, 1500, Some(4)),
        (1, UP, 10, 10, 3000, Some(5)),
        (0, UP, 2, 8, 1200, Some(6)),
        (0, UP, 2, 8, 1200, Some(7)),
        (0, UP, 2, 8, 1300, Some(8)),
        (0, DOWN, 10, 10, 5000, Some(9)),
        (0, DOWN, 10, 10, 6000, Some(10)),
        (0, UP, 10, 10, 1800, Some(11)),
        (0, UP, 1, 1, 1800, Some(11)),
        (0, UP, 10, 10, 1700, Some(12)),
        (0, UP, 10, 10, 1600, Some(13)),
        (0, DOWN, 0, 30, 100_000, None),
    ],
    gates: &[
        (None, None),
        (None, None),
        (None, None),
        (None, None),
        (Some(1), None),
        (None, None),
        (None, None),
        (None, None),
        (None, None),
        (None, None),
        (None, None),
        (None, None),
        (None, None),
        (None, Some(12)),
    ],
};

/// Three equal indivisible bids of 10 MW at 20.00 and a dearer one of up to 100 MW, for a demand of 25 MW: two of the
/// three run, the later ones.
pub(crate) const EQUAL: MarketRow = MarketRow {
    limits: &[],
    orders: &[
        (0, UP, 10, 10, 2000, Some(0)),
        (0, UP, 10, 10, 2000, Some(1)),
        (0, UP, 10, 10, 2000, Some(2)),
        (0, UP, 0, 100, 5000, None),
        (0, DOWN, 0, 25, 100_000, None),
    ],
    gates: &[(None, None), (None, None), (None, None)],
};

/// The market of a row.
pub(crate) fn market_of(alloc: Global, row: &MarketRow) -> Result<Market, AllocError> {
    let borders = row.limits.iter().map(|limits| Border {
        from: 0,
        to: 1,
        limit: limits.0,
        back: limits.1,
    });
    let orders = row.orders.iter().map(|row| Order {
        zone: row.0,
        side: row.1,
        price: Cents(row.4),
        least: row.2,
        greatest: row.3,
        gate: row.5,
    });
    let gates = row.gates.iter().map(|row| GateInfo {
        group: row.0,
        parent: row.1,
    });
    Ok(Market {
        zones: if row.limits.is_empty() { 1 } else { 2 },
        borders: Items::of(borders.collect(alloc)?),
        orders: Items::of(orders.collect(alloc)?),
        gates: Items::of(gates.collect(alloc)?),
        reference: Cents(4000),
    })
}

/// These prices, in cents.
pub(crate) fn prices_of(alloc: Global, cents: &[i64]) -> Result<Prices, AllocError> {
    let cents = cents.iter().map(|price| Cents(*price)).collect(alloc)?;
    Ok(Prices {
        cents: Items::of(cents),
    })
}

/// The prefix of `length` gates with the word `bits`.
pub(crate) fn prefix(length: u32, bits: u64) -> Prefix {
    Prefix {
        length,
        bits: [bits, 0, 0, 0, 0, 0, 0, 0],
    }
}
