//! Small markets as plain rows, and lists as plain values, so that a test compares what owns no memory.

use mari_market::{Activation, Border, GateInfo, Market, Order, Prefix, Prices, Side};
use mari_units::{Cents, Items};
use std::alloc::{AllocError, Global};

/// The side of an order that gives energy.
pub(crate) const UP: Side = Side::Inject;

/// The side of an order that takes it.
pub(crate) const DOWN: Side = Side::Withdraw;

/// An order: its zone, side, least, greatest, price and gate.
pub(crate) type OrderRow = (u32, Side, u32, u32, i64, Option<u32>);

/// A market with the reference 40.00.
pub(crate) struct MarketRow {
    /// The limits there and back of the border between its two zones, in MW, or none where it has one zone.
    pub limits: &'static [(u32, u32)],
    /// The orders.
    pub orders: &'static [OrderRow],
    /// The group and the parent of each gate.
    pub gates: &'static [(Option<u32>, Option<u32>)],
}

/// Cheap energy in the first of two zones, and a demand in the second.
pub(crate) const TWO_ZONES: &[OrderRow] = &[
    (0, UP, 0, 100, 2000, None),
    (1, UP, 0, 100, 6000, None),
    (1, DOWN, 0, 80, 9_999_900, None),
];

/// More demand in the second zone than the border carries.
pub(crate) const CONGESTED: MarketRow = MarketRow {
    limits: &[(50, 50)],
    orders: TWO_ZONES,
    gates: &[],
};

/// An indivisible bid of 40 MW, which doesn't fit the demand of 30 MW, and a dearer one of up to 100 MW.
pub(crate) const OVERSIZED: MarketRow = MarketRow {
    limits: &[],
    orders: &[
        (0, UP, 40, 40, 3000, Some(0)),
        (0, UP, 0, 100, 5000, None),
        (0, DOWN, 0, 30, 9_999_900, None),
    ],
    gates: &[(None, None)],
};

/// A bid of up to 40 MW and a dearer indivisible one of 20 MW, for a demand of 50 MW: with both the price is 10.00,
/// which rejects the second.
pub(crate) const PARADOX: MarketRow = MarketRow {
    limits: &[],
    orders: &[
        (0, UP, 0, 40, 1000, None),
        (0, UP, 20, 20, 2000, Some(0)),
        (0, DOWN, 0, 50, 9_999_900, None),
    ],
    gates: &[(None, None)],
};

/// A bid of 50 MW for two demands that have a price.
pub(crate) const ELASTIC: MarketRow = MarketRow {
    limits: &[],
    orders: &[
        (0, UP, 0, 50, 4000, None),
        (0, DOWN, 0, 20, 4200, None),
        (0, DOWN, 0, 30, 4500, None),
    ],
    gates: &[],
};

/// A bid that takes 30 MW which must go.
pub(crate) const DOWNWARD: MarketRow = MarketRow {
    limits: &[],
    orders: &[
        (0, DOWN, 0, 100, 1000, None),
        (0, UP, 0, 30, -9_999_900, None),
    ],
    gates: &[],
};

/// The market of a row.
pub(crate) fn market_of(alloc: Global, row: &MarketRow) -> Result<Market, AllocError> {
    let borders = row.limits.iter().map(|limits| Border {
        from: 0,
        to: 1,
        limit: limits.0,
        back: limits.1,
    });
    let orders = row.orders.iter().map(|row| Order {
        zone: row.0,
        side: row.1,
        price: Cents(row.4),
        least: row.2,
        greatest: row.3,
        gate: row.5,
    });
    let gates = row.gates.iter().map(|row| GateInfo {
        group: row.0,
        parent: row.1,
    });
    Ok(Market {
        zones: if row.limits.is_empty() { 1 } else { 2 },
        borders: Items::of(borders.collect(alloc)?),
        orders: Items::of(orders.collect(alloc)?),
        gates: Items::of(gates.collect(alloc)?),
        reference: Cents(4000),
    })
}

/// The activation that runs `mw` MW and carries `flow` MW.
pub(crate) fn activation_of(
    alloc: Global,
    mw: &[u32],
    flow: &[i64],
) -> Result<Activation, AllocError> {
    Ok(Activation {
        mw: Items::of(mw.to_vec(alloc)?),
        flow: Items::of(flow.to_vec(alloc)?),
    })
}

/// These prices, in cents.
pub(crate) fn prices_of(alloc: Global, cents: &[i64]) -> Result<Prices, AllocError> {
    let cents = cents.iter().map(|price| Cents(*price)).collect(alloc)?;
    Ok(Prices {
        cents: Items::of(cents),
    })
}

/// The prefix of `length` gates with the word `bits`.
pub(crate) fn prefix(length: u32, bits: u64) -> Prefix {
    Prefix {
        length,
        bits: [bits, 0, 0, 0, 0, 0, 0, 0],
    }
}

/// The bits of the gates whose orders run.
pub(crate) fn opened(orders: &[Order], mw: &[u32]) -> u64 {
    let mut bits = 0;
    for (order, mw) in orders.iter().zip(mw) {
        if let Some(gate) = order.gate
            && *mw > 0
            && gate < 64
        {
            bits |= 1 << gate;
        }
    }
    bits
}

/// The length of a list, and its first four items, with 0 where there are fewer.
pub(crate) type Few = (usize, [u32; 4]);

/// What distinguishes a list of at most four items from every other one.
pub(crate) fn few(items: &[u32]) -> Few {
    let first = [at(items, 0), at(items, 1), at(items, 2), at(items, 3)];
    (items.len(), first)
}

/// The item at a place, or 0 where there is none.
fn at(items: &[u32], place: usize) -> u32 {
    if place < items.len() { items[place] } else { 0 }
}
