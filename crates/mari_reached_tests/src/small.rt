//! Small markets as plain rows.

use mari_market::{Border, GateInfo, Market, Order, Side};
use mari_units::{Cents, Items};
use std::alloc::{AllocError, Global};

/// The side of an order that gives energy.
const UP: Side = Side::Inject;

/// The side of an order that takes it.
const DOWN: Side = Side::Withdraw;

/// An order: its zone, side, least, greatest, price and gate.
type OrderRow = (u32, Side, u32, u32, i64, Option<u32>);

/// A market with the reference 40.00.
pub(crate) struct MarketRow {
    /// How many zones there are.
    pub zones: u32,
    /// The limits there and back of the border between the first two zones, in MW, if there is one.
    pub limits: &'static [(u32, u32)],
    /// The orders.
    pub orders: &'static [OrderRow],
    /// The group and the parent of each gate.
    pub gates: &'static [(Option<u32>, Option<u32>)],
}

/// An indivisible bid of 40 MW, which doesn't fit the demand of 30 MW, and a dearer one of up to 100 MW.
pub(crate) const OVERSIZED: MarketRow = MarketRow {
    zones: 1,
    limits: &[],
    orders: &[
        (0, UP, 40, 40, 3000, Some(0)),
        (0, UP, 0, 100, 5000, None),
        (0, DOWN, 0, 30, 9_999_900, None),
    ],
    gates: &[(None, None)],
};

/// A bid of up to 40 MW and a dearer indivisible one of 20 MW, for a demand of 50 MW: with both the price is 10.00,
/// which rejects the second.
pub(crate) const PARADOX: MarketRow = MarketRow {
    zones: 1,
    limits: &[],
    orders: &[
        (0, UP, 0, 40, 1000, None),
        (0, UP, 20, 20, 2000, Some(0)),
        (0, DOWN, 0, 50, 9_999_900, None),
    ],
    gates: &[(None, None)],
};

/// The same in each of two zones.
pub(crate) const TWICE_PARADOX: MarketRow = MarketRow {
    zones: 2,
    limits: &[],
    orders: &[
        (0, UP, 0, 40, 1000, None),
        (0, UP, 20, 20, 2000, Some(0)),
        (0, DOWN, 0, 50, 9_999_900, None),
        (1, UP, 0, 40, 1000, None),
        (1, UP, 20, 20, 2000, Some(1)),
        (1, DOWN, 0, 50, 9_999_900, None),
    ],
    gates: &[(None, None), (None, None)],
};

/// A dear indivisible bid of 10 MW in the first zone, beside a cheap divisible one in the second, where the demand is; and
/// another indivisible one there, which is cheaper still.
pub(crate) const CHEAPER: MarketRow = MarketRow {
    zones: 2,
    limits: &[(20, 0)],
    orders: &[
        (0, UP, 10, 10, 5000, Some(0)),
        (1, UP, 0, 100, 3000, None),
        (1, DOWN, 0, 15, 100_000, None),
        (1, UP, 5, 5, 2000, Some(1)),
    ],
    gates: &[(None, None), (None, None)],
};

/// Two indivisible bids of one group, the first of which has a child, for a demand.
pub(crate) const FAMILY: MarketRow = MarketRow {
    zones: 1,
    limits: &[],
    orders: &[
        (0, UP, 10, 10, 1000, Some(0)),
        (0, UP, 10, 10, 1000, Some(1)),
        (0, UP, 10, 10, 1000, Some(2)),
        (0, DOWN, 0, 30, 9000, None),
    ],
    gates: &[(Some(1), None), (Some(1), None), (None, Some(0))],
};

/// Two equal indivisible bids, of which the demand takes one.
pub(crate) const TIE: MarketRow = MarketRow {
    zones: 1,
    limits: &[],
    orders: &[
        (0, UP, 10, 10, 1000, Some(0)),
        (0, UP, 10, 10, 1000, Some(1)),
        (0, DOWN, 0, 10, 9000, None),
    ],
    gates: &[(None, None), (None, None)],
};

/// A bid and a demand that no gate bears on.
pub(crate) const PLAIN: MarketRow = MarketRow {
    zones: 1,
    limits: &[],
    orders: &[(0, UP, 0, 50, 4000, None), (0, DOWN, 0, 20, 4200, None)],
    gates: &[],
};

/// The market of a row.
pub(crate) fn market_of(alloc: Global, row: &MarketRow) -> Result<Market, AllocError> {
    let borders = row.limits.iter().map(|limits| Border {
        from: 0,
        to: 1,
        limit: limits.0,
        back: limits.1,
    });
    let orders = row.orders.iter().map(|row| Order {
        zone: row.0,
        side: row.1,
        price: Cents(row.4),
        least: row.2,
        greatest: row.3,
        gate: row.5,
    });
    let gates = row.gates.iter().map(|row| GateInfo {
        group: row.0,
        parent: row.1,
    });
    Ok(Market {
        zones: row.zones,
        borders: Items::of(borders.collect(alloc)?),
        orders: Items::of(orders.collect(alloc)?),
        gates: Items::of(gates.collect(alloc)?),
        reference: Cents(4000),
    })
}
