//! Islands: which zones are in one, and what it is as a market.

use crate::same::same_in;
use crate::small::{DOWN, Few, OrderRow, TWO_ZONES, UP, few};
use mari_islands::{Island, islands_of};
use mari_market::{Border, GateInfo, Market, Order};
use mari_units::{Cents, Items};
use std::alloc::{AllocError, Global};
use std::test::Fail;

/// The zones, borders, orders and gates of an island, by their numbers.
type IslandRow = [Few; 4];

/// A market.
pub(crate) struct NetworkRow {
    /// How many zones there are.
    pub zones: u32,
    /// The ends of each border, with its limits there and back, in MW.
    pub borders: &'static [(u32, u32, u32, u32)],
    /// The orders.
    pub orders: &'static [OrderRow],
    /// The group and the parent of each gate.
    pub gates: &'static [(Option<u32>, Option<u32>)],
}

/// A market and its islands.
struct Case {
    name: &'static str,
    market: NetworkRow,
    islands: &'static [IslandRow],
}

const NONE: Few = (0, [0; 4]);

const BOTH: Few = (2, [0, 1, 0, 0]);

const FIRST: Few = (1, [0; 4]);

const SECOND: Few = (1, [1, 0, 0, 0]);

/// In each of two zones an indivisible bid of 40 MW, which doesn't fit the demand of 30 MW, and a dearer one.
pub(crate) const TWICE_OVERSIZED: NetworkRow = NetworkRow {
    zones: 2,
    borders: &[],
    orders: &[
        (0, UP, 40, 40, 3000, Some(0)),
        (0, UP, 0, 100, 5000, None),
        (1, UP, 40, 40, 3000, Some(1)),
        (1, UP, 0, 100, 5000, None),
        (0, DOWN, 0, 30, 9_999_900, None),
        (1, DOWN, 0, 30, 9_999_900, None),
    ],
    gates: &[(None, None), (None, None)],
};

/// Two zones, of which the second has such bids, and a border that carries nothing.
pub(crate) const PLAIN_AND_OVERSIZED: NetworkRow = NetworkRow {
    zones: 2,
    borders: &[(0, 1, 0, 0)],
    orders: &[
        (0, UP, 0, 100, 5000, None),
        (1, UP, 40, 40, 3000, Some(0)),
        (1, UP, 0, 100, 5000, None),
        (1, DOWN, 0, 30, 9_999_900, None),
    ],
    gates: &[(None, None)],
};

/// More demand in the second zone than the border carries.
pub(crate) const CONGESTED: NetworkRow = NetworkRow {
    zones: 2,
    borders: &[(0, 1, 50, 50)],
    orders: TWO_ZONES,
    gates: &[],
};

/// An order of one gate in each of two zones, and one of a second gate.
const GATED: &[OrderRow] = &[
    (0, UP, 10, 40, 3000, Some(0)),
    (1, UP, 10, 40, 3000, Some(1)),
];

const CASES: &[Case] = &[
    Case {
        name: "two zones without a border",
        market: TWICE_OVERSIZED,
        islands: &[
            [FIRST, NONE, (3, [0, 1, 4, 0]), FIRST],
            [SECOND, NONE, (3, [2, 3, 5, 0]), SECOND],
        ],
    },
    Case {
        name: "a border joins",
        market: CONGESTED,
        islands: &[[BOTH, FIRST, (3, [0, 1, 2, 0]), NONE]],
    },
    Case {
        name: "so does one that carries 5 MW back and nothing forth",
        market: NetworkRow {
            zones: 2,
            borders: &[(0, 1, 0, 5)],
            orders: &[],
            gates: &[],
        },
        islands: &[[BOTH, FIRST, NONE, NONE]],
    },
    Case {
        name: "a border that carries nothing is of no island",
        market: NetworkRow {
            zones: 2,
            borders: &[(0, 1, 0, 0)],
            orders: TWO_ZONES,
            gates: &[],
        },
        islands: &[
            [FIRST, NONE, FIRST, NONE],
            [SECOND, NONE, (2, [1, 2, 0, 0]), NONE],
        ],
    },
    Case {
        name: "but of the island in which it lies",
        market: NetworkRow {
            zones: 3,
            borders: &[(0, 2, 5, 0), (1, 0, 0, 0), (2, 1, 5, 0)],
            orders: &[],
            gates: &[],
        },
        islands: &[[(3, [0, 1, 2, 0]), (3, [0, 1, 2, 0]), NONE, NONE]],
    },
    Case {
        name: "islands are numbered by their first zones, and two have no orders",
        market: NetworkRow {
            zones: 4,
            borders: &[(3, 1, 5, 0)],
            orders: &[(3, UP, 0, 10, 1000, None), (1, DOWN, 0, 10, 2000, None)],
            gates: &[],
        },
        islands: &[
            [FIRST, NONE, NONE, NONE],
            [(2, [1, 3, 0, 0]), FIRST, BOTH, NONE],
            [(1, [2, 0, 0, 0]), NONE, NONE, NONE],
        ],
    },
    Case {
        name: "gates apart",
        market: NetworkRow {
            zones: 2,
            borders: &[],
            orders: GATED,
            gates: &[(Some(1), None), (Some(2), None)],
        },
        islands: &[[FIRST, NONE, FIRST, FIRST], [SECOND, NONE, SECOND, SECOND]],
    },
    Case {
        name: "gates of a group, without a border",
        market: NetworkRow {
            zones: 2,
            borders: &[],
            orders: GATED,
            gates: &[(Some(1), None), (Some(1), None)],
        },
        islands: &[[BOTH, NONE, BOTH, BOTH]],
    },
    Case {
        name: "a gate and its parent in another zone",
        market: NetworkRow {
            zones: 2,
            borders: &[],
            orders: GATED,
            gates: &[(None, None), (None, Some(0))],
        },
        islands: &[[BOTH, NONE, BOTH, BOTH]],
    },
    Case {
        name: "one gate in two zones",
        market: NetworkRow {
            zones: 2,
            borders: &[],
            orders: &[
                (0, UP, 10, 40, 3000, Some(0)),
                (1, UP, 10, 40, 3000, Some(0)),
            ],
            gates: &[(None, None)],
        },
        islands: &[[BOTH, NONE, BOTH, FIRST]],
    },
];

/// The market of a row, with the reference 40.00.
pub(crate) fn market_of(alloc: Global, row: &NetworkRow) -> Result<Market, AllocError> {
    let borders = row.borders.iter().map(|border| Border {
        from: border.0,
        to: border.1,
        limit: border.2,
        back: border.3,
    });
    let orders = row.orders.iter().map(|row| Order {
        zone: row.0,
        side: row.1,
        price: Cents(row.4),
        least: row.2,
        greatest: row.3,
        gate: row.5,
    });
    let gates = row.gates.iter().map(|row| GateInfo {
        group: row.0,
        parent: row.1,
    });
    Ok(Market {
        zones: row.zones,
        borders: Items::of(borders.collect(alloc)?),
        orders: Items::of(orders.collect(alloc)?),
        gates: Items::of(gates.collect(alloc)?),
        reference: Cents(4000),
    })
}

/// The numbers of an island.
fn row_of(island: &Island) -> IslandRow {
    [
        few(island.zones.as_slice()),
        few(island.borders.as_slice()),
        few(island.orders.as_slice()),
        few(island.gates.as_slice()),
    ]
}

/// How many islands a market has, and the numbers of the first three.
fn rows_of(alloc: Global, row: &NetworkRow) -> Result<(usize, [Option<IslandRow>; 3]), Fail> {
    let market = market_of(alloc, row)?;
    if !market.valid() {
        return Err("the market is valid".into());
    }
    let islands = islands_of(alloc, &market)?;
    let rows = [0, 1, 2].map(|place| islands.get(place).map(row_of));
    Ok((islands.len(), rows))
}

#[test]
fn islands_are_what_nothing_joins(rt: HostRuntime) -> Result<(), Fail> {
    for case in CASES {
        let expected = [0, 1, 2].map(|place| case.islands.get(place).copied());
        let rows = rows_of(rt.alloc(), &case.market)?;
        same_in(&rt, case.name, rows, (case.islands.len(), expected));
    }
    Ok(())
}
