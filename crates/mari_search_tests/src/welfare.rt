//! Activations of small markets: what they are worth, whether they are feasible, and whether they bear prices.

use crate::same::same_in;
use crate::small::{
    CONGESTED, DOWN, DOWNWARD, ELASTIC, MarketRow, PARADOX, UP, activation_of, market_of, prices_of,
};
use mari_market::{Activation, Market, Prices};
use mari_welfare::{is_consistent, is_feasible, welfare};
use std::alloc::Global;
use std::test::Fail;

/// The welfare, and whether the activation is feasible and the prices are consistent with it.
type Verdict = (i128, bool, bool);

/// What the orders run, what flows over the border, the prices, and the verdict on them.
type Row = (&'static [u32], &'static [i64], &'static [i64], Verdict);

/// A market, and activations of it.
struct Case {
    name: &'static str,
    market: MarketRow,
    rows: &'static [Row],
}

const CASES: &[Case] = &[
    Case {
        name: "two zones congested",
        market: CONGESTED,
        rows: &[
            (
                &[50, 30, 80],
                &[50],
                &[2000, 6000],
                (799_712_000, true, true),
            ),
            (
                &[50, 30, 80],
                &[50],
                &[2000, 6100],
                (799_712_000, true, false),
            ),
            (
                &[51, 29, 80],
                &[51],
                &[2000, 6000],
                (799_716_000, false, true),
            ),
            (
                &[50, 30, 80],
                &[49],
                &[2000, 6000],
                (799_712_000, false, false),
            ),
        ],
    },
    Case {
        name: "lengths that differ",
        market: MarketRow {
            limits: &[(50, 50)],
            orders: &[(0, UP, 0, 100, 2000, None), (1, DOWN, 0, 80, 2000, None)],
            gates: &[],
        },
        rows: &[
            (&[0, 0], &[0, 0], &[2000, 2000], (0, false, false)),
            (&[0, 0], &[0], &[2000], (0, true, false)),
            (&[0, 0], &[0], &[2000, 2000], (0, true, true)),
        ],
    },
    Case {
        name: "paradox bid",
        market: PARADOX,
        rows: &[
            (&[30, 20, 50], &[], &[1000], (499_925_000, true, false)),
            (&[30, 20, 50], &[], &[2000], (499_925_000, true, false)),
            (&[40, 0, 40], &[], &[9_999_900], (399_956_000, true, true)),
            (&[40, 0, 40], &[], &[9_999_901], (399_956_000, true, false)),
            (&[30, 19, 49], &[], &[1000], (489_927_100, false, false)),
        ],
    },
    Case {
        name: "exclusive group",
        market: MarketRow {
            limits: &[],
            orders: &[
                (0, UP, 1, 10, 1000, Some(0)),
                (0, UP, 1, 20, 2000, Some(1)),
                (0, UP, 0, 100, 5000, None),
                (0, DOWN, 0, 25, 9_999_900, None),
            ],
            gates: &[(Some(7), None), (Some(7), None)],
        },
        rows: &[
            (&[0, 20, 5, 25], &[], &[5000], (249_932_500, true, true)),
            (&[5, 20, 0, 25], &[], &[5000], (249_952_500, false, false)),
        ],
    },
    Case {
        name: "child with and without its parent",
        market: MarketRow {
            limits: &[],
            orders: &[
                (0, UP, 10, 10, 6000, Some(0)),
                (0, UP, 1, 20, 1000, Some(1)),
                (0, UP, 0, 100, 6000, None),
                (0, DOWN, 0, 40, 9_999_900, None),
            ],
            gates: &[(None, None), (None, Some(0))],
        },
        rows: &[
            (&[10, 20, 10, 40], &[], &[6000], (399_856_000, true, true)),
            (&[0, 20, 20, 40], &[], &[6000], (399_856_000, false, true)),
        ],
    },
    Case {
        name: "downward bid",
        market: DOWNWARD,
        rows: &[(&[30, 30], &[], &[1000], (300_027_000, true, true))],
    },
    Case {
        name: "elastic demand",
        market: ELASTIC,
        rows: &[
            (&[50, 20, 30], &[], &[3999], (19_000, true, false)),
            (&[50, 20, 30], &[], &[4000], (19_000, true, true)),
            (&[50, 20, 30], &[], &[4200], (19_000, true, true)),
            (&[50, 20, 30], &[], &[4201], (19_000, true, false)),
        ],
    },
];

/// The verdict, where the market is valid and each order runs some quantity.
fn judge(market: &Market, activation: &Activation, prices: &Prices) -> Option<Verdict> {
    if market.valid() && activation.mw.as_slice().len() == market.orders.as_slice().len() {
        Some((
            welfare(market, activation).0,
            is_feasible(market, activation),
            is_consistent(market, activation, prices),
        ))
    } else {
        None
    }
}

fn judged(alloc: Global, market: &MarketRow, row: &Row) -> Result<Option<Verdict>, Fail> {
    let market = market_of(alloc, market)?;
    let activation = activation_of(alloc, row.0, row.1)?;
    let prices = prices_of(alloc, row.2)?;
    let verdict = judge(&market, &activation, &prices);
    drop(prices);
    drop(activation);
    drop(market);
    Ok(verdict)
}

#[test]
fn activations_and_prices(rt: HostRuntime) -> Result<(), Fail> {
    for case in CASES {
        for row in case.rows {
            let verdict = judged(rt.alloc(), &case.market, row)?;
            same_in(&rt, case.name, verdict, Some(row.3));
        }
    }
    Ok(())
}
