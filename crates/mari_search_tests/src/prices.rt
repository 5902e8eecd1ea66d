//! Prices, intervals and areas of small markets, and chains of those that have none.

use crate::same::{same, same_in};
use crate::small::{
    CONGESTED, DOWN, DOWNWARD, ELASTIC, Few, MarketRow, OrderRow, PARADOX, TWO_ZONES, UP,
    activation_of, few, market_of,
};
use mari_market::{Activation, Market};
use mari_prices::{Intervals, PriceFault, areas, nearest, price_test};
use mari_units::Cents;
use mari_welfare::is_feasible;
use std::alloc::Global;
use std::test::Fail;

/// A zone's published price, the least and the greatest of its interval, and its area.
type Zone = (i64, i64, i64, u32);

/// A market, what its orders run and what flows over its border; and what is reported of that: of each zone, or the
/// chain of a conflict.
struct Case {
    name: &'static str,
    market: MarketRow,
    mw: &'static [u32],
    flow: &'static [i64],
    zones: [Option<Zone>; 2],
    chain: &'static [u32],
}

/// The orders of two zones whose demand the first could meet alone.
const SMALL_DEMAND: &[OrderRow] = &[
    (0, UP, 0, 100, 2000, None),
    (1, UP, 0, 100, 6000, None),
    (1, DOWN, 0, 30, 9_999_900, None),
];

const CASES: &[Case] = &[
    Case {
        name: "price at the end of its interval",
        market: MarketRow {
            limits: &[],
            orders: &[
                (0, UP, 0, 20, 1000, None),
                (0, UP, 30, 30, 5000, Some(0)),
                (0, DOWN, 0, 50, 9_999_900, None),
            ],
            gates: &[(None, None)],
        },
        mw: &[20, 30, 50],
        flow: &[],
        zones: [Some((5000, 5000, 9_999_900, 1)), None],
        chain: &[],
    },
    Case {
        name: "two zones congested",
        market: CONGESTED,
        mw: &[50, 30, 80],
        flow: &[50],
        zones: [Some((2000, 2000, 2000, 1)), Some((6000, 6000, 6000, 2))],
        chain: &[],
    },
    Case {
        name: "two zones, the price of one between the bids",
        market: MarketRow {
            limits: &[(80, 50)],
            orders: TWO_ZONES,
            gates: &[],
        },
        mw: &[80, 0, 80],
        flow: &[80],
        zones: [Some((2000, 2000, 2000, 1)), Some((4000, 2000, 6000, 2))],
        chain: &[],
    },
    Case {
        name: "two zones apart",
        market: MarketRow {
            limits: &[(0, 0)],
            orders: SMALL_DEMAND,
            gates: &[],
        },
        mw: &[0, 30, 30],
        flow: &[0],
        zones: [
            Some((2000, -9_999_900, 2000, 1)),
            Some((6000, 6000, 6000, 2)),
        ],
        chain: &[],
    },
    Case {
        name: "two zones joined",
        market: MarketRow {
            limits: &[(50, 0)],
            orders: SMALL_DEMAND,
            gates: &[],
        },
        mw: &[30, 0, 30],
        flow: &[30],
        zones: [Some((2000, 2000, 2000, 1)), Some((2000, 2000, 2000, 1))],
        chain: &[],
    },
    Case {
        name: "odd quarter-cent of rent",
        market: MarketRow {
            limits: &[(1, 0)],
            orders: &[
                (0, UP, 0, 10, 2000, None),
                (1, UP, 0, 10, 2001, None),
                (1, DOWN, 0, 5, 9_999_900, None),
            ],
            gates: &[],
        },
        mw: &[1, 4, 5],
        flow: &[1],
        zones: [Some((2000, 2000, 2000, 1)), Some((2001, 2001, 2001, 2))],
        chain: &[],
    },
    Case {
        name: "paradox bid accepted",
        market: PARADOX,
        mw: &[30, 20, 50],
        flow: &[],
        zones: [None, None],
        chain: &[0],
    },
    Case {
        name: "paradox bid rejected",
        market: PARADOX,
        mw: &[40, 0, 40],
        flow: &[],
        zones: [Some((9_999_900, 9_999_900, 9_999_900, 1)), None],
        chain: &[],
    },
    Case {
        name: "paradox bid of another zone",
        market: MarketRow {
            limits: &[(50, 0)],
            orders: &[
                (1, UP, 0, 40, 1000, None),
                (0, UP, 20, 20, 2000, Some(0)),
                (1, DOWN, 0, 50, 9_999_900, None),
            ],
            gates: &[(None, None)],
        },
        mw: &[30, 20, 50],
        flow: &[20],
        zones: [None, None],
        chain: &[0, 1],
    },
    Case {
        name: "elastic demand",
        market: ELASTIC,
        mw: &[50, 20, 30],
        flow: &[],
        zones: [Some((4000, 4000, 4200, 1)), None],
        chain: &[],
    },
    Case {
        name: "downward bid",
        market: DOWNWARD,
        mw: &[30, 30],
        flow: &[],
        zones: [Some((1000, 1000, 1000, 1)), None],
        chain: &[],
    },
];

/// What is reported of both zones, how many have an area, and the chain.
type Reported = ([Option<Zone>; 2], usize, Few);

/// What is reported of a zone, where it has an interval and an area.
fn zone_in(intervals: &Intervals, areas: &[u32], zone: usize) -> Option<Zone> {
    let least = intervals.least.cents.as_slice().get(zone);
    let greatest = intervals.greatest.cents.as_slice().get(zone);
    match (least, greatest, areas.get(zone)) {
        (Some(least), Some(greatest), Some(area)) if least.0 <= greatest.0 => {
            let price = nearest(*least, *greatest, Cents(4000));
            Some((price.0, least.0, greatest.0, *area))
        }
        _ => None,
    }
}

/// What is reported of intervals or of why there are none, beside the areas.
fn reported(tested: Result<Intervals, PriceFault>, areas: &[u32]) -> Result<Reported, Fail> {
    match tested {
        Ok(intervals) => {
            let zones = [zone_in(&intervals, areas, 0), zone_in(&intervals, areas, 1)];
            Ok((zones, areas.len(), few(&[])))
        }
        Err(PriceFault::Conflict(chain)) => { Ok(([None; 2], areas.len(), few(chain.as_slice()))) }
        Err(PriceFault::Memory) => Err("memory".into()),
    }
}

/// What is reported of an activation.
fn reported_of(alloc: Global, market: &Market, activation: &Activation) -> Result<Reported, Fail> {
    if !(market.valid() && is_feasible(market, activation)) {
        return Err("the market is valid, and the activation is feasible".into());
    }
    let areas = areas(alloc, market, activation)?;
    let reported = reported(price_test(alloc, market, activation), &areas);
    drop(areas);
    reported
}

/// What is reported of a case.
fn reported_in(alloc: Global, case: &Case) -> Result<Reported, Fail> {
    let market = market_of(alloc, &case.market)?;
    let activation = activation_of(alloc, case.mw, case.flow)?;
    let reported = reported_of(alloc, &market, &activation);
    drop(activation);
    drop(market);
    reported
}

#[test]
fn prices_areas_and_chains(rt: HostRuntime) -> Result<(), Fail> {
    for case in CASES {
        let count = if case.market.limits.is_empty() { 1 } else { 2 };
        let want = (case.zones, count, few(case.chain));
        same_in(&rt, case.name, reported_in(rt.alloc(), case)?, want);
    }
    Ok(())
}

#[test]
fn nearest_price(rt: HostRuntime) {
    let within = nearest(Cents(2000), Cents(6000), Cents(4000));
    let beyond = nearest(Cents(5000), Cents(9_999_900), Cents(4000));
    same(&rt, [within, beyond], [Cents(4000), Cents(5000)]);
}
