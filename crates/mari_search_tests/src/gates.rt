//! Groups and parents, each in one small market.

use crate::same::{same, same_in};
use crate::small::{Few, MarketRow, UP, few, market_of, prefix};
use mari_gates::{bound_of, bounds_of, comes_before, may_branch_up, prefix_feasible};
use mari_market::{Bounds, Market, Prefix};
use std::alloc::Global;
use std::test::Fail;

/// An indivisible bid.
const INDIVISIBLE: MarketRow = MarketRow {
    limits: &[],
    orders: &[(0, UP, 40, 40, 3000, Some(0))],
    gates: &[(None, None)],
};

/// Two bids of which at most one is activated, and a plain one.
const GROUP: MarketRow = MarketRow {
    limits: &[],
    orders: &[
        (0, UP, 1, 10, 1000, Some(0)),
        (0, UP, 1, 20, 2000, Some(1)),
        (0, UP, 0, 100, 5000, None),
    ],
    gates: &[(Some(7), None), (Some(7), None)],
};

/// A bid of 10 MW and its child of up to 20 MW.
const FAMILY: MarketRow = MarketRow {
    limits: &[],
    orders: &[
        (0, UP, 10, 10, 6000, Some(0)),
        (0, UP, 1, 20, 1000, Some(1)),
    ],
    gates: &[(None, None), (None, Some(0))],
};

/// A market, the prefix of `length` gates with the word `bits`, and the bounds of one order there, or none where the
/// prefix is not feasible.
struct Case {
    name: &'static str,
    market: MarketRow,
    length: u32,
    bits: u64,
    order: u32,
    bound: Option<(u32, u32)>,
}

const CASES: &[Case] = &[
    Case {
        name: "an indivisible bid runs whole where its gate is open",
        market: INDIVISIBLE,
        length: 1,
        bits: 1,
        order: 0,
        bound: Some((40, 40)),
    },
    Case {
        name: "an indivisible bid doesn't run where its gate is closed",
        market: INDIVISIBLE,
        length: 1,
        bits: 0,
        order: 0,
        bound: Some((0, 0)),
    },
    Case {
        name: "an indivisible bid runs anything before its gate is decided",
        market: INDIVISIBLE,
        length: 0,
        bits: 0,
        order: 0,
        bound: Some((0, 40)),
    },
    Case {
        name: "a child before a gate is decided",
        market: FAMILY,
        length: 0,
        bits: 0,
        order: 1,
        bound: Some((0, 20)),
    },
    Case {
        name: "a closed parent closes its child",
        market: FAMILY,
        length: 1,
        bits: 0,
        order: 1,
        bound: Some((0, 0)),
    },
    Case {
        name: "a parent that is open with its child",
        market: FAMILY,
        length: 2,
        bits: 3,
        order: 0,
        bound: Some((10, 10)),
    },
    Case {
        name: "not feasible: a child without its parent",
        market: FAMILY,
        length: 2,
        bits: 2,
        order: 0,
        bound: None,
    },
    Case {
        name: "not feasible: a bit past the end",
        market: FAMILY,
        length: 1,
        bits: 2,
        order: 0,
        bound: None,
    },
    Case {
        name: "not feasible: longer than the gates",
        market: FAMILY,
        length: 3,
        bits: 0,
        order: 0,
        bound: None,
    },
];

/// The bounds of one order, where the prefix is feasible.
fn bound(market: &Market, prefix: Prefix, order: u32) -> Option<(u32, u32)> {
    if market.valid()
        && prefix_feasible(market, &prefix)
        && (order as usize) < market.orders.as_slice().len()
    {
        Some(bound_of(market, &prefix, order))
    } else {
        None
    }
}

/// The bounds of a case.
fn bound_in(alloc: Global, case: &Case) -> Result<Option<(u32, u32)>, Fail> {
    let market = market_of(alloc, &case.market)?;
    let found = bound(&market, prefix(case.length, case.bits), case.order);
    drop(market);
    Ok(found)
}

#[test]
fn bounds_at_prefixes(rt: HostRuntime) -> Result<(), Fail> {
    for case in CASES {
        same_in(&rt, case.name, bound_in(rt.alloc(), case)?, case.bound);
    }
    Ok(())
}

/// Whether the next gate may be open, where there is one and the prefix is feasible.
fn may_open(market: &Market, prefix: Prefix) -> Option<bool> {
    if market.valid()
        && prefix_feasible(market, &prefix)
        && (prefix.length as usize) < market.gates.as_slice().len()
    {
        Some(may_branch_up(market, &prefix))
    } else {
        None
    }
}

/// The least and the greatest of each order, where the prefix is feasible.
fn bounds(alloc: Global, market: &Market, prefix: Prefix) -> Option<(Few, Few)> {
    if !(market.valid() && prefix_feasible(market, &prefix)) {
        return None;
    }
    match bounds_of(alloc, market, &prefix) {
        Ok(Bounds { least, greatest }) => Some((few(least.as_slice()), few(greatest.as_slice()))),
        Err(_memory) => None,
    }
}

#[test]
fn one_open_bid_closes_its_group(rt: HostRuntime) -> Result<(), Fail> {
    let market = market_of(rt.alloc(), &GROUP)?;
    let may_open = [
        may_open(&market, prefix(0, 0)),
        may_open(&market, prefix(1, 1)),
        may_open(&market, prefix(1, 0)),
    ];
    let bounds = bounds(rt.alloc(), &market, prefix(1, 1));
    drop(market);
    same(&rt, may_open, [Some(true), Some(false), Some(true)]);
    same(&rt, bounds, Some((few(&[1, 0, 0]), few(&[10, 0, 100]))));
    Ok(())
}

/// Whether a prefix comes before a word, where both are feasible.
fn before(market: &Market, first: Prefix, word: Prefix) -> Option<bool> {
    if market.valid()
        && prefix_feasible(market, &first)
        && prefix_feasible(market, &word)
        && word.length <= 512
    {
        Some(comes_before(&first, &word))
    } else {
        None
    }
}

#[test]
fn closed_comes_before_open_at_the_first_gate_that_differs(rt: HostRuntime) -> Result<(), Fail> {
    let market = market_of(rt.alloc(), &GROUP)?;
    let first_open = prefix(2, 1);
    let second_open = prefix(2, 2);
    let found = [
        before(&market, second_open, first_open),
        before(&market, first_open, second_open),
        before(&market, first_open, first_open),
        before(&market, prefix(0, 0), second_open),
        before(&market, prefix(1, 1), first_open),
    ];
    drop(market);
    same(
        &rt,
        found,
        [
            Some(true),
            Some(false),
            Some(false),
            Some(true),
            Some(false),
        ],
    );
    Ok(())
}
