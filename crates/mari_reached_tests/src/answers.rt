//! Answers for small markets, whose optimum is worked out by hand.

use crate::reported::{Activated, Reported, report_of};
use crate::same::same_in;
use crate::small::{
    CHEAPER, FAMILY, MarketRow, OVERSIZED, PARADOX, PLAIN, TIE, TWICE_PARADOX, market_of,
};
use mari_market::Market;
use mari_reached::reach;
use std::alloc::Global;
use std::test::Fail;

/// A market, a budget, and what is reported of the answer; its items are at most the budget's.
struct Case {
    name: &'static str,
    market: MarketRow,
    budget: u32,
    reported: Reported,
}

const CASES: &[Case] = &[
    Case {
        name: "without gates one item is enough",
        market: PLAIN,
        budget: 1,
        // 2.00 for 20 MW.
        reported: Reported::First(Activated {
            welfare: 4000,
            opened: 0,
            items: 1,
        }),
    },
    Case {
        name: "a bid that gains is open at the root, and the budget of 1 is enough",
        market: CHEAPER,
        budget: 1,
        // 15 MW at 1000.00, less 5 at 20.00 and 10 at 30.00.
        reported: Reported::First(Activated {
            welfare: 1_460_000,
            opened: 2,
            items: 1,
        }),
    },
    Case {
        name: "an oversized bid is left out, by a branch at its gate",
        market: OVERSIZED,
        budget: 50_000,
        // 99949.00 for 30 MW.
        reported: Reported::First(Activated {
            welfare: 299_847_000,
            opened: 0,
            items: 3,
        }),
    },
    Case {
        name: "a paradox bid is left out, by a branch at its gate",
        market: PARADOX,
        budget: 3,
        // 99989.00 for 40 MW.
        reported: Reported::First(Activated {
            welfare: 399_956_000,
            opened: 0,
            items: 3,
        }),
    },
    Case {
        name: "with a budget of 2 the gap is up to the relaxed optimum, which runs half of the paradox bid",
        market: PARADOX,
        budget: 2,
        // 50 MW at 99999.00, less 40 at 10.00 and 10 at 20.00, less the optimum.
        reported: Reported::Within(
            Activated {
                welfare: 399_956_000,
                opened: 0,
                items: 1,
            },
            499_935_000 - 399_956_000,
        ),
    },
    Case {
        name: "and so with a budget of 1",
        market: PARADOX,
        budget: 1,
        reported: Reported::Within(
            Activated {
                welfare: 399_956_000,
                opened: 0,
                items: 1,
            },
            499_935_000 - 399_956_000,
        ),
    },
    Case {
        name: "a branch at one of two paradox bids leaves the gap of the other",
        market: TWICE_PARADOX,
        budget: 3,
        reported: Reported::Within(
            Activated {
                welfare: 799_912_000,
                opened: 0,
                items: 3,
            },
            499_935_000 - 399_956_000,
        ),
    },
    Case {
        name: "both are left out within a budget of 5",
        market: TWICE_PARADOX,
        budget: 5,
        reported: Reported::First(Activated {
            welfare: 799_912_000,
            opened: 0,
            items: 5,
        }),
    },
];

/// What is reported of the answer for a market.
fn reported_of(alloc: Global, market: &Market, budget: u32) -> Result<Reported, Fail> {
    if !market.valid() || !(1..=50_000).contains(&budget) {
        return Err("the market is valid, and the budget in range".into());
    }
    let answer = reach(alloc, market, budget)?;
    let reported = report_of(market, &answer);
    drop(answer);
    Ok(reported)
}

/// The same of a row.
fn reported_of_row(alloc: Global, row: &MarketRow, budget: u32) -> Result<Reported, Fail> {
    let market = market_of(alloc, row)?;
    let reported = reported_of(alloc, &market, budget);
    drop(market);
    reported
}

#[test]
fn small_markets_come_to_what_is_worked_out_by_hand(rt: HostRuntime) -> Result<(), Fail> {
    for case in CASES {
        let reported = reported_of_row(rt.alloc(), &case.market, case.budget)?;
        same_in(&rt, case.name, reported, case.reported);
    }
    Ok(())
}

/// A market, and the welfare and gate word of its first activation, whatever its tree is.
struct FirstCase {
    name: &'static str,
    market: MarketRow,
    welfare: u64,
    opened: u64,
}

const FIRST: &[FirstCase] = &[
    FirstCase {
        name: "the bid of a group that has a child, with it",
        market: FAMILY,
        // 80.00 for 20 MW.
        welfare: 160_000,
        opened: 5,
    },
    FirstCase {
        name: "of two equal bids the later one",
        market: TIE,
        welfare: 80_000,
        opened: 2,
    },
];

#[test]
fn ties_and_families_come_to_the_first_activation(rt: HostRuntime) -> Result<(), Fail> {
    for case in FIRST {
        let reported = reported_of_row(rt.alloc(), &case.market, 50_000)?;
        let found = match reported {
            Reported::First(found) => Some((found.welfare, found.opened)),
            Reported::Within(_, _) => None,
        };
        same_in(&rt, case.name, found, Some((case.welfare, case.opened)));
    }
    Ok(())
}
