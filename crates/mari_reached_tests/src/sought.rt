//! What a search is said to have found: what holds is answered, and all else by the closed optimum.

use crate::reported::{Activated, Reported, report_of};
use crate::same::same_in;
use crate::small::{CHEAPER, FAMILY, MarketRow, market_of};
use mari_market::{Market, Prefix, Prices};
use mari_reach::{Choice, MOST_VALUE, ReachItem, ReachLeaf};
use mari_reached::answer_of;
use mari_seek::{SearchEnd, Sought};
use mari_units::{Cents, Items, Quarters};
use std::alloc::{AllocError, Global};
use std::test::Fail;

/// An item of a tree.
enum ItemRow {
    /// A branch at a gate.
    Gate(u32),
    /// A leaf of potentials, in cents per MWh.
    Bound(&'static [i64]),
    /// A leaf of decisions that contradict each other.
    Void,
}

/// What is found in a market, the bits of its word and the potentials of its root, a budget, and what is answered.
struct Case {
    name: &'static str,
    market: MarketRow,
    budget: u32,
    end: SearchEnd,
    bits: u64,
    tree: &'static [ItemRow],
    potentials: &'static [i64],
    reported: Reported,
}

/// 15 MW at 1000.00, less 5 at 20.00 and 10 at 30.00: the first activation of the market `CHEAPER`.
const BEST: u64 = 1_460_000;

/// 15 MW at 1000.00 and 30.00: its closed optimum.
const CLOSED: u64 = 1_455_000;

/// The closed optimum, and the gap to the bound of 30.00 in both zones.
const FALLEN_BACK: Reported = Reported::Within(
    Activated {
        welfare: CLOSED,
        opened: 0,
        items: 1,
    },
    5000,
);

const CASES: &[Case] = &[
    Case {
        name: "a tree that holds for its word",
        market: CHEAPER,
        budget: 1,
        end: SearchEnd::Whole,
        bits: 2,
        tree: &[ItemRow::Bound(&[3000, 3000])],
        potentials: &[3000, 3000],
        reported: Reported::First(Activated {
            welfare: BEST,
            opened: 2,
            items: 1,
        }),
    },
    Case {
        name: "the same tree for a word of less welfare",
        market: CHEAPER,
        budget: 1,
        end: SearchEnd::Whole,
        bits: 0,
        tree: &[ItemRow::Bound(&[3000, 3000])],
        potentials: &[3000, 3000],
        reported: FALLEN_BACK,
    },
    Case {
        name: "a false leaf",
        market: CHEAPER,
        budget: 1,
        end: SearchEnd::Whole,
        bits: 2,
        tree: &[ItemRow::Void],
        potentials: &[3000, 3000],
        reported: FALLEN_BACK,
    },
    Case {
        name: "no item",
        market: CHEAPER,
        budget: 1,
        end: SearchEnd::Whole,
        bits: 2,
        tree: &[],
        potentials: &[3000, 3000],
        reported: FALLEN_BACK,
    },
    Case {
        name: "a tree of the budget's size",
        market: CHEAPER,
        budget: 3,
        end: SearchEnd::Whole,
        bits: 2,
        tree: &[
            ItemRow::Gate(0),
            ItemRow::Bound(&[3000, 3000]),
            ItemRow::Bound(&[3000, 3000]),
        ],
        potentials: &[3000, 3000],
        reported: Reported::First(Activated {
            welfare: BEST,
            opened: 2,
            items: 3,
        }),
    },
    Case {
        name: "a tree that is larger than the budget",
        market: CHEAPER,
        budget: 2,
        end: SearchEnd::Whole,
        bits: 2,
        tree: &[
            ItemRow::Gate(0),
            ItemRow::Bound(&[3000, 3000]),
            ItemRow::Bound(&[3000, 3000]),
        ],
        potentials: &[3000, 3000],
        reported: FALLEN_BACK,
    },
    Case {
        name: "a number at which the tree holds",
        market: CHEAPER,
        budget: 1,
        end: SearchEnd::Open(Quarters(1_470_000)),
        bits: 2,
        tree: &[ItemRow::Bound(&[3000, 3000])],
        potentials: &[3000, 3000],
        reported: Reported::Within(
            Activated {
                welfare: BEST,
                opened: 2,
                items: 1,
            },
            10_000,
        ),
    },
    Case {
        name: "a quarter-cent less than one at which it does",
        market: CHEAPER,
        budget: 1,
        end: SearchEnd::Open(Quarters(1_459_999)),
        bits: 2,
        tree: &[ItemRow::Bound(&[3000, 3000])],
        potentials: &[3000, 3000],
        reported: FALLEN_BACK,
    },
    Case {
        name: "a number that no dual value reaches",
        market: CHEAPER,
        budget: 1,
        end: SearchEnd::Open(Quarters(MOST_VALUE as i128 + 1)),
        bits: 2,
        tree: &[ItemRow::Bound(&[3000, 3000])],
        potentials: &[3000, 3000],
        reported: FALLEN_BACK,
    },
    Case {
        name: "a word that opens two of a group, and 80.00 for 30 MW",
        market: FAMILY,
        budget: 1,
        end: SearchEnd::Open(Quarters(240_000)),
        bits: 3,
        tree: &[ItemRow::Bound(&[9000])],
        potentials: &[9000],
        reported: Reported::Within(
            Activated {
                welfare: 0,
                opened: 0,
                items: 1,
            },
            240_000,
        ),
    },
    Case {
        name: "no potentials, and 1000.00 for 15 MW at the price 0",
        market: CHEAPER,
        budget: 1,
        end: SearchEnd::Whole,
        bits: 2,
        tree: &[],
        potentials: &[],
        reported: Reported::Within(
            Activated {
                welfare: CLOSED,
                opened: 0,
                items: 1,
            },
            45_000,
        ),
    },
];

/// These prices, in cents.
fn prices_of(alloc: Global, cents: &[i64]) -> Result<Prices, AllocError> {
    let cents = cents.iter().map(|price| Cents(*price)).collect(alloc)?;
    Ok(Prices {
        cents: Items::of(cents),
    })
}

fn item_of(alloc: Global, row: &ItemRow) -> Result<ReachItem, AllocError> {
    match row {
        ItemRow::Gate(gate) => Ok(ReachItem::Branch(Choice::OfGate(*gate))),
        ItemRow::Bound(cents) => Ok(ReachItem::Leaf(ReachLeaf::Bound(prices_of(alloc, cents)?))),
        ItemRow::Void => Ok(ReachItem::Leaf(ReachLeaf::Void)),
    }
}

/// What a case is said to have found.
fn sought_in(alloc: Global, case: &Case) -> Result<Sought, AllocError> {
    let mut tree = Vec::new(alloc);
    for row in case.tree {
        tree.push(item_of(alloc, row)?)?;
    }
    Ok(Sought {
        end: case.end,
        word: Prefix {
            length: u32::try_from(case.market.gates.len()).unwrap_or(0),
            bits: [case.bits, 0, 0, 0, 0, 0, 0, 0],
        },
        tree: Items::of(tree),
        potentials: prices_of(alloc, case.potentials)?,
    })
}

/// What is reported of the answer to what was found in a market.
fn reported_of(
    alloc: Global,
    market: &Market,
    budget: u32,
    sought: Sought,
) -> Result<Reported, Fail> {
    if !market.valid() || !(1..=50_000).contains(&budget) {
        return Err("the market is valid, and the budget in range".into());
    }
    let answer = answer_of(alloc, market, budget, sought)?;
    let reported = report_of(market, &answer);
    drop(answer);
    Ok(reported)
}

/// The same of a case.
fn reported_in(alloc: Global, case: &Case) -> Result<Reported, Fail> {
    let market = market_of(alloc, &case.market)?;
    let sought = sought_in(alloc, case)?;
    let reported = reported_of(alloc, &market, case.budget, sought);
    drop(market);
    reported
}

#[test]
fn what_does_not_hold_is_answered_by_the_closed_optimum(rt: HostRuntime) -> Result<(), Fail> {
    for case in CASES {
        let reported = reported_in(rt.alloc(), case)?;
        same_in(&rt, case.name, reported, case.reported);
    }
    Ok(())
}
