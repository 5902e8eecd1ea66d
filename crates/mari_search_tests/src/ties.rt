//! Which of several optimal gate words is published, in small markets of one zone.
//!
//! Each market's first gate word was found by hand, and is found again by listing all gate words.

use crate::same::{same, same_in};
use crate::searches::alone;
use crate::small::{DOWN, Few, MarketRow, OrderRow, UP, few, market_of, opened, prefix};
use mari_gates::{gate_word, prefix_feasible};
use mari_market::{Activation, Cleared, Clearing, Finding, Leaf, Market, TreeItem};
use mari_node::examine;
use mari_prices::{Intervals, price_test};
use mari_welfare::is_feasible;
use std::alloc::Global;
use std::test::Fail;

/// The group and the parent of a gate.
type GateRow = (Option<u32>, Option<u32>);

/// A gate of no group and no parent.
const FREE: GateRow = (None, None);

/// A gate of the one group.
const EXCLUSIVE: GateRow = (Some(1), None);

/// A gate below the first one.
const CHILD: GateRow = (None, Some(0));

/// Two equal blocks, of which one is enough.
const TWO_EQUAL: MarketRow = MarketRow {
    limits: &[],
    orders: &[
        (0, UP, 30, 30, 3000, Some(0)),
        (0, UP, 30, 30, 3000, Some(1)),
        (0, UP, 0, 100, 5000, None),
        (0, DOWN, 0, 30, 9_999_900, None),
    ],
    gates: &[FREE, FREE],
};

/// Three equal blocks, of which two are enough.
const TWO_OF_THREE: &[OrderRow] = &[
    (0, UP, 10, 10, 3000, Some(0)),
    (0, UP, 10, 10, 3000, Some(1)),
    (0, UP, 10, 10, 3000, Some(2)),
    (0, UP, 0, 100, 5000, None),
    (0, DOWN, 0, 20, 9_999_900, None),
];

/// The gates of four equal blocks.
const FOUR: &[GateRow] = &[FREE, FREE, FREE, FREE];

/// A market, a budget that is enough, and the bits of the first gate word.
struct Case {
    name: &'static str,
    market: MarketRow,
    budget: u32,
    bits: u64,
}

const CASES: &[Case] = &[
    Case {
        name: "the best of sixteen gate words",
        market: MarketRow {
            limits: &[],
            orders: &[
                (0, UP, 10, 10, 6000, Some(0)),
                (0, UP, 1, 20, 1000, Some(1)),
                (0, UP, 25, 30, 4500, Some(2)),
                (0, UP, 15, 15, 3500, Some(3)),
                (0, UP, 0, 100, 7000, None),
                (0, DOWN, 0, 57, 9_999_900, None),
            ],
            gates: &[FREE, CHILD, FREE, FREE],
        },
        budget: 31,
        bits: 0b1011,
    },
    Case {
        name: "the later of two equal blocks",
        market: TWO_EQUAL,
        budget: 7,
        bits: 0b10,
    },
    Case {
        name: "two small blocks in the place of an earlier one",
        market: MarketRow {
            limits: &[],
            orders: &[
                (0, UP, 20, 20, 3000, Some(0)),
                (0, UP, 10, 10, 3000, Some(1)),
                (0, UP, 10, 10, 3000, Some(2)),
                (0, UP, 0, 100, 5000, None),
                (0, DOWN, 0, 20, 9_999_900, None),
            ],
            gates: &[FREE, FREE, FREE],
        },
        budget: 13,
        bits: 0b110,
    },
    Case {
        name: "one of a group and a free one",
        market: MarketRow {
            limits: &[],
            orders: TWO_OF_THREE,
            gates: &[EXCLUSIVE, EXCLUSIVE, FREE],
        },
        budget: 12,
        bits: 0b110,
    },
    Case {
        name: "a parent, and not its child",
        market: MarketRow {
            limits: &[],
            orders: TWO_OF_THREE,
            gates: &[FREE, CHILD, FREE],
        },
        budget: 12,
        bits: 0b101,
    },
    Case {
        name: "an earlier gate word of the same welfare is refuted",
        market: MarketRow {
            limits: &[],
            orders: &[
                (0, UP, 10, 10, 4000, Some(0)),
                (0, UP, 10, 10, 4000, Some(1)),
                (0, UP, 20, 20, 3000, Some(2)),
                (0, UP, 0, 20, 2000, None),
                (0, DOWN, 0, 30, 9_999_900, None),
            ],
            gates: &[FREE, FREE, FREE],
        },
        budget: 15,
        bits: 0b10,
    },
    Case {
        name: "a block at the price of a plain bid stays closed",
        market: MarketRow {
            limits: &[],
            orders: &[
                (0, UP, 30, 30, 5000, Some(0)),
                (0, UP, 0, 100, 5000, None),
                (0, DOWN, 0, 30, 9_999_900, None),
            ],
            gates: &[FREE],
        },
        budget: 1,
        bits: 0,
    },
    Case {
        name: "the last of four equal blocks",
        market: MarketRow {
            limits: &[],
            orders: &[
                (0, UP, 10, 10, 3000, Some(0)),
                (0, UP, 10, 10, 3000, Some(1)),
                (0, UP, 10, 10, 3000, Some(2)),
                (0, UP, 10, 10, 3000, Some(3)),
                (0, UP, 0, 100, 5000, None),
                (0, DOWN, 0, 10, 9_999_900, None),
            ],
            gates: FOUR,
        },
        budget: 31,
        bits: 0b1000,
    },
    Case {
        name: "the last two of four equal blocks",
        market: MarketRow {
            limits: &[],
            orders: &[
                (0, UP, 10, 10, 3000, Some(0)),
                (0, UP, 10, 10, 3000, Some(1)),
                (0, UP, 10, 10, 3000, Some(2)),
                (0, UP, 10, 10, 3000, Some(3)),
                (0, UP, 0, 100, 5000, None),
                (0, DOWN, 0, 20, 9_999_900, None),
            ],
            gates: FOUR,
        },
        budget: 31,
        bits: 0b1100,
    },
    Case {
        name: "the last three of four equal blocks",
        market: MarketRow {
            limits: &[],
            orders: &[
                (0, UP, 10, 10, 3000, Some(0)),
                (0, UP, 10, 10, 3000, Some(1)),
                (0, UP, 10, 10, 3000, Some(2)),
                (0, UP, 10, 10, 3000, Some(3)),
                (0, UP, 0, 100, 5000, None),
                (0, DOWN, 0, 30, 9_999_900, None),
            ],
            gates: FOUR,
        },
        budget: 31,
        bits: 0b1110,
    },
];

/// The bits of the gate word, where the activation is feasible.
fn gate_bits(market: &Market, activation: &Activation) -> Option<u64> {
    if market.valid() && is_feasible(market, activation) {
        Some(gate_word(market, activation).bits[0])
    } else {
        None
    }
}

/// The bits of the gate word at this place among those of `gates` gates, closed before open at the first gate that
/// differs.
fn word_at(place: u64, gates: u32) -> u64 {
    let mut bits = 0;
    for gate in 0..gates.min(8) {
        if place >> (gates.min(8) - 1 - gate) & 1 == 1 {
            bits |= 1 << gate;
        }
    }
    bits
}

/// The welfare of a finding's activation, if it has one.
fn best_welfare(finding: &Finding) -> Option<u64> {
    match finding {
        Finding::Relaxed(relaxed) => relaxed.best.as_ref().map(|best| best.welfare),
        Finding::Empty(_) => None,
    }
}

/// The greatest welfare of this gate word, if it has an admissible activation.
fn welfare_of_word(
    alloc: Global,
    market: &Market,
    gates: u32,
    bits: u64,
) -> Result<Option<u64>, Fail> {
    let prefix = prefix(gates, bits);
    if market.valid() && prefix_feasible(market, &prefix) {
        Ok(best_welfare(&examine(alloc, market, &prefix)?))
    } else {
        Ok(None)
    }
}

/// The bits of the first gate word of the greatest welfare, and that welfare, of all words of `gates` gates.
fn first_by_listing(alloc: Global, market: &Market, gates: u32) -> Result<(u64, u64), Fail> {
    let mut first = (0, 0);
    for place in 0..1_u64 << gates.min(8) {
        let bits = word_at(place, gates);
        if let Some(welfare) = welfare_of_word(alloc, market, gates, bits)?
            && first.1 < welfare
        {
            first = (bits, welfare);
        }
    }
    Ok(first)
}

/// What is reported of a clearing: the bits of the gates whose orders run, those of the gate word, the welfare, and the
/// number of the tree's items.
type Published = (u64, Option<u64>, u64, usize);

fn published(market: &Market, clearing: &Clearing) -> Published {
    let activation = &clearing.activation;
    (
        opened(market.orders.as_slice(), activation.mw.as_slice()),
        gate_bits(market, activation),
        clearing.welfare,
        clearing.tree.as_slice().len(),
    )
}

/// What is reported of the clearing that is published, if there is one.
fn published_in(market: &Market, cleared: &Cleared) -> Option<Published> {
    match cleared {
        Cleared::Published(clearing) => Some(published(market, clearing)),
        Cleared::Spent(_) | Cleared::Memory => None,
    }
}

/// What is reported of the clearing within a budget, if there is one.
fn reported_within(alloc: Global, market: &Market, budget: u32) -> Result<Option<Published>, Fail> {
    let cleared = alone(alloc, market, budget)?;
    let reported = published_in(market, &cleared);
    drop(cleared);
    Ok(reported)
}

/// What is reported of the clearing of a market, beside the first of its gate words by listing and that word's welfare.
type Reported = (Option<Published>, (u64, u64));

fn reported_of(alloc: Global, market: &Market, gates: u32, budget: u32) -> Result<Reported, Fail> {
    let listed = first_by_listing(alloc, market, gates)?;
    Ok((reported_within(alloc, market, budget)?, listed))
}

/// What is reported of a case.
fn reported_in(alloc: Global, case: &Case) -> Result<Reported, Fail> {
    let market = market_of(alloc, &case.market)?;
    let gates = case.market.gates.len().min(8) as u32;
    let reported = reported_of(alloc, &market, gates, case.budget);
    drop(market);
    reported
}

#[test]
fn the_first_optimal_gate_word_is_published(rt: HostRuntime) -> Result<(), Fail> {
    for case in CASES {
        let (published, (listed, greatest)) = reported_in(rt.alloc(), case)?;
        same_in(&rt, case.name, listed, case.bits);
        let (opened, word, welfare, items) = published.ok_or("it is published")?;
        same_in(&rt, case.name, (opened, word), (case.bits, Some(case.bits)));
        same_in(&rt, case.name, welfare, greatest);
        assert!(rt; items <= case.budget as usize);
    }
    Ok(())
}

/// The least and the greatest price of the first zone.
fn first_interval(intervals: &Intervals) -> Option<(i64, i64)> {
    let least = intervals.least.cents.as_slice().first()?;
    let greatest = intervals.greatest.cents.as_slice().first()?;
    Some((least.0, greatest.0))
}

/// The least and the greatest consistent price of the one zone, where the activation is feasible and has some.
fn interval(alloc: Global, market: &Market, activation: &Activation) -> Option<(i64, i64)> {
    if !market.valid() || !is_feasible(market, activation) {
        return None;
    }
    match price_test(alloc, market, activation) {
        Ok(intervals) => first_interval(&intervals),
        Err(_fault) => None,
    }
}

/// Whether the items are two branches and three bounds, in preorder.
fn is_two_branches_and_three_bounds(tree: &[TreeItem]) -> bool {
    matches!(
        tree,
        [
            TreeItem::Branch,
            TreeItem::Branch,
            TreeItem::Leaf(Leaf::Bound(_)),
            TreeItem::Leaf(Leaf::Bound(_)),
            TreeItem::Leaf(Leaf::Bound(_)),
        ]
    )
}

/// What is reported of two equal blocks: what the orders run, the welfare, the interval of the price, the number of the
/// tree's items and whether they are two branches and three bounds; or the number of items that the search is spent at.
type Later = Result<(Few, u64, Option<(i64, i64)>, usize, bool), usize>;

fn later(alloc: Global, market: &Market, cleared: &Cleared) -> Later {
    match cleared {
        Cleared::Published(clearing) => Ok((
            few(clearing.activation.mw.as_slice()),
            clearing.welfare,
            interval(alloc, market, &clearing.activation),
            clearing.tree.as_slice().len(),
            is_two_branches_and_three_bounds(clearing.tree.as_slice()),
        )),
        Cleared::Spent(spent) => Err(spent.items.as_slice().len()),
        Cleared::Memory => Err(usize::MAX),
    }
}

/// What is reported of what a search of two equal blocks comes to.
fn later_of(alloc: Global, market: &Market, budget: u32) -> Result<Later, Fail> {
    let cleared = alone(alloc, market, budget)?;
    let reported = later(alloc, market, &cleared);
    drop(cleared);
    Ok(reported)
}

/// What is reported of two equal blocks within a budget.
fn later_within(alloc: Global, budget: u32) -> Result<Later, Fail> {
    let market = market_of(alloc, &TWO_EQUAL)?;
    let reported = later_of(alloc, &market, budget);
    drop(market);
    reported
}

#[test]
fn five_nodes_are_the_least_for_the_later_of_two_blocks(rt: HostRuntime) -> Result<(), Fail> {
    for &budget in &[1, 2, 3, 4] {
        let spent = later_within(rt.alloc(), budget)?.err();
        assert!(rt; spent.is_some_and(|items| items <= budget as usize));
    }
    for &budget in &[5, 7, 50_000] {
        let later = later_within(rt.alloc(), budget)?.ok();
        let (mw, welfare, interval, items, small) = later.ok_or("it is published")?;
        same(&rt, (mw, welfare), ((4, [0, 30, 0, 30]), 299_907_000));
        same(&rt, interval, Some((3000, 5000)));
        assert!(rt; items == 7 || small);
        assert!(rt; budget > 5 || items == 5);
    }
    Ok(())
}
