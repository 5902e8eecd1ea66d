//! Leaves that hold or not.

use crate::same::same_in;
use crate::small::{
    CHEAPER, EQUAL, FAMILY, MarketRow, ONE_PRICE, OVERSIZED, market_of, prefix, prices_of,
};
use mari_market::{Cut, CutSide, Market, Prefix};
use mari_reach::{Decision, ReachLeaf, are_decisions, check_leaf};
use mari_units::{Cents, Items, Quarters};
use std::alloc::{AllocError, Global};
use std::test::Fail;

/// A leaf.
pub(crate) enum LeafRow {
    /// The decisions contradict each other.
    Void,
    /// Potentials, in cents per MWh.
    Bound(&'static [i64]),
    /// A cut of one zone.
    Cut(CutSide, u32),
}

/// Decisions in a market, a leaf, a cutoff and the bits of the word; and whether the leaf holds.
struct Case {
    name: &'static str,
    market: MarketRow,
    decisions: &'static [Decision],
    leaf: LeafRow,
    cutoff: i128,
    gates: u32,
    bits: u64,
    holds: bool,
}

/// The first gate is open.
const FIRST_OPEN: Decision = Decision::Gate(0, true);

/// The first gate is closed.
const FIRST_CLOSED: Decision = Decision::Gate(0, false);

const CASES: &[Case] = &[
    Case {
        name: "an open gate of an exclusive group closes the other, whose opening is void",
        market: FAMILY,
        decisions: &[FIRST_OPEN, Decision::Gate(1, true)],
        leaf: LeafRow::Void,
        cutoff: 0,
        gates: 3,
        bits: 0,
        holds: true,
    },
    Case {
        name: "a child opens its parent, so that its rival is void too",
        market: FAMILY,
        decisions: &[Decision::Gate(2, true), Decision::Gate(1, true)],
        leaf: LeafRow::Void,
        cutoff: 0,
        gates: 3,
        bits: 0,
        holds: true,
    },
    Case {
        name: "a child below a parent that is closed is void",
        market: FAMILY,
        decisions: &[Decision::Gate(2, true), FIRST_CLOSED],
        leaf: LeafRow::Void,
        cutoff: 0,
        gates: 3,
        bits: 0,
        holds: true,
    },
    Case {
        name: "a child alone isn't",
        market: FAMILY,
        decisions: &[Decision::Gate(2, true)],
        leaf: LeafRow::Void,
        cutoff: 0,
        gates: 3,
        bits: 0,
        holds: false,
    },
    Case {
        name: "no price is both at most one and above it",
        market: OVERSIZED,
        decisions: &[
            Decision::AtMost(0, Cents(2000)),
            Decision::Above(0, Cents(2000)),
        ],
        leaf: LeafRow::Void,
        cutoff: 0,
        gates: 1,
        bits: 0,
        holds: true,
    },
    Case {
        name: "but one is at most the next",
        market: OVERSIZED,
        decisions: &[
            Decision::AtMost(0, Cents(2001)),
            Decision::Above(0, Cents(2000)),
        ],
        leaf: LeafRow::Void,
        cutoff: 0,
        gates: 1,
        bits: 0,
        holds: false,
    },
    Case {
        name: "an open gate can't be paid by a lower price",
        market: ONE_PRICE,
        decisions: &[FIRST_OPEN, Decision::AtMost(0, Cents(4999))],
        leaf: LeafRow::Void,
        cutoff: 0,
        gates: 2,
        bits: 0,
        holds: true,
    },
    Case {
        name: "but by its own",
        market: ONE_PRICE,
        decisions: &[FIRST_OPEN, Decision::AtMost(0, Cents(5000))],
        leaf: LeafRow::Void,
        cutoff: 0,
        gates: 2,
        bits: 0,
        holds: false,
    },
    Case {
        name: "a void state has no bound",
        market: ONE_PRICE,
        decisions: &[FIRST_OPEN, Decision::AtMost(0, Cents(4999))],
        leaf: LeafRow::Bound(&[3000, 3000]),
        cutoff: 1000000000,
        gates: 2,
        bits: 0,
        holds: false,
    },
    Case {
        name: "which one that isn't void has",
        market: ONE_PRICE,
        decisions: &[FIRST_OPEN, Decision::AtMost(0, Cents(5000))],
        leaf: LeafRow::Bound(&[3000, 3000]),
        cutoff: 1000000000,
        gates: 2,
        bits: 0,
        holds: true,
    },
    Case {
        name: "an oversized bid is cut",
        market: OVERSIZED,
        decisions: &[FIRST_OPEN],
        leaf: LeafRow::Cut(CutSide::Out, 0),
        cutoff: 0,
        gates: 1,
        bits: 0,
        holds: true,
    },
    Case {
        name: "a closed one isn't",
        market: OVERSIZED,
        decisions: &[FIRST_CLOSED],
        leaf: LeafRow::Cut(CutSide::Out, 0),
        cutoff: 0,
        gates: 1,
        bits: 0,
        holds: false,
    },
    Case {
        name: "a void state has no cut",
        market: OVERSIZED,
        decisions: &[FIRST_OPEN, Decision::AtMost(0, Cents(2999))],
        leaf: LeafRow::Cut(CutSide::Out, 0),
        cutoff: 0,
        gates: 1,
        bits: 0,
        holds: false,
    },
    Case {
        name: "a bid that is open in the dearer zone has no way out",
        market: ONE_PRICE,
        decisions: &[FIRST_OPEN, Decision::AtMost(1, Cents(4999))],
        leaf: LeafRow::Cut(CutSide::Out, 0),
        cutoff: 0,
        gates: 2,
        bits: 0,
        holds: true,
    },
    Case {
        name: "but where the other zone may be as dear",
        market: ONE_PRICE,
        decisions: &[FIRST_OPEN, Decision::AtMost(1, Cents(5000))],
        leaf: LeafRow::Cut(CutSide::Out, 0),
        cutoff: 0,
        gates: 2,
        bits: 0,
        holds: false,
    },
    Case {
        name: "nor where nothing is said of its price",
        market: ONE_PRICE,
        decisions: &[FIRST_OPEN],
        leaf: LeafRow::Cut(CutSide::Out, 0),
        cutoff: 0,
        gates: 2,
        bits: 0,
        holds: false,
    },
    Case {
        name: "a bid that always gains has too much",
        market: ONE_PRICE,
        decisions: &[FIRST_OPEN, Decision::Above(1, Cents(4999))],
        leaf: LeafRow::Cut(CutSide::Out, 1),
        cutoff: 0,
        gates: 2,
        bits: 0,
        holds: true,
    },
    Case {
        name: "and at its own price it need not run",
        market: ONE_PRICE,
        decisions: &[FIRST_OPEN, Decision::Above(1, Cents(2999))],
        leaf: LeafRow::Cut(CutSide::Out, 1),
        cutoff: 0,
        gates: 2,
        bits: 0,
        holds: false,
    },
    Case {
        name: "a border to a zone that is always dearer is full, which costs at other potentials",
        market: ONE_PRICE,
        decisions: &[
            Decision::AtMost(0, Cents(2500)),
            Decision::Above(1, Cents(2500)),
        ],
        leaf: LeafRow::Bound(&[3000, 2000]),
        cutoff: 1450000,
        gates: 2,
        bits: 0,
        holds: true,
    },
    Case {
        name: "and not less than that",
        market: ONE_PRICE,
        decisions: &[
            Decision::AtMost(0, Cents(2500)),
            Decision::Above(1, Cents(2500)),
        ],
        leaf: LeafRow::Bound(&[3000, 2000]),
        cutoff: 1449999,
        gates: 2,
        bits: 0,
        holds: false,
    },
    Case {
        name: "but it isn't where the prices may be the same",
        market: ONE_PRICE,
        decisions: &[
            Decision::AtMost(0, Cents(2501)),
            Decision::Above(1, Cents(2500)),
        ],
        leaf: LeafRow::Bound(&[3000, 2000]),
        cutoff: 1450000,
        gates: 2,
        bits: 0,
        holds: false,
    },
    Case {
        name: "a potential bounds at its dual value",
        market: OVERSIZED,
        decisions: &[FIRST_CLOSED],
        leaf: LeafRow::Bound(&[5000]),
        cutoff: 299847000,
        gates: 1,
        bits: 0,
        holds: true,
    },
    Case {
        name: "and not below it",
        market: OVERSIZED,
        decisions: &[FIRST_CLOSED],
        leaf: LeafRow::Bound(&[5000]),
        cutoff: 299846999,
        gates: 1,
        bits: 0,
        holds: false,
    },
    Case {
        name: "nor for a later word at its dual value",
        market: OVERSIZED,
        decisions: &[FIRST_CLOSED],
        leaf: LeafRow::Bound(&[5000]),
        cutoff: 299847000,
        gates: 1,
        bits: 1,
        holds: false,
    },
    Case {
        name: "but above it",
        market: OVERSIZED,
        decisions: &[FIRST_CLOSED],
        leaf: LeafRow::Bound(&[5000]),
        cutoff: 299847001,
        gates: 1,
        bits: 1,
        holds: true,
    },
    Case {
        name: "a free gate that doesn't gain bounds no word that opens it",
        market: ONE_PRICE,
        decisions: &[FIRST_CLOSED],
        leaf: LeafRow::Bound(&[3000, 3000]),
        cutoff: 1455000,
        gates: 2,
        bits: 2,
        holds: false,
    },
    Case {
        name: "one that gains does",
        market: CHEAPER,
        decisions: &[FIRST_CLOSED],
        leaf: LeafRow::Bound(&[3000, 3000]),
        cutoff: 1460000,
        gates: 2,
        bits: 2,
        holds: true,
    },
    Case {
        name: "but none that opens an earlier one",
        market: CHEAPER,
        decisions: &[FIRST_CLOSED],
        leaf: LeafRow::Bound(&[3000, 3000]),
        cutoff: 1460000,
        gates: 2,
        bits: 1,
        holds: false,
    },
    Case {
        name: "and every earlier word",
        market: CHEAPER,
        decisions: &[FIRST_CLOSED],
        leaf: LeafRow::Bound(&[3000, 3000]),
        cutoff: 1460000,
        gates: 2,
        bits: 0,
        holds: true,
    },
    Case {
        name: "a gate whose group has another open gate adds nothing",
        market: FAMILY,
        decisions: &[FIRST_OPEN],
        leaf: LeafRow::Bound(&[5000]),
        cutoff: 200000,
        gates: 3,
        bits: 0,
        holds: true,
    },
    Case {
        name: "but the open gate's child, which is free, does",
        market: FAMILY,
        decisions: &[FIRST_OPEN],
        leaf: LeafRow::Bound(&[5000]),
        cutoff: 199999,
        gates: 3,
        bits: 0,
        holds: false,
    },
    Case {
        name: "the word of a bound opens the open gate and the child that gains",
        market: FAMILY,
        decisions: &[FIRST_OPEN],
        leaf: LeafRow::Bound(&[5000]),
        cutoff: 200000,
        gates: 3,
        bits: 5,
        holds: true,
    },
    Case {
        name: "which comes before one that opens the first two",
        market: FAMILY,
        decisions: &[FIRST_OPEN],
        leaf: LeafRow::Bound(&[5000]),
        cutoff: 200000,
        gates: 3,
        bits: 3,
        holds: false,
    },
    Case {
        name: "orders that always lose add nothing at a potential at which they would gain",
        market: OVERSIZED,
        decisions: &[Decision::AtMost(0, Cents(2000))],
        leaf: LeafRow::Bound(&[6000]),
        cutoff: 299817000,
        gates: 1,
        bits: 0,
        holds: true,
    },
    Case {
        name: "and what always gains isn't less than its greatest",
        market: OVERSIZED,
        decisions: &[Decision::AtMost(0, Cents(2000))],
        leaf: LeafRow::Bound(&[6000]),
        cutoff: 299816999,
        gates: 1,
        bits: 0,
        holds: false,
    },
    Case {
        name: "a demand that always gains runs in full at a potential at which it would lose",
        market: ONE_PRICE,
        decisions: &[Decision::AtMost(1, Cents(4000))],
        leaf: LeafRow::Bound(&[200_000, 200_000]),
        cutoff: 21130000,
        gates: 2,
        bits: 0,
        holds: true,
    },
    Case {
        name: "and one at a price that it may pay need not",
        market: ONE_PRICE,
        decisions: &[Decision::AtMost(1, Cents(100_000))],
        leaf: LeafRow::Bound(&[200_000, 200_000]),
        cutoff: 22629999,
        gates: 2,
        bits: 0,
        holds: false,
    },
    Case {
        name: "a closed gate closes its twins of worse rank, whose gains the bound leaves out",
        market: EQUAL,
        decisions: &[Decision::Gate(1, false)],
        leaf: LeafRow::Bound(&[5000]),
        cutoff: 2405000,
        gates: 3,
        bits: 4,
        holds: true,
    },
    Case {
        name: "to the quarter-cent",
        market: EQUAL,
        decisions: &[Decision::Gate(1, false)],
        leaf: LeafRow::Bound(&[5000]),
        cutoff: 2404999,
        gates: 3,
        bits: 4,
        holds: false,
    },
    Case {
        name: "the one of worst rank closes no other",
        market: EQUAL,
        decisions: &[FIRST_CLOSED],
        leaf: LeafRow::Bound(&[5000]),
        cutoff: 2405000,
        gates: 3,
        bits: 4,
        holds: false,
    },
    Case {
        name: "but leaves their gains to the bound",
        market: EQUAL,
        decisions: &[FIRST_CLOSED],
        leaf: LeafRow::Bound(&[5000]),
        cutoff: 2435000,
        gates: 3,
        bits: 6,
        holds: true,
    },
    Case {
        name: "the twins of better rank of an open gate are open in its word",
        market: EQUAL,
        decisions: &[Decision::Gate(1, true)],
        leaf: LeafRow::Bound(&[2000]),
        cutoff: 2450000,
        gates: 3,
        bits: 6,
        holds: true,
    },
    Case {
        name: "and those of worse rank aren't",
        market: EQUAL,
        decisions: &[Decision::Gate(1, true)],
        leaf: LeafRow::Bound(&[2000]),
        cutoff: 2450000,
        gates: 3,
        bits: 7,
        holds: false,
    },
    Case {
        name: "three equal bids that run are more than the demand",
        market: EQUAL,
        decisions: &[FIRST_OPEN],
        leaf: LeafRow::Cut(CutSide::Out, 0),
        cutoff: 0,
        gates: 3,
        bits: 0,
        holds: true,
    },
    Case {
        name: "two of them aren't",
        market: EQUAL,
        decisions: &[Decision::Gate(1, true)],
        leaf: LeafRow::Cut(CutSide::Out, 0),
        cutoff: 0,
        gates: 3,
        bits: 0,
        holds: false,
    },
];

/// The leaf of a row.
pub(crate) fn leaf_of(alloc: Global, row: &LeafRow) -> Result<ReachLeaf, AllocError> {
    match row {
        LeafRow::Void => Ok(ReachLeaf::Void),
        LeafRow::Bound(cents) => Ok(ReachLeaf::Bound(prices_of(alloc, cents)?)),
        LeafRow::Cut(side, zone) => Ok(ReachLeaf::Cut(Cut {
            side: *side,
            zones: Items::of([*zone].to_vec(alloc)?),
        })),
    }
}

/// Whether a leaf holds, where the market is valid and the decisions and the word fit it.
pub(crate) fn holds(
    market: &Market,
    decisions: &[Decision],
    leaf: &ReachLeaf,
    cutoff: i128,
    word: &Prefix,
) -> Option<bool> {
    if market.valid()
        && are_decisions(market, decisions)
        && word.length as usize == market.gates.as_slice().len()
    {
        Some(check_leaf(market, decisions, leaf, Quarters(cutoff), word))
    } else {
        None
    }
}

/// Whether the leaf of a case holds.
fn holds_in(alloc: Global, case: &Case) -> Result<Option<bool>, Fail> {
    let leaf = leaf_of(alloc, &case.leaf)?;
    let market = market_of(alloc, &case.market)?;
    let word = prefix(case.gates, case.bits);
    let answer = holds(&market, case.decisions, &leaf, case.cutoff, &word);
    drop(market);
    drop(leaf);
    Ok(answer)
}

#[test]
fn leaves_that_hold_or_not(rt: HostRuntime) -> Result<(), Fail> {
    for case in CASES {
        let answer = holds_in(rt.alloc(), case)?;
        same_in(&rt, case.name, answer, Some(case.holds));
    }
    Ok(())
}
