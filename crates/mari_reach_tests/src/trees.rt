//! Trees that hold or not.

use crate::leaves::{LeafRow, leaf_of};
use crate::same::same_in;
use crate::small::{EQUAL, MarketRow, ONE_PRICE, PARADOX, TORN, market_of, prefix};
use mari_market::{CutSide, Market, Prefix};
use mari_proofs::TreeVerdict;
use mari_reach::{Choice, ReachItem, check_tree};
use mari_units::{Cents, Quarters};
use std::alloc::{AllocError, Global};
use std::test::Fail;

/// A part of a tree.
enum ItemRow {
    /// A gate.
    Gate(u32),
    /// A price of a zone, in cents per MWh.
    Price(u32, i64),
    /// A leaf.
    Leaf(LeafRow),
}

/// A market, a tree, a cutoff and the bits of a word; and the verdict on the tree.
struct TreeCase {
    name: &'static str,
    market: MarketRow,
    tree: &'static [ItemRow],
    cutoff: i128,
    gates: u32,
    bits: u64,
    verdict: TreeVerdict,
}

/// The paradox bid is closed, or the demand has too much.
const PARADOX_TREE: &[ItemRow] = &[
    ItemRow::Gate(0),
    ItemRow::Leaf(LeafRow::Bound(&[9_999_900])),
    ItemRow::Leaf(LeafRow::Cut(CutSide::Out, 0)),
];

/// The dear bid is closed; or it is open, and the other zone is cheaper, so that the border is full the other way, or as
/// dear, so that the cheap bid runs in full. The second gate stays free.
const PRICE_TREE: &[ItemRow] = &[
    ItemRow::Gate(0),
    ItemRow::Leaf(LeafRow::Bound(&[3000, 3000])),
    ItemRow::Price(1, 4999),
    ItemRow::Leaf(LeafRow::Cut(CutSide::Out, 0)),
    ItemRow::Leaf(LeafRow::Cut(CutSide::Out, 1)),
];

/// The first of three equal bids is closed, and two are worth the welfare at most; or it is open, and all three run.
const EQUAL_TREE: &[ItemRow] = &[
    ItemRow::Gate(0),
    ItemRow::Leaf(LeafRow::Bound(&[5000])),
    ItemRow::Leaf(LeafRow::Cut(CutSide::Out, 0)),
];

const TREES: &[TreeCase] = &[
    TreeCase {
        name: "a paradox bid: closed, its welfare is the bound; open, nothing balances",
        market: PARADOX,
        tree: PARADOX_TREE,
        cutoff: 399956000,
        gates: 1,
        bits: 0,
        verdict: TreeVerdict::Holds,
    },
    TreeCase {
        name: "not below that welfare",
        market: PARADOX,
        tree: PARADOX_TREE,
        cutoff: 399955999,
        gates: 1,
        bits: 0,
        verdict: TreeVerdict::BadLeaf(1),
    },
    TreeCase {
        name: "two gates and a price by five parts",
        market: ONE_PRICE,
        tree: PRICE_TREE,
        cutoff: 1455000,
        gates: 2,
        bits: 0,
        verdict: TreeVerdict::Holds,
    },
    TreeCase {
        name: "the children of a price exchanged",
        market: ONE_PRICE,
        tree: &[
            ItemRow::Gate(0),
            ItemRow::Leaf(LeafRow::Bound(&[3000, 3000])),
            ItemRow::Price(1, 4999),
            ItemRow::Leaf(LeafRow::Cut(CutSide::Out, 1)),
            ItemRow::Leaf(LeafRow::Cut(CutSide::Out, 0)),
        ],
        cutoff: 1455000,
        gates: 2,
        bits: 0,
        verdict: TreeVerdict::BadLeaf(3),
    },
    TreeCase {
        name: "a price of the box's greatest",
        market: ONE_PRICE,
        tree: &[ItemRow::Price(1, 9_999_900)],
        cutoff: 1455000,
        gates: 2,
        bits: 0,
        verdict: TreeVerdict::BadShape(0),
    },
    TreeCase {
        name: "a price of the box's least, with a part missing",
        market: ONE_PRICE,
        tree: &[ItemRow::Price(1, -9_999_900)],
        cutoff: 1455000,
        gates: 2,
        bits: 0,
        verdict: TreeVerdict::BadShape(1),
    },
    TreeCase {
        name: "a price below the box",
        market: ONE_PRICE,
        tree: &[
            ItemRow::Gate(0),
            ItemRow::Leaf(LeafRow::Bound(&[3000, 3000])),
            ItemRow::Price(0, 4999),
        ],
        cutoff: 1455000,
        gates: 2,
        bits: 0,
        verdict: TreeVerdict::BadShape(2),
    },
    TreeCase {
        name: "a zone that isn't there",
        market: ONE_PRICE,
        tree: &[ItemRow::Price(2, 4999)],
        cutoff: 1455000,
        gates: 2,
        bits: 0,
        verdict: TreeVerdict::BadShape(0),
    },
    TreeCase {
        name: "a part is missing",
        market: ONE_PRICE,
        tree: &[
            ItemRow::Gate(1),
            ItemRow::Leaf(LeafRow::Bound(&[3000, 3000])),
        ],
        cutoff: 1455000,
        gates: 2,
        bits: 0,
        verdict: TreeVerdict::BadShape(2),
    },
    TreeCase {
        name: "a gate is decided twice",
        market: ONE_PRICE,
        tree: &[ItemRow::Gate(1), ItemRow::Gate(1)],
        cutoff: 1455000,
        gates: 2,
        bits: 0,
        verdict: TreeVerdict::BadShape(1),
    },
    TreeCase {
        name: "a gate that isn't there",
        market: ONE_PRICE,
        tree: &[ItemRow::Gate(2)],
        cutoff: 1455000,
        gates: 2,
        bits: 0,
        verdict: TreeVerdict::BadShape(0),
    },
    TreeCase {
        name: "a gate that contradicts itself is void where it is open",
        market: TORN,
        tree: &[
            ItemRow::Gate(0),
            ItemRow::Leaf(LeafRow::Bound(&[5000])),
            ItemRow::Leaf(LeafRow::Void),
        ],
        cutoff: 0,
        gates: 2,
        bits: 0,
        verdict: TreeVerdict::Holds,
    },
    TreeCase {
        name: "and has no bound there",
        market: TORN,
        tree: &[
            ItemRow::Gate(0),
            ItemRow::Leaf(LeafRow::Bound(&[5000])),
            ItemRow::Leaf(LeafRow::Bound(&[5000])),
        ],
        cutoff: 1000000,
        gates: 2,
        bits: 0,
        verdict: TreeVerdict::BadLeaf(2),
    },
    TreeCase {
        name: "nor a branch",
        market: TORN,
        tree: &[
            ItemRow::Gate(0),
            ItemRow::Leaf(LeafRow::Bound(&[5000])),
            ItemRow::Gate(1),
        ],
        cutoff: 0,
        gates: 2,
        bits: 0,
        verdict: TreeVerdict::BadShape(2),
    },
    TreeCase {
        name: "a false leaf doesn't hide a branch behind it that may not stand there",
        market: ONE_PRICE,
        tree: &[
            ItemRow::Gate(0),
            ItemRow::Leaf(LeafRow::Void),
            ItemRow::Gate(2),
        ],
        cutoff: 1455000,
        gates: 2,
        bits: 0,
        verdict: TreeVerdict::BadShape(2),
    },
    TreeCase {
        name: "nor a part that is missing",
        market: ONE_PRICE,
        tree: &[ItemRow::Gate(0), ItemRow::Leaf(LeafRow::Void)],
        cutoff: 1455000,
        gates: 2,
        bits: 0,
        verdict: TreeVerdict::BadShape(2),
    },
    TreeCase {
        name: "nor an item that is left over",
        market: ONE_PRICE,
        tree: &[
            ItemRow::Leaf(LeafRow::Void),
            ItemRow::Leaf(LeafRow::Bound(&[3000, 3000])),
        ],
        cutoff: 1455000,
        gates: 2,
        bits: 0,
        verdict: TreeVerdict::BadShape(1),
    },
    TreeCase {
        name: "of two false leaves the first is named",
        market: ONE_PRICE,
        tree: &[
            ItemRow::Price(1, 4999),
            ItemRow::Leaf(LeafRow::Void),
            ItemRow::Leaf(LeafRow::Void),
        ],
        cutoff: 1455000,
        gates: 2,
        bits: 0,
        verdict: TreeVerdict::BadLeaf(1),
    },
    TreeCase {
        name: "children of a second child have their parts last",
        market: ONE_PRICE,
        tree: &[
            ItemRow::Gate(1),
            ItemRow::Gate(0),
            ItemRow::Leaf(LeafRow::Bound(&[3000, 3000])),
            ItemRow::Price(1, 4999),
            ItemRow::Leaf(LeafRow::Cut(CutSide::Out, 0)),
            ItemRow::Leaf(LeafRow::Cut(CutSide::Out, 1)),
            ItemRow::Leaf(LeafRow::Bound(&[3000, 3000])),
        ],
        cutoff: 1455000,
        gates: 2,
        bits: 0,
        verdict: TreeVerdict::Holds,
    },
    TreeCase {
        name: "of three equal bids two run, the later ones: one more is too much",
        market: EQUAL,
        tree: EQUAL_TREE,
        cutoff: 2435000,
        gates: 3,
        bits: 6,
        verdict: TreeVerdict::Holds,
    },
    TreeCase {
        name: "the earlier ones are as good, but aren't the first",
        market: EQUAL,
        tree: EQUAL_TREE,
        cutoff: 2435000,
        gates: 3,
        bits: 3,
        verdict: TreeVerdict::BadLeaf(1),
    },
    TreeCase {
        name: "a gate is not free beside a closed twin of better rank",
        market: EQUAL,
        tree: &[
            ItemRow::Gate(1),
            ItemRow::Gate(0),
            ItemRow::Leaf(LeafRow::Bound(&[5000])),
            ItemRow::Leaf(LeafRow::Bound(&[5000])),
            ItemRow::Leaf(LeafRow::Bound(&[5000])),
        ],
        cutoff: 2435000,
        gates: 3,
        bits: 6,
        verdict: TreeVerdict::BadShape(1),
    },
    TreeCase {
        name: "nor beside an open one of worse rank",
        market: EQUAL,
        tree: &[
            ItemRow::Gate(1),
            ItemRow::Leaf(LeafRow::Bound(&[5000])),
            ItemRow::Gate(2),
            ItemRow::Leaf(LeafRow::Bound(&[5000])),
            ItemRow::Leaf(LeafRow::Bound(&[5000])),
        ],
        cutoff: 2435000,
        gates: 3,
        bits: 6,
        verdict: TreeVerdict::BadShape(2),
    },
];

/// The item of a row.
fn item_of(alloc: Global, row: &ItemRow) -> Result<ReachItem, AllocError> {
    match row {
        ItemRow::Gate(gate) => Ok(ReachItem::Branch(Choice::OfGate(*gate))),
        ItemRow::Price(zone, price) => Ok(ReachItem::Branch(Choice::OfPrice(*zone, Cents(*price)))),
        ItemRow::Leaf(leaf) => Ok(ReachItem::Leaf(leaf_of(alloc, leaf)?)),
    }
}

/// The verdict on a tree, where the market is valid and the word fits it.
fn verdict(
    alloc: Global,
    market: &Market,
    tree: &[ReachItem],
    cutoff: i128,
    word: &Prefix,
) -> Option<TreeVerdict> {
    if market.valid() && word.length as usize == market.gates.as_slice().len() {
        check_tree(alloc, market, tree, Quarters(cutoff), word).ok()
    } else {
        None
    }
}

/// The verdict on the tree of a case.
fn verdict_in(alloc: Global, case: &TreeCase) -> Result<Option<TreeVerdict>, Fail> {
    let market = market_of(alloc, &case.market)?;
    let mut tree = Vec::new(alloc);
    for row in case.tree {
        tree.push(item_of(alloc, row)?)?;
    }
    let word = prefix(case.gates, case.bits);
    let answer = verdict(alloc, &market, tree.as_slice(), case.cutoff, &word);
    drop(tree);
    drop(market);
    Ok(answer)
}

#[test]
fn trees_that_hold_or_not(rt: HostRuntime) -> Result<(), Fail> {
    for case in TREES {
        let answer = verdict_in(rt.alloc(), case)?;
        same_in(&rt, case.name, answer, Some(case.verdict));
    }
    Ok(())
}
