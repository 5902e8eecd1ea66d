//! Certificates and trees of an indivisible bid that is larger than the demand, of a bid that its own price would
//! reject, and of two equal bids.

use crate::same::{same, same_in};
use crate::small::{
    DOWN, MarketRow, OVERSIZED, PARADOX, UP, activation_of, market_of, prefix, prices_of,
};
use mari_gates::prefix_feasible;
use mari_market::{Conflict, Cut, CutSide, Leaf, Market, Prefix, Prices, TreeItem};
use mari_proofs::{
    DualTable, TreeVerdict, check_leaf, check_leaf_by, check_tree, check_tree_by, dual_value,
    dual_value_by,
};
use mari_units::{Cents, Items, Quarters};
use std::alloc::{AllocError, Global};
use std::test::Fail;

/// A certificate.
enum LeafRow {
    /// A potential of the one zone, in cents per MWh.
    Bound(i64),
    /// A cut of the one zone, by its side.
    Cut(CutSide),
    /// The chain of a conflict at the price 10.00, which the indivisible bid and 30 MW of the other make.
    Conflict(&'static [u32]),
}

/// A market, the word of its one gate, a certificate and a cutoff; and whether it holds.
struct Case {
    name: &'static str,
    market: MarketRow,
    open: bool,
    leaf: LeafRow,
    cutoff: i128,
    holds: bool,
}

const CASES: &[Case] = &[
    Case {
        name: "an oversized bid is cut",
        market: OVERSIZED,
        open: true,
        leaf: LeafRow::Cut(CutSide::Out),
        cutoff: 0,
        holds: true,
    },
    Case {
        name: "a closed bid is not cut",
        market: OVERSIZED,
        open: false,
        leaf: LeafRow::Cut(CutSide::Out),
        cutoff: 0,
        holds: false,
    },
    Case {
        name: "an oversized bid is not cut for too little",
        market: OVERSIZED,
        open: true,
        leaf: LeafRow::Cut(CutSide::In),
        cutoff: 0,
        holds: false,
    },
    Case {
        name: "a potential bounds at its dual value",
        market: OVERSIZED,
        open: false,
        leaf: LeafRow::Bound(5000),
        cutoff: 299_847_000,
        holds: true,
    },
    Case {
        name: "a potential doesn't bound below its dual value",
        market: OVERSIZED,
        open: false,
        leaf: LeafRow::Bound(5000),
        cutoff: 299_846_999,
        holds: false,
    },
    Case {
        name: "a potential past the cap bounds nothing",
        market: OVERSIZED,
        open: false,
        leaf: LeafRow::Bound(9_999_901),
        cutoff: 999_999_999_999,
        holds: false,
    },
    Case {
        name: "a rejected paradox bid has a conflict",
        market: PARADOX,
        open: true,
        leaf: LeafRow::Conflict(&[0]),
        cutoff: 0,
        holds: true,
    },
    Case {
        name: "a closed paradox bid has none",
        market: PARADOX,
        open: false,
        leaf: LeafRow::Conflict(&[0]),
        cutoff: 0,
        holds: false,
    },
    Case {
        name: "a conflict has a chain",
        market: PARADOX,
        open: true,
        leaf: LeafRow::Conflict(&[]),
        cutoff: 0,
        holds: false,
    },
];

fn conflict_of(alloc: Global, chain: &[u32]) -> Result<Conflict, AllocError> {
    let chain = chain.to_vec(alloc)?;
    let potentials = prices_of(alloc, &[1000])?;
    let activation = activation_of(alloc, &[30, 20, 50], &[])?;
    Ok(Conflict {
        chain: Items::of(chain),
        potentials,
        activation,
    })
}

fn cut_of(alloc: Global, side: CutSide) -> Result<Cut, AllocError> {
    let zones = Items::of([0].to_vec(alloc)?);
    Ok(Cut { side, zones })
}

fn leaf_of(alloc: Global, row: &LeafRow) -> Result<Leaf, AllocError> {
    match row {
        LeafRow::Bound(cents) => Ok(Leaf::Bound(prices_of(alloc, &[*cents])?)),
        LeafRow::Cut(side) => Ok(Leaf::Cut(cut_of(alloc, *side)?)),
        LeafRow::Conflict(chain) => Ok(Leaf::Conflict(conflict_of(alloc, chain)?)),
    }
}

/// The prefix that decides one gate.
fn one_gate(open: bool) -> Prefix {
    prefix(1, if open { 1 } else { 0 })
}

/// Whether a certificate holds, where the prefix is feasible.
fn holds(market: &Market, prefix: Prefix, leaf: &Leaf, cutoff: i128) -> Option<bool> {
    if market.valid() && prefix_feasible(market, &prefix) {
        Some(check_leaf(market, &prefix, leaf, Quarters(cutoff)))
    } else {
        None
    }
}

/// The same by a table of the market.
fn holds_by(
    alloc: Global,
    market: &Market,
    prefix: Prefix,
    leaf: &Leaf,
    cutoff: i128,
) -> Result<Option<bool>, AllocError> {
    if market.valid() && prefix_feasible(market, &prefix) {
        let table = DualTable::of(alloc, market)?;
        let cutoff = Quarters(cutoff);
        Ok(Some(check_leaf_by(market, &table, &prefix, leaf, cutoff)))
    } else {
        Ok(None)
    }
}

/// Whether the certificate of a case holds, and whether it does by a table.
fn holds_in(alloc: Global, case: &Case) -> Result<(Option<bool>, Option<bool>), Fail> {
    let leaf = leaf_of(alloc, &case.leaf)?;
    let market = market_of(alloc, &case.market)?;
    let prefix = one_gate(case.open);
    let plain = holds(&market, prefix, &leaf, case.cutoff);
    let by_table = holds_by(alloc, &market, prefix, &leaf, case.cutoff)?;
    drop(market);
    drop(leaf);
    Ok((plain, by_table))
}

#[test]
fn certificates_that_hold_or_not(rt: HostRuntime) -> Result<(), Fail> {
    for case in CASES {
        let (plain, by_table) = holds_in(rt.alloc(), case)?;
        same_in(&rt, case.name, plain, Some(case.holds));
        same_in(&rt, case.name, by_table, Some(case.holds));
    }
    Ok(())
}

/// The dual value of one potential, where the prefix is feasible.
fn value(market: &Market, prefix: Prefix, potentials: &Prices) -> Option<i128> {
    let at_the_cap = match potentials.cents.as_slice() {
        [Cents(9_999_900)] => market.zones == 1,
        _ => false,
    };
    if market.valid() && prefix_feasible(market, &prefix) && at_the_cap {
        Some(dual_value(market, &prefix, potentials).0)
    } else {
        None
    }
}

/// The same by a table of the market.
fn value_by(
    alloc: Global,
    market: &Market,
    prefix: Prefix,
    potentials: &Prices,
) -> Result<Option<i128>, AllocError> {
    let at_the_cap = match potentials.cents.as_slice() {
        [Cents(9_999_900)] => market.zones == 1,
        _ => false,
    };
    if market.valid() && prefix_feasible(market, &prefix) && at_the_cap {
        let table = DualTable::of(alloc, market)?;
        Ok(Some(dual_value_by(market, &table, &prefix, potentials).0))
    } else {
        Ok(None)
    }
}

#[test]
fn a_rejected_paradox_bid_leaves_its_dual_value(rt: HostRuntime) -> Result<(), Fail> {
    let cap = prices_of(rt.alloc(), &[9_999_900])?;
    let market = market_of(rt.alloc(), &PARADOX)?;
    let plain = value(&market, one_gate(false), &cap);
    let by_table = value_by(rt.alloc(), &market, one_gate(false), &cap)?;
    drop(market);
    drop(cap);
    same(&rt, plain, Some(399_956_000));
    same(&rt, by_table, Some(399_956_000));
    Ok(())
}

/// Two indivisible bids that are equal, for a demand that one of them meets.
const TWO_EQUAL: MarketRow = MarketRow {
    limits: &[],
    orders: &[
        (0, UP, 30, 30, 3000, Some(0)),
        (0, UP, 30, 30, 3000, Some(1)),
        (0, UP, 0, 100, 5000, None),
        (0, DOWN, 0, 30, 9_999_900, None),
    ],
    gates: &[(None, None), (None, None)],
};

/// A market, a tree of certificates and branches, a cutoff, the word of `gates` gates with these `bits`, and the
/// verdict on the tree for that word.
struct TreeCase {
    name: &'static str,
    market: MarketRow,
    tree: &'static [Option<LeafRow>],
    cutoff: i128,
    gates: u32,
    bits: u64,
    verdict: TreeVerdict,
}

/// A closed bid that the price 50.00 bounds, and an open one that is cut.
const OVERSIZED_TREE: &[Option<LeafRow>] = &[
    None,
    Some(LeafRow::Bound(5000)),
    Some(LeafRow::Cut(CutSide::Out)),
];

/// A bound for each word of two gates but the one with both open.
const TWO_EQUAL_TREE: &[Option<LeafRow>] = &[
    None,
    None,
    Some(LeafRow::Bound(5000)),
    Some(LeafRow::Bound(3000)),
    Some(LeafRow::Bound(3000)),
];

const TREE_CASES: &[TreeCase] = &[
    TreeCase {
        name: "an oversized bid has a tree of three",
        market: OVERSIZED,
        tree: OVERSIZED_TREE,
        cutoff: 299_847_000,
        gates: 1,
        bits: 0,
        verdict: TreeVerdict::Holds,
    },
    TreeCase {
        name: "a bound above the cutoff",
        market: OVERSIZED,
        tree: OVERSIZED_TREE,
        cutoff: 299_846_999,
        gates: 1,
        bits: 0,
        verdict: TreeVerdict::BadLeaf(1),
    },
    TreeCase {
        name: "a bound and a conflict",
        market: PARADOX,
        tree: &[
            None,
            Some(LeafRow::Bound(9_999_900)),
            Some(LeafRow::Conflict(&[0])),
        ],
        cutoff: 399_956_000,
        gates: 1,
        bits: 0,
        verdict: TreeVerdict::Holds,
    },
    TreeCase {
        name: "a tree that ends too early",
        market: PARADOX,
        tree: &[None, Some(LeafRow::Bound(9_999_900))],
        cutoff: 399_956_000,
        gates: 1,
        bits: 0,
        verdict: TreeVerdict::BadShape(2),
    },
    TreeCase {
        name: "a tree with an item left over",
        market: PARADOX,
        tree: &[Some(LeafRow::Bound(9_999_900)), None],
        cutoff: 499_999_999_999,
        gates: 1,
        bits: 0,
        verdict: TreeVerdict::BadShape(1),
    },
    TreeCase {
        name: "of two equal bids the later is the first",
        market: TWO_EQUAL,
        tree: TWO_EQUAL_TREE,
        cutoff: 299_907_000,
        gates: 2,
        bits: 2,
        verdict: TreeVerdict::Holds,
    },
    TreeCase {
        name: "of two equal bids the earlier is not the first",
        market: TWO_EQUAL,
        tree: TWO_EQUAL_TREE,
        cutoff: 299_907_000,
        gates: 2,
        bits: 1,
        verdict: TreeVerdict::BadLeaf(3),
    },
];

fn item_of(alloc: Global, row: &Option<LeafRow>) -> Result<TreeItem, AllocError> {
    match row {
        Some(leaf) => Ok(TreeItem::Leaf(leaf_of(alloc, leaf)?)),
        None => Ok(TreeItem::Branch),
    }
}

/// The tree of these rows, where `None` is a branch.
fn tree_of(alloc: Global, rows: &[Option<LeafRow>]) -> Result<Vec<TreeItem>, AllocError> {
    let mut tree = Vec::new(alloc);
    for row in rows {
        tree.push(item_of(alloc, row)?)?;
    }
    Ok(tree)
}

/// The verdict on a tree for a word, where the market and the word are valid.
fn verdict(market: &Market, tree: &[TreeItem], cutoff: i128, word: Prefix) -> Option<TreeVerdict> {
    if market.valid()
        && prefix_feasible(market, &word)
        && word.length as usize == market.gates.as_slice().len()
    {
        Some(check_tree(market, tree, Quarters(cutoff), &word))
    } else {
        None
    }
}

/// The same by a table of the market.
fn verdict_by(
    alloc: Global,
    market: &Market,
    tree: &[TreeItem],
    cutoff: i128,
    word: Prefix,
) -> Result<Option<TreeVerdict>, AllocError> {
    if market.valid()
        && prefix_feasible(market, &word)
        && word.length as usize == market.gates.as_slice().len()
    {
        let table = DualTable::of(alloc, market)?;
        let cutoff = Quarters(cutoff);
        Ok(Some(check_tree_by(market, &table, tree, cutoff, &word)))
    } else {
        Ok(None)
    }
}

/// The verdict on the tree of a case, and that by a table.
fn verdicts_in(
    alloc: Global,
    case: &TreeCase,
) -> Result<(Option<TreeVerdict>, Option<TreeVerdict>), Fail> {
    let market = market_of(alloc, &case.market)?;
    let tree = tree_of(alloc, case.tree)?;
    let word = prefix(case.gates, case.bits);
    let plain = verdict(&market, &tree, case.cutoff, word);
    let by_table = verdict_by(alloc, &market, &tree, case.cutoff, word)?;
    drop(tree);
    drop(market);
    Ok((plain, by_table))
}

#[test]
fn verdicts_on_trees(rt: HostRuntime) -> Result<(), Fail> {
    for case in TREE_CASES {
        let (plain, by_table) = verdicts_in(rt.alloc(), case)?;
        same_in(&rt, case.name, plain, Some(case.verdict));
        same_in(&rt, case.name, by_table, Some(case.verdict));
    }
    Ok(())
}
