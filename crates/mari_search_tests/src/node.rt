//! Findings at the nodes of small markets of one zone and one gate, with values computed by hand.

use crate::same::{same, same_in};
use crate::small::{
    DOWN, Few, MarketRow, OVERSIZED, PARADOX, UP, activation_of, few, market_of, prefix,
};
use mari_gates::prefix_feasible;
use mari_market::{Activation, CutSide, Finding, Market, Prefix, Relaxed};
use mari_node::{examine, examine_from, examine_warm};
use mari_paths::WarmStart;
use std::alloc::Global;
use std::test::Fail;

/// What is reported of a finding: the bound, the welfare of the best activation, if there is one, and whether there is
/// a conflict; or the side of a cut of the one zone.
type Reported = Result<(u64, Option<u64>, bool), Option<CutSide>>;

/// A market, the prefix of `length` gates with the word `bits`, and what is reported there.
struct Case {
    name: &'static str,
    market: MarketRow,
    length: u32,
    bits: u64,
    reported: Reported,
}

/// A cheap indivisible bid that fits the demand, and a dearer one.
const FITTING: MarketRow = MarketRow {
    limits: &[],
    orders: &[
        (0, UP, 20, 20, 1000, Some(0)),
        (0, UP, 0, 40, 2000, None),
        (0, DOWN, 0, 50, 9_999_900, None),
    ],
    gates: &[(None, None)],
};

const CASES: &[Case] = &[
    Case {
        name: "an oversized bid, undecided, has no best",
        market: OVERSIZED,
        length: 0,
        bits: 0,
        reported: Ok((299_907_000, None, false)),
    },
    Case {
        name: "an oversized bid, closed, has a best",
        market: OVERSIZED,
        length: 1,
        bits: 0,
        reported: Ok((299_847_000, Some(299_847_000), false)),
    },
    Case {
        name: "an oversized bid, open, is a cut",
        market: OVERSIZED,
        length: 1,
        bits: 1,
        reported: Err(Some(CutSide::Out)),
    },
    Case {
        name: "a paradox bid, closed, has a best",
        market: PARADOX,
        length: 1,
        bits: 0,
        reported: Ok((399_956_000, Some(399_956_000), false)),
    },
    Case {
        name: "a paradox bid, open, is a conflict",
        market: PARADOX,
        length: 1,
        bits: 1,
        reported: Ok((499_925_000, None, true)),
    },
    Case {
        name: "an admissible optimum is reported before its gate is decided",
        market: FITTING,
        length: 0,
        bits: 0,
        reported: Ok((499_915_000, Some(499_915_000), false)),
    },
    Case {
        name: "a fitting bid, closed",
        market: FITTING,
        length: 1,
        bits: 0,
        reported: Ok((399_916_000, Some(399_916_000), false)),
    },
    Case {
        name: "a fitting bid, open",
        market: FITTING,
        length: 1,
        bits: 1,
        reported: Ok((499_915_000, Some(499_915_000), false)),
    },
];

fn reported_of_relaxed(relaxed: &Relaxed) -> Reported {
    let best = match &relaxed.best {
        Some(best) => Some(best.welfare),
        None => None,
    };
    Ok((relaxed.bound, best, relaxed.conflict.is_some()))
}

fn reported(finding: &Finding) -> Reported {
    match finding {
        Finding::Empty(cut) => match cut.zones.as_slice() {
            [0] => Err(Some(cut.side)),
            _ => Err(None),
        },
        Finding::Relaxed(relaxed) => reported_of_relaxed(relaxed),
    }
}

/// What is reported once of a finding.
fn reported_once(finding: Finding) -> Reported {
    let reported = reported(&finding);
    drop(finding);
    reported
}

/// What is reported of a prefix, without a start and from a warm one.
fn reported_at(alloc: Global, market: &Market, prefix: Prefix) -> Result<[Reported; 2], Fail> {
    if !(market.valid() && prefix_feasible(market, &prefix)) {
        return Err("the market is valid, and the prefix is feasible in it".into());
    }
    let warm = WarmStart::of(alloc, market, None)?;
    Ok([
        reported_once(examine(alloc, market, &prefix)?),
        reported_once(examine_warm(alloc, market, &prefix, &warm)?),
    ])
}

/// What is reported of a case.
fn reported_in(alloc: Global, case: &Case) -> Result<[Reported; 2], Fail> {
    let market = market_of(alloc, &case.market)?;
    let reported = reported_at(alloc, &market, prefix(case.length, case.bits));
    drop(market);
    reported
}

#[test]
fn findings_at_nodes(rt: HostRuntime) -> Result<(), Fail> {
    for case in CASES {
        same_in(
            &rt,
            case.name,
            reported_in(rt.alloc(), case)?,
            [case.reported; 2],
        );
    }
    Ok(())
}

/// What each order runs to start with.
const STARTS: &[&[u32]] = &[&[], &[0, 30, 30], &[99_999, 99_999, 0, 7], &[40, 0, 30]];

/// What an activation runs, if it is there.
fn left_in(start: Option<Activation>) -> Option<Few> {
    match start {
        Some(left) => Some(few(left.mw.as_slice())),
        None => None,
    }
}

/// What is reported of a prefix from a start, and what the start runs then.
fn reported_from(
    alloc: Global,
    market: &Market,
    prefix: Prefix,
    mw: &[u32],
) -> Result<(Reported, Option<Few>), Fail> {
    if !(market.valid() && prefix_feasible(market, &prefix)) {
        return Err("the market is valid, and the prefix is feasible in it".into());
    }
    let mut start = Some(activation_of(alloc, mw, &[])?);
    let reported = match examine_from(alloc, market, &prefix, &mut start) {
        Ok(finding) => Some(reported(&finding)),
        Err(_memory) => None,
    };
    let left = left_in(start);
    Ok((reported.ok_or("memory")?, left))
}

/// What is reported of the root, of the node with the gate closed, and of the node with it open, from a start each.
fn three_nodes(
    alloc: Global,
    market: &Market,
    mw: &[u32],
) -> Result<[(Reported, Option<Few>); 3], Fail> {
    Ok([
        reported_from(alloc, market, prefix(0, 0), mw)?,
        reported_from(alloc, market, prefix(1, 0), mw)?,
        reported_from(alloc, market, prefix(1, 1), mw)?,
    ])
}

#[test]
fn every_start_leads_to_the_same_optimum(rt: HostRuntime) -> Result<(), Fail> {
    for start in STARTS {
        let market = market_of(rt.alloc(), &OVERSIZED)?;
        let nodes = three_nodes(rt.alloc(), &market, start);
        drop(market);
        let root = Ok((299_907_000, None, false));
        let closed = Ok((299_847_000, Some(299_847_000), false));
        let want = [
            (root, Some(few(&[30, 0, 30]))),
            (closed, Some(few(&[0, 30, 30]))),
            (Err(Some(CutSide::Out)), Some(few(start))),
        ];
        same(&rt, nodes?, want);
    }
    Ok(())
}
