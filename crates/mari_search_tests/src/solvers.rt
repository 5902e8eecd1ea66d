//! Relaxed optima of small markets by both solvers, the fast one from a warm start too, and a cut where there is none.

use crate::same::{same, same_in};
use crate::small::{
    CONGESTED, DOWN, Few, MarketRow, OVERSIZED, PARADOX, UP, few, market_of, prefix,
};
use mari_flow::{SolveFault, Solved, solve};
use mari_gates::prefix_feasible;
use mari_market::{Cut, CutSide, Market, Prefix};
use mari_paths::{WarmStart, solve_from};
use mari_units::Cents;
use std::alloc::Global;
use std::test::Fail;

/// What a solver finds.
type Found = Result<Solved, SolveFault>;

/// What is reported of it: the welfare of the optimum, or the side of a cut of zone 0 alone.
type Reported = Result<u64, Option<CutSide>>;

/// A market, the prefix of `length` gates with the word `bits`, and what each solver gives there.
struct Case {
    name: &'static str,
    market: MarketRow,
    length: u32,
    bits: u64,
    reported: Reported,
}

const CASES: &[Case] = &[
    Case {
        name: "an oversized bid, open, is a cut",
        market: OVERSIZED,
        length: 1,
        bits: 1,
        reported: Err(Some(CutSide::Out)),
    },
    Case {
        name: "an oversized bid, closed",
        market: OVERSIZED,
        length: 1,
        bits: 0,
        reported: Ok(299_847_000),
    },
    Case {
        name: "an oversized bid, undecided",
        market: OVERSIZED,
        length: 0,
        bits: 0,
        reported: Ok(299_907_000),
    },
    Case {
        name: "a paradox bid, open",
        market: PARADOX,
        length: 1,
        bits: 1,
        reported: Ok(499_925_000),
    },
    Case {
        name: "a paradox bid, closed",
        market: PARADOX,
        length: 1,
        bits: 0,
        reported: Ok(399_956_000),
    },
    Case {
        name: "a relaxed value below 0 is stated as 0",
        market: MarketRow {
            limits: &[],
            orders: &[(0, UP, 10, 10, 3000, Some(0)), (0, DOWN, 0, 10, 1000, None)],
            gates: &[(None, None)],
        },
        length: 1,
        bits: 1,
        reported: Ok(0),
    },
];

/// The side of a cut, where it is of zone 0 alone.
fn side_of(cut: &Cut) -> Option<CutSide> {
    match cut.zones.as_slice() {
        [0] => Some(cut.side),
        _ => None,
    }
}

fn reported(found: Found) -> Reported {
    match found {
        Ok(solved) => Ok(solved.welfare),
        Err(SolveFault::Cut(cut)) => Err(side_of(&cut)),
        Err(SolveFault::Memory) => Err(None),
    }
}

/// What is reported of what the plain and the fast solver find at a prefix, and the fast one from a warm start.
fn reported_by_each(alloc: Global, market: &Market, prefix: Prefix) -> Result<[Reported; 3], Fail> {
    if !(market.valid() && prefix_feasible(market, &prefix)) {
        return Err("the market is valid, and the prefix is feasible in it".into());
    }
    let warm = WarmStart::of(alloc, market, None)?;
    Ok([
        reported(solve(alloc, market, &prefix)),
        reported(solve_from(alloc, market, &prefix, None)),
        reported(warm.solve(alloc, market, &prefix)),
    ])
}

/// What is reported of a case.
fn reported_in(alloc: Global, case: &Case) -> Result<[Reported; 3], Fail> {
    let market = market_of(alloc, &case.market)?;
    let reported = reported_by_each(alloc, &market, prefix(case.length, case.bits));
    drop(market);
    reported
}

#[test]
fn welfare_or_a_cut(rt: HostRuntime) -> Result<(), Fail> {
    for case in CASES {
        same_in(
            &rt,
            case.name,
            reported_in(rt.alloc(), case)?,
            [case.reported; 3],
        );
    }
    Ok(())
}

/// The welfare, what the orders run, what flows over the one border, and the potentials of the two zones.
type Optimum = Option<(u64, Few, i64, [i64; 2])>;

fn optimum(found: Found) -> Optimum {
    match found {
        Ok(solved) => optimum_in(&solved),
        Err(_fault) => None,
    }
}

fn optimum_in(solved: &Solved) -> Optimum {
    let flow = solved.activation.flow.as_slice();
    let mw = few(solved.activation.mw.as_slice());
    match (flow, solved.potentials.cents.as_slice()) {
        ([flow], [Cents(first), Cents(second)]) => {
            Some((solved.welfare, mw, *flow, [*first, *second]))
        }
        _ => None,
    }
}

/// The optima that the plain and the fast solver find where no gate is decided, and the fast one from a warm start.
fn optima(alloc: Global, market: &Market) -> Result<[Optimum; 3], Fail> {
    let root = prefix(0, 0);
    if !(market.valid() && prefix_feasible(market, &root)) {
        return Err("the market is valid, and the prefix is feasible in it".into());
    }
    let warm = WarmStart::of(alloc, market, None)?;
    Ok([
        optimum(solve(alloc, market, &root)),
        optimum(solve_from(alloc, market, &root, None)),
        optimum(warm.solve(alloc, market, &root)),
    ])
}

#[test]
fn relaxed_optimum_of_two_zones(rt: HostRuntime) -> Result<(), Fail> {
    let market = market_of(rt.alloc(), &CONGESTED)?;
    let found = optima(rt.alloc(), &market);
    drop(market);
    let want = Some((799_712_000, few(&[50, 30, 80]), 50, [2000, 6000]));
    same(&rt, found?, [want; 3]);
    Ok(())
}
