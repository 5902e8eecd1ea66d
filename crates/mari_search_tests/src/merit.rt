//! Markets of one zone and ladders, with values computed by hand.

ghost use Rattle.std.specs.Prelude.{◌≡◌, ◌≤◌, ◌↔◌, [], IsTrue, length};
ghost use Rattle.std.specs.List.{AllZip};
ghost use Rattle.mari_merit.specs.Ladder.{AreBounds};

use crate::same::{same, same_in};
use crate::small::{CONGESTED, DOWN, DOWNWARD, ELASTIC, Few, MarketRow, UP, few, market_of};
use mari_market::{Bounds, Clearing, Market, Side};
use mari_merit::{Ladder, clear_plain, ladder_of};
use mari_units::Items;
use std::alloc::{AllocError, Global};
use std::test::Fail;

/// A market, and what clears it: what each order runs, and the welfare in quarter-cents.
struct Case {
    name: &'static str,
    market: MarketRow,
    mw: &'static [u32],
    welfare: u64,
}

const CASES: &[Case] = &[
    Case {
        name: "one bid and one demand",
        market: MarketRow {
            limits: &[],
            orders: &[
                (0, UP, 0, 100, 5000, None),
                (0, DOWN, 0, 60, 9_999_900, None),
            ],
            gates: &[],
        },
        mw: &[60, 60],
        welfare: 599_694_000,
    },
    Case {
        name: "nothing traded",
        market: MarketRow {
            limits: &[],
            orders: &[],
            gates: &[],
        },
        mw: &[],
        welfare: 0,
    },
    Case {
        name: "elastic demand",
        market: ELASTIC,
        mw: &[50, 20, 30],
        welfare: 19_000,
    },
    Case {
        name: "downward bid",
        market: DOWNWARD,
        mw: &[30, 30],
        welfare: 300_027_000,
    },
];

/// Whether there is one zone, and neither a border nor a gate.
fn is_lone(market: &Market) -> bool
    ensures { IsTrue result ↔ ((market.now.zones ≡ 1) × (market.now.borders ≡ []) × (market.now.gates ≡ [])) }
{
    market.zones == 1 && market.borders.as_slice().is_empty() && market.gates.as_slice().is_empty()
}

/// What each order runs, the welfare, and how many items the tree has.
type Reported = (Few, u64, usize);

fn reported(clearing: &Clearing) -> Reported {
    let mw = few(clearing.activation.mw.as_slice());
    (mw, clearing.welfare, clearing.tree.as_slice().len())
}

/// What is reported of the clearing of a market.
fn cleared(alloc: Global, market: &Market) -> Result<Reported, Fail> {
    if !(market.valid() && is_lone(market)) {
        return Err("the market is valid, with one zone and no gate".into());
    }
    let clearing = clear_plain(alloc, market)?;
    let reported = reported(&clearing);
    drop(clearing);
    Ok(reported)
}

/// What is reported of a case.
fn reported_in(alloc: Global, case: &Case) -> Result<Reported, Fail> {
    let market = market_of(alloc, &case.market)?;
    let reported = cleared(alloc, &market);
    drop(market);
    reported
}

#[test]
fn plain_markets(rt: HostRuntime) -> Result<(), Fail> {
    for case in CASES {
        let want = (few(case.mw), case.welfare, 1);
        same_in(&rt, case.name, reported_in(rt.alloc(), case)?, want);
    }
    Ok(())
}

fn are_in_order(least: &[u32], greatest: &[u32]) -> bool
    requires { length greatest.now ≡ length least.now }
    ensures { IsTrue result → AllZip (λ lo hi. lo ≤ hi) least.now greatest.now }
{
    for (i, lo) in least.iter().enumerate() {
        if *lo > greatest[i] {
            return false;
        }
    }
    true
}

/// Whether there are bounds for each order, the least at most the greatest.
fn are_bounds(market: &Market, bounds: &Bounds) -> bool
    ensures { IsTrue result → AreBounds market.now bounds.now }
{
    let (least, greatest) = (bounds.least.as_slice(), bounds.greatest.as_slice());
    least.len() == market.orders.as_slice().len()
        && greatest.len() == least.len()
        && are_in_order(least, greatest)
}

/// Six orders of one zone.
const SIX_ORDERS: MarketRow = MarketRow {
    limits: &[],
    orders: &[
        (0, UP, 0, 30, 6000, None),
        (0, DOWN, 0, 40, 2500, None),
        (0, UP, 0, 100, 2000, None),
        (0, UP, 0, 10, 6000, None),
        (0, DOWN, 0, 80, 9_999_900, None),
        (0, UP, 0, 20, -500, None),
    ],
    gates: &[],
};

/// What each of them may run.
fn bounds(alloc: Global) -> Result<Bounds, AllocError> {
    let least = [0, 15, 0, 10, 0, 5].to_vec(alloc)?;
    let greatest = [30, 40, 100, 10, 80, 20].to_vec(alloc)?;
    Ok(Bounds {
        least: Items::of(least),
        greatest: Items::of(greatest),
    })
}

/// The order, the price and the room of a step.
type StepRow = (u32, i64, u32);

/// The step at a place, if there is one.
fn step_at(ladder: &Ladder, place: usize) -> Option<StepRow> {
    match ladder.steps.as_slice().get(place) {
        Some(step) => Some((step.order, step.price.0, step.room)),
        None => None,
    }
}

/// The first four steps of the ladder of one side of a zone.
fn steps(
    alloc: Global,
    market: &Market,
    bounds: &Bounds,
    zone: u32,
    side: Side,
) -> Result<[Option<StepRow>; 4], Fail> {
    if !(market.valid() && zone < market.zones && are_bounds(market, bounds)) {
        return Err("the market is valid, and has this zone and these bounds".into());
    }
    let ladder = ladder_of(alloc, market, bounds, zone, side)?;
    let steps = [
        step_at(&ladder, 0),
        step_at(&ladder, 1),
        step_at(&ladder, 2),
        step_at(&ladder, 3),
    ];
    drop(ladder);
    Ok(steps)
}

/// The steps of the ladders of both sides.
fn ladders(
    alloc: Global,
    market: &Market,
    bounds: &Bounds,
) -> Result<[[Option<StepRow>; 4]; 2], Fail> {
    Ok([
        steps(alloc, market, bounds, 0, UP)?,
        steps(alloc, market, bounds, 0, DOWN)?,
    ])
}

#[test]
fn a_ladder_has_one_side_in_merit_order(rt: HostRuntime) -> Result<(), Fail> {
    let market = market_of(rt.alloc(), &SIX_ORDERS)?;
    let bounds = bounds(rt.alloc())?;
    let ladders = ladders(rt.alloc(), &market, &bounds);
    drop(bounds);
    drop(market);
    let injections = [
        Some((5, -500, 15)),
        Some((2, 2000, 100)),
        Some((0, 6000, 30)),
        None,
    ];
    let withdrawals = [Some((4, 9_999_900, 80)), Some((1, 2500, 25)), None, None];
    same(&rt, ladders?, [injections, withdrawals]);
    Ok(())
}

/// What each order of two zones may run.
fn whole_bounds(alloc: Global) -> Result<Bounds, AllocError> {
    Ok(Bounds {
        least: Items::of([0, 0, 0].to_vec(alloc)?),
        greatest: Items::of([100, 100, 80].to_vec(alloc)?),
    })
}

/// The steps of the ladders of two zones: of both sides of the first, and then of the second.
fn ladders_of_two(
    alloc: Global,
    market: &Market,
    bounds: &Bounds,
) -> Result<[[Option<StepRow>; 4]; 4], Fail> {
    Ok([
        steps(alloc, market, bounds, 0, UP)?,
        steps(alloc, market, bounds, 0, DOWN)?,
        steps(alloc, market, bounds, 1, UP)?,
        steps(alloc, market, bounds, 1, DOWN)?,
    ])
}

#[test]
fn a_ladder_is_of_its_zone_alone(rt: HostRuntime) -> Result<(), Fail> {
    let market = market_of(rt.alloc(), &CONGESTED)?;
    let bounds = whole_bounds(rt.alloc())?;
    let ladders = ladders_of_two(rt.alloc(), &market, &bounds);
    drop(bounds);
    drop(market);
    let [none, first, second, demands] = [
        [None; 4],
        [Some((0, 2000, 100)), None, None, None],
        [Some((1, 6000, 100)), None, None, None],
        [Some((2, 9_999_900, 80)), None, None, None],
    ];
    same(&rt, ladders?, [first, none, second, demands]);
    Ok(())
}
