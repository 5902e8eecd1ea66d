//! What searches of small markets come to, on one thread and by several workers.

ghost use Rattle.mari_market.specs.Clearing.{Clears, IsBudget, IsWorkerCount};
ghost use Rattle.mari_market.specs.Market.{IsValid};

use crate::same::{same, same_in};
use crate::small::{DOWN, Few, MarketRow, OVERSIZED, PARADOX, UP, few, market_of};
use mari_market::{Cleared, Clearer, Finding, Leaf, Market, PartItem, Prefix, TreeItem};
use mari_units::Memory;
use mari_workers::{Alone, Crew, FreeTurnstile, Root, Turnstile, Workspace, search, search_alone};
use std::alloc::Global;
use std::sync::Wait;
use std::test::Fail;
use std::thread::Threads;

/// What is reported of a search: the welfare that is published and what the orders run, or how many items it is spent
/// at, and the item where it is one.
type Reported = Result<(u64, Few), (usize, Option<PartItem>)>;

/// A market, a budget, and what is reported of a search within it.
struct Case {
    name: &'static str,
    market: MarketRow,
    budget: u32,
    reported: Reported,
}

/// A search tree of three nodes, within three.
const THREE_NODES: Case = Case {
    name: "a search tree of three nodes, within three",
    market: OVERSIZED,
    budget: 3,
    reported: Ok((299_847_000, (3, [0, 30, 30, 0]))),
};

const CASES: &[Case] = &[
    Case {
        name: "a search tree of three nodes, within one",
        market: OVERSIZED,
        budget: 1,
        reported: Err((1, Some(PartItem::Pending))),
    },
    Case {
        name: "a search tree of three nodes, within two",
        market: OVERSIZED,
        budget: 2,
        reported: Err((1, Some(PartItem::Pending))),
    },
    THREE_NODES,
    Case {
        name: "a paradox bid is rejected",
        market: PARADOX,
        budget: 10_000,
        reported: Ok((399_956_000, (3, [40, 0, 40, 0]))),
    },
    Case {
        name: "no gate, within one node",
        market: MarketRow {
            limits: &[],
            orders: &[
                (0, UP, 0, 100, 5000, None),
                (0, DOWN, 0, 60, 9_999_900, None),
            ],
            gates: &[],
        },
        budget: 1,
        reported: Ok((599_694_000, (2, [60, 60, 0, 0]))),
    },
];

/// The number of items, and the item where it is one.
pub(crate) fn one_of(items: &[PartItem]) -> (usize, Option<PartItem>) {
    match items {
        [item] => (1, Some(*item)),
        _ => (items.len(), None),
    }
}

fn reported(cleared: &Cleared) -> Reported {
    match cleared {
        Cleared::Published(clearing) => {
            Ok((clearing.welfare, few(clearing.activation.mw.as_slice())))
        }
        Cleared::Spent(spent) => Err(one_of(spent.items.as_slice())),
        Cleared::Memory => Err((0, None)),
    }
}

fn reported_once(cleared: Cleared) -> Reported {
    let reported = reported(&cleared);
    drop(cleared);
    reported
}

/// What a clearer comes to.
fn cleared_by<C: Clearer>(
    clearer: &mut C,
    alloc: Global,
    market: &Market,
    budget: u32,
) -> Result<Cleared, Fail>
    requires { C.ready clearer.old }
{
    if market.valid() && (1..=50_000).contains(&budget) {
        Ok(clearer.clear(alloc, market, budget))
    } else {
        Err("the market is valid, and the budget in range".into())
    }
}

/// What one thread comes to.
pub(crate) fn alone(alloc: Global, market: &Market, budget: u32) -> Result<Cleared, Fail> {
    if market.valid() && (1..=50_000).contains(&budget) {
        Ok(search_alone(alloc, market, budget))
    } else {
        Err("the market is valid, and the budget in range".into())
    }
}

/// What `workers` workers come to.
pub(crate) fn by_crew<G: Turnstile, R: Threads + Wait + Sync>(
    rt: &R,
    alloc: Global,
    market: &Market,
    workers: u32,
    budget: u32,
    turnstile: &G,
) -> Result<Cleared, Fail>
    requires { IsWorkerCount workers }
{
    let mut crew = Crew {
        run: |alloc: Global, market: &Market, budget: u32| -> Cleared
            requires { IsValid market.now × IsBudget budget × IsWorkerCount workers }
            ensures { Clears market.entry.now budget result }
        { search(rt, alloc, market, workers, budget, turnstile) },
    };
    cleared_by(&mut crew, alloc, market, budget)
}

/// What is reported of one thread, by its function and as a clearer.
fn reported_alone(alloc: Global, market: &Market, budget: u32) -> Result<[Reported; 2], Fail> {
    let by_function = reported_once(alone(alloc, market, budget)?);
    let by_clearer = reported_once(cleared_by(&mut Alone, alloc, market, budget)?);
    Ok([by_function, by_clearer])
}

/// What is reported of 1, 2, 4 and 16 workers.
fn reported_by_crews<G: Turnstile, R: Threads + Wait + Sync>(
    rt: &R,
    alloc: Global,
    market: &Market,
    budget: u32,
    turnstile: &G,
) -> Result<[Reported; 4], Fail> {
    Ok([
        reported_once(by_crew(rt, alloc, market, 1, budget, turnstile)?),
        reported_once(by_crew(rt, alloc, market, 2, budget, turnstile)?),
        reported_once(by_crew(rt, alloc, market, 4, budget, turnstile)?),
        reported_once(by_crew(rt, alloc, market, 16, budget, turnstile)?),
    ])
}

/// What is reported of a case by workers that this turnstile serves.
fn reported_with<G: Turnstile, R: Threads + Wait + Sync>(
    rt: &R,
    alloc: Global,
    case: &Case,
    turnstile: &G,
) -> Result<[Reported; 4], Fail> {
    let market = market_of(alloc, &case.market)?;
    let reported = reported_by_crews(rt, alloc, &market, case.budget, turnstile);
    drop(market);
    reported
}

/// What is reported of a case by one thread.
fn reported_without(alloc: Global, case: &Case) -> Result<[Reported; 2], Fail> {
    let market = market_of(alloc, &case.market)?;
    let reported = reported_alone(alloc, &market, case.budget);
    drop(market);
    reported
}

#[test]
fn one_thread_and_many_workers_come_to_the_same(rt: HostRuntime) -> Result<(), Fail> {
    for case in CASES {
        same_in(
            &rt,
            case.name,
            reported_without(rt.alloc(), case)?,
            [case.reported; 2],
        );
        let by_crews = reported_with(&rt, rt.alloc(), case, &FreeTurnstile)?;
        same_in(&rt, case.name, by_crews, [case.reported; 4]);
    }
    Ok(())
}

/// Finds no memory for any node.
#[derive(Clone, Copy, Debug)]
struct Starved;

impl Turnstile for Starved {
    fn through(
        &self,
        _alloc: Global,
        _worker: u32,
        _market: &Market,
        _prefix: &Prefix,
        _root: &Root,
        _workspace: &mut Workspace,
    ) -> Result<Finding, Memory> {
        Err(Memory)
    }
}

#[test]
fn workers_that_want_memory_leave_their_nodes(rt: HostRuntime) -> Result<(), Fail> {
    let case = &THREE_NODES;
    let by_crews = reported_with(&rt, rt.alloc(), case, &Starved)?;
    same(&rt, by_crews, [case.reported; 4]);
    Ok(())
}

/// Whether the published tree is a branch, a bound and a conflict.
fn is_bound_beside_conflict(cleared: &Cleared) -> bool {
    match cleared {
        Cleared::Published(clearing) => matches!(
            clearing.tree.as_slice(),
            [
                TreeItem::Branch,
                TreeItem::Leaf(Leaf::Bound(_)),
                TreeItem::Leaf(Leaf::Conflict(_)),
            ]
        ),
        Cleared::Spent(_) | Cleared::Memory => false,
    }
}

/// Whether the tree of the market with a paradox bid is that.
fn paradox_conflicts(alloc: Global) -> Result<bool, Fail> {
    let market = market_of(alloc, &PARADOX)?;
    let cleared = alone(alloc, &market, 10_000);
    drop(market);
    Ok(is_bound_beside_conflict(&cleared?))
}

#[test]
fn a_paradox_bid_is_rejected_by_a_conflict(rt: HostRuntime) -> Result<(), Fail> {
    assert!(rt; paradox_conflicts(rt.alloc())?);
    Ok(())
}
