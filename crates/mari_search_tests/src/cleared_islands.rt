//! Islands that are cleared one by one: first activations of the islands are together the first of the whole.

ghost use Rattle.mari_market.specs.Market.{IsValid};

use crate::islands::{CONGESTED, NetworkRow, PLAIN_AND_OVERSIZED, TWICE_OVERSIZED, market_of};
use crate::same::same;
use crate::searches::alone;
use crate::small::{DOWN, Few, UP, activation_of, few};
use mari_islands::{IslandsCleared, Joined, check_islands, clear_islands, islands_of};
use mari_market::{Border, Cleared, Clearing, Market, Order, Side, TreeItem};
use mari_units::{Cents, Items};
use mari_workers::Alone;
use std::alloc::{AllocError, Global};
use std::test::Fail;

/// What one thread comes to, island by island.
fn cleared(alloc: Global, market: &Market, budget: u32) -> Result<IslandsCleared, Fail>
    requires { IsValid market.now }
{
    if !(1..=50_000).contains(&budget) {
        return Err("the budget is in range".into());
    }
    let islands = islands_of(alloc, market)?;
    Ok(clear_islands(alloc, market, &islands, budget, &mut Alone))
}

/// What is said of a market's islands: the welfare that is published, what the orders run, what flows over the first
/// border, and the welfare and the number of items of two clearings; or the island for which the budget is spent, and
/// at what number of items.
type Said = Result<(u64, Few, Option<i64>, [Option<(u64, usize)>; 2]), (u32, usize)>;

/// What is said of a clearing.
fn clearing_said(clearing: &Clearing) -> (u64, usize) {
    (clearing.welfare, clearing.tree.as_slice().len())
}

/// What is said of an answer.
fn answer_said(answer: &IslandsCleared) -> Result<Said, Fail> {
    match answer {
        IslandsCleared::Published(
            Joined {
                activation,
                welfare,
            },
            clearings,
        ) => {
            let clearings = clearings.as_slice();
            let both = [0, 1].map(|place| clearings.get(place).map(clearing_said));
            let flow = activation.flow.as_slice().first().copied();
            Ok(Ok((*welfare, few(activation.mw.as_slice()), flow, both)))
        }
        IslandsCleared::Spent(island, spent) => Ok(Err((*island, spent.items.as_slice().len()))),
        IslandsCleared::Memory => Err("memory".into()),
    }
}

/// What is said of the islands of a row.
fn said(alloc: Global, row: &NetworkRow, budget: u32) -> Result<Said, Fail> {
    let market = market_of(alloc, row)?;
    if !market.valid() {
        return Err("the market is valid".into());
    }
    let answer = cleared(alloc, &market, budget)?;
    answer_said(&answer)
}

#[test]
fn a_budget_of_one_island_does_for_two(rt: HostRuntime) -> Result<(), Fail> {
    let alloc = rt.alloc();
    let both = [Some((299_847_000, 3)), Some((299_847_000, 3))];
    same(
        &rt,
        said(alloc, &TWICE_OVERSIZED, 3)?,
        Ok((599_694_000, (6, [0, 30, 0, 30]), None, both)),
    );
    let market = market_of(alloc, &TWICE_OVERSIZED)?;
    let whole = alone(alloc, &market, 3)?;
    assert!(rt; matches!(whole, Cleared::Spent(_)));
    Ok(())
}

#[test]
fn two_zones_that_a_border_joins_are_cleared_together(rt: HostRuntime) -> Result<(), Fail> {
    let one = [Some((799_712_000, 1)), None];
    same(
        &rt,
        said(rt.alloc(), &CONGESTED, 1)?,
        Ok((799_712_000, (3, [50, 30, 80, 0]), Some(50), one)),
    );
    Ok(())
}

#[test]
fn the_first_island_whose_budget_is_spent_is_named(rt: HostRuntime) -> Result<(), Fail> {
    same(&rt, said(rt.alloc(), &PLAIN_AND_OVERSIZED, 1)?, Err((1, 1)));
    Ok(())
}

/// The trees of clearings, or all but the last.
fn trees_of(
    alloc: Global,
    clearings: &[Clearing],
    whole: bool,
) -> Result<Vec<Vec<TreeItem>>, AllocError> {
    let mut trees = Vec::new(alloc);
    for clearing in clearings {
        trees.push(clearing.tree.clone()?.into_vec())?;
    }
    if !whole {
        trees.pop();
    }
    Ok(trees)
}

/// Whether an activation passes with the trees that its market's islands are cleared with, or with all but the last.
fn passes(alloc: Global, row: &NetworkRow, mw: Option<&[u32]>, whole: bool) -> Result<bool, Fail> {
    let market = market_of(alloc, row)?;
    if !market.valid() {
        return Err("the market is valid".into());
    }
    let islands = islands_of(alloc, &market)?;
    match clear_islands(alloc, &market, &islands, 10, &mut Alone) {
        IslandsCleared::Published(joined, clearings) => {
            let trees = trees_of(alloc, clearings.as_slice(), whole)?;
            let own = &joined.activation;
            let mw = mw.unwrap_or(own.mw.as_slice());
            let activation = activation_of(alloc, mw, own.flow.as_slice())?;
            Ok(check_islands(alloc, &market, &islands, &activation, &trees)?)
        }
        IslandsCleared::Spent(_island, _spent) => Err("the budget is enough".into()),
        IslandsCleared::Memory => Err("memory".into()),
    }
}

#[test]
fn each_island_is_certified_by_its_tree(rt: HostRuntime) -> Result<(), Fail> {
    let alloc = rt.alloc();
    assert!(rt; passes(alloc, &TWICE_OVERSIZED, None, true)?);
    assert!(rt; !passes(alloc, &TWICE_OVERSIZED, None, false)?);
    let idle = [0; 6];
    assert!(rt; !passes(alloc, &TWICE_OVERSIZED, Some(&idle), true)?);
    let short = [0, 20, 0, 30, 20, 30];
    assert!(rt; !passes(alloc, &TWICE_OVERSIZED, Some(&short), true)?);
    Ok(())
}

/// A market of many zones, each with a bid of 100 MW and a demand of 10 MW; every second pair of neighbours has a border
/// that carries nothing.
fn many_zones(alloc: Global, zones: u32) -> Result<Market, AllocError> {
    let mut borders = Vec::new(alloc);
    let mut orders = Vec::new(alloc);
    for zone in 0..zones {
        orders.push(order(zone, UP, 100, 5000))?;
        orders.push(order(zone, DOWN, 10, 9_999_900))?;
        if zone % 2 == 1 {
            borders.push(Border {
                from: zone - 1,
                to: zone,
                limit: 0,
                back: 0,
            })?;
        }
    }
    Ok(Market {
        zones,
        borders: Items::of(borders),
        orders: Items::of(orders),
        gates: Items::of(Vec::new(alloc)),
        reference: Cents(4000),
    })
}

/// A plain order.
fn order(zone: u32, side: Side, greatest: u32, price: i64) -> Order {
    Order {
        zone,
        side,
        price: Cents(price),
        least: 0,
        greatest,
        gate: None,
    }
}

#[test]
fn each_of_64_zones_is_an_island(rt: HostRuntime) -> Result<(), Fail> {
    let market = many_zones(rt.alloc(), 64)?;
    if !market.valid() {
        return Err("the market is valid".into());
    }
    same(&rt, islands_of(rt.alloc(), &market)?.len(), 64);
    let IslandsCleared::Published(joined, clearings) = cleared(rt.alloc(), &market, 1)? else {
        return Err("one node for each island is enough".into());
    };
    // Each zone is worth 10 MW at 99,949.00 a MWh, for a quarter hour.
    same(&rt, joined.welfare, 64 * 10 * 9_994_900);
    same(&rt, clearings.as_slice().len(), 64);
    Ok(())
}
