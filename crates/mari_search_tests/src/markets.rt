//! Markets that are valid and such that are not, and a clearer that is called twice.

ghost use Rattle.std.specs.Prelude.{◌≤◌};
ghost use Rattle.mari_market.specs.Clearing.{Clears};
ghost use Rattle.mari_market.specs.Market.{IsValid};

use crate::same::same;
use crate::small::{MarketRow, UP, market_of};
use mari_market::{Cleared, Clearer, Market};
use mari_units::{Cents, Items};
use std::alloc::Global;
use std::test::Fail;

/// Markets that are valid: a plain order has no least, a gated one has.
const VALID: &[MarketRow] = &[
    MarketRow {
        limits: &[],
        orders: &[(0, UP, 0, 40, 3000, None)],
        gates: &[],
    },
    MarketRow {
        limits: &[],
        orders: &[(0, UP, 40, 40, 3000, Some(0))],
        gates: &[(None, None)],
    },
];

/// Markets that aren't: a plain order with a least; a gated one without, with one above its greatest, and of a gate
/// that isn't there.
const NOT_VALID: &[MarketRow] = &[
    MarketRow {
        limits: &[],
        orders: &[(0, UP, 1, 40, 3000, None)],
        gates: &[],
    },
    MarketRow {
        limits: &[],
        orders: &[(0, UP, 0, 40, 3000, Some(0))],
        gates: &[(None, None)],
    },
    MarketRow {
        limits: &[],
        orders: &[(0, UP, 41, 40, 3000, Some(0))],
        gates: &[(None, None)],
    },
    MarketRow {
        limits: &[],
        orders: &[(0, UP, 40, 40, 3000, Some(1))],
        gates: &[(None, None)],
    },
];

/// How many of these markets are valid.
fn count_valid(alloc: Global, rows: &[MarketRow]) -> Result<usize, Fail> {
    let mut count = 0usize;
    for row in rows {
        let market = market_of(alloc, row)?;
        if market.valid() {
            count = count.saturating_add(1);
        }
    }
    Ok(count)
}

#[test]
fn a_gated_order_has_a_least_and_a_plain_one_has_none(rt: HostRuntime) -> Result<(), Fail> {
    same(&rt, count_valid(rt.alloc(), VALID)?, VALID.len());
    same(&rt, count_valid(rt.alloc(), NOT_VALID)?, 0);
    Ok(())
}

/// A clearer that never has the memory, and counts up to nine calls.
#[derive(Drop)]
struct Starved {
    calls: u32,
}

impl Clearer for Starved {
    ghost ready = { λ s. s.calls ≤ 9 };

    fn clear(&mut self, _alloc: Global, _market: &Market, _budget: u32) -> Cleared {
        if self.calls < 9 {
            self.calls += 1;
        }
        Cleared::Memory
    }
}

/// Clears a market with one budget, and then with another.
fn clear_twice<C: Clearer>(clearer: &mut C, alloc: Global, market: &Market) -> (Cleared, Cleared)
    requires ready { C.ready clearer.old }
    requires market { IsValid market.now }
    ensures first { Clears market.now 1 result.0 }
    ensures second { Clears market.now 3 result.1 }
    ensures ready { C.ready clearer.new }
{
    let first = clearer.clear(alloc, market, 1);
    let second = clearer.clear(alloc, market, 3);
    (first, second)
}

#[test]
fn one_clearer_serves_two_calls(rt: HostRuntime) {
    let alloc = rt.alloc();
    let market = Market {
        zones: 1,
        borders: Items::of(Vec::new(alloc)),
        orders: Items::of(Vec::new(alloc)),
        gates: Items::of(Vec::new(alloc)),
        reference: Cents(4000),
    };
    let mut clearer = Starved { calls: 0 };
    let answers = clear_twice(&mut clearer, alloc, &market);
    assert!(rt; matches!(answers, (Cleared::Memory, Cleared::Memory)));
    same(&rt, clearer.calls, 2);
}
