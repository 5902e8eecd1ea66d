//! Four hundred equal blocks: a state that decides one of them decides those of better or of worse rank too, so that a
//! few nodes are enough.

use crate::same::same;
use mari_market::{GateInfo, Market, Order, Side};
use mari_reached::{Answer, reach};
use mari_units::{Cents, Items};
use std::alloc::{AllocError, Global};
use std::test::Fail;

/// How many blocks there are.
const BLOCKS: u32 = 400;

/// A block of 10 MW at 50.00.
fn block(gate: u32) -> Order {
    Order {
        zone: 0,
        side: Side::Inject,
        price: Cents(5000),
        least: 10,
        greatest: 10,
        gate: Some(gate),
    }
}

/// An order of no gate.
fn plain(side: Side, price: i64, greatest: u32) -> Order {
    Order {
        zone: 0,
        side,
        price: Cents(price),
        least: 0,
        greatest,
        gate: None,
    }
}

/// The blocks, and a bid of up to 100 MW at 60.00, for a demand of 1,005 MW.
fn market(alloc: Global) -> Result<Market, AllocError> {
    let mut orders = Vec::new(alloc);
    let mut gates = Vec::new(alloc);
    for gate in 0..BLOCKS {
        orders.push(block(gate))?;
        gates.push(GateInfo {
            group: None,
            parent: None,
        })?;
    }
    orders.push(plain(Side::Inject, 6000, 100))?;
    orders.push(plain(Side::Withdraw, 9_999_900, 1005))?;
    Ok(Market {
        zones: 1,
        borders: Items::of(Vec::new(alloc)),
        orders: Items::of(orders),
        gates: Items::of(gates),
        reference: Cents(4000),
    })
}

/// The welfare of a first activation in quarter-cents, how many orders it leaves out, and up to which place it does; none
/// where it isn't shown to be the first.
type Reported = Option<(u64, usize, usize)>;

/// What is reported of an answer.
fn report_of(answer: &Answer) -> Reported {
    let Answer::First(found) = answer else {
        return None;
    };
    let mut left_out = 0usize;
    let mut last = 0usize;
    let mut place = 0usize;
    for mw in found.activation.mw.as_slice() {
        if *mw == 0 {
            left_out = left_out.saturating_add(1);
            last = place;
        }
        place = place.saturating_add(1);
    }
    Some((found.welfare, left_out, last))
}

/// What is reported of the answer within a budget.
fn reported(alloc: Global, budget: u32) -> Result<Reported, Fail> {
    let market = market(alloc)?;
    if !market.valid() || budget < 1 || budget > 100 {
        return Err("the market and the budget are valid".into());
    }
    let answer = reach(alloc, &market, budget)?;
    let reported = report_of(&answer);
    drop(answer);
    drop(market);
    Ok(reported)
}

#[test]
fn equal_blocks_come_to_the_last_ones_within_a_few_nodes(rt: HostRuntime) -> Result<(), Fail> {
    // 1,005 MW at 99999.00, less 1,000 at 50.00 and 5 at 60.00: the first 300 blocks are left out.
    same(
        &rt,
        reported(rt.alloc(), 9)?,
        Some((10_044_869_500, 300, 299)),
    );
    Ok(())
}
