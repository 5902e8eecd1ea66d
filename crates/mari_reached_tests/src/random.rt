//! Random small markets: the answer is the activation that the first form publishes.

use crate::same::same;
use mari_market::{Activation, Border, Cleared, GateInfo, Market, Order, Side};
use mari_reached::{Answer, reach};
use mari_units::{Cents, Items};
use mari_workers::search_alone;
use std::alloc::{AllocError, Global};
use std::test::Fail;

/// Numbers that follow from a seed: each is the one before, shifted and added to itself bit by bit three times.
#[derive(Drop)]
struct Dice {
    state: u64,
}

impl Dice {
    /// A number below this one, or 0.
    fn below(&mut self, count: u32) -> u32 {
        self.state ^= self.state << 13;
        self.state ^= self.state >> 7;
        self.state ^= self.state << 17;
        (self.state % u64::from(count.max(1))) as u32
    }

    /// A price of 1.00 to 8.00, so that there are ties.
    fn price(&mut self) -> Cents {
        Cents(100 + 100 * i64::from(self.below(8)))
    }

    /// A bid of a gate, of four three times one that gives energy.
    fn gated(&mut self, zones: u32, gate: u32) -> Order {
        let least = self.below(20).saturating_add(1);
        let takes = self.below(4) == 0;
        Order {
            zone: self.below(zones),
            side: if takes { Side::Withdraw } else { Side::Inject },
            price: self.price(),
            least,
            greatest: least.saturating_add(self.below(15)),
            gate: Some(gate),
        }
    }

    /// The group and the parent of a gate, each of which it may be without.
    fn gate(&mut self, gate: u32) -> GateInfo {
        let grouped = self.below(3) == 0;
        let group = self.below(2);
        let parent = self.below(gate.saturating_add(3));
        GateInfo {
            group: grouped.then_some(group),
            parent: (parent < gate).then_some(parent),
        }
    }

    /// A plain order of a zone.
    fn plain(&mut self, zone: u32, side: Side, price: Cents) -> Order {
        Order {
            zone,
            side,
            price,
            least: 0,
            greatest: self.below(40),
            gate: None,
        }
    }

    /// A market of 1 to 3 zones in a row and 2 to 6 gates.
    fn market(&mut self, alloc: Global) -> Result<Market, AllocError> {
        let zones = self.below(3).saturating_add(1);
        let mut orders = Vec::new(alloc);
        let mut gates = Vec::new(alloc);
        for gate in 0..self.below(5).saturating_add(2) {
            orders.push(self.gated(zones, gate))?;
            gates.push(self.gate(gate))?;
        }
        let mut borders = Vec::new(alloc);
        for zone in 0..zones {
            let price = self.price();
            orders.push(self.plain(zone, Side::Inject, price))?;
            orders.push(self.plain(zone, Side::Withdraw, Cents(9_999_900)))?;
            if zone > 0 {
                let (limit, back) = (self.below(30), self.below(30));
                let from = zone.saturating_sub(1);
                borders.push(Border {
                    from,
                    to: zone,
                    limit,
                    back,
                })?;
            }
        }
        Ok(Market {
            zones,
            borders: Items::of(borders),
            orders: Items::of(orders),
            gates: Items::of(gates),
            reference: Cents(400),
        })
    }
}

/// A welfare in quarter-cents, and a sum by which activations are distinguished.
type Published = Option<(u64, u64)>;

/// Each number is mixed into those before it.
fn mixed(sum: u64, number: u64) -> u64 {
    let sum = (sum ^ number).wrapping_mul(0x0000_0100_0000_01B3);
    sum ^ (sum >> 29)
}

/// The sum of an activation's quantities and flows.
fn sum_of(activation: &Activation) -> u64 {
    let mut sum = 0;
    for mw in activation.mw.as_slice() {
        sum = mixed(sum, u64::from(*mw));
    }
    for flow in activation.flow.as_slice() {
        sum = mixed(mixed(sum, u64::from(*flow < 0)), flow.unsigned_abs());
    }
    sum
}

/// What the first form publishes.
fn by_first_form(cleared: &Cleared) -> Published {
    match cleared {
        Cleared::Published(clearing) => Some((clearing.welfare, sum_of(&clearing.activation))),
        Cleared::Spent(_) | Cleared::Memory => None,
    }
}

/// What the second form answers as first.
fn by_second_form(answer: &Answer) -> Published {
    match answer {
        Answer::First(found) => Some((found.welfare, sum_of(&found.activation))),
        Answer::Within(_, _) => None,
    }
}

/// What both forms publish.
fn published(alloc: Global, market: &Market) -> Result<(Published, Published), Fail> {
    if !market.valid() {
        return Err("the market is valid".into());
    }
    let cleared = search_alone(alloc, market, 10_000);
    let first = by_first_form(&cleared);
    drop(cleared);
    let answer = reach(alloc, market, 10_000)?;
    let second = by_second_form(&answer);
    drop(answer);
    Ok((first, second))
}

/// The same of the next market.
fn published_next(alloc: Global, dice: &mut Dice) -> Result<(Published, Published), Fail> {
    let market = dice.market(alloc)?;
    let published = published(alloc, &market);
    drop(market);
    published
}

#[test]
fn random_markets_come_to_what_the_first_form_publishes(rt: HostRuntime) -> Result<(), Fail> {
    let mut dice = Dice {
        state: 0x2025_0312_0000_0096,
    };
    for _ in 0..400 {
        let (first, second) = published_next(rt.alloc(), &mut dice)?;
        assert!(rt; first.is_some());
        same(&rt, second, first);
    }
    Ok(())
}
