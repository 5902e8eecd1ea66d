//! Random small markets, cleared by one worker and by several: all of them come to one clearing, tree and all.

ghost use Rattle.std.specs.Prelude.{◌<◌, ◌≤◌};
ghost use Rattle.mari_market.specs.Clearing.{IsWorkerCount};

use crate::same::same;
use crate::searches::{alone, by_crew};
use crate::small::opened;
use mari_market::{
    Activation, Border, Cleared, Clearing, Finding, GateInfo, Leaf, Market, Order, Prefix, Side,
    TreeItem,
};
use mari_units::{Cents, Items, Memory};
use mari_workers::{Root, Turnstile, Workspace};
use std::alloc::{AllocError, Global};
use std::sync::Wait;
use std::sync::atomic::{AtomicU64, Ordering};
use std::test::Fail;
use std::thread;
use std::thread::Threads;

/// Numbers that follow from a seed: each is the one before, shifted and added to itself bit by bit three times.
#[derive(Drop)]
pub(crate) struct Dice {
    pub state: u64,
}

impl Dice {
    /// A number below this one.
    pub fn below(&mut self, count: u32) -> u32
        requires { 1 ≤ count }
        ensures { result < count }
    {
        self.state ^= self.state << 13;
        self.state ^= self.state >> 7;
        self.state ^= self.state << 17;
        (self.state % u64::from(count)) as u32
    }

    /// A price of 1.00 to 8.00, so that there are ties.
    fn price(&mut self) -> Cents {
        Cents(100 + 100 * i64::from(self.below(8)))
    }

    /// A side, of four three times the one that gives energy.
    fn side(&mut self) -> Side {
        if self.below(4) == 0 {
            Side::Withdraw
        } else {
            Side::Inject
        }
    }

    /// A bid of a gate.
    fn gated(&mut self, zones: u32, gate: u32) -> Order
        requires { 1 ≤ zones }
    {
        let least = 1 + self.below(20);
        Order {
            zone: self.below(zones),
            side: self.side(),
            price: self.price(),
            least,
            greatest: least + self.below(15),
            gate: Some(gate),
        }
    }

    /// The group and the parent of a gate, each of which it may be without.
    fn gate(&mut self, gate: u32) -> GateInfo
        requires { gate < 512 }
    {
        let grouped = self.below(3) == 0;
        let group = self.below(2);
        let parent = self.below(3 + gate);
        GateInfo {
            group: grouped.then_some(group),
            parent: (parent < gate).then_some(parent),
        }
    }

    /// A plain order of a zone.
    fn plain(&mut self, zone: u32, side: Side, price: Cents) -> Order {
        Order {
            zone,
            side,
            price,
            least: 0,
            greatest: self.below(40),
            gate: None,
        }
    }

    /// A border between a zone and the one before it.
    fn border(&mut self, zone: u32) -> Border
        requires { 1 ≤ zone }
    {
        Border {
            from: zone - 1,
            to: zone,
            limit: self.below(30),
            back: self.below(30),
        }
    }

    /// A market of 1 to 3 zones in a row and 2 to 6 gates.
    pub fn market(&mut self, alloc: Global) -> Result<Market, AllocError> {
        let zones = 1 + self.below(3);
        let mut orders = Vec::new(alloc);
        let mut gates = Vec::new(alloc);
        for gate in 0..2 + self.below(5) {
            orders.push(self.gated(zones, gate))?;
            gates.push(self.gate(gate))?;
        }
        let mut borders = Vec::new(alloc);
        for zone in 0..zones {
            let price = self.price();
            orders.push(self.plain(zone, Side::Inject, price))?;
            orders.push(self.plain(zone, Side::Withdraw, Cents(9_999_900)))?;
            if zone > 0 {
                borders.push(self.border(zone))?;
            }
        }
        Ok(Market {
            zones,
            borders: Items::of(borders),
            orders: Items::of(orders),
            gates: Items::of(gates),
            reference: Cents(400),
        })
    }
}

/// Holds each worker for up to 15 turns, by a number that follows from the count of all that came.
#[derive(Drop)]
struct Yielding {
    count: AtomicU64,
}

impl Turnstile for Yielding {
    fn through(
        &self,
        alloc: Global,
        _worker: u32,
        market: &Market,
        prefix: &Prefix,
        root: &Root,
        workspace: &mut Workspace,
    ) -> Result<Finding, Memory> {
        let count = self.count.fetch_add(1, Ordering::SeqCst);
        for _ in 0..count.wrapping_mul(0x9E37_79B9_7F4A_7C15) >> 60 {
            thread::yield_now();
        }
        root.examine_in(alloc, market, prefix, workspace)
    }
}

/// A sum by which clearings are distinguished: each number is mixed into those before it.
#[derive(Drop)]
pub(crate) struct Sum {
    pub state: u64,
}

impl Sum {
    fn add(&mut self, number: u64) {
        self.state = (self.state ^ number).wrapping_mul(0x0000_0100_0000_01B3);
        self.state ^= self.state >> 29;
    }

    fn add_signed(&mut self, number: i64) {
        self.add(u64::from(number < 0));
        self.add(number.unsigned_abs());
    }

    pub fn add_prices(&mut self, prices: &[Cents]) {
        for price in prices {
            self.add_signed(price.0);
        }
    }

    fn add_numbers(&mut self, numbers: &[u32]) {
        for number in numbers {
            self.add(u64::from(*number));
        }
    }

    pub fn add_activation(&mut self, activation: &Activation) {
        self.add_numbers(activation.mw.as_slice());
        for flow in activation.flow.as_slice() {
            self.add_signed(*flow);
        }
    }

    fn add_leaf(&mut self, leaf: &Leaf) {
        match leaf {
            Leaf::Bound(potentials) => self.add_prices(potentials.cents.as_slice()),
            Leaf::Cut(cut) => self.add_numbers(cut.zones.as_slice()),
            Leaf::Conflict(conflict) => {
                self.add_numbers(conflict.chain.as_slice());
                self.add_prices(conflict.potentials.cents.as_slice());
                self.add_activation(&conflict.activation);
            }
        }
    }

    fn add_tree(&mut self, tree: &[TreeItem]) {
        for item in tree {
            match item {
                TreeItem::Branch => self.add(1),
                TreeItem::Leaf(leaf) => {
                    self.add(2);
                    self.add_leaf(leaf);
                }
            }
        }
    }
}

/// The sum of a clearing's quantities, flows and tree.
fn sum_of(clearing: &Clearing) -> u64 {
    let mut sum = Sum { state: 0 };
    sum.add_activation(&clearing.activation);
    sum.add_tree(clearing.tree.as_slice());
    sum.state
}

/// The welfare that is published, the bits of the gates whose orders run, and the sum of all else.
type Reported = Option<(u64, u64, u64)>;

fn reported(market: &Market, cleared: &Cleared) -> Reported {
    match cleared {
        Cleared::Published(clearing) => {
            let opened = opened(market.orders.as_slice(), clearing.activation.mw.as_slice());
            Some((clearing.welfare, opened, sum_of(clearing)))
        }
        Cleared::Spent(_) | Cleared::Memory => None,
    }
}

fn reported_once(market: &Market, cleared: Cleared) -> Reported {
    let reported = reported(market, &cleared);
    drop(cleared);
    reported
}

/// What is reported where `workers` workers search.
fn reported_by<R: Threads + Wait + Sync>(
    rt: &R,
    alloc: Global,
    market: &Market,
    workers: u32,
    yielding: &Yielding,
) -> Result<Reported, Fail>
    requires { IsWorkerCount workers }
{
    let cleared = by_crew(rt, alloc, market, workers, 10_000, yielding)?;
    Ok(reported_once(market, cleared))
}

/// What is reported of one thread, and of 1, 2, 4 and 16 workers.
fn reported_of<R: Threads + Wait + Sync>(
    rt: &R,
    alloc: Global,
    market: &Market,
    yielding: &Yielding,
) -> Result<(Reported, [Reported; 4]), Fail> {
    let by_one = reported_once(market, alone(alloc, market, 10_000)?);
    let by_crews = [
        reported_by(rt, alloc, market, 1, yielding)?,
        reported_by(rt, alloc, market, 2, yielding)?,
        reported_by(rt, alloc, market, 4, yielding)?,
        reported_by(rt, alloc, market, 16, yielding)?,
    ];
    Ok((by_one, by_crews))
}

/// The same of the next market.
fn reported_of_next<R: Threads + Wait + Sync>(
    rt: &R,
    alloc: Global,
    dice: &mut Dice,
    yielding: &Yielding,
) -> Result<(Reported, [Reported; 4]), Fail> {
    let market = dice.market(alloc)?;
    let reported = reported_of(rt, alloc, &market, yielding);
    drop(market);
    reported
}

#[test]
fn random_markets_come_to_the_clearing_that_one_thread_finds(rt: HostRuntime) -> Result<(), Fail> {
    let mut dice = Dice {
        state: 0x2025_0312_0000_0096,
    };
    let yielding = Yielding {
        count: AtomicU64::new(0),
    };
    for _ in 0..200 {
        let (by_one, by_crews) = reported_of_next(&rt, rt.alloc(), &mut dice, &yielding)?;
        assert!(rt; by_one.is_some());
        same(&rt, by_crews, [by_one; 4]);
    }
    Ok(())
}
