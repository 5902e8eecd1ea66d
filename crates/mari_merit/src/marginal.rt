//! The marginal price: where the merit order has met the need.

ghost use Rattle.std.specs.Prelude.{◌≡◌, ◌≤◌, ◌*◌, IfOk, length, map, sum_by};
ghost use Rattle.std.specs.List.{All};
ghost use Rattle.std.specs.List.Sorted.{IsPermutation};
ghost use Rattle.mari_market.specs.Price.{IsPrice};
ghost use Rattle.mari_merit.specs.Merit.{withdrawn_in, rung_of, room_below, IsMarginal, IsAscending};

use mari_market::{MOST_ORDERS, Order, Side};
use mari_units::{Cents, MOST_MW, Memory};
use std::alloc::Global;

/// A rung of the merit order.
#[derive(Clone, Copy, Debug, PartialEq, Eq)]
pub struct Rung {
    /// The price of the order, in cents per MWh.
    pub price: i64,
    /// Its greatest quantity, in MW.
    pub room: u32,
}

/// The need: what the withdrawals take at most, in MW.
pub fn withdrawn(orders: &[Order]) -> u64
    requires few { length orders.now ≤ MOST_ORDERS }
    requires small { All (λ o. o.greatest ≤ MOST_MW) orders.now }
    ensures total { result ≡ withdrawn_in orders.now }
    ensures bound { result ≤ MOST_MW * length orders.now }
{
    let mut total = 0u64;
    for order in orders {
        if order.side == Side::Withdraw {
            total += u64::from(order.greatest);
        }
    }
    total
}

/// What the orders that are cheaper than a price run at most, in MW.
pub fn cheaper(orders: &[Order], price: Cents) -> u64
    requires few { length orders.now ≤ MOST_ORDERS }
    requires small { All (λ o. o.greatest ≤ MOST_MW) orders.now }
    ensures { result ≡ room_below price.0 (map rung_of orders.now) }
{
    let mut total = 0u64;
    for order in orders {
        if order.price.0 < price.0 {
            total += u64::from(order.greatest);
        }
    }
    total
}

/// A rung for each order.
fn rungs(alloc: Global, orders: &[Order]) -> Result<Vec<Rung>, Memory>
    ensures { IfOk result (λ rungs. rungs.items ≡ map rung_of orders.now) }
{
    let rung = |order: &Order| Rung {
        price: order.price.0,
        room: order.greatest,
    };
    Ok(orders.iter().map(rung).collect(alloc)?)
}

/// The merit order: a rung for each order, the cheapest first.
fn merit_order(alloc: Global, orders: &[Order]) -> Result<Vec<Rung>, Memory>
    ensures same { IfOk result (λ rungs. IsPermutation (map rung_of orders.now) rungs.items) }
    ensures ascending { IfOk result (λ rungs. IsAscending rungs.items) }
{
    let mut rungs = rungs(alloc, orders)?;
    rungs.sort_by_key(|rung| rung.price)?;
    Ok(rungs)
}

/// The price of the rung at which the merit order has met the need, or the least price where there are no rungs.
fn marginal_rung(rungs: &[Rung], need: u64) -> Cents
    requires ascending { IsAscending rungs.now }
    requires enough { need ≤ sum_by (λ r. r.room) rungs.now }
    requires few { length rungs.now ≤ MOST_ORDERS }
    requires small { All (λ r. r.room ≤ MOST_MW) rungs.now }
    requires prices { All (λ r. IsPrice r.price) rungs.now }
    ensures { IsMarginal rungs.now need result.0 }
{
    let mut met = 0u64;
    for rung in rungs {
        met += u64::from(rung.room);
        if met >= need {
            return Cents(rung.price);
        }
    }
    Cents(-mari_units::CAP)
}

/// The marginal price of a need: the orders that are cheaper meet no more of it, and with those at this price all of
/// it.
pub fn marginal_price(alloc: Global, orders: &[Order], need: u64) -> Result<Cents, Memory>
    requires few { length orders.now ≤ MOST_ORDERS }
    requires small { All (λ o. o.greatest ≤ MOST_MW) orders.now }
    requires prices { All (λ o. IsPrice o.price.0) orders.now }
    requires need { need ≡ withdrawn_in orders.now }
    ensures { IfOk result (λ price. IsMarginal (map rung_of orders.now) need price.0) }
{
    let rungs = merit_order(alloc, orders)?;
    Ok(marginal_rung(&rungs, need))
}
