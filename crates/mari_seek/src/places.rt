//! Which orders and borders are of each zone, and which orders of each gate.

use crate::lists::number_of;
use mari_market::{Market, Order, Side};
use std::alloc::{AllocError, Global};

/// Which of equal prices put more in first. Where less is put in they come the other way round, so that gates run less
/// either way.
#[derive(Clone, Copy, Debug, Drop, PartialEq, Eq, PartialOrd, Ord)]
pub(crate) enum Turn {
    /// A gate's withdrawal.
    Withdrawal,
    /// An order without a gate.
    Plain,
    /// A gate's injection.
    Injection,
}

impl Turn {
    /// The turn of an order.
    fn of(order: &Order) -> Turn {
        match (order.gate, order.side) {
            (None, _) => Turn::Plain,
            (Some(_), Side::Withdraw) => Turn::Withdrawal,
            (Some(_), Side::Inject) => Turn::Injection,
        }
    }

    /// How many turns come before it where more is put in, or less.
    pub(crate) fn place(self, raise: bool) -> i64 {
        match self {
            Turn::Withdrawal if raise => 0,
            Turn::Withdrawal => 2,
            Turn::Plain => 1,
            Turn::Injection if raise => 2,
            Turn::Injection => 0,
        }
    }
}

/// An order on its zone's ladder: by price, of equal prices by turn, and of equal turns so that the later in the file run
/// first, which of twins rank before the earlier.
#[derive(Clone, Copy, Debug, Drop, PartialEq, Eq, PartialOrd, Ord)]
pub(crate) struct Rung {
    /// Its price, in cents per MWh.
    pub(crate) price: i64,
    /// Which of equal prices it is.
    pub(crate) turn: Turn,
    /// Which of equal turns it is.
    tie: i64,
    /// The order's number.
    pub(crate) order: u32,
}

/// The places of a market's orders and borders.
#[derive(Drop)]
pub(crate) struct Places {
    ladders: Vec<Vec<Rung>>,
    borders: Vec<Vec<u32>>,
    gates: Vec<Vec<u32>>,
    groups: Vec<Vec<u32>>,
}

/// So many lists of nothing.
fn no_numbers(alloc: Global, count: usize) -> Result<Vec<Vec<u32>>, AllocError> {
    let mut lists = Vec::new(alloc);
    for _ in 0..count {
        lists.push(Vec::new(alloc))?;
    }
    Ok(lists)
}

/// So many ladders of nothing.
fn no_rungs(alloc: Global, count: usize) -> Result<Vec<Vec<Rung>>, AllocError> {
    let mut lists = Vec::new(alloc);
    for _ in 0..count {
        lists.push(Vec::new(alloc))?;
    }
    Ok(lists)
}

/// Adds a number to a list, if it is there.
fn add_to(lists: &mut [Vec<u32>], place: u32, number: u32) -> Result<(), AllocError> {
    if let Some(list) = lists.get_mut(place as usize) {
        list.push(number)?;
    }
    Ok(())
}

/// The place of an order among those of equal turns: injections run from the first rung on, withdrawals from the last.
fn tie_of(order: &Order, number: u32) -> i64 {
    match order.side {
        Side::Inject => -i64::from(number),
        Side::Withdraw => i64::from(number),
    }
}

/// Adds an order to its ladder.
fn add_rung(ladders: &mut [Vec<Rung>], order: &Order, number: u32) -> Result<(), AllocError> {
    if let Some(ladder) = ladders.get_mut(order.zone as usize) {
        ladder.push(Rung {
            price: order.price.0,
            turn: Turn::of(order),
            tie: tie_of(order, number),
            order: number,
        })?;
    }
    Ok(())
}

/// The ladder of each zone.
fn ladders_of(alloc: Global, market: &Market) -> Result<Vec<Vec<Rung>>, AllocError> {
    let mut ladders = no_rungs(alloc, market.zones as usize)?;
    let mut number = 0u32;
    for order in market.orders.as_slice() {
        add_rung(&mut ladders, order, number)?;
        number = number.saturating_add(1);
    }
    for zone in 0..ladders.len() {
        if let Some(ladder) = ladders.get_mut(zone) {
            ladder.sort()?;
        }
    }
    Ok(ladders)
}

/// The borders of each zone.
fn borders_of(alloc: Global, market: &Market) -> Result<Vec<Vec<u32>>, AllocError> {
    let mut borders = no_numbers(alloc, market.zones as usize)?;
    let mut number = 0u32;
    for border in market.borders.as_slice() {
        add_to(&mut borders, border.from, number)?;
        add_to(&mut borders, border.to, number)?;
        number = number.saturating_add(1);
    }
    Ok(borders)
}

/// The orders of each gate.
fn gates_of(alloc: Global, market: &Market) -> Result<Vec<Vec<u32>>, AllocError> {
    let mut gates = no_numbers(alloc, market.gates.as_slice().len())?;
    let mut number = 0u32;
    for order in market.orders.as_slice() {
        if let Some(gate) = order.gate {
            add_to(&mut gates, gate, number)?;
        }
        number = number.saturating_add(1);
    }
    Ok(gates)
}

/// The gate with the least number of a gate's group, if it is in one.
fn first_of_group(market: &Market, gate: usize) -> Option<u32> {
    let gates = market.gates.as_slice();
    let group = match gates.get(gate) {
        Some(info) => info.group,
        None => None,
    };
    if group.is_none() {
        return None;
    }
    let mut number = 0u32;
    for info in gates {
        if info.group == group {
            return Some(number);
        }
        number = number.saturating_add(1);
    }
    None
}

/// The gates of each group, at the place of the group's first gate.
fn groups_of(alloc: Global, market: &Market) -> Result<Vec<Vec<u32>>, AllocError> {
    let count = market.gates.as_slice().len();
    let mut groups = no_numbers(alloc, count)?;
    for gate in 0..count {
        if let Some(first) = first_of_group(market, gate) {
            add_to(&mut groups, first, number_of(gate))?;
        }
    }
    Ok(groups)
}

impl Places {
    /// The places of a market's orders and borders.
    pub(crate) fn of(alloc: Global, market: &Market) -> Result<Places, AllocError> {
        let ladders = ladders_of(alloc, market)?;
        let borders = borders_of(alloc, market)?;
        let gates = gates_of(alloc, market)?;
        let groups = groups_of(alloc, market)?;
        Ok(Places {
            ladders,
            borders,
            gates,
            groups,
        })
    }

    /// The ladder of a zone.
    pub(crate) fn ladder(&self, zone: u32) -> &[Rung] {
        match self.ladders.get(zone as usize) {
            Some(ladder) => ladder.as_slice(),
            None => &[],
        }
    }

    /// The borders of a zone.
    pub(crate) fn borders(&self, zone: u32) -> &[u32] {
        match self.borders.get(zone as usize) {
            Some(borders) => borders.as_slice(),
            None => &[],
        }
    }

    /// The gates of each group; there are lists without gates too.
    pub(crate) fn groups(&self) -> &[Vec<u32>] {
        self.groups.as_slice()
    }

    /// The orders of a gate.
    pub(crate) fn gate(&self, gate: u32) -> &[u32] {
        match self.gates.get(gate as usize) {
            Some(orders) => orders.as_slice(),
            None => &[],
        }
    }
}
