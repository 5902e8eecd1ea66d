//! What may be decided at a node.

ghost use Rattle.mari_market.specs.Market.{IsValid};

use crate::gains::{gain, loss};
use crate::lists::at;
use crate::pricing::middle_of;
use crate::search::{Search, Visit, activation_of};
use crate::words::{closed, has, put};
use mari_market::{Market, Prefix};
use mari_prices::contradiction;
use mari_reach::Choice;
use mari_units::{Cents, MOST_ZONES};
use mari_welfare::is_feasible;
use std::alloc::{AllocError, Global};

/// What a branch decides, in the order in which equal candidates are tried.
#[derive(Clone, Copy, Debug, Drop, PartialEq, Eq, PartialOrd, Ord)]
enum Split {
    /// A gate.
    Gate(u32),
    /// A zone, and a price in cents per MWh.
    Price(u32, i64),
}

/// What may be decided. The least rank is tried first.
#[derive(Clone, Copy, Debug, Drop, PartialEq, Eq, PartialOrd, Ord)]
pub(crate) struct Candidate {
    rank: i64,
    split: Split,
}

impl Candidate {
    /// What is decided.
    pub(crate) fn choice(&self) -> Choice {
        match self.split {
            Split::Gate(gate) => Choice::OfGate(gate),
            Split::Price(zone, price) => Choice::OfPrice(zone, Cents(price)),
        }
    }

    /// Whether it is a gate, or the first price of its zone.
    fn is_new(&self, zones: &mut [bool; MOST_ZONES]) -> bool {
        match self.split {
            Split::Gate(_) => true,
            Split::Price(zone, _) => {
                let place = zone as usize;
                let is_new = place < MOST_ZONES && !zones[place];
                if is_new {
                    zones[place] = true;
                }
                is_new
            }
        }
    }
}

/// Candidates as they are found, each gate once.
#[derive(Drop)]
struct Found {
    list: Vec<Candidate>,
    gates: Prefix,
}

impl Found {
    /// Adds a gate, if it isn't there.
    fn add_gate(&mut self, rank: i64, gate: u32) -> Result<(), AllocError> {
        if !has(&self.gates, gate) {
            put(&mut self.gates, gate, true);
            let split = Split::Gate(gate);
            self.list.push(Candidate { rank, split })?;
        }
        Ok(())
    }

    /// Adds a price of a zone.
    fn add_price(&mut self, rank: i64, zone: u32, price: i64) -> Result<(), AllocError> {
        let split = Split::Price(zone, price);
        self.list.push(Candidate { rank, split })?;
        Ok(())
    }

    /// Adds the free gates that run below the least of an order, the greatest such order first.
    fn add_partial(&mut self, market: &Market, visit: &Visit) -> Result<(), AllocError> {
        let mut place = 0usize;
        for order in market.orders.as_slice() {
            if let Some(gate) = order.gate {
                let amount = at(&visit.optimum.amounts, place).unsigned_abs();
                let is_partial = amount < u64::from(order.least);
                if is_partial && has(&visit.runs, gate) && visit.view.is_free(gate) {
                    self.add_gate(0i64.saturating_sub(i64::from(order.least)), gate)?;
                }
            }
            place = place.saturating_add(1);
        }
        Ok(())
    }

    /// Adds a price between the two ends of a contradiction, for each zone of its chain where a branch may stand.
    fn add_prices(
        &mut self,
        market: &Market,
        visit: &Visit,
        chain: &[u32],
    ) -> Result<(), AllocError> {
        let price = middle_of(market, &visit.optimum.amounts, chain);
        let mut rank = 0i64;
        for zone in chain {
            if visit.view.is_between(*zone, price) {
                self.add_price(rank, *zone, price)?;
            }
            rank = rank.saturating_add(1);
        }
        Ok(())
    }

    /// Adds a neighbour's price where a zone's potential is outside of what its price may be, over a border that isn't full
    /// from the first zone to the second. If the border isn't full the second zone isn't dearer than the first; so where
    /// the first may not be as dear as its potential either the second may not either, or the border is full; and
    /// where the second may not be as cheap, the first may not. The most room for a flow comes first, since the border
    /// is least likely to be full then.
    fn add_beyond(
        &mut self,
        visit: &Visit,
        zones: (u32, u32),
        room: i64,
    ) -> Result<(), AllocError> {
        let (from, to) = zones;
        let potentials = &visit.optimum.potentials;
        let most = visit.view.high(from);
        if at(potentials, from as usize) > most && visit.view.is_between(to, most) {
            self.add_price(0i64.saturating_sub(room), to, most)?;
        }
        let least = visit.view.low(to);
        let below = least.saturating_sub(1);
        if at(potentials, to as usize) < least && visit.view.is_between(from, below) {
            self.add_price(0i64.saturating_sub(room), from, below)?;
        }
        Ok(())
    }

    /// Adds prices of neighbours of the zones whose potentials are outside of what their prices may be.
    fn add_outside(&mut self, market: &Market, visit: &Visit) -> Result<(), AllocError> {
        let mut place = 0usize;
        for border in market.borders.as_slice() {
            let flow = at(&visit.optimum.flows, place);
            let there = i64::from(border.limit).saturating_sub(flow);
            if there > 0 {
                self.add_beyond(visit, (border.from, border.to), there)?;
            }
            let back = i64::from(border.back).saturating_add(flow);
            if back > 0 {
                self.add_beyond(visit, (border.to, border.from), back)?;
            }
            place = place.saturating_add(1);
        }
        Ok(())
    }

    /// The candidates, the best first, of each zone one price.
    fn sorted(self, alloc: Global) -> Result<Vec<Candidate>, AllocError> {
        let Found { mut list, .. } = self;
        list.sort()?;
        let mut zones = [false; MOST_ZONES];
        let mut kept = Vec::new(alloc);
        for candidate in &list {
            if candidate.is_new(&mut zones) {
                kept.push(*candidate)?;
            }
        }
        Ok(kept)
    }

    /// Adds the first free gate.
    fn add_first_free(&mut self, visit: &Visit) -> Result<(), AllocError> {
        for gate in 0..visit.runs.length {
            if visit.view.is_free(gate) {
                return self.add_gate(0, gate);
            }
        }
        Ok(())
    }
}

/// How many of some gates run.
fn count_running(runs: &Prefix, members: &[u32]) -> usize {
    let mut count = 0usize;
    for gate in members {
        if has(runs, *gate) {
            count = count.saturating_add(1);
        }
    }
    count
}

/// Whether a gate has a parent that doesn't run.
fn lacks_parent(market: &Market, runs: &Prefix, gate: u32) -> bool {
    match market.gates.as_slice().get(gate as usize) {
        Some(info) => match info.parent {
            Some(parent) => !has(runs, parent),
            None => false,
        },
        None => false,
    }
}

impl Search {
    /// How far an order's price is from its zone's potential at least, over the orders of a gate, in cents.
    fn nearness(&self, market: &Market, visit: &Visit, gate: u32) -> i64 {
        let mut near = i64::MAX;
        for place in self.places.gate(gate) {
            if let Some(order) = market.orders.as_slice().get(*place as usize) {
                near = near.min(loss(order, &visit.optimum.potentials).saturating_abs());
            }
        }
        near
    }

    /// Whether no order of a gate gains or loses.
    fn is_even(&self, market: &Market, visit: &Visit, gate: u32) -> bool {
        for place in self.places.gate(gate) {
            if let Some(order) = market.orders.as_slice().get(*place as usize) {
                if loss(order, &visit.optimum.potentials) != 0 {
                    return false;
                }
            }
        }
        true
    }

    /// The most that a gate gains within a node's bounds, in quarter-cents.
    fn gain_at(&self, market: &Market, visit: &Visit, gate: u32) -> i64 {
        let potentials = &visit.optimum.potentials;
        gain(market, &self.places, &visit.view.spans, gate, potentials)
    }

    /// Adds the first free gate in the order of the file that neither gains nor loses.
    fn add_even(
        &self,
        market: &Market,
        visit: &Visit,
        found: &mut Found,
    ) -> Result<(), AllocError> {
        for gate in 0..visit.runs.length {
            if visit.view.is_free(gate) && self.is_even(market, visit, gate) {
                return found.add_gate(0, gate);
            }
        }
        Ok(())
    }

    /// Adds the first free gate of the best word that gains nothing.
    fn add_idle(
        &self,
        market: &Market,
        visit: &Visit,
        found: &mut Found,
    ) -> Result<(), AllocError> {
        for gate in 0..self.word.length {
            let is_asked = visit.view.is_free(gate) && has(&self.word, gate);
            if is_asked && self.gain_at(market, visit, gate) == 0 {
                return found.add_gate(0, gate);
            }
        }
        Ok(())
    }

    /// Adds the first of the asked prices at which a branch may stand.
    fn add_asked(&self, visit: &Visit, found: &mut Found) -> Result<(), AllocError> {
        for asked in &self.asked {
            if visit.view.is_between(asked.zone, asked.cents) {
                return found.add_price(0, asked.zone, asked.cents);
            }
        }
        Ok(())
    }

    /// Adds the free gates that run beside others of their groups, the one first that gains most.
    fn add_rivals(
        &self,
        market: &Market,
        visit: &Visit,
        found: &mut Found,
    ) -> Result<(), AllocError> {
        for members in self.places.groups() {
            if count_running(&visit.runs, members.as_slice()) < 2 {
                continue;
            }
            for gate in members {
                if has(&visit.runs, *gate) && visit.view.is_free(*gate) {
                    let gain = self.gain_at(market, visit, *gate);
                    found.add_gate(0i64.saturating_sub(gain), *gate)?;
                }
            }
        }
        Ok(())
    }

    /// Adds the free gates that run though their parents don't, or beside others of their groups.
    fn add_unruly(
        &self,
        market: &Market,
        visit: &Visit,
        found: &mut Found,
    ) -> Result<(), AllocError> {
        self.add_rivals(market, visit, found)?;
        for gate in 0..visit.runs.length {
            let is_asked = has(&visit.runs, gate) && visit.view.is_free(gate);
            if is_asked && lacks_parent(market, &visit.runs, gate) {
                found.add_gate(0, gate)?;
            }
        }
        Ok(())
    }

    /// Adds the free gates that run, the one first that is nearest to its zone's potential.
    fn add_running(
        &self,
        market: &Market,
        visit: &Visit,
        found: &mut Found,
    ) -> Result<(), AllocError> {
        for gate in 0..visit.runs.length {
            if visit.view.is_free(gate) && has(&visit.runs, gate) {
                found.add_gate(self.nearness(market, visit, gate), gate)?;
            }
        }
        Ok(())
    }

    /// Adds what is decided where the optimum is whole: where no prices are consistent with it prices on the chain that shows
    /// it, else gates that run.
    fn add_whole(
        &self,
        alloc: Global,
        market: &Market,
        visit: &Visit,
        found: &mut Found,
    ) -> Result<(), AllocError>
        requires { IsValid market.now }
    {
        let activation = activation_of(alloc, &visit.optimum)?;
        if !is_feasible(market, &activation) {
            return Ok(());
        }
        let Some(chain) = contradiction(alloc, market, &activation)? else {
            return self.add_idle(market, visit, found);
        };
        found.add_prices(market, visit, chain.as_slice())?;
        if found.list.is_empty() {
            self.add_running(market, visit, found)?;
        }
        Ok(())
    }

    /// What may be decided at a node, the best first.
    pub(crate) fn candidates(
        &self,
        alloc: Global,
        market: &Market,
        visit: &Visit,
    ) -> Result<Vec<Candidate>, AllocError>
        requires { IsValid market.now }
    {
        let list = Vec::new(alloc);
        let gates = closed(visit.runs.length);
        let mut found = Found { list, gates };
        if visit.optimum.value == self.best {
            // Only earlier words are left.
            self.add_even(market, visit, &mut found)?;
        }
        if found.list.is_empty() {
            found.add_outside(market, visit)?;
        }
        if found.list.is_empty() {
            self.add_asked(visit, &mut found)?;
        }
        if found.list.is_empty() {
            self.add_unruly(market, visit, &mut found)?;
        }
        if found.list.is_empty() {
            found.add_partial(market, visit)?;
        }
        if found.list.is_empty() {
            self.add_whole(alloc, market, visit, &mut found)?;
        }
        if found.list.is_empty() {
            found.add_first_free(visit)?;
        }
        found.sorted(alloc)
    }
}
