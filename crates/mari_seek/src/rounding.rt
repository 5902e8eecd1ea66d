//! Rounding: gates that lose are closed until what is left has consistent prices.

ghost use Rattle.mari_market.specs.Market.{IsValid};

use crate::gains::{gain, loss};
use crate::lists::at;
use crate::search::{Search, Visit, activation_of};
use crate::solver::{Optimum, Solved, solve};
use crate::spans::Spans;
use crate::words::{has, put};
use mari_gates::prefix_feasible;
use mari_market::{Market, Prefix};
use mari_prices::contradiction;
use mari_units::MOST_GATES;
use mari_welfare::is_feasible;
use std::alloc::{AllocError, Global};

/// The parent of a gate.
fn parent_of(market: &Market, gate: u32) -> Option<u32> {
    match market.gates.as_slice().get(gate as usize) {
        Some(info) => info.parent,
        None => None,
    }
}

/// Closes the gates that run below their least, but for those that are decided as open.
fn close_partial(market: &Market, decided: &Prefix, amounts: &[i64], word: &mut Prefix) {
    let mut place = 0usize;
    for order in market.orders.as_slice() {
        if let Some(gate) = order.gate {
            if at(amounts, place).unsigned_abs() < u64::from(order.least) && !has(decided, gate) {
                put(word, gate, false);
            }
        }
        place = place.saturating_add(1);
    }
}

/// Opens the parents of open gates.
fn open_parents(market: &Market, word: &mut Prefix) {
    for back in 0..word.length {
        let gate = word.length.saturating_sub(back).saturating_sub(1);
        if has(word, gate) {
            if let Some(parent) = parent_of(market, gate) {
                put(word, parent, true);
            }
        }
    }
}

/// Closes the gates whose parents are closed.
fn close_children(market: &Market, word: &mut Prefix) {
    for gate in 0..word.length {
        if let Some(parent) = parent_of(market, gate) {
            if !has(word, parent) {
                put(word, gate, false);
            }
        }
    }
}

/// The open gate that loses most.
fn worst_of(market: &Market, optimum: &Optimum, word: &Prefix) -> Option<u32> {
    let mut worst = None;
    let mut most = 0i64;
    for order in market.orders.as_slice() {
        if let Some(gate) = order.gate {
            let loss = loss(order, &optimum.potentials);
            if has(word, gate) && loss > most {
                most = loss;
                worst = Some(gate);
            }
        }
    }
    worst
}

/// What the repair of a word comes to.
#[derive(Clone, Copy, Debug, Drop, PartialEq, Eq)]
enum Repair {
    /// A gate is to be closed.
    Close(u32),
    /// An activation of the word has this welfare, in quarter-cents, and consistent prices.
    Offer(i64),
    /// Nothing better comes of it.
    Leave,
}

impl Search {
    /// Of a group only the gate that gains most stays open, of equal ones the first.
    fn keep_one(&self, market: &Market, visit: &Visit, members: &[u32], word: &mut Prefix) {
        let (spans, potentials) = (&visit.view.spans, &visit.optimum.potentials);
        let mut kept: Option<(u32, i64)> = None;
        for gate in members {
            let gate = *gate;
            if !has(word, gate) {
                continue;
            }
            let own = gain(market, &self.places, spans, gate, potentials);
            match kept {
                Some((_, most)) if own <= most => put(word, gate, false),
                Some((other, _)) => {
                    put(word, other, false);
                    kept = Some((gate, own));
                }
                None => kept = Some((gate, own)),
            }
        }
    }

    /// Of each group only the gate that gains most stays open.
    fn keep_one_a_group(&self, market: &Market, visit: &Visit, word: &mut Prefix) {
        for members in self.places.groups() {
            self.keep_one(market, visit, members.as_slice(), word);
        }
    }

    /// What is to be done with a word.
    fn repair_of(&self, alloc: Global, market: &Market, word: &Prefix) -> Result<Repair, AllocError>
        requires { IsValid market.now }
    {
        if !prefix_feasible(market, word) {
            return Ok(Repair::Leave);
        }
        let spans = Spans::of_word(alloc, market, word)?;
        let Solved::Optimum(optimum) = solve(alloc, market, &self.places, &spans, &self.root)?
        else {
            return Ok(Repair::Leave);
        };
        if optimum.value < self.best {
            return Ok(Repair::Leave);
        }
        let activation = activation_of(alloc, &optimum)?;
        if !is_feasible(market, &activation) {
            return Ok(Repair::Leave);
        }
        if contradiction(alloc, market, &activation)?.is_none() {
            return Ok(Repair::Offer(optimum.value));
        }
        match worst_of(market, &optimum, word) {
            Some(gate) => Ok(Repair::Close(gate)),
            None => Ok(Repair::Leave),
        }
    }

    /// Closes gates of a word that lose until what is left has consistent prices.
    fn repair(&mut self, alloc: Global, market: &Market, mut word: Prefix) -> Result<(), AllocError>
        requires { IsValid market.now }
    {
        for _ in 0..MOST_GATES {
            close_children(market, &mut word);
            match self.repair_of(alloc, market, &word)? {
                Repair::Close(gate) => put(&mut word, gate, false),
                Repair::Offer(value) => {
                    self.offer(value, word);
                    return Ok(());
                }
                Repair::Leave => return Ok(()),
            }
        }
        Ok(())
    }

    /// Rounds an optimum, once without the gates that run in part and once with them.
    pub(crate) fn round(
        &mut self,
        alloc: Global,
        market: &Market,
        visit: &Visit,
    ) -> Result<(), AllocError>
        requires { IsValid market.now }
    {
        let mut down = visit.runs;
        close_partial(market, &visit.view.word, &visit.optimum.amounts, &mut down);
        self.keep_one_a_group(market, visit, &mut down);
        self.repair(alloc, market, down)?;
        let mut up = visit.runs;
        self.keep_one_a_group(market, visit, &mut up);
        open_parents(market, &mut up);
        self.repair(alloc, market, up)
    }
}
