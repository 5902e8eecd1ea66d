//! States as the search sees them: what they leave, their bounds and their words, and what their children decide.

ghost use Rattle.mari_market.specs.Market.{IsValid};

use crate::lists::at;
use crate::spans::Spans;
use crate::words::{closed, put};
use mari_market::{Market, Prefix};
use mari_reach::{Choice, Decision, State, are_decisions, state_of};
use std::alloc::{AllocError, Global};

/// One of the two children of a choice.
#[derive(Clone, Copy, Debug, Drop, PartialEq, Eq)]
pub(crate) enum Child {
    /// The gate is closed, or the price is at most this one.
    First,
    /// The gate is open, or the price is above this one.
    Second,
}

/// What a state leaves to gates, prices, orders and borders.
#[derive(Drop)]
pub(crate) struct View {
    /// What it leaves to gates and prices.
    pub(crate) state: State,
    /// What it leaves to orders and borders.
    pub(crate) spans: Spans,
    /// The word of the gates that it opens.
    pub(crate) word: Prefix,
}

impl View {
    /// A zone's least price, in cents per MWh.
    pub(crate) fn low(&self, zone: u32) -> i64 {
        at(&self.state.prices.low, zone as usize)
    }

    /// A zone's greatest price, in cents per MWh.
    pub(crate) fn high(&self, zone: u32) -> i64 {
        at(&self.state.prices.high, zone as usize)
    }

    /// Whether a branch may stand at a price of a zone.
    pub(crate) fn is_between(&self, zone: u32, price: i64) -> bool {
        self.low(zone) <= price && price < self.high(zone)
    }

    /// Whether a gate is free.
    pub(crate) fn is_free(&self, gate: u32) -> bool {
        self.state.is_free(gate)
    }
}

/// The word of the gates that a state opens.
fn word_of_state(market: &Market, state: &State) -> Prefix
    requires { IsValid market.now }
{
    let gates = market.gates.as_slice().len() as u32;
    let mut word = closed(gates);
    for gate in 0..gates {
        if state.opened.has(gate) {
            put(&mut word, gate, true);
        }
    }
    word
}

/// What a state leaves, where it isn't void.
pub(crate) fn view_of(
    alloc: Global,
    market: &Market,
    decisions: &[Decision],
) -> Result<Option<View>, AllocError>
    requires { IsValid market.now }
{
    if !are_decisions(market, decisions) {
        return Ok(None);
    }
    let state = state_of(market, decisions);
    if state.is_void(market) {
        return Ok(None);
    }
    let spans = Spans::of(alloc, market, &state)?;
    let word = word_of_state(market, &state);
    Ok(Some(View { state, spans, word }))
}

/// The decisions of a child.
pub(crate) fn decided(
    alloc: Global,
    decisions: &[Decision],
    choice: Choice,
    child: Child,
) -> Result<Vec<Decision>, AllocError> {
    let mut decided = Vec::from_slice(alloc, decisions)?;
    decided.push(match child {
        Child::First => choice.first(),
        Child::Second => choice.second(),
    })?;
    Ok(decided)
}
