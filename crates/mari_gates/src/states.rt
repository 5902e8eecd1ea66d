//! What a prefix says of each gate: open, closed, or free to be either.

ghost use Rattle.std.specs.Prelude.{◌≡◌, ◌<◌, ◌≤◌, length, IfSome};
ghost use Rattle.mari_market.specs.declared.market.Order.{Order};
ghost use Rattle.mari_market.specs.Bounds.{span_in, gated_span};
ghost use Rattle.mari_market.specs.Market.{IsValid, GateFits};
ghost use Rattle.mari_market.specs.Prefix.{word_of, undecided, decided, state_of, bounds_at, below_parent, IsFeasiblePrefix};
ghost use Rattle.mari_market.specs.Gates.{ParentsEarlier};
ghost use Rattle.mari_gates.specs.GateTable.{state_in, meaning_of, AreStatesBelow};

use crate::prefixes::{is_group_taken, opens};
use mari_market::{GateInfo, Market, Order, Prefix};
use mari_units::MOST_GATES;
use std::marker::Model;

/// What is known of a gate at a prefix.
#[derive(Clone, Copy, Debug, Drop, PartialEq, Eq)]
pub enum GateState {
    /// It is open.
    Open,
    /// It is closed.
    Closed,
    /// It may still be either.
    Free,
}

/// The state of each gate at a prefix.
#[derive(Drop)]
pub struct GateStates {
    states: [GateState; MOST_GATES],
}

impl Model for GateStates {
    ghost use Rattle.std.specs.Prelude.{List};
    ghost use Rattle.mari_gates.specs.declared.states.GateState.{GateState};

    ghost Value = { List GateState };

    ghost view = { λ s. s.states };
}

/// What a parent leaves to its child: closed below a closed parent, and else free.
fn state_below(states: &[GateState; MOST_GATES], parent: Option<u32>) -> GateState
    requires { IfSome parent (λ h. h < MOST_GATES) }
    ensures { meaning_of result ≡ below_parent (state_in states.now) parent }
{
    match parent {
        None => GateState::Free,
        Some(parent) => match states[parent as usize] {
            GateState::Closed => GateState::Closed,
            GateState::Open | GateState::Free => GateState::Free,
        },
    }
}

/// The state of a gate that the prefix doesn't decide: closed where an open gate shares its group, and else what its
/// parent leaves to it.
fn implied_state(
    gates: &[GateInfo],
    prefix: &Prefix,
    states: &[GateState; MOST_GATES],
    gate: u32,
) -> GateState
    requires few { length gates.now ≤ MOST_GATES }
    requires gate { gate < length gates.now }
    requires decided { prefix.now.length ≤ gate }
    requires earlier { ParentsEarlier gates.now }
    ensures { meaning_of result ≡ undecided gates.now (word_of prefix.now) (state_in states.now) gate }
{
    let info = gates[gate as usize];
    if is_group_taken(gates, prefix, prefix.length, info.group) {
        GateState::Closed
    } else {
        state_below(states, info.parent)
    }
}

/// The state of a gate, given those of the gates before it.
fn next_state(
    gates: &[GateInfo],
    prefix: &Prefix,
    states: &[GateState; MOST_GATES],
    gate: u32,
) -> GateState
    requires few { length gates.now ≤ MOST_GATES }
    requires gate { gate < length gates.now }
    requires earlier { ParentsEarlier gates.now }
    requires before { AreStatesBelow gates.now (word_of prefix.now) states.now gate }
    ensures { meaning_of result ≡ state_of gates.now (word_of prefix.now) gate }
{
    if gate >= prefix.length {
        implied_state(gates, prefix, states, gate)
    } else if opens(prefix, gate) {
        GateState::Open
    } else {
        GateState::Closed
    }
}

/// The state of each gate at a prefix.
///
/// A parent stands before its child, so each gate is looked at once; beside that the open gates are compared with the
/// undecided ones that are in a group, which are at most 256 times 256 comparisons.
pub fn states_at(market: &Market, prefix: &Prefix) -> GateStates
    requires market { IsValid market.now }
    requires prefix { IsFeasiblePrefix market.now prefix.now }
    ensures states { AreStatesBelow market.now.gates (word_of prefix.now) result (length market.now.gates) }
    ensures bounds { (o : Order) → GateFits (length market.now.gates) o → span_in (state_in result) o ≡ bounds_at market.now prefix.now o }
{
    let gates = market.gates.as_slice();
    let mut states = [GateState::Free; MOST_GATES];
    for gate in 0..gates.len() as u32 {
        states[gate as usize] = next_state(gates, prefix, &states, gate);
    }
    GateStates { states }
}

impl GateStates {
    /// The state of a gate.
    fn state(&self, gate: u32) -> GateState
        requires { gate < MOST_GATES }
        ensures { meaning_of result ≡ state_in self.now gate }
    {
        self.states[gate as usize]
    }

    /// The least and the greatest that an order may run, in MW, where its gate is as the table has it.
    pub fn span(&self, order: &Order) -> (u32, u32)
        requires { IfSome order.now.gate (λ g. g < MOST_GATES) }
        ensures least { result.0 ≡ (span_in (state_in self.now) order.now).lo }
        ensures greatest { result.1 ≡ (span_in (state_in self.now) order.now).hi }
    {
        match order.gate {
            None => (0, order.greatest),
            Some(gate) => gated_span(self.state(gate), order),
        }
    }
}

/// The least and the greatest of an order of a gate in this state.
fn gated_span(state: GateState, order: &Order) -> (u32, u32)
    ensures least { result.0 ≡ (gated_span (meaning_of state) order.now).lo }
    ensures greatest { result.1 ≡ (gated_span (meaning_of state) order.now).hi }
{
    match state {
        GateState::Open => (order.least, order.greatest),
        GateState::Closed => (0, 0),
        GateState::Free => (0, order.greatest),
    }
}
