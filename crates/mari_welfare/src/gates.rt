//! Which gates an activation opens, and whether they keep the rules.

ghost use Rattle.std.specs.Prelude.{◌≡◌, ◌||◌, ◌<◌, ◌≤◌, ℕ, false, length, IsTrue, ◌↔◌};
ghost use Rattle.mari_market.specs.Activation.{HasLengths, is_open, is_run_of};
ghost use Rattle.mari_market.specs.Gates.{KeepsGateRules, group_of as group_of_gate, parent_of as parent_of_gate};
ghost use Rattle.mari_market.specs.Market.{IsValid};
ghost use Rattle.mari_welfare.specs.Gates.{HasOpenParent, IsAlone, IsAloneIn, IsRival, IsOfFewGates, KeepsRulesAt};
ghost use Rattle.mari_market.specs.Prefix.{opens_in};

use mari_market::{Activation, GateInfo, Market, Order};
use mari_units::MOST_GATES;
use std::marker::Model;

/// The gates that an activation opens, as a table of them that is made once. Contracts see, for each gate that there
/// may be, whether it is open.
#[derive(Drop)]
pub struct OpenGates {
    opened: [bool; MOST_GATES],
}

impl Model for OpenGates {
    ghost use Rattle.std.specs.Prelude.{Bool, List};

    ghost Value = { List Bool };

    ghost view = { λ t. t.opened };
}

impl OpenGates {
    /// Every gate closed.
    pub fn none() -> OpenGates
        ensures { (g : ℕ) → opens_in result g ≡ false }
    {
        OpenGates {
            opened: [false; MOST_GATES],
        }
    }

    /// Opens the gate of an order that runs, if it has one.
    pub fn mark(&mut self, order: &Order, mw: u32)
        requires { IsOfFewGates order.now }
        ensures { (g : ℕ) → opens_in self.new g ≡ (opens_in self.old g || is_run_of g order.now mw) }
    {
        if let Some(gate) = order.gate
            && mw > 0
        {
            self.opened[gate as usize] = true;
        }
    }

    /// The gates of a market that an activation opens. Where the market has none, no order is looked at.
    pub(crate) fn of(market: &Market, activation: &Activation) -> OpenGates
        requires market { IsValid market.now }
        requires lengths { HasLengths market.now activation.now }
        ensures { opens_in result ≡ is_open market.now activation.now }
    {
        let mut opened = OpenGates::none();
        if market.gates.as_slice().is_empty() {
            return opened;
        }
        let mw = activation.mw.as_slice();
        for (i, order) in market.orders.as_slice().iter().enumerate() {
            opened.mark(order, mw[i]);
        }
        opened
    }

    /// Whether a gate is open. One beyond those that there may be isn't.
    pub fn has(&self, gate: u32) -> bool
        ensures { result ≡ opens_in self.now gate }
    {
        (gate as usize) < MOST_GATES && self.opened[gate as usize]
    }
}

/// Whether the parent, if there is one, is open.
fn has_open_parent(opened: &OpenGates, parent: Option<u32>) -> bool
    ensures { IsTrue result ↔ HasOpenParent (opens_in opened.now) parent }
{
    match parent {
        Some(parent) => opened.has(parent),
        None => true,
    }
}

/// The gate's group, if it has one.
fn group_of(gates: &[GateInfo], gate: usize) -> Option<u32>
    requires { gate < length gates.now }
    ensures { result ≡ group_of_gate gates.now gate }
{
    gates[gate].group
}

/// The gate's parent, if it has one.
fn parent_of(gates: &[GateInfo], gate: usize) -> Option<u32>
    requires { gate < length gates.now }
    ensures { result ≡ parent_of_gate gates.now gate }
{
    gates[gate].parent
}

/// Whether another gate of the group is open.
fn is_rival(gates: &[GateInfo], opened: &OpenGates, place: usize, group: u32, other: usize) -> bool
    requires few { length gates.now ≤ MOST_GATES }
    requires there { other < length gates.now }
    ensures { IsTrue result ↔ IsRival gates.now (opens_in opened.now) place group other }
{
    place != other && group_of(gates, other) == Some(group) && opened.has(other as u32)
}

/// Whether no other gate of the group is open.
fn is_alone_in(gates: &[GateInfo], opened: &OpenGates, place: usize, group: u32) -> bool
    requires few { length gates.now ≤ MOST_GATES }
    ensures { IsTrue result ↔ IsAloneIn gates.now (opens_in opened.now) place group }
{
    for other in 0..gates.len() {
        if is_rival(gates, opened, place, group, other) {
            return false;
        }
    }
    true
}

/// Whether no other gate of the gate's group is open.
fn is_alone(gates: &[GateInfo], opened: &OpenGates, place: usize) -> bool
    requires few { length gates.now ≤ MOST_GATES }
    requires there { place < length gates.now }
    ensures { IsTrue result ↔ IsAlone gates.now (opens_in opened.now) place (group_of_gate gates.now place) }
{
    match group_of(gates, place) {
        Some(group) => is_alone_in(gates, opened, place, group),
        None => true,
    }
}

/// Whether a gate is closed, or has an open parent, if it has one, and is the only open gate of its group.
fn keeps_rules_at(gates: &[GateInfo], opened: &OpenGates, place: usize) -> bool
    requires few { length gates.now ≤ MOST_GATES }
    requires there { place < length gates.now }
    ensures { IsTrue result ↔ KeepsRulesAt gates.now (opens_in opened.now) place }
{
    !opened.has(place as u32)
        || (has_open_parent(opened, parent_of(gates, place)) && is_alone(gates, opened, place))
}

/// Whether the open gates keep the rules of parents and groups.
pub(crate) fn keep_gate_rules(gates: &[GateInfo], opened: &OpenGates) -> bool
    requires few { length gates.now ≤ MOST_GATES }
    ensures { IsTrue result ↔ KeepsGateRules gates.now (opens_in opened.now) }
{
    for place in 0..gates.len() {
        if !keeps_rules_at(gates, opened, place) {
            return false;
        }
    }
    true
}
