//! Decisions of gates and prices, and the items of a tree below them.

ghost use Rattle.std.specs.Prelude.{◌≡◌, ◌↔◌, IsTrue};
ghost use Rattle.mari_market.specs.Price.{IsPrice};
ghost use Rattle.mari_reach.specs.Places.{second_after};
ghost use Rattle.mari_reach.specs.State.{first_of, second_of, AreDecisions, IsDecision};

use mari_market::{Cut, Market, Prices};
use mari_units::{CAP, Cents};

/// A decision: of a gate, or of what the price of a zone may be.
#[derive(Clone, Copy, Debug, Drop, PartialEq, Eq)]
pub enum Decision {
    /// The gate of this number is open, or else closed.
    Gate(u32, bool),
    /// The price of the zone of this number is at most this one.
    AtMost(u32, Cents),
    /// The price of the zone of this number is above this one, by a cent at least.
    Above(u32, Cents),
}

/// What a branch decides.
#[derive(Clone, Copy, Debug, Drop, PartialEq, Eq)]
pub enum Choice {
    /// Whether the gate of this number is closed or open.
    OfGate(u32),
    /// Whether the price of the zone of this number is at most this one or above it.
    OfPrice(u32, Cents),
}

impl Choice {
    /// What its first child decides: the gate is closed, or the price is at most this one.
    pub fn first(self) -> Decision
        ensures { result ≡ first_of self }
    {
        match self {
            Choice::OfGate(gate) => Decision::Gate(gate, false),
            Choice::OfPrice(zone, price) => Decision::AtMost(zone, price),
        }
    }

    /// What its second child decides: the gate is open, or the price is above this one.
    pub fn second(self) -> Decision
        ensures { result ≡ second_of self }
    {
        match self {
            Choice::OfGate(gate) => Decision::Gate(gate, true),
            Choice::OfPrice(zone, price) => Decision::Above(zone, price),
        }
    }
}

impl Decision {
    /// What the second child decides where this is the decision of a first child.
    pub(crate) fn second(self) -> Option<Decision>
        ensures { result ≡ second_after self }
    {
        match self {
            Decision::Gate(gate, false) => Some(Decision::Gate(gate, true)),
            Decision::AtMost(zone, price) => Some(Decision::Above(zone, price)),
            Decision::Gate(_, true) | Decision::Above(_, _) => None,
        }
    }
}

/// Whether a price is within the cap.
fn is_price(price: Cents) -> bool
    ensures { IsTrue result ↔ IsPrice price.0 }
{
    -CAP <= price.0 && price.0 <= CAP
}

/// Whether a decision is of a gate that is there, or of a price within the cap in a zone that is there.
fn is_decision(market: &Market, decision: &Decision) -> bool
    ensures { IsTrue result ↔ IsDecision market.now decision.now }
{
    match *decision {
        Decision::Gate(gate, _) => (gate as usize) < market.gates.as_slice().len(),
        Decision::AtMost(zone, price) => zone < market.zones && is_price(price),
        Decision::Above(zone, price) => zone < market.zones && is_price(price),
    }
}

/// Whether decisions are of gates and zones that are there, and of prices within the cap.
pub fn are_decisions(market: &Market, decisions: &[Decision]) -> bool
    ensures { IsTrue result ↔ AreDecisions market.now decisions.now }
{
    decisions
        .iter()
        .all(|decision| is_decision(market, decision))
}

/// Why nothing better lies below a state.
#[derive(Clone, Drop)]
pub enum ReachLeaf {
    /// The decisions contradict each other.
    Void,
    /// Potentials whose dual value is low enough.
    Bound(Prices),
    /// Zones that no activation can balance.
    Cut(Cut),
}

/// An item of a tree of states in preorder: after a branch stand the parts of its children, the first one's first.
#[derive(Clone, Drop)]
pub enum ReachItem {
    /// A choice is made: the parts of the children follow.
    Branch(Choice),
    /// Nothing better lies below this state.
    Leaf(ReachLeaf),
}
