//! The test of a market: its limits, and that each of its parts fits the others.

ghost use Rattle.std.specs.Prelude.{◌≡◌, ◌↔◌, ◌<◌, ◌≤◌, ℕ, IsTrue, Some, length, Any};
ghost use Rattle.std.specs.List.{All};
ghost use Rattle.mari_market.specs.declared.market.Order.{Order};
ghost use Rattle.mari_market.specs.Gates.{HasEarlierParent};
ghost use Rattle.mari_market.specs.Market.{IsValid, IsValidOrder, IsValidBorder, IsValidGate, GateFits};
ghost use Rattle.mari_market.specs.Price.{IsPrice};

use crate::limits::MOST_ORDERS;
use crate::market::{Border, GateInfo, Market, Order};
use crate::price_rules::is_price;
use mari_units::{MOST_BORDERS, MOST_FLOW, MOST_GATES, MOST_MW, MOST_ZONES};

/// Whether a plain order has the least quantity 0, and a gated one a gate that is there and a least of at least 1.
fn has_its_gate(order: &Order, gates: usize) -> bool
    ensures { IsTrue result ↔ GateFits gates order.now }
{
    match order.gate {
        None => order.least == 0,
        Some(gate) => (gate as usize) < gates && order.least >= 1,
    }
}

/// Whether an order is of a zone that is there, with a price, and with quantities in order and within the limit.
fn order_fits(order: &Order, zones: u32, gates: usize) -> bool
    ensures { IsTrue result ↔ IsValidOrder zones gates order.now }
{
    order.zone < zones
        && is_price(order.price)
        && order.least <= order.greatest
        && order.greatest <= MOST_MW
        && has_its_gate(order, gates)
}

/// Whether a border lies between two zones that are there, with limits within those of a run.
fn border_fits(border: &Border, zones: u32) -> bool
    ensures { IsTrue result ↔ IsValidBorder zones border.now }
{
    border.from < zones
        && border.to < zones
        && border.from != border.to
        && border.limit <= MOST_FLOW
        && border.back <= MOST_FLOW
}

/// Whether each order fits the zones and gates.
fn orders_fit(orders: &[Order], zones: u32, gates: usize) -> bool
    ensures { IsTrue result ↔ All (IsValidOrder zones gates) orders.now }
{
    orders.iter().all(|order| order_fits(order, zones, gates))
}

/// Whether each border fits the zones.
fn borders_fit(borders: &[Border], zones: u32) -> bool
    ensures { IsTrue result ↔ All (IsValidBorder zones) borders.now }
{
    borders.iter().all(|border| border_fits(border, zones))
}

/// Whether some order is of the gate.
fn is_used(gate: u32, orders: &[Order]) -> bool
    ensures { IsTrue result ↔ Any (λ (o : Order). o.gate ≡ Some gate) orders.now }
{
    orders.iter().any(|order| order.gate == Some(gate))
}

/// Whether the gate's parent, if it has one, stands before it.
fn parent_stands_before(gates: &[GateInfo], gate: usize) -> bool
    requires { gate < length gates.now }
    ensures { IsTrue result ↔ HasEarlierParent gates.now gate }
{
    match gates[gate].parent {
        None => true,
        Some(parent) => (parent as usize) < gate,
    }
}

impl Market {
    /// Whether a gate has an order, and its parent, if any, stands before it.
    fn gate_fits(&self, gate: usize) -> bool
        requires there { gate < length self.now.gates }
        requires few { length self.now.gates ≤ MOST_GATES }
        ensures { IsTrue result ↔ IsValidGate self.now gate }
    {
        parent_stands_before(self.gates.as_slice(), gate)
            && is_used(gate as u32, self.orders.as_slice())
    }

    /// Whether each gate fits.
    fn gates_fit(&self) -> bool
        requires { length self.now.gates ≤ MOST_GATES }
        ensures { IsTrue result ↔ ((g : ℕ) → g < length self.now.gates → IsValidGate self.now g) }
    {
        for gate in 0..self.gates.as_slice().len() {
            if !self.gate_fits(gate) {
                return false;
            }
        }
        true
    }

    /// Whether there are no more zones, borders, orders and gates than there may be, and a zone at least.
    fn is_within_limits(&self) -> bool
        ensures { IsTrue result ↔ ((1 ≤ self.now.zones) × (self.now.zones ≤ MOST_ZONES) × (length self.now.borders ≤ MOST_BORDERS)
            × (length self.now.orders ≤ MOST_ORDERS) × (length self.now.gates ≤ MOST_GATES)) }
    {
        self.zones >= 1
            && self.zones as usize <= MOST_ZONES
            && self.borders.as_slice().len() <= MOST_BORDERS
            && self.orders.as_slice().len() <= MOST_ORDERS
            && self.gates.as_slice().len() <= MOST_GATES
    }

    /// Whether the reference is a price, and each border and each order fits.
    fn parts_fit(&self) -> bool
        ensures { IsTrue result ↔ (IsPrice self.now.reference.0 × All (IsValidBorder self.now.zones) self.now.borders
            × All (IsValidOrder self.now.zones (length self.now.gates)) self.now.orders) }
    {
        let gates = self.gates.as_slice().len();
        is_price(self.reference)
            && borders_fit(self.borders.as_slice(), self.zones)
            && orders_fit(self.orders.as_slice(), self.zones, gates)
    }

    /// Whether the market is valid: within the limits of zones, borders, orders and gates, and each part fits the
    /// others.
    ///
    /// It takes no memory, and time of gates times orders at most.
    pub fn valid(&self) -> bool
        ensures { IsTrue result ↔ IsValid self.now }
    {
        if !self.is_within_limits() {
            return false;
        }
        self.parts_fit() && self.gates_fit()
    }
}
