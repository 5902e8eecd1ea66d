//! What the orders of each gate gain at most, by the tables of a state and potentials.

ghost use Rattle.std.specs.Prelude.{◌≡◌, ◌==◌, if◌then◌else◌, ℕ, ℤ, pos, ◌*◌, ◌+ℤ◌, ◌-ℤ◌, ◌≤ℤ◌, neg_ℤ, ◌≤◌, ◌<◌, length};
ghost use Rattle.std.specs.List.{All};
ghost use Rattle.mari_market.specs.Market.{IsValid, IsValidOrder};
ghost use Rattle.mari_market.specs.Price.{ArePrices, IsCapped};
ghost use Rattle.mari_market.specs.Sums.{int_at, int_sum};
ghost use Rattle.mari_reach.specs.Leaf.{best_of_gate, gain_of};
ghost use Rattle.mari_reach.specs.Tables.{span_in};

use crate::dual::best_order;
use crate::states::State;
use mari_market::{MOST_ORDERS, MOST_WORTH, Market, Order, Prices};
use mari_units::{Cents, MOST_GATES, MOST_ZONES};

/// What the orders of each gate gain at most, in quarter-cents.
#[derive(Drop)]
pub(crate) struct Gains {
    by_gate: [i64; MOST_GATES],
}

impl Gains {
    /// Nothing.
    fn none() -> Gains
        ensures { (g : ℕ) → int_at result.by_gate g ≡ pos 0 }
    {
        Gains {
            by_gate: [0; MOST_GATES],
        }
    }

    /// Adds what an order of a gate gains.
    fn add(&mut self, gate: u32, gain: i64)
        requires gate { gate < MOST_GATES }
        requires low { neg_ℤ (pos (MOST_ORDERS * MOST_WORTH)) ≤ℤ int_at self.old.by_gate gate }
        requires high { int_at self.old.by_gate gate ≤ℤ pos (MOST_ORDERS * MOST_WORTH) }
        requires least { neg_ℤ (pos MOST_WORTH) ≤ℤ gain }
        requires most { gain ≤ℤ pos MOST_WORTH }
        ensures { (g : ℕ) → int_at self.new.by_gate g ≡ (int_at self.old.by_gate g +ℤ (if gate == g then gain else pos 0)) }
    {
        self.by_gate[gate as usize] += gain;
    }

    /// Adds what an order gains, if it is of a gate.
    fn add_order(&mut self, order: &Order, state: &State, potentials: &[Cents])
        requires order { IsValidOrder (length potentials.now) MOST_GATES order.now }
        requires few { length potentials.now ≤ MOST_ZONES }
        requires potentials { All IsCapped potentials.now }
        requires low { (g : ℕ) → neg_ℤ (pos (MOST_ORDERS * MOST_WORTH)) ≤ℤ int_at self.old.by_gate g }
        requires high { (g : ℕ) → int_at self.old.by_gate g ≤ℤ pos (MOST_ORDERS * MOST_WORTH) }
        ensures added { (g : ℕ) → int_at self.new.by_gate g ≡ (int_at self.old.by_gate g +ℤ best_of_gate g (span_in state.now) potentials.now order.now) }
        ensures low { (g : ℕ) → (int_at self.old.by_gate g -ℤ pos MOST_WORTH) ≤ℤ int_at self.new.by_gate g }
        ensures high { (g : ℕ) → int_at self.new.by_gate g ≤ℤ (int_at self.old.by_gate g +ℤ pos MOST_WORTH) }
    {
        if let Some(gate) = order.gate {
            self.add(gate, best_order(order, state, potentials));
        }
    }

    /// What these orders gain.
    fn of_orders(orders: &[Order], state: &State, potentials: &[Cents]) -> Gains
        requires few { length orders.now ≤ MOST_ORDERS }
        requires few_zones { length potentials.now ≤ MOST_ZONES }
        requires orders { All (IsValidOrder (length potentials.now) MOST_GATES) orders.now }
        requires potentials { All IsCapped potentials.now }
        ensures { (g : ℕ) → int_at result.by_gate g ≡ int_sum (best_of_gate g (span_in state.now) potentials.now) orders.now }
    {
        let mut gains = Gains::none();
        for order in orders {
            gains.add_order(order, state, potentials);
        }
        gains
    }

    /// What the orders of a market gain.
    pub(crate) fn of(market: &Market, state: &State, potentials: &Prices) -> Gains
        requires market { IsValid market.now }
        requires potentials { ArePrices market.now potentials.now.cents }
        ensures { (g : ℕ) → int_at result.by_gate g ≡ gain_of (span_in state.now) market.now potentials.now.cents g }
    {
        Gains::of_orders(market.orders.as_slice(), state, potentials.cents.as_slice())
    }

    /// What the orders of a gate gain.
    pub(crate) fn at(&self, gate: u32) -> i64
        requires { gate < MOST_GATES }
        ensures { result ≡ int_at self.now.by_gate gate }
    {
        self.by_gate[gate as usize]
    }
}
