//! What each order runs at the marginal price.

ghost use Rattle.std.specs.Prelude.{◌≡◌, ◌≤◌, IfOk};
ghost use Rattle.mari_merit.specs.Merit.{met_by, left_after, run_by, quantities_at};

use mari_market::{Order, Side};
use mari_units::{Cents, Memory};
use std::alloc::Global;

/// The marginal price, and how many MW are left to be met by the orders at that price.
#[derive(Clone, Copy)]
struct Marginal {
    price: i64,
    left: u64,
}

impl Marginal {
    /// What an order meets of the need: all that it can below the marginal price, nothing above it, and at it what is
    /// left.
    fn meet(&mut self, order: &Order) -> u32
        ensures met { result ≡ met_by self.old.price self.old.left order.now }
        ensures within { result ≤ order.now.greatest }
        ensures left { self.new.left ≡ left_after self.old.price self.old.left order.now }
        ensures price { self.new.price ≡ self.old.price }
    {
        if order.price.0 < self.price {
            return order.greatest;
        }
        if order.price.0 > self.price {
            return 0;
        }
        let met = u64::from(order.greatest).min(self.left);
        self.left -= met;
        met as u32
    }
}

/// What an order runs of which `met` MW are met: an injection runs them, a withdrawal runs that much less.
fn run(order: &Order, met: u32) -> u32
    requires { met ≤ order.now.greatest }
    ensures { result ≡ run_by order.now.side order.now.greatest met }
{
    match order.side {
        Side::Inject => met,
        Side::Withdraw => order.greatest - met,
    }
}

/// What each order runs, where `left` MW are left to be met by the orders at the price.
pub fn quantities(
    alloc: Global,
    orders: &[Order],
    price: Cents,
    left: u64,
) -> Result<Vec<u32>, Memory>
    ensures { IfOk result (λ mw. mw.items ≡ quantities_at price.0 left orders.now) }
{
    let mut marginal = Marginal {
        price: price.0,
        left,
    };
    let mut mw = Vec::with_capacity(alloc, orders.len())?;
    for order in orders {
        let met = marginal.meet(order);
        mw.push(run(order, met))?;
    }
    Ok(mw)
}
