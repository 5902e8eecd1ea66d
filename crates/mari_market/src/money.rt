//! Price times quantity.

ghost use Rattle.std.specs.Prelude.{◌≡◌, ◌≤◌, ◌^◌, ◌*◌, length, unsigned_abs, ◌*ℤ◌};
ghost use Rattle.mari_market.specs.Activation.{order_gain};
ghost use Rattle.mari_market.specs.Sums.{sum_along};

use crate::limits::MOST_ORDERS;
use crate::market::{Order, Side};
use mari_units::Cents;

/// What a quantity is worth at a price, over a quarter hour and in quarter-cents.
pub fn worth(price: Cents, mw: i64) -> i128
    ensures value { result ≡ price.0 *ℤ mw }
    ensures small { unsigned_abs result ≤ 2 ^ 63 * unsigned_abs mw }
{
    i128::from(price.0) * i128::from(mw)
}

impl Order {
    /// What a quantity of the order adds to the welfare, in quarter-cents: its worth, which an injection takes from
    /// it.
    pub fn gain(&self, mw: u32) -> i128
        ensures value { result ≡ order_gain self.now mw }
        ensures small { unsigned_abs result ≤ 2 ^ 63 * mw }
    {
        let worth = worth(self.price, i64::from(mw));
        match self.side {
            Side::Inject => -worth,
            Side::Withdraw => worth,
        }
    }
}

/// What quantities of orders, one of each, add to the welfare together, in quarter-cents.
pub fn total_gain(orders: &[Order], mw: &[u32]) -> i128
    requires few { length orders.now ≤ MOST_ORDERS }
    requires lengths { length mw.now ≡ length orders.now }
    ensures { result ≡ sum_along order_gain orders.now mw.now }
{
    let mut total = 0;
    for (i, order) in orders.iter().enumerate() {
        total += order.gain(mw[i]);
    }
    total
}
