//! What a quantity is worth at a potential.

ghost use Rattle.std.specs.Prelude.{◌≡◌, ℤ, pos, ◌*ℤ◌, ◌≤ℤ◌, neg_ℤ, ◌≤◌, ◌<◌, length};
ghost use Rattle.std.specs.List.{All};
ghost use Rattle.mari_market.specs.Dual.{gain_per_mw};
ghost use Rattle.mari_market.specs.Price.{IsCapped, IsPrice, price_at};

use mari_market::{MOST_GAP, MOST_WORTH, Order, Side};
use mari_units::{Cents, MOST_FLOW};

/// A zone's potential.
pub(crate) fn potential_at(potentials: &[Cents], zone: u32) -> Cents
    requires zone { zone < length potentials.now }
    requires potentials { All IsCapped potentials.now }
    ensures value { result.0 ≡ price_at potentials.now zone }
    ensures price { IsPrice result.0 }
{
    potentials[zone as usize]
}

/// How much an order gains for each MW at a potential.
pub(crate) fn gap(order: &Order, potential: Cents) -> i64
    requires order { IsPrice order.now.price.0 }
    requires potential { IsPrice potential.0 }
    ensures gap { result ≡ gain_per_mw order.now.side order.now.price.0 potential.0 }
    ensures low { neg_ℤ (pos MOST_GAP) ≤ℤ result }
    ensures high { result ≤ℤ pos MOST_GAP }
{
    match order.side {
        Side::Inject => potential.0 - order.price.0,
        Side::Withdraw => order.price.0 - potential.0,
    }
}

/// What a quantity in MW gains, in quarter-cents, at a gain for each MW.
pub(crate) fn amount(gap: i64, mw: u32) -> i64
    requires low { neg_ℤ (pos MOST_GAP) ≤ℤ gap }
    requires high { gap ≤ℤ pos MOST_GAP }
    requires mw { mw ≤ MOST_FLOW }
    ensures value { result ≡ gap *ℤ pos mw }
    ensures low { neg_ℤ (pos MOST_WORTH) ≤ℤ result }
    ensures high { result ≤ℤ pos MOST_WORTH }
{
    gap * i64::from(mw)
}
