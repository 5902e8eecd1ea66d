//! The welfare of an activation.

ghost use Rattle.std.specs.Prelude.{◌≡◌, length};
ghost use Rattle.mari_market.specs.Activation.{welfare_of};
ghost use Rattle.mari_market.specs.Market.{IsValid};

use mari_market::{Activation, Market, total_gain};
use mari_units::Quarters;

/// The welfare of an activation, in quarter-cents: price times quantity over withdrawals, less the same over
/// injections.
///
/// The activation has one quantity for each order. Its flows add nothing, so there may be any number of them.
pub fn welfare(market: &Market, activation: &Activation) -> Quarters
    requires valid { IsValid market.now }
    requires lengths { length activation.now.mw ≡ length market.now.orders }
    ensures { result.0 ≡ welfare_of market.now activation.now }
{
    Quarters(total_gain(market.orders.as_slice(), activation.mw.as_slice()))
}
