//! The bound of the state without decisions.

ghost use Rattle.std.specs.Prelude.{◌≡◌, ◌∷◌, [], ℤ, pos, neg_ℤ, ◌≤ℤ◌};
ghost use Rattle.mari_market.specs.Market.{IsValid};
ghost use Rattle.mari_market.specs.Price.{ArePrices};
ghost use Rattle.mari_market.specs.Relaxation.{all_closed};
ghost use Rattle.mari_reach.specs.Leaf.{dual_of};
ghost use Rattle.mari_reach.specs.Tree.{ReachHolds};

use crate::decisions::{ReachItem, ReachLeaf};
use crate::dual::{MOST_VALUE, total_value};
use crate::states::state_of;
use mari_market::{Market, Prices};
use mari_units::Quarters;

/// A number of quarter-cents.
fn quarters(number: i64) -> Quarters
    ensures { result.0 ≡ number }
{
    Quarters(i128::from(number))
}

/// The dual value of potentials where nothing is decided, in quarter-cents: one leaf of them is a tree that holds there.
pub fn root_value(market: &Market, potentials: &Prices) -> Quarters
    requires market { IsValid market.now }
    requires potentials { ArePrices market.now potentials.now.cents }
    ensures value { result.0 ≡ dual_of market.now [] potentials.now.cents }
    ensures low { neg_ℤ (pos MOST_VALUE) ≤ℤ result.0 }
    ensures high { result.0 ≤ℤ pos MOST_VALUE }
    ensures holds { ReachHolds market.now result.0 (all_closed market.now) (ReachItem.Leaf (ReachLeaf.Bound potentials.now) ∷ []) }
{
    let state = state_of(market, &[]);
    quarters(total_value(market, &state, potentials.cents.as_slice()))
}
