//! What a raised limit brings at most, by prices.

ghost use Rattle.std.specs.Prelude.{◌≡◌, ◌<◌, ◌≤◌, ◌^◌, ℕ, pos, ◌+ℤ◌, ◌-ℤ◌, ◌*ℤ◌, ◌≤ℤ◌, length, unsigned_abs};
ghost use Rattle.std.specs.Int.{int_max};
ghost use Rattle.mari_market.specs.Activation.{gate_word_of, welfare_of};
ghost use Rattle.mari_market.specs.Market.{IsValid};
ghost use Rattle.mari_market.specs.Optimal.{IsConsistent, IsFeasible};
ghost use Rattle.mari_market.specs.Price.{price_at};
ghost use Rattle.mari_market.specs.Relaxation.{IsWithinBounds};
ghost use Rattle.mari_market.specs.Prefix.{bounds_of_word};
ghost use Rattle.mari_market.specs.declared.activation.Activation.{Activation as TheActivation};
ghost use Rattle.mari_market.specs.declared.market.Market.{Market as TheMarket};
ghost use Rattle.mari_network.specs.Network.{border_at};
ghost use Rattle.mari_capacity.specs.Raised.{raised_market};
ghost use Rattle.mari_capacity.specs.Rise.{rise_of};

use mari_market::{Border, Prices};
use mari_units::{Cents, Quarters};

/// The price at one zone less that at another, in cents per MWh.
fn price_gap(prices: &[Cents], near: u32, far: u32) -> i128
    requires near { near < length prices.now }
    requires far { far < length prices.now }
    ensures value { result ≡ price_at prices.now far -ℤ price_at prices.now near }
    ensures small { unsigned_abs result ≤ 2 ^ 65 }
{
    i128::from(prices[far as usize].0) - i128::from(prices[near as usize].0)
}

/// What `more` MW earn at a difference of prices, and nothing where that is negative, in quarter-cents.
fn earned(gap: i128, more: u32) -> i128
    requires { unsigned_abs gap ≤ 2 ^ 65 }
    ensures { result ≡ pos more *ℤ int_max (pos 0) gap }
{
    i128::from(more) * gap.max(0)
}

/// The most that one limit of a border raised by `more` MW brings at these prices, in quarter-cents: for each MW the
/// price at the far end less the price at the near end, and nothing where that is negative. Forth the near end is the
/// border's first zone, and back its second.
///
/// Where the prices are consistent with an activation of a market, nothing of its gate word is worth more in the market
/// with that limit raised than the activation and this rise.
pub fn rise(prices: &Prices, border: &Border, forth: bool, more: u32) -> Quarters
    requires from { border.now.from < length prices.now.cents }
    requires to { border.now.to < length prices.now.cents }
    ensures value { result.0 ≡ rise_of prices.now.cents border.now forth more }
    ensures at_least_0 { pos 0 ≤ℤ result.0 }

    // Whatever lies within the gate word's bounds in the raised market, consistent or not, is worth no more.
    ensures bounds { (m : TheMarket) (a b : TheActivation) (k : ℕ) → IsValid m → k < length m.borders → border_at m.borders k ≡ border.now → IsFeasible m a
        → IsConsistent m a prices.now.cents
        → IsWithinBounds (bounds_of_word m (gate_word_of m a)) (raised_market m (record { border = k; forth = forth; more = more })) b
        → welfare_of m b ≤ℤ (welfare_of m a +ℤ result.0) }
{
    let (near, far) = if forth {
        (border.from, border.to)
    } else {
        (border.to, border.from)
    };
    let gap = price_gap(prices.cents.as_slice(), near, far);
    Quarters(earned(gap, more))
}
