//! Laws of activations that certificates rest on.

ghost use Rattle.std.specs.Prelude.{◌≡◌, ◌<◌, ◌≤ℤ◌, Bool, false, ℕ, ℤ, pos, List};
ghost use Rattle.mari_units.specs.declared.numbers.Cents.{Cents};
ghost use Rattle.mari_market.specs.declared.activation.Activation.{Activation};
ghost use Rattle.mari_market.specs.Activation.{welfare_of, gate_word_of};
ghost use Rattle.mari_market.specs.First.{IsFirst};
ghost use Rattle.mari_market.specs.Interval.{ArePublishedPrices, IsGreatestPrice, IsLeastPrice};
ghost use Rattle.mari_market.specs.Market.{IsValid};
ghost use Rattle.mari_market.specs.Price.{price_at};
ghost use Rattle.mari_market.specs.Optimal.{IsAdmissible, IsConsistent, IsOptimal};
ghost use Rattle.mari_market.specs.Prefix.{opens_in};
ghost use Rattle.mari_market.specs.Relaxation.{all_closed, IsClosedWelfare, IsRelaxedWelfare};

use mari_market::Market;

/// Two admissible activations that open the same gates have the same welfare and the same consistent prices.
///
/// The call does nothing: its contract is the law.
pub fn one_gate_word(market: &Market)
    requires { IsValid market.now }
    ensures welfare { (a b : Activation) → IsAdmissible market.now a → IsAdmissible market.now b → gate_word_of market.now a ≡ gate_word_of market.now b
        → welfare_of market.now a ≡ welfare_of market.now b }
    ensures prices { (a b : Activation) → IsAdmissible market.now a → IsAdmissible market.now b
        → gate_word_of market.now a ≡ gate_word_of market.now b → (ps : List Cents) → IsConsistent market.now a ps → IsConsistent market.now b ps }
{}

/// The first activations of a market have one gate word and one welfare, and the same consistent and published prices.
///
/// The call does nothing: its contract is the law.
pub fn one_first(market: &Market)
    // Any market that may be cleared.
    requires { IsValid market.now }

    // What runs is one in its gates and its worth.
    ensures word { (a b : Activation) → IsFirst market.now a → IsFirst market.now b → gate_word_of market.now a ≡ gate_word_of market.now b }
    ensures welfare { (a b : Activation) → IsFirst market.now a → IsFirst market.now b → welfare_of market.now a ≡ welfare_of market.now b }

    // So its prices are one too.
    ensures prices { (a b : Activation) → IsFirst market.now a → IsFirst market.now b → (ps : List Cents) → IsConsistent market.now a ps
        → IsConsistent market.now b ps }
    ensures least { (a b : Activation) → IsFirst market.now a → IsFirst market.now b → (z : ℕ) (c : ℤ) → IsLeastPrice market.now a z c
        → IsLeastPrice market.now b z c }
    ensures greatest { (a b : Activation) → IsFirst market.now a → IsFirst market.now b → (z : ℕ) (c : ℤ) → IsGreatestPrice market.now a z c
        → IsGreatestPrice market.now b z c }
    ensures published { (a b : Activation) → IsFirst market.now a → IsFirst market.now b → (ps qs : List Cents)
        → ArePublishedPrices market.now a ps → ArePublishedPrices market.now b qs → (z : ℕ) → z < market.now.zones → price_at ps z ≡ price_at qs z }
{}

/// Where every gate closed has the optimal welfare, that gate word is the first: an optimal activation which opens no
/// gate is a first one, and then no first activation opens a gate.
///
/// The call does nothing: its contract is the law.
pub fn closed_first(market: &Market)
    requires { IsValid market.now }
    ensures first { (a : Activation) → IsOptimal market.now a → gate_word_of market.now a ≡ all_closed market.now → IsFirst market.now a }
    ensures none_open { (a b : Activation) → IsFirst market.now a → IsAdmissible market.now b → gate_word_of market.now b ≡ all_closed market.now
        → welfare_of market.now b ≡ welfare_of market.now a → gate_word_of market.now a ≡ all_closed market.now }
{}

/// What welfare isn't negative, and that the closed welfare is one number.
///
/// A relaxed welfare may be negative only where a gate is open, since nothing has to run where none is. An admissible
/// welfare never is. The call does nothing: its contract is the law.
pub fn closed_welfare_is_one(market: &Market)
    requires { IsValid market.now }

    // The closed welfare.
    ensures one { (v w : ℤ) → IsClosedWelfare market.now v → IsClosedWelfare market.now w → v ≡ w }
    ensures closed { (w : ℤ) → IsClosedWelfare market.now w → pos 0 ≤ℤ w }

    // A relaxed welfare where no gate is open, and the welfare of an admissible activation.
    ensures relaxed { (word : List Bool) (w : ℤ) → ((g : ℕ) → opens_in word g ≡ false) → IsRelaxedWelfare market.now word w → pos 0 ≤ℤ w }
    ensures admissible { (a : Activation) → IsAdmissible market.now a → pos 0 ≤ℤ welfare_of market.now a }
{}
