//! The test of one certificate.

ghost use Rattle.std.specs.Prelude.{◌≡◌, ◌↔◌, ℤ, ◌≤ℤ◌, IsTrue, IfSome, take};
ghost use Rattle.mari_market.specs.declared.activation.Activation.{Activation};
ghost use Rattle.mari_market.specs.Activation.{welfare_of, gate_word_of};
ghost use Rattle.mari_market.specs.Dual.{dual_value_of};
ghost use Rattle.mari_market.specs.Market.{IsValid};
ghost use Rattle.mari_market.specs.Optimal.{IsAdmissible};
ghost use Rattle.mari_market.specs.Prefix.{bounds_at, word_of, IsFeasiblePrefix};
ghost use Rattle.mari_market.specs.Price.{ArePrices};
ghost use Rattle.mari_market.specs.Tree.{IsBound, LeafHolds, LeafHoldsFor};
ghost use Rattle.mari_proofs.specs.Leaves.{ExcludesWord, cutoff_below};
ghost use Rattle.mari_proofs.specs.Tables.{IsTableOf};

use crate::conflicts::is_conflict;
use crate::cuts::is_cut;
use crate::dual::dual_value;
use crate::table::{DualTable, dual_value_by};
use mari_gates::comes_before;
use mari_market::{Leaf, Market, Prefix, Prices};
use mari_units::Quarters;

/// Whether a value is at most the cutoff, or below it where that is asked for.
fn is_within(value: Quarters, cutoff: Quarters, below: bool) -> bool
    ensures { IsTrue result ↔ value.0 ≤ℤ cutoff_below below cutoff.0 }
{
    if below {
        value.0 < cutoff.0
    } else {
        value.0 <= cutoff.0
    }
}

/// The dual value of potentials at a prefix, by a table of the market where there is one.
fn value_at(
    market: &Market,
    table: Option<&DualTable>,
    prefix: &Prefix,
    potentials: &Prices,
) -> Quarters
    requires market { IsValid market.now }
    requires table { IfSome table (λ t. IsTableOf market.now t.now) }
    requires prefix { IsFeasiblePrefix market.now prefix.now }
    requires potentials { ArePrices market.now potentials.now.cents }
    ensures { result.0 ≡ dual_value_of (bounds_at market.now prefix.now) market.now potentials.now.cents }
{
    match table {
        None => dual_value(market, prefix, potentials),
        Some(table) => dual_value_by(market, table, prefix, potentials),
    }
}

/// Whether potentials bound a prefix at a cutoff, or below it.
fn is_bound(
    market: &Market,
    table: Option<&DualTable>,
    prefix: &Prefix,
    potentials: &Prices,
    cutoff: Quarters,
    below: bool,
) -> bool
    requires market { IsValid market.now }
    requires table { IfSome table (λ t. IsTableOf market.now t.now) }
    requires prefix { IsFeasiblePrefix market.now prefix.now }
    ensures { IsTrue result ↔ IsBound market.now (cutoff_below below cutoff.0) (word_of prefix.now) potentials.now.cents }
{
    market.are_prices(potentials.cents.as_slice())
        && is_within(value_at(market, table, prefix, potentials), cutoff, below)
}

/// Whether a certificate holds at a prefix and a cutoff, or at the cutoff less 1, which may be no number of the type.
fn holds_at(
    market: &Market,
    table: Option<&DualTable>,
    prefix: &Prefix,
    leaf: &Leaf,
    cutoff: Quarters,
    below: bool,
) -> bool
    requires market { IsValid market.now }
    requires table { IfSome table (λ t. IsTableOf market.now t.now) }
    requires prefix { IsFeasiblePrefix market.now prefix.now }
    ensures { IsTrue result ↔ LeafHolds market.now (cutoff_below below cutoff.0) (word_of prefix.now) leaf.now }
{
    match leaf {
        Leaf::Bound(potentials) => is_bound(market, table, prefix, potentials, cutoff, below),
        Leaf::Cut(cut) => is_cut(market, prefix, cut),
        Leaf::Conflict(conflict) => is_conflict(market, prefix, conflict),
    }
}

/// Whether a certificate holds at a prefix and a cutoff, in quarter-cents.
///
/// The certificate may have any lengths and any numbers: where they don't fit the market, it doesn't hold. One that
/// holds leaves no admissible activation below the prefix whose welfare is above the cutoff, and a conflict that holds
/// leaves none of the prefix's gate word.
pub fn check_leaf(market: &Market, prefix: &Prefix, leaf: &Leaf, cutoff: Quarters) -> bool
    requires market { IsValid market.now }
    requires prefix { IsFeasiblePrefix market.now prefix.now }
    ensures holds { IsTrue result ↔ LeafHolds market.now cutoff.0 (word_of prefix.now) leaf.now }

    // No admissible activation whose gates begin as the prefix says is better than the cutoff.
    ensures bounds { IsTrue result → (a : Activation) → IsAdmissible market.now a → take prefix.now.length (gate_word_of market.now a) ≡ word_of prefix.now
        → welfare_of market.now a ≤ℤ cutoff.0 }
    ensures excludes { IsTrue result → ExcludesWord market.now (word_of prefix.now) leaf.now }
    ensures rises { IsTrue result → (w : ℤ) → cutoff.0 ≤ℤ w → LeafHolds market.now w (word_of prefix.now) leaf.now }
{
    holds_at(market, None, prefix, leaf, cutoff, false)
}

/// Whether a certificate holds at a prefix and a cutoff, as `check_leaf` says, by a table of the market.
pub fn check_leaf_by(
    market: &Market,
    table: &DualTable,
    prefix: &Prefix,
    leaf: &Leaf,
    cutoff: Quarters,
) -> bool
    requires market { IsValid market.now }
    requires table { IsTableOf market.now table.now }
    requires prefix { IsFeasiblePrefix market.now prefix.now }
    ensures { IsTrue result ↔ LeafHolds market.now cutoff.0 (word_of prefix.now) leaf.now }
{
    holds_at(market, Some(table), prefix, leaf, cutoff, false)
}

/// Whether a certificate holds at a prefix and a cutoff for a gate word: where the prefix is early for it, it is to
/// hold even at the cutoff less 1.
pub(crate) fn check_leaf_for(
    market: &Market,
    table: Option<&DualTable>,
    prefix: &Prefix,
    leaf: &Leaf,
    cutoff: Quarters,
    word: &Prefix,
) -> bool
    requires market { IsValid market.now }
    requires table { IfSome table (λ t. IsTableOf market.now t.now) }
    requires prefix { IsFeasiblePrefix market.now prefix.now }
    requires word { IsFeasiblePrefix market.now word.now }
    ensures { IsTrue result ↔ LeafHoldsFor market.now cutoff.0 (word_of word.now) (word_of prefix.now) leaf.now }
{
    if comes_before(prefix, word) {
        holds_at(market, table, prefix, leaf, cutoff, true)
    } else {
        holds_at(market, table, prefix, leaf, cutoff, false)
    }
}
