//! The test of one leaf.

ghost use Rattle.std.specs.Prelude.{◌≡◌, ◌↔◌, ◌||◌, ◌<◌, ℤ, pos, ◌-ℤ◌, ◌≤ℤ◌, List, length, IfSome, IsTrue};
ghost use lib.Signed.{lt_z};
ghost use Rattle.std.specs.List.{All};
ghost use Rattle.mari_units.specs.declared.numbers.Cents.{Cents};
ghost use Rattle.mari_market.specs.declared.activation.Activation.{Activation};
ghost use Rattle.mari_market.specs.Activation.{gate_word_of, welfare_of};
ghost use Rattle.mari_market.specs.First.{ComesBefore};
ghost use Rattle.mari_market.specs.Market.{IsValid};
ghost use Rattle.mari_market.specs.Prefix.{opens_in, word_of};
ghost use Rattle.mari_market.specs.Price.{ArePrices, IsCapped};
ghost use Rattle.mari_market.specs.Sums.{int_at};
ghost use Rattle.mari_reach.specs.Leaf.{ReachLeafHolds};
ghost use Rattle.mari_reach.specs.State.{AreDecisions, IsReached};
ghost use Rattle.mari_reach.specs.Tables.{IsStateOf, IsSurveyOf};
ghost use Rattle.mari_reach.specs.Values.{ReachLeafHoldsBy, IsBoundBy, dual_in, needed_in};

use crate::cuts::is_cut;
use crate::decisions::{Decision, ReachLeaf};
use crate::dual::{total_by, total_value};
use crate::gains::Gains;
use crate::states::{State, state_of};
use crate::survey::Survey;
use mari_gates::opens;
use mari_market::{Market, Prefix, Prices};
use mari_units::{Cents, MOST_GATES, Quarters};

/// Whether a gate is open in the state, or gains.
fn is_needed(state: &State, gains: &Gains, gate: u32) -> bool
    requires { gate < MOST_GATES }
    ensures { result ≡ (opens_in state.now.opened gate || lt_z (pos 0) (int_at gains.now.by_gate gate)) }
{
    state.opened.has(gate) || gains.at(gate) > 0
}

/// Whether the word of the gates that are needed comes before a gate word: at the first gate that differs it is closed.
fn is_early(market: &Market, state: &State, potentials: &Prices, word: &Prefix) -> bool
    requires market { IsValid market.now }
    requires potentials { ArePrices market.now potentials.now.cents }
    requires full { word.now.length ≡ length market.now.gates }
    ensures { IsTrue result ↔ ComesBefore (needed_in market.now state.now potentials.now.cents) (word_of word.now) }
{
    let gains = Gains::of(market, state, potentials);
    for gate in 0..word.length {
        let needed = is_needed(state, &gains, gate);
        if needed != opens(word, gate) {
            return !needed;
        }
    }
    false
}

/// Whether a value is below the cutoff.
fn is_below(value: i64, cutoff: Quarters) -> bool
    ensures { IsTrue result ↔ value ≤ℤ (cutoff.0 -ℤ pos 1) }
{
    i128::from(value) < cutoff.0
}

/// Whether a value is the cutoff.
fn is_equal(value: i64, cutoff: Quarters) -> bool
    ensures { IsTrue result ↔ value ≡ cutoff.0 }
{
    i128::from(value) == cutoff.0
}

/// The dual value of a state, by the ladders of the market's survey if it has some.
fn survey_value(market: &Market, survey: &Survey, state: &State, potentials: &[Cents]) -> i64
    requires market { IsValid market.now }
    requires survey { IsSurveyOf market.now survey.now }
    requires one_each { length potentials.now ≡ market.now.zones }
    requires potentials { All IsCapped potentials.now }
    ensures { result ≡ dual_in market.now state.now potentials.now }
{
    match &survey.ladders {
        None => total_value(market, state, potentials),
        Some(ladders) => total_by(market, survey.gated.as_slice(), ladders, state, potentials),
    }
}

/// The dual value of a state, by the survey of the market if there is one.
fn value_of(market: &Market, survey: Option<&Survey>, state: &State, potentials: &[Cents]) -> i64
    requires market { IsValid market.now }
    requires survey { IfSome survey (λ s. IsSurveyOf market.now s.now) }
    requires one_each { length potentials.now ≡ market.now.zones }
    requires potentials { All IsCapped potentials.now }
    ensures { result ≡ dual_in market.now state.now potentials.now }
{
    match survey {
        None => total_value(market, state, potentials),
        Some(survey) => survey_value(market, survey, state, potentials),
    }
}

/// Whether potentials within the cap bound the state at the cutoff for a gate word.
fn is_bound_at(
    market: &Market,
    survey: Option<&Survey>,
    state: &State,
    potentials: &Prices,
    cutoff: Quarters,
    word: &Prefix,
) -> bool
    requires market { IsValid market.now }
    requires survey { IfSome survey (λ s. IsSurveyOf market.now s.now) }
    requires potentials { ArePrices market.now potentials.now.cents }
    requires full { word.now.length ≡ length market.now.gates }
    ensures { IsTrue result ↔ IsBoundBy market.now cutoff.0 (word_of word.now) state.now potentials.now.cents }
{
    let value = value_of(market, survey, state, potentials.cents.as_slice());
    if is_below(value, cutoff) {
        return true;
    }
    if !is_equal(value, cutoff) {
        return false;
    }
    !is_early(market, state, potentials, word)
}

/// Whether potentials bound the state at the cutoff for a gate word.
fn is_bound(
    market: &Market,
    survey: Option<&Survey>,
    state: &State,
    potentials: &Prices,
    cutoff: Quarters,
    word: &Prefix,
) -> bool
    requires market { IsValid market.now }
    requires survey { IfSome survey (λ s. IsSurveyOf market.now s.now) }
    requires full { word.now.length ≡ length market.now.gates }
    ensures { IsTrue result ↔ IsBoundBy market.now cutoff.0 (word_of word.now) state.now potentials.now.cents }
{
    market.are_prices(potentials.cents.as_slice())
        && is_bound_at(market, survey, state, potentials, cutoff, word)
}

/// Whether a leaf holds by the tables of a state.
fn holds_by(
    market: &Market,
    survey: Option<&Survey>,
    state: &State,
    leaf: &ReachLeaf,
    cutoff: Quarters,
    word: &Prefix,
) -> bool
    requires market { IsValid market.now }
    requires survey { IfSome survey (λ s. IsSurveyOf market.now s.now) }
    requires full { word.now.length ≡ length market.now.gates }
    ensures { IsTrue result ↔ ReachLeafHoldsBy market.now cutoff.0 (word_of word.now) state.now leaf.now }
{
    let is_void = state.is_void(market);
    match leaf {
        ReachLeaf::Void => is_void,
        ReachLeaf::Bound(potentials) => {
            !is_void && is_bound(market, survey, state, potentials, cutoff, word)
        }
        ReachLeaf::Cut(cut) => !is_void && is_cut(market, survey, state, cut),
    }
}

/// Whether a leaf holds for a state, by its tables, at a cutoff in quarter-cents for a gate word.
pub(crate) fn check_leaf_by(
    market: &Market,
    survey: Option<&Survey>,
    decisions: &[Decision],
    state: &State,
    leaf: &ReachLeaf,
    cutoff: Quarters,
    word: &Prefix,
) -> bool
    requires market { IsValid market.now }
    requires survey { IfSome survey (λ s. IsSurveyOf market.now s.now) }
    requires state { IsStateOf market.now decisions.now state.now }
    requires full { word.now.length ≡ length market.now.gates }
    ensures { IsTrue result ↔ ReachLeafHolds market.now cutoff.0 (word_of word.now) decisions.now leaf.now }
{
    holds_by(market, survey, state, leaf, cutoff, word)
}

/// Whether a leaf holds for the state of these decisions, at a cutoff in quarter-cents for a gate word.
///
/// The decisions are of gates and zones that are there, and the word decides every gate. The leaf may have any lengths and any
/// numbers: where they don't fit the market, it doesn't hold.
pub fn check_leaf(
    market: &Market,
    decisions: &[Decision],
    leaf: &ReachLeaf,
    cutoff: Quarters,
    word: &Prefix,
) -> bool
    requires market { IsValid market.now }
    requires decisions { AreDecisions market.now decisions.now }
    requires full { word.now.length ≡ length market.now.gates }
    ensures holds { IsTrue result ↔ ReachLeafHolds market.now cutoff.0 (word_of word.now) decisions.now leaf.now }

    // No activation that the state reaches is better than the cutoff; and one whose gate word comes before the word is
    // worse.
    ensures bounds { IsTrue result → (a : Activation) (ps : List Cents) → IsReached market.now decisions.now a ps → welfare_of market.now a ≤ℤ cutoff.0 }
    ensures earlier { IsTrue result → (a : Activation) (ps : List Cents) → IsReached market.now decisions.now a ps
        → ComesBefore (gate_word_of market.now a) (word_of word.now) → welfare_of market.now a ≤ℤ (cutoff.0 -ℤ pos 1) }
{
    let state = state_of(market, decisions);
    check_leaf_by(market, None, decisions, &state, leaf, cutoff, word)
}
